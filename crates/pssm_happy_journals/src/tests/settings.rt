//! The setting of a model's text.
ghost use Rattle.std.specs.Prelude.{◌≤◌, length, IfOk};
ghost use Rattle.pssm_semantics.specs.Proper.{IsWellFormed};

use pssm_load::load;
use pssm_semantics::Setting;
use std::alloc::Global;
use std::test::Fail;

pub fn setting_of(alloc: Global, text: &[u8]) -> Result<Setting, Fail>
    requires { length text.now ≤ 16777216 }
    ensures { IfOk result IsWellFormed }
{
    match load(alloc, text) {
        Ok(setting) => Ok(setting),
        Err(_) => Err("the model is refused".into()),
    }
}
