//! What is known of the bytes of every model.
ghost use Rattle.std.specs.Prelude.{◌≡◌, ◌≤◌, ℕ, List, [], length};
ghost use Rattle.pssm_semantics.specs.declared.setting.Setting.{Setting};
ghost use Rattle.pssm_flat.specs.Text.{flat_text};
ghost use Rattle.pssm_load.specs.declared.fault.ClassFault.{ClassFault};
ghost use Rattle.pssm_load.specs.declared.fault.LoadFault.{LoadFault};
ghost use Rattle.pssm_load.specs.Loads.{BeginsFlat, Reads, ReadsSetting, IsLoadFault};
ghost use Rattle.pssm_load.specs.ReadBack.{FlatOrShort, IsFlatTextOf, IsLoadedAs};

use pssm_flat::one_reading;
use pssm_named::named_draft;
use pssm_numbering::one_notion_of_variable;
use pssm_roles::one_role;
use pssm_settings::{one_setting, some_setting};
use pssm_xmi::{one_answer, some_answer};

/// Bytes have at most one setting and at most one fault, and not both.
pub fn one_load()
    ensures setting { (bytes : List ℕ) (a b : Setting) → Reads bytes a → Reads bytes b → a ≡ b }
    ensures apart { (bytes : List ℕ) (setting : Setting) (fault : LoadFault) → ReadsSetting bytes setting []
        → IsLoadFault bytes fault → ⊥ }
    ensures fault { (bytes : List ℕ) (f g : LoadFault) → IsLoadFault bytes f → IsLoadFault bytes g → f ≡ g }
{
    one_reading();
    one_answer();
    one_setting();
}

/// Bytes have a setting, with the rules that its machines break, or a fault: it cannot be that they have neither.
pub fn some_load()
    ensures { (bytes : List ℕ) → length bytes ≤ 16777216
        → ((setting : Setting) (list : List ClassFault) → ReadsSetting bytes setting list → ⊥)
        → ((fault : LoadFault) → IsLoadFault bytes fault → ⊥) → ⊥ }
{
    one_role();
    some_answer();
    some_setting();
}

/// What `write_flat` writes of a setting that was loaded is read as this setting again: by `read_flat` and by `load`,
/// which answer it and nothing else, unless memory runs out.
///
/// A setting of a model file has to spell its behaviours and guards within the limits of the action language: the one
/// spelling of a behaviour can be longer than the text in the file. What is of the flat form is its own flat text, so
/// that nothing is asked of it. Both calls ask for at most 16,777,216 bytes.
pub fn flat_reads_back()
    ensures read { (bytes : List ℕ) (setting : Setting)
        → ReadsSetting bytes setting [] → FlatOrShort bytes setting → IsFlatTextOf (flat_text setting) setting }
    ensures loaded { (bytes : List ℕ) (setting : Setting)
        → ReadsSetting bytes setting [] → FlatOrShort bytes setting → IsLoadedAs (flat_text setting) setting }
    ensures unchanged { (bytes : List ℕ) (setting : Setting) (list : List ClassFault)
        → BeginsFlat bytes → ReadsSetting bytes setting list → bytes ≡ flat_text setting }
{
    one_role();
    named_draft();
    one_notion_of_variable();
    one_reading();
    one_load();
}
