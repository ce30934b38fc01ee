//! Which types of this crate are compared exactly.
use crate::args::Args;
use crate::entry::{Entry, Out};
use crate::setting::{Class, Setting};
use crate::stimulus::Stimulus;
use crate::tree::{Act, Cond};
use pssm_model::Same;

impl Same for Args {
    ghost use Rattle.pssm_semantics.specs.Equal.{args_same};

    ghost only_equal = { args_same };
}

impl Same for Out {
    ghost use Rattle.pssm_semantics.specs.Equal.{out_same};

    ghost only_equal = { out_same };
}

impl Same for Entry {
    ghost use Rattle.pssm_semantics.specs.Equal.{entry_same};

    ghost only_equal = { entry_same };
}

impl Same for Stimulus {
    ghost use Rattle.pssm_semantics.specs.Equal.{stimulus_same};

    ghost only_equal = { stimulus_same };
}

impl Same for Act {
    ghost use Rattle.pssm_semantics.specs.Equal.{act_same};

    ghost only_equal = { act_same };
}

impl Same for Cond {
    ghost use Rattle.pssm_semantics.specs.Equal.{cond_same};

    ghost only_equal = { cond_same };
}

impl Same for Class {
    ghost use Rattle.pssm_semantics.specs.Equal.{class_same};

    ghost only_equal = { class_same };
}

impl Same for Setting {
    ghost use Rattle.pssm_semantics.specs.Equal.{setting_same};

    ghost only_equal = { setting_same };
}
