//! A law of answers: something is always owed.
ghost use Rattle.std.specs.Prelude.{List, ℕ};
ghost use Rattle.pssm_base.specs.Reading.{Contents, told};
ghost use Rattle.pssm_semantics.specs.declared.setting.Setting.{Setting};
ghost use Rattle.pssm_semantics.specs.declared.stimulus.Stimulus.{Stimulus};
ghost use Rattle.pssm_tool.specs.declared.answer.Answer.{Answer};
ghost use Rattle.pssm_tool.specs.Due.{IsOwed, IsRunOwed, IsTold};

use pssm_load::some_load;
use pssm_suite::generated_texts;

/// Where it is told what the files hold that words name, something is owed: an answer, or a run
/// (what is owed is this profile's choice). So one of the clauses `exactly` and `runs` of
/// [`crate::pssm`] speaks of each such call.
pub fn always_due()
    ensures { (words : List (List ℕ)) (contents : Contents) → IsTold words contents
        → ((answer : Answer) → IsOwed words (told contents) answer → ⊥)
        → ((setting : Setting) (stimuli : List Stimulus) → IsRunOwed words (told contents) setting stimuli → ⊥) → ⊥ }
{
    some_load();
    generated_texts();
}
