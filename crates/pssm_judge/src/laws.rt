//! A law of judgements: there is one for all bytes.
ghost use Rattle.std.specs.Prelude.{ℕ, List};
ghost use Rattle.pssm_semantics.specs.declared.setting.Setting.{Setting};
ghost use Rattle.pssm_journal.specs.Judged.{Judged, IsJudged};

/// Something is to be said of any bytes as a journal of any setting: there are none of which
/// nothing is (what is said is this profile's choice). That it is one thing is `one_judgement` of
/// `pssm_journal`.
#[tactic(auto, using(crate::proofs::EveryJournal::something_said))]
pub fn some_judgement()
    ensures { (setting : Setting) (bytes : List ℕ) → ((judged : Judged) → IsJudged setting bytes judged → ⊥) → ⊥ }
{}
