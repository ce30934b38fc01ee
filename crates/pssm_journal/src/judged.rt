//! A law of judgements: bytes are judged in one way.
ghost use Rattle.std.specs.Prelude.{◌≡◌, ℕ, List};
ghost use Rattle.pssm_semantics.specs.declared.setting.Setting.{Setting};
ghost use Rattle.pssm_journal.specs.Judged.{Judged, IsJudged};

/// At most one thing is to be said of the bytes of a journal: that its entries break no rule, which entry breaks
/// which rule first, at which entry it passes the limits, or that they are no text of a journal.
#[tactic(auto, using(crate::proofs::Judgements::judged_once))]
pub fn one_judgement()
    ensures { (setting : Setting) (bytes : List ℕ) (a b : Judged) → IsJudged setting bytes a → IsJudged setting bytes b → a ≡ b }
{}
