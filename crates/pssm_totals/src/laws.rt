//! What is known of every total.
ghost use Rattle.std.specs.Prelude.{◌≡◌, ◌≤◌, ◌<◌, ◌↔◌, ℕ, List, Option, length, slice_index_or};
ghost use Rattle.pssm_model.specs.declared.draft_setting.Draft.{Draft};
ghost use Rattle.pssm_model.specs.declared.draft_setting.DraftParts.{DraftParts};
ghost use Rattle.pssm_model.specs.DraftSettings.{IsFew, most_elements};
ghost use Rattle.pssm_totals.specs.Totals.{extends_of, counts_of, ExtendWithin};
ghost use Rattle.pssm_totals.specs.Totals.{IsTotal, AreFew, AreTotals};

/// A machine has one total, which tells whether it keeps the limit.
pub fn few_by_total()
    ensures one { (extends : List (Option ℕ)) (own : List ℕ) (m total other : ℕ)
        → IsTotal extends own m total → IsTotal extends own m other → total ≡ other }
    ensures few { (extends : List (Option ℕ)) (own : List ℕ) (m total : ℕ)
        → IsTotal extends own m total → ((total ≤ most_elements) ↔ AreFew extends own m) }
    ensures draft { (draft : Draft) (count : DraftParts → ℕ) (m : ℕ)
        → ExtendWithin (extends_of draft) → m < length draft.machines
        → (AreFew (extends_of draft) (counts_of count draft) m ↔ IsFew draft count m) }
    ensures totals { (draft : Draft) (count : DraftParts → ℕ) (totals : List ℕ) (m : ℕ)
        → ExtendWithin (extends_of draft)
        → AreTotals (extends_of draft) (counts_of count draft) totals → m < length draft.machines
        → ((slice_index_or totals m 0 ≤ most_elements) ↔ IsFew draft count m) }
{}
