//! What is known of every draft.
ghost use Rattle.std.specs.Prelude.{◌≡◌, ◌<◌, ℕ, length};
ghost use Rattle.pssm_model.specs.declared.draft_setting.Draft.{Draft};
ghost use Rattle.pssm_model.specs.declared.draft_setting.FlatDraft.{FlatDraft};
ghost use Rattle.pssm_model.specs.DraftSettings.{IsInRange};
ghost use Rattle.pssm_heritage.specs.declared.fault.RedefFault.{RedefFault};
ghost use Rattle.pssm_redefine.specs.Flattening.{Flattens, IsFaultOfClass};

/// A class has a flat draft or a fault, and not both; and it has one fault.
pub fn flat_or_fault()
    ensures apart { (draft : Draft) (class : ℕ) (flat : FlatDraft) (fault : RedefFault)
        → Flattens draft class flat → IsFaultOfClass draft class fault → ⊥ }
    ensures fault { (draft : Draft) (class : ℕ) (f g : RedefFault)
        → IsFaultOfClass draft class f → IsFaultOfClass draft class g → f ≡ g }
{}

/// A class has one flat draft.
pub fn one_flat()
    ensures { (draft : Draft) (class : ℕ) (f g : FlatDraft) → Flattens draft class f → Flattens draft class g → f ≡ g }
{}

/// A class of a draft in range has a flat draft, or a fault.
pub fn some_flat()
    ensures { (draft : Draft) (class : ℕ) → IsInRange draft → class < length draft.classes
        → ((flat : FlatDraft) → Flattens draft class flat → ⊥)
        → ((fault : RedefFault) → IsFaultOfClass draft class fault → ⊥) → ⊥ }
{}
