//! What is known of every draft.
ghost use Rattle.std.specs.Prelude.{◌≡◌, ◌<◌, ℕ, List, length};
ghost use Rattle.pssm_model.specs.declared.draft_setting.Draft.{Draft};
ghost use Rattle.pssm_model.specs.declared.draft_setting.ElementRef.{ElementRef};
ghost use Rattle.pssm_model.specs.DraftSettings.{IsInRange};
ghost use Rattle.pssm_heritage.specs.declared.kinds.ElementKind.{ElementKind};
ghost use Rattle.pssm_heritage.specs.declared.fault.RedefFault.{RedefFault};
ghost use Rattle.pssm_heritage.specs.Chains.{IsChain};
ghost use Rattle.pssm_heritage.specs.Becoming.{Became};
ghost use Rattle.pssm_heritage.specs.Faults.{IsCycleFault};
ghost use Rattle.pssm_heritage.specs.Heritages.{Lineage, IsLineage};

/// A machine has one chain of machines or one fault of a circle, and not both.
pub fn one_chain()
    ensures chain { (draft : Draft) (m : ℕ) (c d : List ℕ)
        → IsChain draft m c → IsChain draft m d → c ≡ d }
    ensures apart { (draft : Draft) (m : ℕ) (c : List ℕ) (f : RedefFault)
        → IsChain draft m c → IsCycleFault draft m f → ⊥ }
    ensures fault { (draft : Draft) (m : ℕ) (f g : RedefFault)
        → IsCycleFault draft m f → IsCycleFault draft m g → f ≡ g }
{}

/// An element has become one.
pub fn one_form()
    ensures { (draft : Draft) (kind : ElementKind) (e o p : ElementRef)
        → Became draft kind e o → Became draft kind e p → o ≡ p }
{}

/// What a machine inherits is known, or it has the fault of a circle.
pub fn some_lineage()
    ensures { (draft : Draft) (m : ℕ) → IsInRange draft → m < length draft.machines
        → ((lineage : Lineage) → IsLineage draft m lineage → ⊥) → ((f : RedefFault) → IsCycleFault draft m f → ⊥) → ⊥ }
{}
