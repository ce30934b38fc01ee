//! What is known of every draft.
ghost use Rattle.std.specs.Prelude.{◌≡◌, ℕ, List};
ghost use Rattle.pssm_model.specs.declared.draft_setting.Draft.{Draft};
ghost use Rattle.pssm_model.specs.declared.draft_setting.ElementRef.{ElementRef};
ghost use Rattle.pssm_heritage.specs.declared.kinds.ElementKind.{ElementKind};
ghost use Rattle.pssm_heritage.specs.declared.kinds.RedefRule.{RedefRule};
ghost use Rattle.pssm_heritage.specs.declared.fault.RedefFault.{RedefFault};
ghost use Rattle.pssm_heritage.specs.Chains.{IsChain};
ghost use Rattle.pssm_breaches.specs.Rules.{Breaks, BreaksNothing};
ghost use Rattle.pssm_breaches.specs.Faults.{IsFirstBreach, IsRedefFault};

/// An element breaks one rule before all others, and of the elements of a machine one is the first that breaks a rule.
pub fn one_breach()
    ensures rule { (draft : Draft) (m : ℕ) (kind : ElementKind) (e : ElementRef) (r s : RedefRule)
        → Breaks draft m kind e r → Breaks draft m kind e s → r ≡ s }
    ensures first { (draft : Draft) (m : ℕ) (k j : ElementKind) (e d : ElementRef) (r s : RedefRule)
        → IsFirstBreach draft m k e r → IsFirstBreach draft m j d s → (k ≡ j) × (e ≡ d) × (r ≡ s) }
{}

/// A machine has one fault.
pub fn one_fault()
    ensures { (draft : Draft) (m : ℕ) (f g : RedefFault) → IsRedefFault draft m f → IsRedefFault draft m g → f ≡ g }
{}

/// A machine that does not extend itself keeps all rules, or it has a fault.
pub fn some_fault()
    ensures { (draft : Draft) (m : ℕ) (machines : List ℕ) → IsChain draft m machines → (BreaksNothing draft m → ⊥)
        → ((f : RedefFault) → IsRedefFault draft m f → ⊥) → ⊥ }
{}
