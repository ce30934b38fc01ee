//! What is known of every flat draft.
ghost use Rattle.std.specs.Prelude.{◌≡◌, ◌≤◌, ℕ, ◌-◌, length, List};
ghost use Rattle.pssm_model.specs.declared.elements.DraftMachine.{DraftMachine};
ghost use Rattle.pssm_model.specs.declared.draft_setting.FlatDraft.{FlatDraft};
ghost use Rattle.pssm_semantics.specs.declared.setting.Names.{Names};
ghost use Rattle.pssm_semantics.specs.declared.setting.Program.{Program};
ghost use Rattle.pssm_acts.specs.declared.act_fault.ActFault.{ActFault};
ghost use Rattle.pssm_bodies.specs.Faults.{IsBodyFault};
ghost use Rattle.pssm_bodies.specs.Slots.{HasEachOnce};
ghost use Rattle.pssm_bodies.specs.Programs.{IsProgrammed};

/// A flat draft has at most one machine with one program, and at most one body with the first fault, and not both.
pub fn one_outcome()
    ensures program { (names : Names) (flat : FlatDraft) (m n : DraftMachine) (p q : Program)
        → IsProgrammed names flat m p → IsProgrammed names flat n q → (m ≡ n) × (p ≡ q) }
    ensures fault { (names : Names) (flat : FlatDraft) (n k : ℕ) (f g : ActFault)
        → IsBodyFault names flat n f → IsBodyFault names flat k g → (n ≡ k) × (f ≡ g) }
    ensures apart { (names : Names) (flat : FlatDraft) (m : DraftMachine) (p : Program) (n : ℕ) (f : ActFault)
        → HasEachOnce flat → IsProgrammed names flat m p → IsBodyFault names flat n f → ⊥ }
{}

/// A flat draft that has each body once has a machine with a program, or a body with a fault.
pub fn some_outcome()
    ensures { (names : Names) (flat : FlatDraft)
        → length names.vars ≤ 64 → length names.objects ≤ 64 → length names.signals ≤ 256
        → length flat.bodies ≤ 65536 → HasEachOnce flat
        → ((m : DraftMachine) (p : Program) → IsProgrammed names flat m p → ⊥)
        → ((n : ℕ) (f : ActFault) → IsBodyFault names flat n f → ⊥) → ⊥ }
{}
