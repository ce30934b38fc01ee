//! What is known of the bodies of every flat draft.
ghost use Rattle.std.specs.Prelude.{ℕ};
ghost use Rattle.pssm_model.specs.declared.draft_setting.Draft.{Draft};
ghost use Rattle.pssm_model.specs.declared.draft_setting.FlatDraft.{FlatDraft};
ghost use Rattle.pssm_redefine.specs.Flattening.{Flattens};
ghost use Rattle.pssm_bodies.specs.Slots.{HasEachOnce};

/// In the flat draft of a class each body but the empty one stands once in the machine.
pub(crate) fn each_once()
    ensures { (draft : Draft) (class : ℕ) (flat : FlatDraft) → Flattens draft class flat → HasEachOnce flat }
{}
