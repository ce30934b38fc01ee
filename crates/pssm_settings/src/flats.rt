//! What is known of the counts, names and signals of every flat draft.
ghost use Rattle.std.specs.Prelude.{◌≤◌, ℕ, length, map};
ghost use Rattle.std.specs.List.{AllByRecursion};
ghost use Rattle.pssm_model.specs.declared.draft_setting.Draft.{Draft};
ghost use Rattle.pssm_model.specs.declared.draft_setting.DraftVar.{DraftVar};
ghost use Rattle.pssm_model.specs.declared.draft_setting.FlatDraft.{FlatDraft};
ghost use Rattle.pssm_model.specs.declared.elements.Transition.{Transition};
ghost use Rattle.pssm_model.specs.declared.elements.Vertex.{Vertex};
ghost use Rattle.pssm_model.specs.DraftSettings.{AreSignals, IsInRange};
ghost use Rattle.pssm_redefine.specs.Flattening.{Flattens};
ghost use Rattle.pssm_settings.specs.Names.{AreDistinctNames, HasNames};

/// The flat draft of a class of a draft in range has few bodies and few variables.
pub(crate) fn few_in_flat()
    ensures bodies { (draft : Draft) (class : ℕ) (flat : FlatDraft)
        → IsInRange draft → Flattens draft class flat → length flat.bodies ≤ 65536 }
    ensures vars { (draft : Draft) (class : ℕ) (flat : FlatDraft)
        → IsInRange draft → Flattens draft class flat → length flat.vars ≤ 64 }
{}

/// The variables of the flat draft of a class have distinct names, where the draft has names; and
/// what its vertices defer and its transitions wait for are signals of the draft.
pub(crate) fn sound_flat()
    ensures names { (draft : Draft) (class : ℕ) (flat : FlatDraft)
        → IsInRange draft → HasNames draft → Flattens draft class flat
        → AreDistinctNames (map (λ (v : DraftVar). v.name) flat.vars) }
    ensures defers { (draft : Draft) (class : ℕ) (flat : FlatDraft)
        → IsInRange draft → Flattens draft class flat
        → AllByRecursion (λ (x : Vertex). AreSignals draft x.defers) flat.machine.vertices }
    ensures triggers { (draft : Draft) (class : ℕ) (flat : FlatDraft)
        → IsInRange draft → Flattens draft class flat
        → AllByRecursion (λ (x : Transition). AreSignals draft x.triggers)
        flat.machine.transitions }
{}
