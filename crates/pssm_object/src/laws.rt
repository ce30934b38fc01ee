//! Laws of the steps of an object: functions that do nothing, and whose contracts are the laws.
ghost use Rattle.std.specs.Prelude.{◌≡◌, ◌⊎◌, ◌++◌, ◌∷◌, [], List, Option};
ghost use Rattle.pssm_model.specs.declared.ids.VertexId.{VertexId};
ghost use Rattle.pssm_model.specs.declared.elements.DraftMachine.{DraftMachine};
ghost use Rattle.pssm_model.specs.Order.{entries_at_most};
ghost use Rattle.pssm_plan.specs.Steadiness.{IsConsistent};
ghost use Rattle.pssm_semantics.specs.declared.entry.ObjectId.{ObjectId};
ghost use Rattle.pssm_semantics.specs.declared.entry.Entry.{Entry};
ghost use Rattle.pssm_semantics.specs.declared.setting.Class.{Class};
ghost use Rattle.pssm_semantics.specs.declared.stimulus.Stimulus.{Stimulus};
ghost use Rattle.pssm_semantics.specs.Journal.{IsPost, object_of, configuration_after};
ghost use Rattle.pssm_semantics.specs.Completion.{BecomesComplete, IsStepFinished};
ghost use Rattle.pssm_semantics.specs.Classes.{IsWellFormedClass};
ghost use Rattle.pssm_semantics.specs.Forms.{HasForm};
ghost use Rattle.pssm_pool.specs.declared.pools.Waiting.{Waiting};
ghost use Rattle.pssm_object.specs.Standing.{Standing, StandsAfter};
ghost use Rattle.pssm_object.specs.Coming.{HasCome, Continues};
ghost use Rattle.pssm_object.specs.Following.{NamesSignal, KeepsRules};
ghost use Rattle.pssm_object.specs.Laws.{Finishes};

/// An entry of another object leaves an object where it stands, and so does a post (this profile's choice of entries).
pub fn other_entries()
    ensures { (class : Class) (J : List Entry) (x : Standing) (e : Entry) → StandsAfter class J x
        → ((object_of e ≡ x.own) → IsPost e) → StandsAfter class (J ++ e ∷ []) x }
{}

/// Where an object stands it has come so far as the journal shows; so has each object before all entries. An entry of
/// another object, a post, and an entry of its own that keeps every rule bring it on (UML 2.5.1, 14.2.3.9, run to
/// completion).
pub fn comings()
    ensures stands { (class : Class) (J : List Entry) (x : Standing) → StandsAfter class J x
        → HasCome class.machine J x.own }
    ensures none { (m : DraftMachine) (o : ObjectId) → HasCome m [] o }
    ensures other { (m : DraftMachine) (J : List Entry) (o : ObjectId) (e : Entry)
        → HasCome m J o → ((object_of e ≡ o) → IsPost e) → HasCome m (J ++ e ∷ []) o }
    ensures own { (class : Class) (J : List Entry) (o : ObjectId) (signal : Option Stimulus) (e : Entry)
        → IsWellFormedClass class → HasCome class.machine J o → Continues class J o signal e
        → HasCome class.machine (J ++ e ∷ []) o }
{}

/// Whether the step of an object is finished is known. It can be finished by further entries of the object, which run
/// the items of the step and keep every rule: at most two for each vertex of the machine, one for each region and one
/// for each transition (UML 2.5.1, 14.2.3.9, run to completion; the bound is this profile's choice).
pub fn open_steps()
    ensures known { (class : Class) (J : List Entry) (o : ObjectId)
        → IsWellFormedClass class → HasCome class.machine J o
        → IsStepFinished class.machine J o ⊎ (IsStepFinished class.machine J o → ⊥) }
    ensures finishes { (class : Class) (J : List Entry) (o : ObjectId)
        → IsWellFormedClass class → HasCome class.machine J o
        → Finishes class J o (entries_at_most class.machine) }
{}

/// Each region of an object has at most one active direct vertex, and with it the State that owns the region is
/// active; and no entry makes two States of an object complete (UML 2.5.1, 14.2.3.4 and 14.2.3.8, State
/// configurations and completion events).
pub fn active_states()
    ensures consistent { (class : Class) (J : List Entry) (o : ObjectId)
        → IsWellFormedClass class → HasCome class.machine J o
        → IsConsistent class.machine (configuration_after class.machine J o) }
    ensures one_completes { (m : DraftMachine) (before : List Entry) (e : Entry) (o : ObjectId) (s q : VertexId)
        → BecomesComplete m before e o s → BecomesComplete m before e o q → s ≡ q }
{}

/// An entry of an object that keeps every rule has at most 64 outputs, its routes start somewhere and have at most 8,192
/// transitions in all, and a vertex that it restores is one of the first 4,096 (this profile's choice).
pub fn entry_forms()
    ensures { (class : Class) (J : List Entry) (x : Standing) (signal : Option Waiting) (e : Entry)
        → IsWellFormedClass class → StandsAfter class J x → object_of e ≡ x.own → NamesSignal signal e → KeepsRules class x signal J e → HasForm e }
{}
