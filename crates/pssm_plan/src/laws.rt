//! Laws of the items of a step: functions that do nothing, and whose contracts are the laws.
ghost use Rattle.std.specs.Prelude.{◌≤◌, List, length};
ghost use Rattle.pssm_model.specs.declared.elements.DraftMachine.{DraftMachine};
ghost use Rattle.pssm_model.specs.declared.steps.How.{How};
ghost use Rattle.pssm_model.specs.declared.steps.Item.{Item};
ghost use Rattle.pssm_model.specs.Course.{Head};
ghost use Rattle.pssm_model.specs.Items.{IsWaiting, HasRunOut};
ghost use Rattle.pssm_model.specs.Order.{KnownConfiguration, known_course, IsReady, HasReadyAtOrBefore, entries_at_most};
ghost use Rattle.pssm_plan.specs.Steps.{IsStep};

/// In a step of a machine that keeps the rules of models, a called item that has not run has a ready item at or before
/// it, if the step has begun well; so where no item is ready, everything called has run (UML 2.5.1, 14.2.3.9,
/// transition execution sequence).
pub fn ready_items()
    ensures waiting { (m : DraftMachine) (head : Head) (now : KnownConfiguration) (ran : List (Item × How))
        (item : Item) → IsStep m (known_course head now ran) → IsWaiting m (known_course head now ran) item
        → HasReadyAtOrBefore m (known_course head now ran) item }
    ensures finished { (m : DraftMachine) (head : Head) (now : KnownConfiguration) (ran : List (Item × How))
        → IsStep m (known_course head now ran) → ((item : Item) → IsReady m (known_course head now ran) item → ⊥)
        → HasRunOut m (known_course head now ran) }
{}

/// Such a step has at most an exit and an entry for each vertex, an opening for each
/// region and an effect for each transition: the openings of a history take the place of an entry of that vertex (UML
/// 2.5.1, 14.2.3.9, run to completion).
pub fn step_length()
    ensures { (m : DraftMachine) (head : Head) (now : KnownConfiguration) (ran : List (Item × How))
        → IsStep m (known_course head now ran) → length ran ≤ entries_at_most m }
{}
