//! The signal that an object may take next.
ghost use Rattle.std.specs.Prelude.{◌<◌, length};
ghost use Rattle.std.specs.Option.{option_copied};
ghost use Rattle.pssm_semantics.specs.Classes.{IsWellFormedClass};
ghost use Rattle.pssm_semantics.specs.Proper.{IsWellFormed};
ghost use Rattle.pssm_pool.specs.Waits.{waiting_for};
ghost use Rattle.pssm_object.specs.Standing.{Stands as ObjectStands};
ghost use Rattle.pssm_system.specs.inner.Deferring.{IsFirstFree};

use crate::entries::class_of;
use crate::situation::Situation;
use pssm_object::Object;
use pssm_pool::{Pools, Waiting};
use pssm_semantics::{Class, ObjectId, Setting};

impl Situation {
    ghost use Rattle.pssm_system.specs.inner.Keeping.{Stands};
    ghost use Rattle.pssm_system.specs.inner.Deferring.{IsFirstFor, IsAwaited};

    /// The first signal that waits for the object and that it does not defer, if there is one.
    pub fn first_for(&self, setting: &Setting, own: ObjectId) -> Option<&Waiting>
        requires well_formed { IsWellFormed setting.now }
        requires stands { Stands setting.now self.now }
        requires there { own.0 < length self.now.objects.items }
        ensures { IsFirstFor setting.now self.now own (option_copied result) }
    {
        let object = &self.objects[usize::from(own.0)];
        first_free(object, class_of(setting, own), &self.pools, own)
    }

    /// The same where the object waits for a signal; none where it does not. What waits is looked for only where it
    /// does.
    pub fn awaited(&self, setting: &Setting, own: ObjectId) -> Option<&Waiting>
        requires well_formed { IsWellFormed setting.now }
        requires stands { Stands setting.now self.now }
        requires there { own.0 < length self.now.objects.items }
        ensures { IsAwaited setting.now self.now own (option_copied result) }
    {
        let object = &self.objects[usize::from(own.0)];
        if !object.awaits_signal() {
            return None;
        }
        self.first_for(setting, own)
    }
}

// The first signal of the pool with this number that the object does not defer, if there is one. Whether it defers one
// depends on the signal and its arguments alone, so it is asked once for signals that are alike and stand together.
fn first_free<'a>(
    object: &Object,
    class: &Class,
    pools: &'a Pools,
    own: ObjectId,
) -> Option<&'a Waiting>
    requires class { IsWellFormedClass class.now }
    requires stands { ObjectStands class.now object.now }
    ensures { IsFirstFree class.now object.now (waiting_for pools.now.waiting own) (option_copied result) }
{
    let slot = pools.first_not_alike(own, &|waiting: &Waiting| object.defers(class, waiting))?;
    Some(pools.at(slot))
}
