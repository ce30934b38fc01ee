//! What is kept of the journal once one more entry has come that may follow.
ghost use Rattle.std.specs.Prelude.{◌≡◌, ◌≤◌, ◌<◌, ◌+◌, ◌∷◌, [], length, IfSome, OnOk, OnErr};
ghost use Rattle.std.specs.Option.{option_copied};
ghost use Rattle.pssm_semantics.specs.Pool.{signals_of_entry};
ghost use Rattle.pssm_semantics.specs.Proper.{IsWellFormed};
ghost use Rattle.pssm_pool.specs.Waits.{held_in};
ghost use Rattle.pssm_system.specs.inner.Stepping.{CanStep, HaveStepped, AreMade};

use crate::entries::{class_of, object_of, only_out, sends_nothing, signals_of};
use crate::pooling::{deliver, leave, leave_slot, signal_at, taken_signal, taken_slot};
use crate::situation::Situation;
use pssm_model::{Duplicate, SignalId};
use pssm_object::Object;
use pssm_pool::Waiting;
use pssm_semantics::{Args, Entry, ObjectId, Out, Setting};
use std::alloc::{AllocError as NoMemory, Global};

impl Situation {
    ghost use Rattle.pssm_system.specs.inner.Keeping.{CanCome, IsUnchanged};
    ghost use Rattle.pssm_system.specs.inner.Stepping.{posted, HasPosted, Brings};

    /// Goes on by an entry that may follow.
    ///
    /// On want of memory nothing has changed but room.
    #[inline(always)]
    pub fn apply(&mut self, alloc: Global, setting: &Setting, entry: &Entry) -> Result<(), NoMemory>
        requires well_formed { IsWellFormed setting.now }
        requires can { CanCome setting.now self.old entry.now }
        ensures ok { OnOk result (Brings setting.now self.old entry.now self.new) }
        ensures err { OnErr result (IsUnchanged self.old self.new) }
    {
        match entry {
            Entry::Post {
                object,
                signal,
                args,
            } => self.post(alloc, *object, *signal, args),
            _ if sends_nothing(entry) => self.go_on(setting, entry, None),
            _ => self.send(alloc, setting, entry, None),
        }
    }

    /// Goes on by an entry that may follow, whose behaviour was run elsewhere and left the variables of its object these
    /// values.
    ///
    /// On want of memory nothing has changed but room.
    pub fn settle(
        &mut self,
        alloc: Global,
        setting: &Setting,
        entry: &Entry,
        store: &[i64],
    ) -> Result<(), NoMemory>
        requires well_formed { IsWellFormed setting.now }
        requires can { CanCome setting.now self.old entry.now }
        requires made { AreMade setting.now self.old.objects.items entry.now store.now }
        ensures ok { OnOk result (Brings setting.now self.old entry.now self.new) }
        ensures err { OnErr result (IsUnchanged self.old self.new) }
    {
        match entry {
            Entry::Post {
                object,
                signal,
                args,
            } => self.post(alloc, *object, *signal, args),
            _ if sends_nothing(entry) => self.go_on(setting, entry, Some(store)),
            _ => self.send(alloc, setting, entry, Some(store)),
        }
    }

    // A signal that is posted comes to the pool of its object, which stands as it did.
    fn post(
        &mut self,
        alloc: Global,
        object: ObjectId,
        signal: SignalId,
        args: &Args,
    ) -> Result<(), NoMemory>
        requires pool { object.0 < length self.old.pools.waiting }
        requires held { held_in self.old.pools.waiting ≤ self.old.told }
        requires few { self.old.told + 1 < 4_294_967_295 }
        ensures ok { OnOk result (HasPosted self.old (posted object signal args.now) self.new) }
        ensures err { OnErr result (IsUnchanged self.old self.new) }
    {
        let args = args.duplicate(alloc)?;
        self.pools.reserve(1)?;
        self.told += 1;
        let waiting = Waiting {
            number: self.told,
            signal,
            args,
        };
        self.pools.arrive(object, waiting);
        Ok(())
    }

    // Goes on by an entry that posts and sends nothing; the values that its behaviour left are handed in where it was
    // run elsewhere.
    #[inline(always)]
    fn go_on(
        &mut self,
        setting: &Setting,
        entry: &Entry,
        made: Option<&[i64]>,
    ) -> Result<(), NoMemory>
        requires well_formed { IsWellFormed setting.now }
        requires can { CanCome setting.now self.old entry.now }
        requires silent { signals_of_entry entry.now ≡ [] }
        requires made { IfSome made (λ store. AreMade setting.now self.old.objects.items entry.now store.now) }
        ensures ok { OnOk result (Brings setting.now self.old entry.now self.new) }
        ensures err { OnErr result (IsUnchanged self.old self.new) }
    {
        let slot = taken_slot(&self.pools, entry);
        let taken = signal_at(&self.pools, slot);
        step_by(self.objects.as_mut_slice(), setting, entry, taken, made)?;
        leave_slot(&mut self.pools, entry, slot);
        Ok(())
    }

    // Goes on by any entry; the values that its behaviour left are handed in where it was run elsewhere.
    #[inline(never)]
    fn send(
        &mut self,
        alloc: Global,
        setting: &Setting,
        entry: &Entry,
        made: Option<&[i64]>,
    ) -> Result<(), NoMemory>
        requires well_formed { IsWellFormed setting.now }
        requires can { CanCome setting.now self.old entry.now }
        requires made { IfSome made (λ store. AreMade setting.now self.old.objects.items entry.now store.now) }
        ensures ok { OnOk result (Brings setting.now self.old entry.now self.new) }
        ensures err { OnErr result (IsUnchanged self.old self.new) }
    {
        match only_out(entry) {
            Some(
                Out::Send {
                    object,
                    signal,
                    args,
                },
            ) => self.send_one(alloc, setting, entry, made, *object, *signal, args),
            _ => self.send_all(alloc, setting, entry, made),
        }
    }

    // Goes on by an entry with this signal alone, which is copied where it is to wait.
    #[inline(always)]
    fn send_one(
        &mut self,
        alloc: Global,
        setting: &Setting,
        entry: &Entry,
        made: Option<&[i64]>,
        object: ObjectId,
        signal: SignalId,
        args: &Args,
    ) -> Result<(), NoMemory>
        requires well_formed { IsWellFormed setting.now }
        requires can { CanCome setting.now self.old entry.now }
        requires made { IfSome made (λ store. AreMade setting.now self.old.objects.items entry.now store.now) }
        requires sends { signals_of_entry entry.now ≡ posted object signal args.now ∷ [] }
        requires few { self.old.told + 1 < 4_294_967_295 }
        ensures ok { OnOk result (Brings setting.now self.old entry.now self.new) }
        ensures err { OnErr result (IsUnchanged self.old self.new) }
    {
        let args = args.duplicate(alloc)?;
        self.pools.reserve(1)?;
        let taken = taken_signal(&self.pools, entry);
        step_by(self.objects.as_mut_slice(), setting, entry, taken, made)?;
        leave(&mut self.pools, entry);
        self.told += 1;
        let waiting = Waiting {
            number: self.told,
            signal,
            args,
        };
        self.pools.arrive(object, waiting);
        Ok(())
    }

    // The same by an entry with any signals.
    #[inline(never)]
    fn send_all(
        &mut self,
        alloc: Global,
        setting: &Setting,
        entry: &Entry,
        made: Option<&[i64]>,
    ) -> Result<(), NoMemory>
        requires well_formed { IsWellFormed setting.now }
        requires can { CanCome setting.now self.old entry.now }
        requires made { IfSome made (λ store. AreMade setting.now self.old.objects.items entry.now store.now) }
        ensures ok { OnOk result (Brings setting.now self.old entry.now self.new) }
        ensures err { OnErr result (IsUnchanged self.old self.new) }
    {
        let signals = signals_of(alloc, entry)?;
        let count = signals.as_slice().len() as u32;
        self.pools.reserve(count)?;
        let taken = taken_signal(&self.pools, entry);
        step_by(self.objects.as_mut_slice(), setting, entry, taken, made)?;
        leave(&mut self.pools, entry);
        deliver(&mut self.pools, self.told, signals);
        self.told += count;
        Ok(())
    }
}

// The object of the entry goes on by it; a take comes with its signal.
#[inline(always)]
fn step(
    objects: &mut [Object],
    setting: &Setting,
    entry: &Entry,
    signal: Option<&Waiting>,
) -> Result<(), NoMemory>
    requires well_formed { IsWellFormed setting.now }
    requires can { CanStep setting.now objects.old (option_copied signal) entry.now }
    ensures ok { OnOk result (HaveStepped setting.now objects.old (option_copied signal.entry) entry.now objects.new) }
    ensures err { OnErr result (objects.new ≡ objects.old) }
{
    let own = object_of(entry);
    let object = &mut objects[usize::from(own.0)];
    object.apply(class_of(setting, own), entry, signal)
}

// The same where the values that the behaviour of the entry left are handed in if it was run elsewhere.
#[inline(always)]
fn step_by(
    objects: &mut [Object],
    setting: &Setting,
    entry: &Entry,
    signal: Option<&Waiting>,
    made: Option<&[i64]>,
) -> Result<(), NoMemory>
    requires well_formed { IsWellFormed setting.now }
    requires can { CanStep setting.now objects.old (option_copied signal) entry.now }
    requires made { IfSome made (λ store. AreMade setting.now objects.old entry.now store.now) }
    ensures ok { OnOk result (HaveStepped setting.now objects.old (option_copied signal.entry) entry.now objects.new) }
    ensures err { OnErr result (objects.new ≡ objects.old) }
{
    match made {
        None => step(objects, setting, entry, signal),
        Some(store) => settle(objects, setting, entry, signal, store),
    }
}

// The object of the entry goes on by it; its behaviour was run elsewhere and left these values.
fn settle(
    objects: &mut [Object],
    setting: &Setting,
    entry: &Entry,
    signal: Option<&Waiting>,
    store: &[i64],
) -> Result<(), NoMemory>
    requires well_formed { IsWellFormed setting.now }
    requires can { CanStep setting.now objects.old (option_copied signal) entry.now }
    requires made { AreMade setting.now objects.old entry.now store.now }
    ensures ok { OnOk result (HaveStepped setting.now objects.old (option_copied signal.entry) entry.now objects.new) }
    ensures err { OnErr result (objects.new ≡ objects.old) }
{
    let own = object_of(entry);
    let object = &mut objects[usize::from(own.0)];
    object.settle(class_of(setting, own), entry, signal, store)
}
