//! A caller that reads two paths and puts what the second holds, over any inputs and any sink. Its clauses follow
//! from those of the crate alone.
ghost use Rattle.std.specs.Prelude.{◌≡◌, ◌≢◌, ◌<◌, ◌⊎◌, length, IfSome, IfOk, OnOk, IsErrOf};
ghost use Rattle.std.specs.Io.KnownBytes.{Appends, Keeps};
ghost use Rattle.pssm_base.specs.Faults.{Rose, NoneFell};
ghost use Rattle.pssm_base.specs.Putting.{TookPart};
ghost use Rattle.pssm_base.specs.Reading.{SameContent};

use pssm_base::{Inputs, Sink, SureInputs, SureSink, WholeFault, put_all, read_whole};
use std::alloc::Global;

// How many bytes a path may hold.
const LIMIT: u64 = 1000;

#[derive(Clone, Copy, Debug, PartialEq, Eq)]
pub enum Stop {
    Large,
    Read,
    Write,
    Memory,
}

fn stop_of(fault: WholeFault) -> Stop
    ensures large { result ≡ Stop.Large → fault ≡ WholeFault.TooLarge }
    ensures read { result ≡ Stop.Read → fault ≡ WholeFault.ReadFault }
    ensures write { result ≢ Stop.Write }
{
    match fault {
        WholeFault::TooLarge => Stop::Large,
        WholeFault::ReadFault => Stop::Read,
        WholeFault::NoMemory => Stop::Memory,
    }
}

fn read_two<I: Inputs>(
    alloc: Global,
    inputs: &mut I,
    one: &str,
    two: &str,
) -> Result<(Vec<u8>, Vec<u8>), Stop>
    ensures first { IfOk result (λ both. IfSome (I.content inputs.old one.now)
        (λ held. both.0.items ≡ held)) }
    ensures second { IfOk result (λ both. IfSome (I.content inputs.old two.now)
        (λ held. both.1.items ≡ held)) }
    ensures large { IsErrOf result Stop.Large
        → IfSome (I.content inputs.old one.now) (λ held. LIMIT < length held)
        ⊎ IfSome (I.content inputs.old two.now) (λ held. LIMIT < length held) }
    ensures read { IsErrOf result Stop.Read
        → Rose (I.faults inputs.old one.now) (I.faults inputs.new one.now)
        ⊎ Rose (I.faults inputs.old two.now) (I.faults inputs.new two.now) }
    ensures write { IsErrOf result Stop.Write → ⊥ }
    ensures counts { NoneFell (I.faults inputs.old) (I.faults inputs.new) }
    ensures same { SameContent (I.content inputs.old) (I.content inputs.new) }
{
    let first = read_whole(alloc, inputs, one, LIMIT).map_err(stop_of)?;
    let second = read_whole(alloc, inputs, two, LIMIT).map_err(stop_of)?;
    Ok((first, second))
}

pub fn copy_second<I: Inputs, S: Sink>(
    alloc: Global,
    inputs: &mut I,
    out: &mut S,
    one: &str,
    two: &str,
) -> Result<(), Stop>
    ensures done { OnOk result (IfSome (I.content inputs.old two.now)
        (λ held. Appends (S.taken out.old) (S.taken out.new) held)) }
    ensures read { IsErrOf result Stop.Read
        → Rose (I.faults inputs.old one.now) (I.faults inputs.new one.now)
        ⊎ Rose (I.faults inputs.old two.now) (I.faults inputs.new two.now) }
    ensures nothing { IsErrOf result Stop.Read → Keeps (S.taken out.old) (S.taken out.new) }
    ensures write { IsErrOf result Stop.Write → Rose (S.faults out.old) (S.faults out.new) }
    ensures part { IsErrOf result Stop.Write → IfSome (I.content inputs.old two.now)
        (λ held. TookPart (S.taken out.old) (S.taken out.new) held) }
{
    let (_, second) = read_two(alloc, inputs, one, two)?;
    match put_all(out, second.as_slice()) {
        Ok(()) => Ok(()),
        Err(_) => Err(Stop::Write),
    }
}

// Over inputs and a sink that never fail there is neither a read fault nor a write fault.
pub fn copy_surely(alloc: Global, inputs: &mut SureInputs, one: &str, two: &str) -> Result<(), Stop>
    ensures read { IsErrOf result Stop.Read → ⊥ }
    ensures write { IsErrOf result Stop.Write → ⊥ }
{
    copy_second(alloc, inputs, &mut SureSink::new(), one, two)
}
