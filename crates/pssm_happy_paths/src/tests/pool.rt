//! Signals that come, are looked for and are taken, with ample memory.
use pssm_model::SignalId;
use pssm_pool::*;
use pssm_semantics::{Args, ObjectId};
use std::alloc::Global;
use std::test::Fail;

/// The signal with this number, without arguments.
fn signal(alloc: Global, number: u32) -> Waiting {
    Waiting {
        number,
        signal: SignalId(0),
        args: Args::from_vec(Vec::new(alloc)),
    }
}

#[test]
fn the_first_that_is_not_held_is_taken(rt: HostRuntime) -> Result<(), Fail> {
    let object = ObjectId(1);
    let mut pools = Pools::new(rt.alloc(), 2)?;
    pools.reserve(2)?;
    pools.arrive(object, signal(rt.alloc(), 1));
    pools.arrive(object, signal(rt.alloc(), 2));
    let Some(slot) = pools.first_not(object, &|waiting: &Waiting| waiting.number == 1) else {
        return Err(Fail::new("each is held"));
    };
    assert!(rt; pools.at(slot).number == 2);
    let taken = pools.take(slot);
    assert!(rt; taken.number == 2);
    assert!(rt;
        pools
            .first_not(object, &|waiting: &Waiting| waiting.number == 1)
            .is_none()
    );
    Ok(())
}

#[test]
fn the_first_that_is_not_held_is_found_behind_one_that_is_not_alike(
    rt: HostRuntime,
) -> Result<(), Fail> {
    let object = ObjectId(1);
    let mut pools = Pools::new(rt.alloc(), 2)?;
    pools.reserve(2)?;
    pools.arrive(object, signal(rt.alloc(), 1));
    pools.arrive(
        object,
        Waiting {
            number: 2,
            signal: SignalId(1),
            args: Args::from_vec(Vec::new(rt.alloc())),
        },
    );
    let Some(slot) = pools.first_not_alike(
        object,
        &|waiting: &Waiting| waiting.signal == SignalId(0),
    ) else {
        return Err(Fail::new("each is held"));
    };
    assert!(rt; pools.at(slot).number == 2);
    Ok(())
}
