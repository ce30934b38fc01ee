//! What is kept of a journal beside its entries.
ghost use Rattle.std.specs.Prelude.{◌≡◌, [], length, IfOk};
ghost use Rattle.pssm_semantics.specs.Proper.{IsWellFormed};
ghost use Rattle.pssm_pool.specs.Waits.{held_in};
ghost use Rattle.pssm_system.specs.inner.Keeping.{AreObjects, ArePools};

use crate::entries::class_of;
use pssm_object::Object;
use pssm_pool::Pools;
use pssm_semantics::{ObjectId, Setting};
use std::alloc::{AllocError as NoMemory, Global};

/// What is kept of a journal beside its entries.
#[derive(Drop)]
pub struct Situation {
    /// Where each object of the setting stands.
    pub objects: Vec<Object>,
    /// For each object of the setting the signals that wait.
    pub pools: Pools,
    /// How many signals the journal has: posts and sends together.
    pub told: u32,
}

impl Situation {
    ghost use Rattle.pssm_system.specs.inner.Keeping.{StandsSo};

    /// What is kept of the journal without entries.
    pub fn new(alloc: Global, setting: &Setting) -> Result<Situation, NoMemory>
        requires { IsWellFormed setting.now }
        ensures { IfOk result (StandsSo setting.now []) }
    {
        Ok(Situation {
            objects: new_objects(alloc, setting)?,
            pools: new_pools(alloc, setting)?,
            told: 0,
        })
    }
}

// The objects of the setting before their starts.
fn new_objects(alloc: Global, setting: &Setting) -> Result<Vec<Object>, NoMemory>
    requires { IsWellFormed setting.now }
    ensures { IfOk result (λ objects. AreObjects setting.now [] objects.items) }
{
    let count = setting.objects.as_slice().len() as u8;
    let mut objects = Vec::with_capacity(alloc, usize::from(count))?;
    for k in 0..count {
        let own = ObjectId(k);
        objects.push(Object::new(alloc, own, class_of(setting, own))?)?;
    }
    Ok(objects)
}

// The pools of the objects of the setting, in which nothing waits.
fn new_pools(alloc: Global, setting: &Setting) -> Result<Pools, NoMemory>
    requires { IsWellFormed setting.now }
    ensures pools { IfOk result (λ pools. ArePools setting.now [] pools.waiting) }
    ensures held { IfOk result (λ pools. held_in pools.waiting ≡ 0) }
{
    let count = setting.objects.as_slice().len() as u8;
    Pools::new(alloc, count)
}
