//! How deep each place of a draft lies: found by climbing owner chains, each place once.
ghost use Rattle.std.specs.Prelude.{◌≡◌, ◌≢◌, ◌↔◌, IsTrue, IfOk, Some, slice_index_or};
ghost use Rattle.pssm_model.specs.Forest.{owner_of as owner_in};
ghost use Rattle.pssm_model.specs.inner.Depths.{noted, depth_under as depth_below, one_deeper as one_more, HasNote, IsPlace, IsDepthOf, AreDepths, HasClimbed, KeepsKnown, Notes};

use crate::elements::{DraftMachine, Owner};
use std::alloc::{AllocError as NoMemory, Global};

/// What is known of the owner chain of a place.
///
/// `Within`: it ends at the machine, and so many regions stand on it, at most 32. `Beyond`: it ends at the machine, and
/// more stand on it. `Nowhere`: it does not end at the machine.
#[derive(Clone, Copy, PartialEq, Eq)]
pub enum Depth {
    Unknown,
    Within(u16),
    Beyond,
    Nowhere,
}

/// What is known of each region and vertex of a draft.
#[derive(Drop)]
pub struct Depths {
    pub regions: Vec<Depth>,
    pub vertices: Vec<Depth>,
}

/// The owner of a region or vertex.
pub fn owner_of(draft: &DraftMachine, place: Owner) -> Owner
    requires { IsPlace draft.now place }
    ensures { owner_in draft.now place ≡ Some result }
{
    match place {
        Owner::Top => unreachable!(),
        Owner::Region(r) => draft.regions.as_slice()[r.0 as usize],
        Owner::State(v) => draft.vertices.as_slice()[v.0 as usize].owner,
    }
}

/// One region more.
fn one_deeper(depth: Depth) -> Depth
    ensures { result ≡ one_more depth }
{
    match depth {
        Depth::Within(n) if n < 32 => Depth::Within(n + 1),
        Depth::Within(_) => Depth::Beyond,
        other => other,
    }
}

/// The depth of what a place owns, by its own depth.
fn depth_under(place: Owner, depth: Depth) -> Depth
    ensures { result ≡ depth_below place depth }
{
    match place {
        Owner::Top => Depth::Within(0),
        Owner::Region(_) => one_deeper(depth),
        Owner::State(_) => depth,
    }
}

/// The note at a number; none is past the end.
fn note_at(notes: &[Depth], number: u16) -> Depth
    ensures { result ≡ slice_index_or notes.now number Depth.Nowhere }
{
    notes
        .get(number as usize)
        .copied()
        .unwrap_or(Depth::Nowhere)
}

impl Depths {
    /// Nothing is known yet of the places of a draft.
    pub fn new(alloc: Global, draft: &DraftMachine) -> Result<Depths, NoMemory>
        ensures { IfOk result (AreDepths draft.now) }
    {
        Ok(Depths {
            regions: vec![in alloc; Depth::Unknown; draft.regions.as_slice().len()]?,
            vertices: vec![in alloc; Depth::Unknown; draft.vertices.as_slice().len()]?,
        })
    }

    /// What is known of a place.
    fn of(&self, place: Owner) -> Depth
        ensures { result ≡ noted self.now place }
    {
        match place {
            Owner::Top => Depth::Nowhere,
            Owner::Region(r) => note_at(self.regions.as_slice(), r.0),
            Owner::State(v) => note_at(self.vertices.as_slice(), v.0),
        }
    }

    /// Notes what is known of a place.
    fn set(&mut self, place: Owner, depth: Depth)
        requires { HasNote self.old place }
        ensures { Notes place depth self.old self.new }
    {
        match place {
            Owner::Top => unreachable!(),
            Owner::Region(r) => self.regions[r.0 as usize] = depth,
            Owner::State(v) => self.vertices[v.0 as usize] = depth,
        }
    }

    /// Climbs from a place to where something is known. The places on the way are noted as leading nowhere.
    fn climb(
        &mut self,
        alloc: Global,
        draft: &DraftMachine,
        place: Owner,
    ) -> Result<Vec<Owner>, NoMemory>
        requires { AreDepths draft.now self.old }
        ensures climbed { IfOk result (λ path. HasClimbed draft.now path.items self.new) }
        ensures known { IfOk result (λ path. noted self.new place ≢ Depth.Unknown) }
    {
        let mut path = Vec::new(alloc);
        let mut at = place;
        while self.of(at) == Depth::Unknown {
            self.set(at, Depth::Nowhere);
            path.push(at)?;
            at = owner_of(draft, at);
        }
        Ok(path)
    }

    /// Notes the depths of the places that were climbed, from the last one down.
    fn settle(&mut self, draft: &DraftMachine, mut path: Vec<Owner>)
        requires { HasClimbed draft.now path.items self.old }
        ensures right { AreDepths draft.now self.new }
        ensures known { KeepsKnown self.old self.new }
    {
        while let Some(place) = path.pop() {
            let owner = owner_of(draft, place);
            let depth = depth_under(owner, self.of(owner));
            self.set(place, depth);
        }
    }

    /// The depth of a place.
    pub fn find(
        &mut self,
        alloc: Global,
        draft: &DraftMachine,
        place: Owner,
    ) -> Result<Depth, NoMemory>
        requires { AreDepths draft.now self.old }
        ensures found { IfOk result (IsDepthOf draft.now place) }
        ensures kept { IfOk result (λ _. AreDepths draft.now self.new) }
    {
        let path = self.climb(alloc, draft, place)?;
        self.settle(draft, path);
        Ok(self.of(place))
    }
}
