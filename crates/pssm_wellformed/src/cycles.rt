//! E19: which vertices lie on a cycle of pseudostates, found for all of them at once.
//!
//! One search walks each arrow once. The numbers that it has come to and not yet left are open.
//! They stand in groups: within a group each number leads to each other, and each group leads to
//! the next. An arrow to an open number makes one group of all groups from that number's on. Once
//! every arrow of the last group has been walked, the group is closed: no arrow leads from what is
//! closed to what is not, so no cycle goes through two groups. (This is the path-based search for
//! strong components.)
ghost use Rattle.std.specs.Prelude.{◌≡◌, ◌↔◌, ◌≤◌, ◌<◌, ◌+◌, ℕ, true, false, AllPairs, Contains, length, slice_index_or, IfOk, OnOk, IsTrue, MatchOption};
ghost use Rattle.pssm_model.specs.Shapes.{HasShape};
ghost use Rattle.pssm_model.specs.WellFormed.{IsOnCycle};
ghost use Rattle.pssm_wellformed.specs.inner.Reach.{StaysWithin};
ghost use Rattle.pssm_wellformed.specs.inner.Cycles.{GoesRound, stage_at, IsEarlierGroup, IsLastGroup, IsSearching, IsMeeting, steps_left, IsJoined, IsWalkedGroup, IsSettled};

use crate::paths::Marked;
use crate::walks::leads_of;
use pssm_model::{Machine, VertexId};
use std::alloc::{AllocError as NoMemory, Global};

/// How far the search is with a number: it has not come to it, or it is open at a place, or closed.
#[derive(Clone, Copy)]
pub enum Stage {
    New,
    Open(usize),
    Closed,
}

/// A group of open numbers: the place of its first number, and how many arrows were ahead before its own.
#[derive(Clone, Copy)]
pub struct Group {
    pub first: usize,
    pub ahead: usize,
}

/// A search: the stage of each number, the open numbers and their groups, the ends of the arrows
/// ahead, and a mark for each closed number that lies on a cycle.
#[derive(Drop)]
pub struct Search {
    pub stages: Vec<Stage>,
    pub opened: Vec<u16>,
    pub groups: Vec<Group>,
    pub ahead: Vec<u16>,
    pub cyclic: Vec<bool>,
}

/// Whether the last group begins past the place.
fn ends_past(groups: &[Group], place: usize) -> bool
    requires ascending { AllPairs IsEarlierGroup groups.now }
    ensures past { result ≡ true → (x : Group) × IsLastGroup groups.now x × (place < x.first) }
    ensures upto { result ≡ false → (x : Group) → Contains groups.now x → x.first ≤ place }
{
    match groups.last() {
        Some(group) => group.first > place,
        None => false,
    }
}

/// Makes one group of all groups from the one of the place on.
fn join(groups: &mut Vec<Group>, place: usize)
    requires { AllPairs IsEarlierGroup groups.old.items }
    ensures joined { IsJoined place groups.old.items groups.new.items }
    ensures upto { (x : Group) → Contains groups.new.items x → x.first ≤ place }
{
    while ends_past(groups.as_slice(), place) {
        groups.pop();
    }
}

/// Whether an arrow leads back to the number from which it comes.
fn leads_to_itself(ends: &[u16], number: u16) -> bool
    ensures { IsTrue result ↔ Contains ends.now number }
{
    ends.contains(&number)
}

/// Closes the numbers of a group, and marks them where the group has two of them, or where its one leads to itself.
fn settle(stages: &mut Vec<Stage>, cyclic: &mut Vec<bool>, onward: &[Vec<u16>], group: &[u16])
    requires stages { length stages.old.items ≡ length onward.now }
    requires marks { length cyclic.old.items ≡ length onward.now }
    requires there { (a : ℕ) → Contains group.now a → a < length onward.now }
    ensures { IsSettled onward.now group.now
        (length group.now) stages.old.items stages.new.items cyclic.old.items cyclic.new.items }
{
    for number in group {
        let place = *number as usize;
        let leads_back = group.len() > 1 || leads_to_itself(onward[place].as_slice(), *number);
        stages[place] = Stage::Closed;
        cyclic[place] = leads_back;
    }
}

impl Search {
    /// The search begins with every number ahead.
    fn new(alloc: Global, onward: &[Vec<u16>]) -> Result<Search, NoMemory>
        requires few { length onward.now < 65536 }
        requires within { StaysWithin onward.now }
        ensures { IfOk result (λ search. IsSearching onward.now search) }
    {
        let count = onward.len();
        let mut ahead = Vec::with_capacity(alloc, count)?;
        for number in 0..count as u16 {
            ahead.push(number)?;
        }
        Ok(Search {
            stages: vec![in alloc; Stage::New; count]?,
            opened: Vec::new(alloc),
            groups: Vec::new(alloc),
            ahead,
            cyclic: vec![in alloc; false; count]?,
        })
    }

    /// The last group, where each of its arrows has been walked.
    fn walked(&self) -> Option<Group>
        ensures { MatchOption result ((x : Group) → IsWalkedGroup self.now x → ⊥)
            (λ x. IsWalkedGroup self.now x) }
    {
        let group = *self.groups.as_slice().last()?;
        if group.ahead == self.ahead.len() {
            return Some(group);
        }
        None
    }

    /// Opens a new number as a group of its own.
    fn open_new(&mut self, onward: &[Vec<u16>], number: u16) -> Result<(), NoMemory>
        requires meeting { IsMeeting onward.now self.old number }
        requires new { stage_at self.old.stages.items number ≡ Stage.New }
        ensures search { OnOk result (IsSearching onward.now self.new) }
        ensures fewer { OnOk result (steps_left onward.now self.new ≤ steps_left onward.now self.old) }
    {
        let first = self.opened.len();
        let ahead = self.ahead.len();
        self.stages[number as usize] = Stage::Open(first);
        self.groups.push(Group { first, ahead })?;
        self.opened.push(number)?;
        self.ahead
            .extend_from_slice(onward[number as usize].as_slice())?;
        Ok(())
    }

    /// Comes to the end of an arrow.
    fn meet(&mut self, onward: &[Vec<u16>], number: u16) -> Result<(), NoMemory>
        requires { IsMeeting onward.now self.old number }
        ensures search { OnOk result (IsSearching onward.now self.new) }
        ensures fewer { OnOk result (steps_left onward.now self.new ≤ steps_left onward.now self.old) }
    {
        match self.stages[number as usize] {
            Stage::New => self.open_new(onward, number),
            Stage::Open(place) => {
                join(&mut self.groups, place);
                Ok(())
            }
            Stage::Closed => Ok(()),
        }
    }

    /// Closes the last group.
    fn close(&mut self, onward: &[Vec<u16>], group: Group)
        requires search { IsSearching onward.now self.old }
        requires walked { IsWalkedGroup self.old group }
        ensures search { IsSearching onward.now self.new }
        ensures fewer { steps_left onward.now self.new < steps_left onward.now self.old }
    {
        let (_, numbers) = self.opened.as_slice().split_at(group.first);
        settle(&mut self.stages, &mut self.cyclic, onward, numbers);
        self.opened.truncate(group.first);
        self.groups.pop();
    }

    /// Closes the last group where its arrows have been walked, or walks an arrow.
    fn step(&mut self, onward: &[Vec<u16>]) -> Result<(), NoMemory>
        requires search { IsSearching onward.now self.old }
        requires more { 0 < length self.old.ahead.items + length self.old.groups.items }
        ensures search { OnOk result (IsSearching onward.now self.new) }
        ensures fewer { OnOk result (steps_left onward.now self.new < steps_left onward.now self.old) }
    {
        if let Some(group) = self.walked() {
            self.close(onward, group);
            return Ok(());
        }
        match self.ahead.pop() {
            Some(number) => self.meet(onward, number),
            None => Ok(()),
        }
    }

    /// Whether an arrow is ahead or a group is open.
    fn goes_on(&self) -> bool
        ensures { IsTrue result ↔ (0 < length self.now.ahead.items + length self.now.groups.items) }
    {
        !self.ahead.is_empty() || !self.groups.is_empty()
    }
}

/// A mark for each number that lies on a cycle of arrows.
fn cyclic_numbers(alloc: Global, onward: &[Vec<u16>]) -> Result<Vec<bool>, NoMemory>
    requires few { length onward.now < 65536 }
    requires within { StaysWithin onward.now }
    ensures width { IfOk result (λ marks. length marks.items ≡ length onward.now) }
    ensures marks { IfOk result
        (λ marks. (a : ℕ) → (slice_index_or marks.items a false ≡ true) ↔ GoesRound onward.now a) }
{
    let mut search = Search::new(alloc, onward)?;
    while search.goes_on() {
        search.step(onward)?;
    }
    Ok(search.cyclic)
}

/// A mark for each vertex that lies on a cycle of pseudostates. The numbers behind those of the
/// vertices stand for regions.
pub fn cyclic_marks(alloc: Global, machine: &Machine) -> Result<Vec<bool>, NoMemory>
    requires { HasShape machine.now }
    ensures width { IfOk result (λ marks. length marks.items ≡ length machine.now.vertices) }
    ensures marks { IfOk result
        (λ marks. (v : VertexId) → (slice_index_or marks.items v.0 false ≡ true)
        ↔ IsOnCycle machine.now v) }
{
    let leads = leads_of(alloc, machine)?;
    let mut marks = cyclic_numbers(alloc, leads.as_slice())?;
    marks.truncate(machine.vertices() as usize);
    Ok(marks)
}

/// E19: whether it is a pseudostate that lies on a cycle of pseudostates.
pub fn is_on_cycle(marked: &Marked, vertex: VertexId) -> bool
    requires there { vertex.0 < length marked.now.vertices }
    ensures { IsTrue result ↔ IsOnCycle marked.now vertex }
{
    marked.marks.cyclic[vertex.0 as usize]
}
