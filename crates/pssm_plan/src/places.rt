//! Where the items of a list of calls stand in it.
ghost use Rattle.std.specs.Prelude.{◌≡◌, ◌≢◌, ◌<◌, ℕ, length, slice_index_or, OnOk};
ghost use Rattle.pssm_model.specs.declared.steps.Item.{Item as Called};
ghost use Rattle.pssm_plan.specs.inner.Places.{item_number, kept_in, with_kept, no_row, place_in};

use pssm_model::{Item, Mode};
use std::alloc::AllocError as NoMemory;

/// The places of the items that name what has one number: of the exit, the entry and the pick of a vertex, of the
/// effect of a transition, and of the openings of a region in each mode.
#[derive(Clone, Copy)]
pub struct Row {
    pub exit: u32,
    pub effect: u32,
    pub entry: u32,
    pub plain: u32,
    pub shallow: u32,
    pub deep: u32,
    pub pick: u32,
}

// The number of the vertex, the transition or the region that an item names.
#[inline(always)]
fn number_of(item: Item) -> usize
    ensures { result ≡ item_number item }
{
    match item {
        Item::Exit(s) => usize::from(s.0),
        Item::Effect(t) => usize::from(t.0),
        Item::Enter(s) => usize::from(s.0),
        Item::Opened(r, _) => usize::from(r.0),
        Item::Pick(c) => usize::from(c.0),
    }
}

// The place that a row keeps for an item of its number.
#[inline(always)]
fn kept(row: &Row, item: Item) -> u32
    ensures { result ≡ kept_in row.now item }
{
    match item {
        Item::Exit(_) => row.exit,
        Item::Effect(_) => row.effect,
        Item::Enter(_) => row.entry,
        Item::Opened(_, Mode::Plain) => row.plain,
        Item::Opened(_, Mode::Shallow) => row.shallow,
        Item::Opened(_, Mode::Deep) => row.deep,
        Item::Pick(_) => row.pick,
    }
}

// Keeps another place in a row for an item of its number.
#[inline(always)]
fn keep(row: &mut Row, item: Item, place: u32)
    ensures { row.new ≡ with_kept row.old item place }
{
    match item {
        Item::Exit(_) => row.exit = place,
        Item::Effect(_) => row.effect = place,
        Item::Enter(_) => row.entry = place,
        Item::Opened(_, Mode::Plain) => row.plain = place,
        Item::Opened(_, Mode::Shallow) => row.shallow = place,
        Item::Opened(_, Mode::Deep) => row.deep = place,
        Item::Pick(_) => row.pick = place,
    }
}

/// The place that the table keeps for an item; the first one where it keeps none.
#[inline(always)]
pub fn place_by(rows: &[Row], item: Item) -> u32
    ensures { result ≡ place_in rows.now item }
{
    match rows.get(number_of(item)) {
        Some(row) => kept(row, item),
        None => 0,
    }
}

// Has a row for this number too; those that are new keep nothing.
#[inline(never)]
fn reach(rows: &mut Vec<Row>, number: usize) -> Result<(), NoMemory>
    ensures kept { (k : ℕ) → slice_index_or rows.new.items k no_row ≡ slice_index_or rows.old.items k no_row }
    ensures there { OnOk result (number < length rows.new.items) }
{
    while rows.len() <= number {
        rows.push(Row {
            exit: 0,
            effect: 0,
            entry: 0,
            plain: 0,
            shallow: 0,
            deep: 0,
            pick: 0,
        })?;
    }
    Ok(())
}

/// Keeps a place for an item. Those of all others stay.
///
/// `NoMemory`: memory ran out; what is kept of the others is as before.
#[tactic(auto, using(crate::proofs::KeptPlaces::others_kept, crate::proofs::KeptPlaces::place_kept))]
#[inline(never)]
pub fn note(rows: &mut Vec<Row>, item: Item, place: u32) -> Result<(), NoMemory>
    ensures others { (x : Called) → x ≢ item → place_in rows.new.items x ≡ place_in rows.old.items x }
    ensures noted { OnOk result (place_in rows.new.items item ≡ place) }
{
    let number = number_of(item);
    if rows.len() <= number {
        reach(rows, number)?;
    }
    keep(&mut rows[number], item, place);
    Ok(())
}
