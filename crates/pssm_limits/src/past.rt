//! The first machine or class that passes a limit.
ghost use Rattle.std.specs.Prelude.{◌≡◌, ◌<◌, ◌+◌, ◌↔◌, ℕ, length, IfOk, IsTrue, MatchOption};
ghost use Rattle.pssm_limits.specs.Limits.{PassesLimit, IsFirstPast};
ghost use Rattle.pssm_limits.specs.inner.Past.{HoldTables, IsFirstBelow, IsWideClass, is_large, least};

use crate::classes::Classes;
use crate::machines::{Totals, extends_of};
use crate::names::has_few_variables;
use pssm_numbering::{File, Kind, Numbering, is_of};
use std::alloc::{AllocError as NoMemory, Global};

// What is known of the machines and classes of a file.
#[derive(Drop)]
pub(crate) struct Tables {
    pub(crate) extends: Vec<Option<u32>>,
    pub(crate) totals: Totals,
    pub(crate) classes: Classes,
}

// The tables of a file.
fn tables_of(alloc: Global, file: &File, numbering: &Numbering) -> Result<Tables, NoMemory>
    requires { numbering.now ≡ file.now }
    ensures { IfOk result (λ tables. HoldTables file.now tables) }
{
    let extends = extends_of(alloc, file, numbering)?;
    let totals = Totals::of(alloc, file, numbering, extends.as_slice())?;
    let classes = Classes::of(alloc, file, numbering)?;
    Ok(Tables {
        extends,
        totals,
        classes,
    })
}

// Whether the element is a machine that passes a limit.
fn is_large_machine(file: &File, numbering: &Numbering, tables: &Tables, n: u32) -> bool
    requires same { numbering.now ≡ file.now }
    requires within { n < length file.now.doc }
    ensures { result ≡ is_large file.now tables.now n }
{
    is_of(Kind::Machine, file.role(n)) && !tables.totals.is_small(numbering.machine_place(n))
}

// Whether the element is a class that passes the limit of variables.
fn is_wide_class(
    alloc: Global,
    file: &File,
    numbering: &Numbering,
    tables: &Tables,
    n: u32,
) -> Result<bool, NoMemory>
    requires same { numbering.now ≡ file.now }
    requires tables { HoldTables file.now tables.now }
    requires within { n < length file.now.doc }
    ensures { IfOk result (λ wide. IsTrue wide ↔ IsWideClass file.now n) }
{
    if !is_of(Kind::Class, file.role(n)) {
        return Ok(false);
    }
    let few = has_few_variables(
        alloc,
        &tables.classes,
        file,
        numbering,
        tables.extends.as_slice(),
        n,
    )?;
    Ok(!few)
}

// Whether the element passes a limit.
fn passes_limit(
    alloc: Global,
    file: &File,
    numbering: &Numbering,
    tables: &Tables,
    n: u32,
) -> Result<bool, NoMemory>
    requires same { numbering.now ≡ file.now }
    requires tables { HoldTables file.now tables.now }
    requires within { n < length file.now.doc }
    ensures { IfOk result (λ passes. IsTrue passes ↔ PassesLimit file.now n) }
{
    if is_large_machine(file, numbering, tables, n) {
        return Ok(true);
    }
    is_wide_class(alloc, file, numbering, tables, n)
}

// The earlier of two bytes, where there is one already.
fn earlier(found: Option<u32>, byte: u32) -> u32
    ensures { result ≡ least found byte }
{
    match found {
        None => byte,
        Some(before) => if before < byte { before } else { byte },
    }
}

// The least byte so far, with the next element.
fn with_next(
    alloc: Global,
    file: &File,
    numbering: &Numbering,
    tables: &Tables,
    found: Option<u32>,
    n: u32,
) -> Result<Option<u32>, NoMemory>
    requires same { numbering.now ≡ file.now }
    requires tables { HoldTables file.now tables.now }
    requires within { n < length file.now.doc }
    requires so_far { IsFirstBelow file.now n found }
    ensures { IfOk result (λ more. IsFirstBelow file.now (n + 1) more) }
{
    if !passes_limit(alloc, file, numbering, tables, n)? {
        return Ok(found);
    }
    Ok(Some(earlier(found, file.at(n))))
}

/// The byte of the first machine or class that passes a limit.
pub fn first_many(
    alloc: Global,
    file: &File,
    numbering: &Numbering,
) -> Result<Option<u32>, NoMemory>
    requires same { numbering.now ≡ file.now }
    ensures { IfOk result (λ found. MatchOption found
        ((n : ℕ) → PassesLimit file.now n → ⊥)
        (λ byte. IsFirstPast file.now byte)) }
{
    let tables = tables_of(alloc, file, numbering)?;
    let mut found = None;
    for n in 0..file.len() {
        found = with_next(alloc, file, numbering, &tables, found, n)?;
    }
    Ok(found)
}
