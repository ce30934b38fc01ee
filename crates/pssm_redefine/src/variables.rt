//! The variables of a class: inherited ones first, each name once.
ghost use Rattle.std.specs.Prelude.{◌≡◌, IfOk, OnOk, fold, bytes_eq};
ghost use Rattle.std.specs.List.{list_any};
ghost use Rattle.pssm_redefine.specs.Variables.{with_variable, machine_variables, class_variables};

use pssm_model::{Draft, DraftClass, DraftVar};
use std::alloc::{AllocError as NoMemory, Global};

// A second variable of this name and first value.
fn copy_of(alloc: Global, var: &DraftVar) -> Result<DraftVar, NoMemory>
    ensures { IfOk result (λ other. other ≡ var.now) }
{
    Ok(DraftVar {
        name: var.name.copy(alloc)?,
        first: var.first,
    })
}

// Whether one of the variables has this name.
fn is_known(kept: &[DraftVar], name: &[u8]) -> bool
    ensures { result ≡ list_any (λ k. bytes_eq k.name name.now) kept.now }
{
    kept.iter().any(|k| k.name.as_slice() == name)
}

// Puts a variable at the end, where none has its name.
fn add_variable(alloc: Global, kept: &mut Vec<DraftVar>, var: &DraftVar) -> Result<(), NoMemory>
    ensures { OnOk result (kept.new.items ≡ with_variable kept.old.items var.now) }
{
    if !is_known(kept, var.name.as_slice()) {
        kept.push(copy_of(alloc, var)?)?;
    }
    Ok(())
}

// Puts those of the variables at the end whose names are new.
fn add_variables(alloc: Global, kept: &mut Vec<DraftVar>, vars: &[DraftVar]) -> Result<(), NoMemory>
    ensures { OnOk result (kept.new.items ≡ fold with_variable kept.old.items vars.now) }
{
    for var in vars {
        add_variable(alloc, kept, var)?;
    }
    Ok(())
}

// The same for the variables of the classes that have a machine.
fn add_inherited(
    alloc: Global,
    draft: &Draft,
    machine: u32,
    kept: &mut Vec<DraftVar>,
) -> Result<(), NoMemory>
    ensures { OnOk result
        (kept.new.items ≡ fold with_variable kept.old.items (machine_variables draft.now machine)) }
{
    for class in draft.classes.as_slice() {
        if class.machine == machine {
            add_variables(alloc, kept, class.vars.as_slice())?;
        }
    }
    Ok(())
}

// The variables of a class whose machine stands at the end of this chain.
pub(crate) fn variables_of(
    alloc: Global,
    draft: &Draft,
    chain: &[u32],
    class: &DraftClass,
) -> Result<Vec<DraftVar>, NoMemory>
    ensures { IfOk result (λ vars. vars.items ≡ class_variables draft.now chain.now class.now) }
{
    let mut kept = Vec::new(alloc);
    let inherited = chain.len().saturating_sub(1);
    for machine in &chain[..inherited] {
        add_inherited(alloc, draft, *machine, &mut kept)?;
    }
    add_variables(alloc, &mut kept, class.vars.as_slice())?;
    Ok(kept)
}
