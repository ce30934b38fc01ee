//! Saying which rows hold.
use crate::failure::Failure;
use std::io;
use std::process::ExitCode;

/// Prints what became of a row. True where it holds.
pub fn told(rt: &impl Print, name: &str, outcome: Result<(), Failure>) -> io::Result<bool> {
    match outcome {
        Ok(()) => {
            println!(rt; "{name} holds")?;
            Ok(true)
        }
        Err(Failure::Came(what)) => {
            println!(rt; "{name}: {what}")?;
            Ok(false)
        }
        Err(Failure::NoMemory) => {
            println!(rt; "{name}: no memory")?;
            Ok(false)
        }
    }
}

/// Success where every row holds.
pub fn status_of(holds: &[bool]) -> ExitCode {
    if holds.contains(&false) {
        ExitCode::FAILURE
    } else {
        ExitCode::SUCCESS
    }
}
