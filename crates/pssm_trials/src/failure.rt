//! Why a row does not hold.
use std::alloc::{AllocError, AllocFailed, Global};

/// Why a row does not hold: what came in the place of what is owed.
#[derive(Drop)]
pub enum Failure {
    Came(String),
    NoMemory,
}

impl From<AllocError> for Failure {
    fn from(_: AllocError) -> Failure {
        Failure::NoMemory
    }
}

impl<T: Drop> From<AllocFailed<T>> for Failure {
    fn from(_: AllocFailed<T>) -> Failure {
        Failure::NoMemory
    }
}

/// These words say what came.
pub fn came(alloc: Global, what: &str) -> Failure {
    match String::from_str(alloc, what) {
        Ok(what) => Failure::Came(what),
        Err(AllocError) => Failure::NoMemory,
    }
}

/// What came is what is owed, or else a failure that says both.
pub fn same(alloc: Global, of: &str, owed: &str, given: &str) -> Result<(), Failure> {
    if owed == given {
        Ok(())
    } else {
        Err(Failure::Came(format!(in alloc; "{of}: {given:?} came in place of {owed:?}")?))
    }
}

/// The number is the one that is owed, or else a failure that says both.
pub fn same_number(alloc: Global, of: &str, owed: usize, given: usize) -> Result<(), Failure> {
    if owed == given {
        Ok(())
    } else {
        Err(Failure::Came(format!(in alloc; "{of}: {given} came in place of {owed}")?))
    }
}

/// It is so, or else a failure with these words.
pub fn surely(alloc: Global, is_so: bool, otherwise: &str) -> Result<(), Failure> {
    if is_so {
        Ok(())
    } else {
        Err(came(alloc, otherwise))
    }
}
