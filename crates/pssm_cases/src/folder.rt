//! The files of a folder.

use std::rt::Files;
use std::{env, fs, io};

/// The folder that the first word of a program names, or the one that it runs in where there is no word.
pub fn folder_of(rt: &HostRuntime) -> io::Result<String> {
    match env::args(rt)?.nth(1) {
        Some(folder) => Ok(folder),
        None => Ok(String::from_str(rt.alloc(), ".")?),
    }
}

/// The names in a folder that end with `ending`, in order.
pub fn names_in<R: Files + AllocGlobal + Clone + Drop>(
    rt: &R,
    folder: &str,
    ending: &str,
) -> io::Result<Vec<String>> {
    let mut names = Vec::new(rt.alloc());
    for entry in fs::read_dir(rt, folder)? {
        let entry = entry?;
        if entry.file_name().ends_with(ending) {
            names.push(String::from_str(rt.alloc(), entry.file_name())?)?;
        }
    }
    names.sort_unstable();
    Ok(names)
}
