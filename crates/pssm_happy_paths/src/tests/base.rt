//! What no clause says: that the calls succeed with ample memory, and that real files are passed on.
mod caller;

use caller::{Stop, copy_second, copy_surely};
use pssm_base::*;
use std::alloc::Global;
use std::test::Fail;
use std::{env, fs, io, process};

const ANSWER: &[u8] = b"accept 9";

// A file in memory.
fn file(alloc: Global, path: &str, bytes: &[u8]) -> Result<(String, Vec<u8>), NoMemory> {
    let path = String::from_str(alloc, path)?;
    Ok((path, bytes.to_vec(alloc)?))
}

// Three paths, one of them with more bytes than are read at a time.
fn three_files(alloc: Global) -> Result<Vec<(String, Vec<u8>)>, NoMemory> {
    let mut files = Vec::with_capacity(alloc, 3)?;
    files.push(file(alloc, "answer", ANSWER)?)?;
    files.push(file(alloc, "empty", b"")?)?;
    files.push(file(alloc, "long", &[7; 70000])?)?;
    Ok(files)
}

// The three files, of which a read passes on at most `most` bytes, and the read with the number `fails` fails.
fn inputs(alloc: Global, most: usize, fails: u64) -> Result<MemInputs, NoMemory> {
    let fails = vec![in alloc; fails]?;
    Ok(MemInputs::new(three_files(alloc)?, fails, most.max(1)))
}

// How many bytes are read whole from a path.
fn read_count<I: Inputs>(
    alloc: Global,
    inputs: &mut I,
    path: &str,
    limit: u32,
) -> Result<usize, WholeFault> {
    let bytes = read_whole(alloc, inputs, path, u64::from(limit))?;
    Ok(bytes.len())
}

// How many bytes are read whole from a path of the three files.
fn read_of_three(
    alloc: Global,
    path: &str,
    limit: u32,
    most: usize,
    fails: u64,
) -> Result<usize, WholeFault> {
    read_count(alloc, &mut inputs(alloc, most, fails)?, path, limit)
}

// A path, its limit, how many bytes a read passes on, which read fails, and what is owed.
const READS: [(&str, u32, usize, u64, Result<usize, WholeFault>); 9] = [
    ("answer", 8, 1, 9, Ok(8)),
    ("answer", 8, 3, 9, Ok(8)),
    ("answer", 7, 3, 9, Err(WholeFault::TooLarge)),
    ("answer", 8, 3, 2, Err(WholeFault::ReadFault)),
    ("answer", 0, 100, 9, Err(WholeFault::TooLarge)),
    ("empty", 0, 100, 9, Ok(0)),
    ("missing", 8, 100, 9, Err(WholeFault::ReadFault)),
    ("long", 70000, 100000, 99, Ok(70000)),
    ("long", 69999, 100000, 99, Err(WholeFault::TooLarge)),
];

#[test]
fn a_path_is_read_whole(rt: HostRuntime) -> Result<(), Fail> {
    for (path, limit, most, fails, want) in &READS {
        let got = read_of_three(rt.alloc(), path, *limit, *most, *fails);
        assert!(rt; got == *want, "{path}");
    }
    Ok(())
}

// What giving the answer to a sink says, and whether the sink has taken these bytes.
fn put_answer(
    alloc: Global,
    room: usize,
    fails: u64,
    most: usize,
    taken: &[u8],
) -> Result<(Result<(), Failed>, bool), NoMemory> {
    let fails = vec![in alloc; fails]?;
    let mut out = MemSink::new(alloc, room, fails, most.max(1))?;
    let said = put_all(&mut out, ANSWER);
    Ok((said, out.bytes() == taken))
}

// The room of a sink, which call fails, how many bytes a call takes, what is owed, and what the sink has then.
const PUTS: [(usize, u64, usize, Result<(), Failed>, &str); 5] = [
    (20, 9, 1, Ok(()), "accept 9"),
    (8, 9, 3, Ok(()), "accept 9"),
    (20, 1, 3, Err(Failed), "acc"),
    (4, 9, 100, Err(Failed), "acce"),
    (20, 0, 100, Err(Failed), ""),
];

#[test]
fn all_bytes_are_put(rt: HostRuntime) -> Result<(), Fail> {
    for (room, fails, most, want, taken) in &PUTS {
        let (said, kept) = put_answer(rt.alloc(), *room, *fails, *most, taken.as_bytes())?;
        assert!(rt; kept && said == *want, "{taken}");
    }
    Ok(())
}

// What copying the second of two of the three files says, and whether the sink has taken these bytes.
fn copied(
    alloc: Global,
    one: &str,
    two: &str,
    taken: &[u8],
) -> Result<(Result<(), Stop>, bool), NoMemory> {
    let mut out = MemSink::new(alloc, 20, Vec::new(alloc), 3)?;
    let said = copy_second(alloc, &mut inputs(alloc, 3, u64::MAX)?, &mut out, one, two);
    Ok((said, out.bytes() == taken))
}

// Two paths, what copying the second is owed, and what the sink has then.
const COPIES: [(&str, &str, Result<(), Stop>, &str); 2] = [
    ("empty", "answer", Ok(()), "accept 9"),
    ("answer", "long", Err(Stop::Large), ""),
];

#[test]
fn a_caller_over_both(rt: HostRuntime) -> Result<(), Fail> {
    for (one, two, want, taken) in &COPIES {
        let (said, kept) = copied(rt.alloc(), one, two, taken.as_bytes())?;
        assert!(rt; kept && said == *want, "{two}");
    }
    Ok(())
}

#[test]
fn a_missing_path_is_surely_empty(rt: HostRuntime) -> Result<(), Fail> {
    let mut inputs = SureInputs::new(three_files(rt.alloc())?);
    assert_eq!(rt; read_count(rt.alloc(), &mut inputs, "missing", 0), Ok(0));
    Ok(())
}

#[test]
fn a_caller_is_sure(rt: HostRuntime) -> Result<(), Fail> {
    let mut inputs = SureInputs::new(three_files(rt.alloc())?);
    assert_eq!(rt;
        copy_surely(rt.alloc(), &mut inputs, "missing", "answer"),
        Ok(())
    );
    Ok(())
}

// How many bytes are read whole from a path of the system.
fn read_real(rt: &HostRuntime, path: &str, limit: u32) -> Result<usize, WholeFault> {
    read_count(
        rt.alloc(),
        &mut FileInputs::new(rt, rt.alloc()),
        path,
        limit,
    )
}

// What reading says of a file of 70,000 bytes, which is made and taken away again.
fn read_long(rt: &HostRuntime, path: &str, limit: u32) -> io::Result<Result<usize, WholeFault>> {
    fs::write(rt, path, &[7; 70000])?;
    let said = read_real(rt, path, limit);
    fs::remove_file(rt, path)?;
    Ok(said)
}

// A path for a file that the system keeps for a while.
fn temporary_path(rt: &HostRuntime, name: &str) -> Result<String, Fail> {
    let id = process::id(rt.process());
    let name = format!(in rt.alloc(); "pssm_base_{id}_{name}")?;
    let path = env::temp_dir(rt)?.join(rt.alloc(), name.as_str())?;
    let path = path.as_path().to_str().ok_or("a path that is no text")?;
    Ok(path.to_string(rt.alloc())?)
}

// What reading says of a long file among those that the system keeps for a while.
fn read_temporary(rt: &HostRuntime, limit: u32) -> Result<Result<usize, WholeFault>, Fail> {
    let name = format!(in rt.alloc(); "{limit}")?;
    let path = temporary_path(rt, name.as_str())?;
    Ok(read_long(rt, path.as_str(), limit)?)
}

#[test]
fn a_real_file_is_read(rt: HostRuntime) -> Result<(), Fail> {
    assert_eq!(rt; read_temporary(&rt, 70000)?, Ok(70000));
    Ok(())
}

#[test]
fn a_real_file_is_too_large(rt: HostRuntime) -> Result<(), Fail> {
    assert_eq!(rt; read_temporary(&rt, 69999)?, Err(WholeFault::TooLarge));
    Ok(())
}

// Three bytes of a path, from a place on.
fn three_from<I: Inputs>(inputs: &mut I, path: &str, from: u64) -> Result<[u8; 3], Failed> {
    let mut into = [0; 3];
    inputs.read_at(path, from, &mut into)?;
    Ok(into)
}

// Whether the bytes of two files are read where they stand, in turn.
fn reads_in_turn(rt: &HostRuntime, one: &str, two: &str) -> Result<bool, Failed> {
    let mut inputs = FileInputs::new(rt, rt.alloc());
    Ok(
        three_from(&mut inputs, one, 2)? == [2, 3, 4]
            && three_from(&mut inputs, two, 4)? == [104, 105, 106]
            && three_from(&mut inputs, one, 5)? == [5, 6, 7]
            && three_from(&mut inputs, two, 0)? == [100, 101, 102],
    )
}

// The same of two files that are made and taken away again.
fn two_read_in_turn(rt: &HostRuntime, one: &str, two: &str) -> io::Result<Result<bool, Failed>> {
    fs::write(rt, one, &[0, 1, 2, 3, 4, 5, 6, 7])?;
    fs::write(rt, two, &[100, 101, 102, 103, 104, 105, 106, 107])?;
    let said = reads_in_turn(rt, one, two);
    fs::remove_file(rt, one)?;
    fs::remove_file(rt, two)?;
    Ok(said)
}

#[test]
fn two_real_files_are_read_in_turn(rt: HostRuntime) -> Result<(), Fail> {
    let one = temporary_path(&rt, "one")?;
    let two = temporary_path(&rt, "two")?;
    let said = two_read_in_turn(&rt, one.as_str(), two.as_str())?;
    assert_eq!(rt; said, Ok(true));
    Ok(())
}

#[test]
fn what_is_no_file_is_a_read_fault(rt: HostRuntime) -> Result<(), Fail> {
    let said = (read_real(&rt, "no such file", 8), read_real(&rt, "/", 8));
    assert!(rt; said == (Err(WholeFault::ReadFault), Err(WholeFault::ReadFault)));
    Ok(())
}

#[test]
fn standard_output_takes_bytes(rt: HostRuntime) -> Result<(), Fail> {
    let mut out = StdoutSink::new(&rt);
    assert_eq!(rt; put_all(&mut out, ANSWER), Ok(()));
    Ok(())
}
