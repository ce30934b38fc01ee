//! What no clause says: that lines are read where there is memory, and what their faults look like.
use pssm_lines::*;
use std::alloc::{AllocError, Global};
use std::test::Fail;

// How many outputs a text spells.
fn count_outs(alloc: Global, outs: OutsText<'_>) -> Result<usize, AllocError> {
    let mut text = outs;
    for count in 0..65 {
        match next_out(alloc, text)? {
            Some((_, rest)) => text = rest,
            None => return Ok(count),
        }
    }
    Ok(65)
}

#[test]
fn walks_the_outputs_of_a_line(rt: HostRuntime) -> Result<(), Fail> {
    let alloc = rt.alloc();
    match front_of(alloc, true, 2, b"exit a v1 !m(1,-2) >b.Go()\nstart b\n")? {
        Front::Line {
            parts: LineParts::Exit { outs, .. },
            rest,
        } => {
            assert_eq!(rt; count_outs(alloc, outs)?, 2);
            assert_eq!(rt; rest, b"start b\n".as_slice());
        }
        _ => return Err(Fail::from("no exit")),
    }
    Ok(())
}

// The fault at the front of the bytes of line 7.
fn fault_of(alloc: Global, bytes: &[u8]) -> Result<Option<LineFault>, AllocError> {
    match front_of(alloc, true, 7, bytes)? {
        Front::Fault(fault) => Ok(Some(fault)),
        _ => Ok(None),
    }
}

#[test]
fn a_number_of_a_signal_is_not_zero(rt: HostRuntime) -> Result<(), Fail> {
    let fault = fault_of(rt.alloc(), b"take a 07 -\n")?;
    assert_eq!(rt; fault, Some(LineFault::BadLine { line: 7, byte: 8 }));
    Ok(())
}

#[test]
fn a_line_that_is_begun_has_no_fault(rt: HostRuntime) -> Result<(), Fail> {
    let fault = fault_of(rt.alloc(), b"open a r0 shallow state v")?;
    assert_eq!(rt; fault, None);
    Ok(())
}

#[test]
fn writes_what_it_read(rt: HostRuntime) -> Result<(), Fail> {
    let alloc = rt.alloc();
    let mut reader = LineReader::new(alloc);
    let first = reader.feed(b"pssm-journal 1\ntake a 3 t1 t2+t")?;
    assert_eq!(rt; first.lines.as_slice().len(), 0);
    let second = reader.feed(b"3,t4\n")?;
    assert_eq!(rt; second.lines.as_slice().len(), 1);
    for line in second.lines.as_slice() {
        let written = write_line(alloc, line)?;
        assert_eq!(rt; written.as_slice(), b"take a 3 t1 t2+t3,t4\n".as_slice());
    }
    assert_eq!(rt; reader.finish(), None);
    Ok(())
}

#[test]
fn a_text_ends_within_line_2(rt: HostRuntime) -> Result<(), Fail> {
    let mut reader = LineReader::new(rt.alloc());
    let _fed = reader.feed(b"pssm-journal 1\nsta")?;
    assert_eq!(rt; reader.finish(), Some(LineFault::NoEnd { line: 2 }));
    Ok(())
}
