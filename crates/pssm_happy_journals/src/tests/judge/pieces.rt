//! Journals that are read in pieces: how much is asked for at once, and that the answer is the same whatever a read
//! passes on.
ghost use Rattle.std.specs.Prelude.{◌<◌, ◌≤◌, length, None, IfOk, IsOk};

use crate::tests::judge::{MODEL, file_of, judged};
use crate::tests::settings::setting_of;
use pssm_base::{Failed, Inputs, MemInputs, SureInputs};
use pssm_judge::{JudgeFault, LineFault, Verdict, judge};
use std::alloc::Global;
use std::test::Fail;

// Inputs that note how many bytes were asked for at once.
#[derive(Drop)]
struct Watched {
    inputs: SureInputs,
    most: usize,
}

impl Inputs for Watched {
    ghost content = { λ watched path. None };

    ghost history = { λ watched. None };

    ghost faults = { λ watched path. 0 };

    fn read_at(&mut self, path: &str, from: u64, into: &mut [u8]) -> Result<usize, Failed>
        requires { 0 < length into.old }
        ensures within { IfOk result (λ n. n ≤ length into.old) }
        ensures sure { IsOk result }
    {
        self.most = self.most.max(into.len());
        self.inputs.read_at(path, from, into)
    }
}

// So many posts.
fn posts(alloc: Global, count: usize) -> Result<Vec<u8>, Fail> {
    let mut bytes = Vec::new(alloc);
    for _ in 0..count {
        bytes.extend_from_slice(b"post a.Go()\n")?;
    }
    Ok(bytes)
}

// More lines than one piece holds, the next after the other.
#[test]
fn asks_for_no_more_than_a_piece(rt: HostRuntime) -> Result<(), Fail> {
    let alloc = rt.alloc();
    let setting = setting_of(alloc, MODEL)?;
    let more = posts(alloc, 20_000)?;
    let inputs = SureInputs::new(file_of(alloc, more.as_slice())?);
    let mut watched = Watched { inputs, most: 0 };
    let got = judge(alloc, setting, &mut watched, "journal");
    assert_eq!(rt; got, Ok(Verdict::Accept { entries: 20_004 }));
    assert!(rt; watched.most <= 65_536);
    Ok(())
}

// What a journal of a start and these bytes deserves, of which a read passes on at most so many.
fn judged_by(alloc: Global, more: &[u8], most: usize) -> Result<Result<Verdict, JudgeFault>, Fail> {
    let setting = setting_of(alloc, MODEL)?;
    let files = file_of(alloc, more)?;
    let mut inputs = MemInputs::new(files, Vec::new(alloc), most.max(1));
    Ok(judge(alloc, setting, &mut inputs, "journal"))
}

// The second of two lines is cut, has a fault behind one, or breaks a rule before one.
const TEXTS: [&str; 4] = [
    "post a.Go()\npost a.Go()\n",
    "post a.Go()\npost a.G",
    "post a.Go()\ntake a 0 -\nenter b v1\n",
    "take a 1 t1\ntake a 0 -\n",
];

// How many bytes a read passes on.
const PASSED: [usize; 6] = [1, 2, 3, 7, 12, 64];

#[test]
fn pieces_make_no_difference(rt: HostRuntime) -> Result<(), Fail> {
    for text in &TEXTS {
        let whole = judged(rt.alloc(), text.as_bytes())?;
        for most in &PASSED {
            let got = judged_by(rt.alloc(), text.as_bytes(), *most)?;
            assert!(rt; got == whole, "{text}");
        }
    }
    Ok(())
}

// The same, for a line of more bytes than a piece.
const LONG: [usize; 2] = [30_000, 65_536];

// A line of more than 65,536 bytes, none of which goes wrong, in two pieces and in more.
#[test]
fn a_long_line_is_too_long_in_pieces_too(rt: HostRuntime) -> Result<(), Fail> {
    let mut line = b"take a 1 t1".to_vec(rt.alloc())?;
    for _ in 0..30_000 {
        line.extend_from_slice(b"+t1")?;
    }
    for most in &LONG {
        let got = judged_by(rt.alloc(), line.as_slice(), *most)?;
        assert_eq!(rt; got, Err(JudgeFault::Text(LineFault::LongLine { line: 6 })));
    }
    Ok(())
}
