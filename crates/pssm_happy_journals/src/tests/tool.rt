//! A call over inputs and a sink that cannot fail. The cases in the files of `pssm_rows` run over some that can.
ghost use Rattle.std.specs.Prelude.{◌≢◌};

use pssm_base::{Gate, SureInputs, SureSink};
use pssm_tool::{Status, pssm};
use std::alloc::Global;
use std::sync::Wait;
use std::test::Fail;
use std::thread::Threads;

// A gate for commands that come to none.
struct NoGate;

impl Gate for NoGate {
    fn before(&self, _object: u8, _turn: u64) {}
}

// Over inputs and a sink that never fail there is neither a read fault nor a write fault.
fn surely<R: Threads + Wait + Sync>(
    rt: &R,
    alloc: Global,
    words: &[String],
    inputs: &mut SureInputs,
    out: &mut SureSink,
) -> Status
    ensures no_read_fault { result.code ≢ 5 }
    ensures no_write_fault { result.code ≢ 6 }
{
    pssm(rt, alloc, words, inputs, out, &NoGate)
}

#[test]
fn answers(rt: HostRuntime) -> Result<(), Fail> {
    let alloc = rt.alloc();
    let words = vec![in alloc; String::from_str(alloc, "judge")?]?;
    let mut inputs = SureInputs::new(Vec::new(alloc));
    let mut out = SureSink::new();
    let status = surely(&rt, alloc, words.as_slice(), &mut inputs, &mut out);
    assert_eq!(rt; status.code, 2);
    Ok(())
}
