//! What the judge answers of journals.
mod pieces;

use crate::tests::settings::setting_of;
use pssm_base::SureInputs;
use pssm_judge::{JudgeFault, LineFault, Rule, Verdict, judge};
use std::alloc::Global;
use std::test::Fail;

// An object whose machine goes from one State to another on a signal.
pub const MODEL: &[u8] =
    b"pssm-flat 1\nsignal Go 0\nclass M\nobject a M\nmachine M\nregion r0 top\n\
    vertex v0 r0 initial\nvertex v1 r0 state A\nvertex v2 r0 state B\n\
    transition t0 v0 v1 external\ntransition t1 v1 v2 external\non Go\nend\n";

// The lines of a start of the object, which comes to rest in its first State.
const START: &[u8] = b"pssm-journal 1\nstart a\nopen a r0 default by t0\neffect a t0\nenter a v1\n";

// What the journal of these files deserves as one of the model.
fn judged_from(
    alloc: Global,
    inputs: &mut SureInputs,
) -> Result<Result<Verdict, JudgeFault>, Fail> {
    let setting = setting_of(alloc, MODEL)?;
    Ok(judge(alloc, setting, inputs, "journal"))
}

// The file of a journal of a start and these bytes.
pub fn file_of(alloc: Global, more: &[u8]) -> Result<Vec<(String, Vec<u8>)>, Fail> {
    let mut bytes = START.to_vec(alloc)?;
    bytes.extend_from_slice(more)?;
    let mut files = Vec::new(alloc);
    files.push((String::from_str(alloc, "journal")?, bytes))?;
    Ok(files)
}

// What a journal of a start and these bytes deserves.
pub fn judged(alloc: Global, more: &[u8]) -> Result<Result<Verdict, JudgeFault>, Fail> {
    let mut inputs = SureInputs::new(file_of(alloc, more)?);
    judged_from(alloc, &mut inputs)
}

// How many entries, which entry and rule, and which line.
#[test]
fn judges_journals(rt: HostRuntime) -> Result<(), Fail> {
    let got = judged(rt.alloc(), b"post a.Go()\n")?;
    assert_eq!(rt; got, Ok(Verdict::Accept { entries: 5 }));
    let got = judged(rt.alloc(), b"take a 1 t1\n")?;
    let refused = Verdict::Refuse {
        entry: 5,
        rule: Rule::A6,
    };
    assert_eq!(rt; got, Ok(refused));
    let got = judged(rt.alloc(), b"post a.Go()\npost a.Go()")?;
    assert_eq!(rt; got, Err(JudgeFault::Text(LineFault::NoEnd { line: 7 })));
    let Err(JudgeFault::Text(LineFault::BadLine { line, .. })) = judged(
        rt.alloc(),
        b"take a 0 -\nenter b v1\n",
    )?
    else {
        return Err("another answer".into());
    };
    assert_eq!(rt; line, 6);
    Ok(())
}
