//! The generated model of a number, as a flat text, and its stimuli.
ghost use Rattle.std.specs.Prelude.{◌≡◌, ◌≤◌, ◌++◌, OnOk, IfOk, map};
ghost use Rattle.std.specs.List.{flat_map};
ghost use Rattle.std.specs.Fmt.{decimal};
ghost use Rattle.pssm_flat.specs.Text.{line, text_of};
ghost use Rattle.pssm_suite.specs.Generated.{up_to, state_line, next_state, step_lines};
ghost use Rattle.pssm_suite.specs.Generated.{generated_text, generated_stimuli};

use pssm_model::SignalId;
use pssm_semantics::{Args, ObjectId, Stimulus};
use pssm_spelling::put_number;
use std::alloc::{AllocError as NoMemory, Global};

// What stands before the States of the first class.
const HEAD: &[u8] = b"pssm-flat 1
signal Go 0
class Front
class Back
object a Front
object b Back
machine Front
region r0 top
vertex v0 r0 initial
";

// What stands behind the transitions of the first class.
const BACK: &[u8] = b"machine Back
region r0 top
region r1 v1
region r2 v1
vertex v0 r0 initial
vertex v1 r0 state S
vertex v2 r1 initial
vertex v3 r1 state P
vertex v4 r1 state P2
vertex v5 r2 initial
vertex v6 r2 state R
vertex v7 r2 state R2
transition t0 v0 v1 external
transition t1 v2 v3 external
transition t2 v5 v6 external
transition t3 v3 v4 external
on Go
transition t4 v6 v7 external
on Go
transition t5 v4 v3 external
on Go
transition t6 v7 v6 external
on Go
end
";

/// The generated model of a number, as a flat text, and the stimuli for it.
pub fn generate(alloc: Global, n: u16) -> Result<(Vec<u8>, Vec<Stimulus>), NoMemory>
    requires some { 1 ≤ n }
    requires few { n ≤ 4000 }
    ensures text { IfOk result (λ made. made.0.items ≡ generated_text n) }
    ensures stimuli { IfOk result (λ made. made.1.items ≡ generated_stimuli n) }
{
    let mut text = Vec::new(alloc);
    put_model(alloc, &mut text, n)?;
    let stimuli = make_stimuli(alloc, n)?;
    Ok((text, stimuli))
}

// Writes the lines of the model.
fn put_model(alloc: Global, text: &mut Vec<u8>, n: u16) -> Result<(), NoMemory>
    requires few { n ≤ 4000 }
    ensures { OnOk result (text.new.items ≡ text.old.items ++ generated_text n) }
{
    text.extend_from_slice(HEAD)?;
    put_states(alloc, text, n)?;
    text.extend_from_slice(b"transition t0 v0 v1 external\n")?;
    put_steps(alloc, text, n)?;
    text.extend_from_slice(BACK)?;
    Ok(())
}

// Writes a word and a number.
fn put_numbered(alloc: Global, text: &mut Vec<u8>, word: &[u8], number: u16) -> Result<(), NoMemory>
    ensures { OnOk result (text.new.items ≡ text.old.items ++ (word.now ++ decimal number)) }
{
    text.extend_from_slice(word)?;
    put_number(alloc, text, u64::from(number))
}

// Writes the line of a State of the circle.
fn put_state(alloc: Global, text: &mut Vec<u8>, number: u16) -> Result<(), NoMemory>
    ensures { OnOk result (text.new.items ≡ text.old.items ++ line (state_line number)) }
{
    put_numbered(alloc, text, b"vertex v", number)?;
    text.extend_from_slice(b" r0 state\n")
}

// Writes the lines of the circle's States.
fn put_states(alloc: Global, text: &mut Vec<u8>, n: u16) -> Result<(), NoMemory>
    requires few { n ≤ 4000 }
    ensures { OnOk result (text.new.items ≡ text.old.items ++ text_of (map state_line (up_to n))) }
{
    for number in 1..n + 1 {
        put_state(alloc, text, number)?;
    }
    Ok(())
}

// The State behind a State of the circle.
fn next_state(n: u16, number: u16) -> u16
    requires few { n ≤ 4000 }
    requires state { number ≤ n }
    ensures { result ≡ next_state n number }
{
    if number == n { 1 } else { number + 1 }
}

// Writes the lines of the transition that leaves a State of the circle.
fn put_step(alloc: Global, text: &mut Vec<u8>, n: u16, number: u16) -> Result<(), NoMemory>
    requires few { n ≤ 4000 }
    requires state { number ≤ n }
    ensures { OnOk result (text.new.items ≡ text.old.items ++ text_of (step_lines n number)) }
{
    put_numbered(alloc, text, b"transition t", number)?;
    put_numbered(alloc, text, b" v", number)?;
    put_numbered(alloc, text, b" v", next_state(n, number))?;
    text.extend_from_slice(b" external\non Go\neffect send b.Go();\n")?;
    Ok(())
}

// Writes the lines of the transitions that lead round the circle.
fn put_steps(alloc: Global, text: &mut Vec<u8>, n: u16) -> Result<(), NoMemory>
    requires few { n ≤ 4000 }
    ensures { OnOk result (text.new.items ≡ text.old.items ++ text_of (flat_map (step_lines n) (up_to n))) }
{
    for number in 1..n + 1 {
        put_step(alloc, text, n, number)?;
    }
    Ok(())
}

// The signal `Go` for the first object, so many times.
fn make_stimuli(alloc: Global, n: u16) -> Result<Vec<Stimulus>, NoMemory>
    ensures { IfOk result (λ stimuli. stimuli.items ≡ generated_stimuli n) }
{
    let mut stimuli = Vec::new(alloc);
    for _ in 0..n {
        stimuli.push(Stimulus {
            object: ObjectId(0),
            signal: SignalId(0),
            args: Args::from_vec(Vec::new(alloc)),
        })?;
    }
    Ok(stimuli)
}
