//! A setting from its flat text.
ghost use Rattle.std.specs.Prelude.{◌≡◌, ◌≢◌, ◌⊎◌, ◌≤◌, ◌<◌, ◌+◌, ◌∷◌, [], ℕ, List, length, take, IfOk, IfErr, Option, Some, Ok, None};
ghost use Rattle.std.specs.List.{prefix_len};
ghost use Rattle.std.specs.Option.{option_map};
ghost use Rattle.pssm_semantics.specs.declared.setting.Setting.{Setting};
ghost use Rattle.pssm_flat.specs.declared.fault.FlatFault.{FlatFault};
ghost use Rattle.pssm_flat.specs.Text.{flat_text};
ghost use Rattle.pssm_flat.specs.Flat.{is_inner, IsFlat};
ghost use Rattle.pssm_semantics.specs.Proper.{IsProper};
ghost use Rattle.pssm_flat.specs.Faults.{IsFlatFault};
ghost use Rattle.pssm_flat.specs.inner.Outlines.{told_of, after_block as after_block_line, after_line, after_bytes, machine_of, IsInner, line_front, IsSmallBlock, IsSmall, open_size, AreShaped, IsShaped, HasRead, IsNoNext, StopsAt};
ghost use Rattle.pssm_flat.specs.inner.Places.{machine_size};

use crate::block::Block;
use crate::closing::after_block;
use crate::fault::FlatFault;
use crate::head::Head;
use crate::line::{Line, line_of};
use crate::outline::{Outline, after_nothing, after_the_head, grown};
use crate::refusal::refused;
use pssm_acts::ActFault;
use pssm_model::Row;
use pssm_semantics::{Class, Setting};
use pssm_spelling::strip;
use std::alloc::Global;

// How many bytes stand before the first line feed.
fn line_len(bytes: &[u8]) -> usize
    ensures front { result ≡ prefix_len is_inner bytes.now }
    ensures within { result ≤ length bytes.now }
{
    bytes.iter().take_while(|b| **b != b'\n').count()
}

// The first line without its line feed, and the bytes behind it. None where no line feed follows.
#[tactic(auto, unfolding(crate::specs::inner::Outlines::line_front))]
fn line_at(bytes: &[u8]) -> Option<(&[u8], &[u8])>
    ensures { option_map (λ x. (x.0.now, x.1.now)) result ≡ line_front bytes.now }
{
    let (line, end) = bytes.split_at(line_len(bytes));
    let rest = strip(end, b"\n")?;
    Some((line, rest))
}

// What was read, or the fault of the line with this number.
fn told(read: Result<Option<Outline>, ActFault>, line: u32) -> Result<Outline, FlatFault>
    ensures { result ≡ told_of line read }
{
    match read {
        Ok(Some(next)) => Ok(next),
        Ok(None) => Err(FlatFault::BadLine { line }),
        Err(ActFault::NoMemory) => Err(FlatFault::NoMemory),
        Err(fault) => Err(FlatFault::Act { line, fault }),
    }
}

// What is read with one more line where a block is open; the line has the number.
fn after_open(
    alloc: Global,
    head: Head,
    done: Row<Class>,
    block: Block,
    line: Line,
    number: u32,
) -> Result<Outline, FlatFault>
    requires small { IsSmallBlock block }
    requires room { machine_size (machine_of block) ≤ number }
    ensures read { IfOk result (λ next. after_block_line head done block line ≡ Ok (Some next)) }
    ensures shaped { IfOk result (λ next. AreShaped done → IsShaped next) }
    ensures stuck { IfErr result (IsNoNext (Outline.Open head done block) (after_block_line head done block line) number) }
{
    match line {
        Line::Machine { name } => {
            after_block(alloc, head, done, block, Line::Machine { name }, number)
        }
        Line::End => after_block(alloc, head, done, block, Line::End, number),
        more => told(grown(alloc, head, done, block, more), number),
    }
}

// What is read with one more line, which has the number.
fn next_of(alloc: Global, outline: Outline, line: Line, number: u32) -> Result<Outline, FlatFault>
    requires small { IsSmall outline }
    requires room { open_size outline ≤ number }
    ensures read { IfOk result (λ next. after_line outline line ≡ Ok (Some next)) }
    ensures shaped { IfOk result (λ next. IsShaped outline → IsShaped next) }
    ensures stuck { IfErr result (IsNoNext outline (after_line outline line) number) }
{
    match outline {
        Outline::Start => told(Ok(after_nothing(alloc, line)), number),
        Outline::Heading(head) => told(Ok(after_the_head(alloc, head, line)?), number),
        Outline::Open { head, done, block } => {
            after_open(alloc, head, done, block, line, number)
        }
        Outline::Ended(setting) => { refused((setting, line), FlatFault::BadLine { line: number }) }
    }
}

// What is read with the line of these bytes, which has the number.
#[tactic(auto, unfolding(crate::specs::inner::Outlines::after_bytes))]
fn next_at(alloc: Global, outline: Outline, bytes: &[u8], number: u32) -> Result<Outline, FlatFault>
    requires inner { IsInner bytes.now }
    requires small { IsSmall outline }
    requires room { open_size outline ≤ number }
    ensures read { IfOk result (λ next. after_bytes outline bytes.now ≡ Ok (Some next)) }
    ensures shaped { IfOk result (λ next. IsShaped outline → IsShaped next) }
    ensures stuck { IfErr result (IsNoNext outline (after_bytes outline bytes.now) number) }
{
    match line_of(alloc, bytes) {
        Ok(Some(line)) => next_of(alloc, outline, line, number),
        Ok(None) => refused(outline, FlatFault::BadLine { line: number }),
        Err(_) => refused(outline, FlatFault::NoMemory),
    }
}

// All that the lines of a text say, up to its last line.
#[derive(Drop)]
struct Whole<'a> {
    setting: Setting,
    rest: &'a [u8],
    line: u32,
}

// What the lines say up to the last line of a text, the bytes behind it, and the number of the line there.
fn whole_of(alloc: Global, bytes: &[u8]) -> Result<Whole<'_>, FlatFault>
    requires { length bytes.now ≤ 16777216 }
    ensures read { IfOk result (λ w. HasRead bytes.now (Outline.Ended w.setting) w.rest.now w.line) }
    ensures stops { IfErr result (λ f. (f ≡ FlatFault.NoMemory) ⊎ StopsAt bytes.now f) }
{
    let mut outline = Outline::Start;
    let mut rest = bytes;
    let mut line = 1u32;
    loop {
        let Some((text, after)) = line_at(rest) else {
            return refused(outline, FlatFault::BadLine { line });
        };
        let next = next_at(alloc, outline, text, line)?;
        rest = after;
        line += 1;
        match next {
            Outline::Ended(setting) => {
                return Ok(Whole {
                    setting,
                    rest,
                    line,
                });
            }
            open => outline = open,
        }
    }
}

/// The setting that the whole text spells: what is read has exactly that text, and each such text is read unless
/// memory runs out.
///
/// `BadLine`: the line is the first that cannot stand there. `Shape`: a machine whose block was read to its end lacks
/// the shape of one, and the element that the fault names stands on the line. `Act`: the action text of the line has
/// this fault, and with a right one in its place the line could stand there (this profile's choice). `NoMemory`: memory
/// ran out.
pub fn read_flat(alloc: Global, bytes: &[u8]) -> Result<Setting, FlatFault>
    requires { length bytes.now ≤ 16777216 }
    ensures flat { IfOk result IsFlat }
    // Its numbers are in range, its names differ, and it keeps the limits.
    ensures proper { IfOk result IsProper }
    // What is read has this text, each byte of it.
    ensures found { IfOk result (λ s. bytes.now ≡ flat_text s) }
    // A refusal has its cause, on its line.
    ensures fault { IfErr result (λ f. (f ≡ FlatFault.NoMemory) ⊎ IsFlatFault bytes.now f) }
{
    let Whole {
        setting,
        rest,
        line,
    } = whole_of(alloc, bytes)?;
    if rest.is_empty() {
        Ok(setting)
    } else {
        refused(setting, FlatFault::BadLine { line })
    }
}

/// Each text is read in one way: no two settings have one text, no text has two faults, no text of a setting has a
/// fault, and no text is neither that of a setting nor has a fault.
pub fn one_reading()
    ensures one_setting { (a b : Setting) → IsFlat a → IsFlat b → flat_text a ≡ flat_text b → a ≡ b }
    ensures one_fault { (bytes : List ℕ) (f g : FlatFault)
        → IsFlatFault bytes f → IsFlatFault bytes g → f ≡ g }
    ensures not_both { (s : Setting) (f : FlatFault) → IsFlat s → IsFlatFault (flat_text s) f → ⊥ }
    ensures some { (bytes : List ℕ) → ((s : Setting) → IsFlat s → bytes ≢ flat_text s)
        → ((f : FlatFault) → IsFlatFault bytes f → ⊥) → ⊥ }
{}
