//! The totals of the machines on a way, noted from the last one back.
ghost use Rattle.std.specs.Prelude.{◌≡◌, ◌<◌, ◌+◌, length, min, sum_by, [], All, Contains, IfSome, slice_index_or};
ghost use Rattle.pssm_totals.specs.Totals.{ExtendWithin, count_at};
ghost use Rattle.pssm_totals.specs.inner.Ways.{IsOpenWay, IsCircleAt, AreRight, IsSettling};
ghost use Rattle.pssm_totals.specs.inner.Ways.{AreOpenOrDone, KeepsTotals, IsFilled, HasClosed};
ghost use Rattle.pssm_totals.specs.inner.Ways.{with_total, above};
ghost use Rattle.pssm_totals.specs.declared.marks.Mark.TheVariants as noted;

use crate::marks::{Mark, extended_by, total_of};
use crate::walking::Way;

// One above the limit, where totals are cut off.
const TOO_MANY: u32 = 65_536;

// The sum of two counts, cut off.
fn cut_sum(count: u32, total: u32) -> u32
    ensures { result ≡ min 65_536 (count + total) }
{
    if count >= TOO_MANY || total >= TOO_MANY || count + total >= TOO_MANY {
        return TOO_MANY;
    }
    count + total
}

// The total of the machine that a machine extends, or 0.
fn total_above(extends: &[Option<u32>], marks: &[Mark], m: usize) -> u32
    requires within { ExtendWithin extends.now }
    requires width { length marks.now ≡ length extends.now }
    requires there { m < length extends.now }
    ensures { result ≡ above extends.now marks.now m }
{
    match extended_by(extends, m) {
        Some(base) => total_of(marks[base]),
        None => 0,
    }
}

// Notes the total of a machine, where that of the one that it extends is noted.
fn note_total(extends: &[Option<u32>], own: &[u32], marks: &mut [Mark], m: usize)
    requires within { ExtendWithin extends.now }
    requires own { length own.now ≡ length extends.now }
    requires width { length marks.old ≡ length extends.now }
    requires there { m < length extends.now }
    ensures { marks.new ≡ with_total extends.now own.now marks.old m }
{
    let total = cut_sum(own[m], total_above(extends, marks, m));
    marks[m] = Mark::Total(total);
}

// Notes the totals of the machines of a path, from the last one back.
fn settle(extends: &[Option<u32>], own: &[u32], marks: &mut [Mark], mut path: Vec<usize>)
    requires within { ExtendWithin extends.now }
    requires own { length own.now ≡ length extends.now }
    requires open { IsSettling extends.now own.now marks.old path.items }
    ensures settled { IsSettling extends.now own.now marks.new [] }
    ensures kept { KeepsTotals marks.old marks.new }
    ensures done { AreOpenOrDone marks.new path.items [] }
{
    'back: while let Some(m) = path.pop() {
        note_total(extends, own, marks, m);
    }
}

// The sum of a count over some machines, cut off.
fn sum_over(own: &[u32], machines: &[usize]) -> u32
    requires { All (λ m. m < length own.now) machines.now }
    ensures { result ≡ min 65_536 (sum_by (count_at own.now) machines.now) }
{
    let mut total = 0;
    for m in machines {
        total = cut_sum(own[*m], total);
    }
    total
}

// Notes one total for some machines.
fn fill(marks: &mut [Mark], machines: &[usize], total: u32)
    requires { All (λ m. m < length marks.old) machines.now }
    ensures { IsFilled marks.old marks.new machines.now (noted.Total total) }
{
    for m in machines {
        marks[*m] = Mark::Total(total);
    }
}

// The place of a machine in a path.
fn place_of(path: &[usize], m: usize) -> usize
    requires { Contains path.now m }
    ensures there { result < length path.now }
    ensures is { slice_index_or path.now result m ≡ m }
{
    let mut place = 0;
    'places: while path[place] != m {
        place += 1;
    }
    place
}

// Notes the total of a circle, which begins with this machine of the path, and takes it off.
fn close(own: &[u32], marks: &mut [Mark], mut path: Vec<usize>, m: usize) -> Vec<usize>
    requires there { Contains path.items m }
    requires within { All (λ x. x < length own.now) path.items }
    requires width { length marks.old ≡ length own.now }
    ensures { HasClosed own.now marks.old marks.new path.items m result.items }
{
    let start = place_of(path.as_slice(), m);
    let circle = &path.as_slice()[start..];
    fill(marks, circle, sum_over(own, circle));
    path.truncate(start);
    path
}

// The machine of a way to which it came back, if it did.
fn circle_at(marks: &[Mark], next: Option<usize>) -> Option<usize>
    requires { IfSome next (λ at. at < length marks.now) }
    ensures { IsCircleAt marks.now next result }
{
    let at = next?;
    match marks[at] {
        Mark::Passed => Some(at),
        _ => None,
    }
}

// Notes the totals of the machines of a way.
pub(crate) fn note_totals(extends: &[Option<u32>], own: &[u32], marks: &mut [Mark], way: Way)
    requires within { ExtendWithin extends.now }
    requires own { length own.now ≡ length extends.now }
    requires way { IsOpenWay extends.now marks.old way.path.items way.next }
    requires right { AreRight extends.now own.now marks.old }
    ensures settled { IsSettling extends.now own.now marks.new [] }
    ensures kept { KeepsTotals marks.old marks.new }
    ensures done { AreOpenOrDone marks.new way.path.items [] }
{
    match circle_at(marks, way.next) {
        Some(m) => {
            let rest = close(own, marks, way.path, m);
            settle(extends, own, marks, rest)
        }
        None => settle(extends, own, marks, way.path),
    }
}
