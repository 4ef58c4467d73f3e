// Refusal 15 of a mending list, at its first bad line: from the text and the faces alone, in one pass over the lines and one over the faces.
#![tactic(auto)]

ghost use Rattle.std.specs.Prelude.{◌≡◌, List, ℕ, ◌+◌, ◌*◌, ◌/◌, ◌<◌, ◌≤◌, length};
ghost use Rattle.rules.specs.Mending as rule;
ghost use Rattle.refuse.specs.Accepted as input;
ghost use Rattle.list_lines.specs.Lines as line;
ghost use Rattle.list_check.specs.Standing as by;
ghost use Rattle.list_check.specs.Steps as step;

use list_lines::{Line, Reason};
use refuse::Refusal;

// Section and numbers of a line: in this order lines stand.
#[derive(Clone, Copy, Debug, PartialEq, Eq, PartialOrd, Ord)]
struct Place {
    section: u32,
    first: u32,
    second: u32,
}

// What a line makes that applies: where it ends, its place, and how many points were split off.
#[derive(Clone, Copy, Debug, PartialEq, Eq)]
struct Step {
    end: usize,
    place: Place,
    splits: usize,
}

// What a line makes that is not bad: it is a `u` line, or it applies.
#[derive(Clone, Copy, Debug, PartialEq, Eq)]
enum Turn {
    Unused,
    On(Step),
}

// The first `u` line: where it begins, its number, and how many points were split off.
#[derive(Clone, Copy, Debug, PartialEq, Eq)]
struct FirstUnused {
    at: usize,
    line: usize,
    splits: usize,
}

// A `u` line: its point, and where it ends.
#[derive(Clone, Copy, Debug, PartialEq, Eq)]
struct UnusedPoint {
    point: usize,
    end: usize,
}

// The section of a dropped face, by its reason.
#[tactic(auto, unfolding(crate::specs::Standing::section_of))]
fn section_of(reason: Reason) -> u32
    ensures { result ≡ by.section_of reason }
{
    match reason {
        Reason::Repeated | Reason::Thin => 1,
        Reason::Duplicate => 2,
        Reason::Edge => 3,
        Reason::Direction => 5,
    }
}

// ---- one line

// A `d` line.
fn drop_line(
    marks: &mut [u8],
    n: usize,
    face: u32,
    reason: Reason,
    end: usize,
    last: Place,
    splits: usize,
) -> Option<Step>
    requires { n ≤ length marks.old }
    ensures { (P : ℕ) (xs u : List ℕ) → length xs / 3 ≡ n → step.Ready P xs marks.old u splits
        → step.LineGives P xs (rule.dropped_face face (line.reason reason)) end marks.old u last.section last.first last.second splits marks.new u result }
{
    let place = Place {
        section: section_of(reason),
        first: face,
        second: 0,
    };
    if last >= place {
        return None;
    }
    if !face_marks::is_here(marks, n, face) {
        return None;
    }
    marks[face as usize] = 1;
    Some(Step { end, place, splits })
}

// An `o` line.
fn exchange_line(
    marks: &[u8],
    n: usize,
    face: u32,
    end: usize,
    last: Place,
    splits: usize,
) -> Option<Step>
    requires { n ≤ length marks.now }
    ensures { (P : ℕ) (xs u : List ℕ) → length xs / 3 ≡ n → step.Ready P xs marks.now u splits
        → step.LineGives P xs (rule.exchange face) end marks.now u last.section last.first last.second splits marks.now u result }
{
    let place = Place {
        section: 4,
        first: face,
        second: 0,
    };
    if last >= place {
        return None;
    }
    if !face_marks::is_here(marks, n, face) {
        return None;
    }
    Some(Step { end, place, splits })
}

// The faces of a split take the new point v.
fn take_point(
    text: &[u8],
    from: usize,
    end: usize,
    faces: &[u32],
    marks: &mut [u8],
    bits: &mut [u32],
    old: u32,
    v: usize,
)
    requires { step.PointAsks text.now from end faces.now marks.old bits.old v }
    ensures { step.PointGives faces.now marks.old bits.old
        (line.faces_from_row text.now from end) old v marks.new bits.new }
{
    face_marks::take_all(text, from, end, faces, marks, old);
    if from < end {
        point_bits::set_bit(bits, v);
    }
}

// An `s` line.
fn split_line(
    text: &[u8],
    from: usize,
    end: usize,
    faces: &[u32],
    points: usize,
    marks: &mut [u8],
    bits: &mut [u32],
    old: u32,
    new: u32,
    last: Place,
    splits: usize,
) -> Option<Step>
    requires { step.SplitAsks points text.now from end faces.now marks.old bits.old splits }
    ensures { step.LineGives points faces.now (rule.split_point old new (line.faces_from_row text.now from end)) end
        marks.old bits.old last.section last.first last.second splits marks.new bits.new result }
{
    if splits >= faces.len() / 3 * 3 {
        return None;
    }
    if old as usize >= points {
        return None;
    }
    if new as usize != points + splits {
        return None;
    }
    let place = Place {
        section: 6,
        first: old,
        second: new,
    };
    if last >= place {
        return None;
    }
    if !face_marks::all_have(text, from, end, faces, marks, faces.len() / 3, old) {
        return None;
    }
    take_point(text, from, end, faces, marks, bits, old, points + splits);
    Some(Step {
        end,
        place,
        splits: splits + 1,
    })
}

// The line that begins at `at`.
fn change_line(
    text: &[u8],
    at: usize,
    faces: &[u32],
    points: usize,
    marks: &mut [u8],
    bits: &mut [u32],
    last: Place,
    splits: usize,
) -> Option<Turn>
    requires { step.StepAsks points faces.now text.now at marks.old bits.old splits }
    ensures { step.StepGives points faces.now text.now at
        marks.old bits.old last.section last.first last.second splits marks.new bits.new result }
{
    let step = match list_lines::read_line(text, at)? {
        Line::Isolated { .. } => {
            return Some(Turn::Unused);
        }
        Line::Dropped { face, reason, end } => {
            drop_line(marks, faces.len() / 3, face, reason, end, last, splits)?
        }
        Line::Exchange { face, end } => {
            exchange_line(marks, faces.len() / 3, face, end, last, splits)?
        }
        Line::Split {
            old,
            new,
            fields,
            end,
        } => split_line(
            text, fields, end, faces, points, marks, bits, old, new, last, splits,
        )?,
    };
    Some(Turn::On(step))
}

// ---- all lines

// The lines up to the first `u` line, if there is one.
fn change_lines(
    text: &[u8],
    faces: &[u32],
    points: usize,
    marks: &mut [u8],
    bits: &mut [u32],
) -> Result<Option<FirstUnused>, Refusal>
    requires { step.Begins points faces.now marks.old bits.old }
    ensures { step.ChangedGives points faces.now text.now marks.old bits.old marks.new bits.new result }
{
    let mut at = 0;
    let mut line = 0;
    let mut last = Place {
        section: 0,
        first: 0,
        second: 0,
    };
    let mut splits = 0;
    while at < text.len() {
        match change_line(text, at, faces, points, marks, bits, last, splits) {
            None => {
                return Err(Refusal::BadList(line));
            }
            Some(Turn::Unused) => {
                return Ok(Some(FirstUnused { at, line, splits }));
            }
            Some(Turn::On(step)) => {
                last = step.place;
                splits = step.splits;
                line += 1;
                at = step.end + 1;
            }
        }
    }
    Ok(None)
}

// The line that begins at `at`, if it is a `u` line.
fn read_unused(text: &[u8], at: usize) -> Option<UnusedPoint>
    requires { at < length text.now }
    ensures { step.UnusedLine text.now at result }
{
    match list_lines::read_line(text, at)? {
        Line::Isolated { point, end } => Some(UnusedPoint {
            point: point as usize,
            end,
        }),
        Line::Dropped { .. } => None,
        Line::Exchange { .. } => None,
        Line::Split { .. } => None,
    }
}

// The `u` lines, the first of which begins at `from` and has this number: of the points below `bound` those whose bits are set are used.
fn unused_lines(
    text: &[u8],
    from: usize,
    number: usize,
    bound: usize,
    bits: &[u32],
) -> Result<(), Refusal>
    requires { step.UnusedAsks text.now from number bound bits.now }
    ensures { step.UnusedGives text.now from number bound bits.now result }
{
    let mut at = from;
    let mut line = number;
    let mut least: usize = 0;
    while at < text.len() {
        let Some(unused) = read_unused(text, at) else {
            return Err(Refusal::BadList(line));
        };
        let point = unused.point;
        if point < least {
            return Err(Refusal::BadList(line));
        }
        if point >= bound {
            return Err(Refusal::BadList(line));
        }
        if point_bits::is_set(bits, point) {
            return Err(Refusal::BadList(line));
        }
        least = point + 1;
        line += 1;
        at = unused.end + 1;
    }
    Ok(())
}

// 15, with a row of bytes for the faces and a row of bits for the points, all zero.
fn check_list(
    text: &[u8],
    faces: &[u32],
    points: usize,
    marks: &mut [u8],
    bits: &mut [u32],
) -> Result<(), Refusal>
    requires { step.Begins points faces.now marks.old bits.old }
    ensures { step.BadList points faces.now text.now result }
{
    match change_lines(text, faces, points, marks, bits)? {
        None => Ok(()),
        Some(unused) => {
            face_marks::put_used(faces, marks, faces.len() / 3, bits);
            unused_lines(text, unused.at, unused.line, points + unused.splits, bits)
        }
    }
}

// 15, in rows of M bytes and B words. Each size has a frame of its own, since it is not inlined.
#[inline(never)]
fn check_within<const M: usize, const B: usize>(
    text: &[u8],
    faces: &[u32],
    points: usize,
) -> Result<(), Refusal>
    requires input { input.Faces points faces.now }
    requires bytes { length faces.now / 3 ≤ M }
    requires most_bytes { M ≤ 1048576 }
    requires bits { points + length faces.now ≤ 32 * B }
    requires most_bits { B ≤ 229376 }
    ensures { step.BadList points faces.now text.now result }
{
    let mut marks = [0u8; M];
    let mut bits = [0u32; B];
    check_list(text, faces, points, &mut marks, &mut bits)
}

// 15: the first line of the list that does not apply to these faces over so many points. For at most 4,096 faces and 16,384 points the rows are small.
pub fn bad_list(text: &[u8], faces: &[u32], points: usize) -> Result<(), Refusal>
    requires { input.Faces points faces.now }
    ensures { step.BadList points faces.now text.now result }
{
    if faces.len() <= 12_288 && points <= 16_384 {
        check_within::<4_096, 1_024>(text, faces, points)
    } else {
        check_within::<1_048_576, 229_376>(text, faces, points)
    }
}
