// A mending list that applies, carried out in the rooms of the answer: points and faces are copied there, the lines are taken one after the other, and
// what then stands is finished. The rows in the work room are those of crates/list_changes.
#![tactic(auto)]

ghost use Rattle.std.specs.Prelude.{◌≡◌};
ghost use Rattle.list_lines.specs.Lines.{faces_from_row};
ghost use Rattle.list_changes.specs.Changes.{TakenOver};
ghost use Rattle.apply_lines.specs.Runs.{TakeAsks, LineAsks, LineGives, RunAsks, RunGives, ApplyAsks, ApplyGives};

use list_changes::Finished;
use list_lines::Line;

// Where the next line begins, and how many points stand.
#[derive(Clone, Copy, Debug, PartialEq, Eq)]
struct Step {
    next: usize,
    points: usize,
}

// Gives the faces of a split, whose fields go from `from` to `end`, the new point for the old one. There are n faces.
fn take_over(text: &[u8], from: usize, end: usize, faces: &mut [u32], n: usize, old: u32, new: u32)
    requires { TakeAsks text.now from end faces.old n old new }
    ensures { TakenOver (faces_from_row text.now from end) old new n faces.old faces.new }
{
    let mut at = from;
    while at < end {
        let face = list_lines::read_face(text, at, end);
        let f = face.number as usize;
        list_changes::rename_face(faces, f, old, new);
        at = face.next;
    }
}

// Makes the change that a line tells, where n faces and `count` points stand.
fn apply_line(
    text: &[u8],
    line: Line,
    points: &mut [f64],
    faces: &mut [u32],
    work: &mut [u32],
    n: usize,
    count: usize,
) -> Step
    requires { LineAsks text.now line points.old faces.old work.old n count }
    ensures { (q : LineAsks text.now line points.old faces.old work.old n count)
        → LineGives q points.new faces.new work.new result.points result.next }
{
    match line {
        Line::Dropped { face, end, .. } => {
            work[face as usize] = 1;
            Step {
                next: end + 1,
                points: count,
            }
        }
        Line::Exchange { face, end } => {
            list_changes::exchange_face(faces, face as usize);
            Step {
                next: end + 1,
                points: count,
            }
        }
        Line::Split {
            old,
            new,
            fields,
            end,
        } => {
            rows::move_row(points, old as usize, count);
            take_over(text, fields, end, faces, n, old, new);
            Step {
                next: end + 1,
                points: count + 1,
            }
        }
        Line::Isolated { point, end } => {
            work[n + point as usize] = 1;
            Step {
                next: end + 1,
                points: count,
            }
        }
    }
}

// Takes the lines one after the other, none of which is bad, on n faces and p points. Returns how many points then stand.
fn run_lines(
    text: &[u8],
    points: &mut [f64],
    faces: &mut [u32],
    work: &mut [u32],
    n: usize,
    p: usize,
) -> usize
    requires { RunAsks text.now points.old faces.old work.old n p }
    ensures { (q : RunAsks text.now points.old faces.old work.old n p)
        → RunGives q points.new faces.new work.new result }
{
    let mut at = 0;
    let mut count = p;
    while at < text.len() {
        let line = list_lines::read_line(text, at).unwrap();
        let step = apply_line(text, line, points, faces, work, n, count);
        at = step.next;
        count = step.points;
    }
    count
}

// Applies a list that has no bad line: the mended points and faces stand at the front of their rooms. Returns how many they are.
pub fn apply_lines(
    points: &[f64],
    faces: &[u32],
    text: &[u8],
    out_points: &mut [f64],
    out_faces: &mut [u32],
    work: &mut [u32],
) -> Finished
    requires { ApplyAsks points.now faces.now text.now out_points.old out_faces.old work.old }
    ensures { ApplyGives points.now faces.now text.now out_points.old out_faces.old work.old
        out_points.new out_faces.new work.new result.points result.faces }
{
    let p = points.len() / 3;
    let n = faces.len() / 3;
    rows::copy_row(points, out_points, 3 * p);
    rows::copy_row(faces, out_faces, 3 * n);
    rows::clear(work, 0, p + 4 * n);
    let count = run_lines(text, out_points, out_faces, work, n, p);
    list_changes::finish(out_points, count, out_faces, n, work)
}
