// The changes that the lines of a mending list tell, made to the faces in their room, and how what stands is finished when no line is left.
//
// The work room, of n faces and at most N points:
//
//     0       n       a flag for each input face: 1 where it was dropped, else 0
//     n       N       a flag for each point: 1 where a line named it unused, else 0
//
// and when no line is left, of `count` points:
//
//     n + count   count   the number of each point once the unused ones have left
#![tactic(auto)]

ghost use Rattle.std.specs.Prelude.{◌≡◌, ◌+◌, ◌*◌, ◌≤◌, length};
ghost use Rattle.rules.specs.Mesh.{exchanged, renamed};
ghost use Rattle.list_changes.specs.Changes.{FaceChanged, instead};
ghost use Rattle.list_changes.specs.Finish.{FinishAsks, FinishGives};

// How many points and faces a finished mesh has.
#[derive(Clone, Copy, Debug, PartialEq, Eq)]
pub struct Finished {
    pub points: usize,
    pub faces: usize,
}

// Exchanges corners 1 and 2 of face f.
pub fn exchange_face(faces: &mut [u32], f: usize)
    requires { 3 * f + 3 ≤ length faces.old }
    ensures { FaceChanged exchanged f faces.old faces.new }
{
    let b = 3 * f + 1;
    let c = 3 * f + 2;
    let x = faces[b];
    let y = faces[c];
    faces[b] = y;
    faces[c] = x;
}

// The corner x, or `new` where it is `old`.
fn corner_instead(x: u32, old: u32, new: u32) -> u32
    ensures { result ≡ instead old new x }
{
    if x == old {
        return new;
    }
    x
}

// Gives each corner of face f that is `old` the number `new`.
pub fn rename_face(faces: &mut [u32], f: usize, old: u32, new: u32)
    requires { 3 * f + 3 ≤ length faces.old }
    ensures { FaceChanged (renamed (instead old new)) f faces.old faces.new }
{
    let at = 3 * f;
    let a = corner_instead(faces[at], old, new);
    let b = corner_instead(faces[at + 1], old, new);
    let c = corner_instead(faces[at + 2], old, new);
    faces[at] = a;
    faces[at + 1] = b;
    faces[at + 2] = c;
}

// Those of the n faces that are flagged leave, then the flagged ones of the `count` points, and the corners are renumbered.
pub fn finish(
    points: &mut [f64],
    count: usize,
    faces: &mut [u32],
    n: usize,
    work: &mut [u32],
) -> Finished
    requires { FinishAsks points.old count faces.old n work.old }
    ensures { (q : FinishAsks points.old count faces.old n work.old)
        → FinishGives q.gone q.named points.old count faces.old n work.old points.new faces.new work.new result }
{
    let kept = rows::retain(faces, work, 0, n);
    let numbers = n + count;
    rows::number_kept(work, n, count, numbers);
    drop_isolated_vertices::renumber(faces, kept, work, numbers);
    let left = rows::retain(points, work, n, count);
    Finished {
        points: left,
        faces: kept,
    }
}
