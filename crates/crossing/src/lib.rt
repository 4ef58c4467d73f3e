// Face after face crosses its edges in the walk of pass 4 of document 01. Across an edge of at most two entries stands at most one other face, which
// is noted beforehand. Another edge is gone through in full only when it is first crossed: then all its users are visited, none of them changes
// again, and for each way across it one number tells which users disagree.
//
// The rows, for n faces; those before 3 + 2n are of `reaching`:
//
//     3 + 2n        9n      of each edge three numbers, next to each other: whether it was crossed; who disagrees with a step from its lower to its
//                           higher end, 0 for none, 1 + i for face i alone, n + 1 for several; and who with a step from its higher to its lower end
//     3 + 11n       3n      of each entry whose edge has at most two, 1 + the face of the other, or its own face where it is alone; 0 of the others
//     3 + 14n       15n + 1 + P     the undirected table of the faces, see `table`
#![tactic(auto)]

ghost use Rattle.std.specs.Prelude.{◌≡◌};
ghost use Rattle.crossing.specs.Crossing.{MateAsks, MateGives, MateAllAsks, NoteAsks, NoteGives, SettleAsks, SettleGives, WhoAsks, disagreeing, MarkAsks, MarkGives, ManyAsks, CrossAsks, CrossGives, ThreeAsks, ThreeGives, FaceAsks, FaceGives};

// Notes for the entries of run r which face is across, if they are at most two.
fn mate(work: &mut [u32], faces: &[u32], n: usize, r: usize)
    requires { MateAsks work.old faces.now n r }
    ensures { MateGives work.old faces.now n work.new }
{
    let order = 3 + 14 * n + 3 * faces.len();
    let starts = 3 + 14 * n + 4 * faces.len();
    let from = order + work[starts + r] as usize;
    let to = order + work[starts + (r + 1)] as usize;
    if to - from > 2 {
        return;
    }
    let a = work[from] as usize;
    let b = work[to - 1] as usize;
    work[3 + 11 * n + a] = (b / 3 + 1) as u32;
    work[3 + 11 * n + b] = (a / 3 + 1) as u32;
}

// Notes for each entry which face is across, run by run; there are m.
pub fn mate_all(work: &mut [u32], faces: &[u32], n: usize, m: usize)
    requires { MateAllAsks work.old faces.now n m }
    ensures { MateGives work.old faces.now n work.new }
{
    for r in 0..m {
        mate(work, faces, n, r);
    }
}

// Notes of edge r, from low to high, who disagrees with a step along it, either way, and that it is crossed. Its entries stand at from .. to.
fn note(
    work: &mut [u32],
    faces: &[u32],
    n: usize,
    r: usize,
    from: usize,
    to: usize,
    low: u32,
    high: u32,
)
    requires { NoteAsks work.old faces.now n r from to }
    ensures { NoteGives work.old faces.now n r from to low high work.new }
{
    let up = reaching::lone(work, faces, n, from, to, high, low);
    let down = reaching::lone(work, faces, n, from, to, low, high);
    let noted = 3 + 2 * n + 3 * r;
    work[noted + 1] = up;
    work[noted + 2] = down;
    work[noted] = 1;
}

// Crosses edge r for the first time, by the step from x to y: its users are reached, and it is noted who disagrees.
fn settle(work: &mut [u32], faces: &[u32], n: usize, r: usize, x: u32, y: u32)
    requires { SettleAsks work.old faces.now n r x y }
    ensures { SettleGives work.old faces.now n r x y work.new }
{
    let order = 3 + 14 * n + 3 * faces.len();
    let starts = 3 + 14 * n + 4 * faces.len();
    let from = order + work[starts + r] as usize;
    let to = order + work[starts + (r + 1)] as usize;
    reaching::reach_run(work, faces, n, from, to, x, y);
    let low = x.min(y);
    let high = x.max(y);
    note(work, faces, n, r, from, to, low, high);
}

// Crosses edge r by the step from x to y, if it was not crossed.
fn open(work: &mut [u32], faces: &[u32], n: usize, r: usize, x: u32, y: u32)
    requires { SettleAsks work.old faces.now n r x y }
    ensures { SettleGives work.old faces.now n r x y work.new }
{
    if work[3 + 2 * n + 3 * r] == 0 {
        settle(work, faces, n, r, x, y);
    }
}

// Who disagrees with a step from x to y along edge r.
fn who(work: &[u32], n: usize, r: usize, x: u32, y: u32) -> u32
    requires { WhoAsks work.now n r }
    ensures { result ≡ disagreeing work.now n r x y }
{
    let noted = 3 + 2 * n + 3 * r;
    if x <= y {
        work[noted + 1]
    } else {
        work[noted + 2]
    }
}

// Marks the component, if some other than face j disagrees.
fn mark(work: &mut [u32], n: usize, j: usize, known: u32)
    requires { MarkAsks work.old n j }
    ensures { MarkGives work.old n j known work.new }
{
    if known != 0 && known as usize != j + 1 {
        work[2] = 1;
    }
}

// Face j crosses edge r, which may have many users, by the step from x to y: what is noted tells whether to mark.
fn cross_many(work: &mut [u32], faces: &[u32], n: usize, j: usize, r: usize, x: u32, y: u32)
    requires { ManyAsks work.old faces.now n j r x y }
    ensures { CrossGives work.old faces.now n j x y work.new }
{
    open(work, faces, n, r, x, y);
    let known = who(work, n, r, x, y);
    mark(work, n, j, known);
}

// Face j crosses the edge of its entry `id` by the step from x to y.
fn cross(work: &mut [u32], faces: &[u32], n: usize, j: usize, id: usize, x: u32, y: u32)
    requires { CrossAsks work.old faces.now n j id x y }
    ensures { CrossGives work.old faces.now n j x y work.new }
{
    let across = work[3 + 11 * n + id] as usize;
    if across == 0 {
        let r = work[3 + 14 * n + 2 * faces.len() + id] as usize;
        cross_many(work, faces, n, j, r, x, y);
    } else {
        reaching::meet(work, faces, n, j, across - 1, x, y);
    }
}

// Face j crosses its edges, with corners a, b and c as it stands; `first` and `last` are the entries of its first and its last step.
fn cross_three(
    work: &mut [u32],
    faces: &[u32],
    n: usize,
    j: usize,
    a: u32,
    b: u32,
    c: u32,
    first: usize,
    last: usize,
)
    requires { ThreeAsks work.old faces.now n j a b c first last }
    ensures { ThreeGives work.old faces.now n j a b c work.new }
{
    cross(work, faces, n, j, first, a, b);
    cross(work, faces, n, j, 3 * j + 1, b, c);
    cross(work, faces, n, j, last, c, a);
}

// Face j crosses its edges: its steps (0,1), (1,2), (2,0) as it stands.
pub fn cross_face(work: &mut [u32], faces: &[u32], n: usize, j: usize)
    requires { FaceAsks work.old faces.now n j }
    ensures { FaceGives work.old faces.now n j work.new }
{
    let a = faces[3 * j];
    let b = faces[3 * j + 1];
    let c = faces[3 * j + 2];
    if work[3 + j] == 2 {
        cross_three(work, faces, n, j, a, c, b, 3 * j + 2, 3 * j);
    } else {
        cross_three(work, faces, n, j, a, b, c, 3 * j, 3 * j + 2);
    }
}
