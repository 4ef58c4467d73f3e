// The walk of pass 4 of document 01 in a work room: faces are reached across an edge, and it is found who of its users disagrees: 0 for none,
// 1 + i for face i alone, n + 1 for several.
//
// The rows of the walk, for n faces:
//
//     0             1       how many faces are on the stack
//     1             1       how many were exchanged
//     2             1       whether the present component is marked
//     3             n       the state of each face: 0 unvisited, 1 visited as it was, 2 visited and exchanged
//     3 + n         n       the stack, its top last
//     3 + 2n        9n      of each edge, what `orient_consistently` notes
#![tactic(auto)]

ghost use Rattle.std.specs.Prelude.{◌≡◌, Bool, not, List, map, ℕ, suc, ◌+◌, ◌-◌, ◌*◌, ◌/◌, ◌<◌, length};
ghost use Rattle.rows.specs.Region.{part};
ghost use Rattle.rules.specs.Mesh.{Face, faces_of, face};
ghost use Rattle.rules.specs.Steps.{step, same, walks};
ghost use Rattle.orienting.specs.Reaching.{lone, sole};
ghost use Rattle.reaching.specs.Walking.{walk_of, StandsAsks, VisitAsks, VisitGives, ReachAsks, ReachGives, RunAsks, ReachRunGives, MeetGives, met};

// Whether the step from x to y is the one from a to b.
#[tactic(auto, unfolding(rules::specs::Steps::same))]
fn is_step(x: u32, y: u32, a: u32, b: u32) -> bool
    ensures { result ≡ same (step x y) (step a b) }
{
    x == a && y == b
}

// Whether face i makes the step from x to y.
fn makes(faces: &[u32], i: usize, x: u32, y: u32) -> bool
    requires { i < length faces.now / 3 }
    ensures { result ≡ walks (face (faces_of faces.now) i) (step x y) }
{
    let a = faces[3 * i];
    let b = faces[3 * i + 1];
    let c = faces[3 * i + 2];
    is_step(x, y, a, b) || is_step(x, y, b, c) || is_step(x, y, c, a)
}

// Whether face i makes the step from x to y as it stands: one that is exchanged does where it made the opposite step.
fn stands(work: &[u32], faces: &[u32], n: usize, i: usize, x: u32, y: u32) -> bool
    requires { StandsAsks work.now faces.now n i }
    ensures { result ≡ walks (face (walk_of (faces_of faces.now) n work.now).faces i) (step x y) }
{
    if work[3 + i] == 2 {
        return makes(faces, i, y, x);
    }
    makes(faces, i, x, y)
}

// Visits face i: it is pushed, gets its state and is counted if that is 2.
fn visit(work: &mut [u32], n: usize, i: usize, state: u32)
    requires { VisitAsks work.old n i state }
    ensures { VisitGives work.old n i state work.new }
{
    let top = work[0] as usize;
    let exchanges = work[1];
    work[3 + n + top] = i as u32;
    work[0] = (top + 1) as u32;
    work[1] = exchanges + (state - 1);
    work[3 + i] = state;
}

// Visits face i across the step from x to y, if it is unvisited: exchanged, if it does not make the opposite step.
fn reach(work: &mut [u32], faces: &[u32], n: usize, i: usize, x: u32, y: u32)
    requires { ReachAsks work.old faces.now n i }
    ensures { ReachGives work.old faces.now n i x y work.new }
{
    if work[3 + i] == 0 {
        if stands(work, faces, n, i, y, x) {
            visit(work, n, i, 1);
        } else {
            visit(work, n, i, 2);
        }
    }
}

// Reaches the faces of a run, which is given by its places in the work room.
pub fn reach_run(work: &mut [u32], faces: &[u32], n: usize, from: usize, to: usize, x: u32, y: u32)
    requires { RunAsks work.old faces.now n from to }
    ensures { ReachRunGives work.old faces.now n from to x y work.new }
{
    for k in from..to {
        let i = work[k] as usize / 3;
        reach(work, faces, n, i, x, y);
    }
}

// Face j, which crosses by the step from x to y, meets face i, if that is another: it is reached, if it is unvisited; else the component is marked,
// if it does not make the opposite step.
pub fn meet(work: &mut [u32], faces: &[u32], n: usize, j: usize, i: usize, x: u32, y: u32)
    requires { ReachAsks work.old faces.now n i }
    ensures { MeetGives work.old faces.now n j i x y work.new }
{
    if i == j {
        return;
    }
    if work[3 + i] == 0 {
        reach(work, faces, n, i, x, y);
        return;
    }
    if stands(work, faces, n, i, y, x) {
        return;
    }
    work[2] = 1;
}

// What is known of those that do not make the step from x to y, once face i is met.
fn met(work: &[u32], faces: &[u32], n: usize, known: u32, i: usize, x: u32, y: u32) -> u32
    requires { StandsAsks work.now faces.now n i }
    ensures { result ≡ met (walk_of (faces_of faces.now) n work.now).faces n (step x y) known i }
{
    if stands(work, faces, n, i, x, y) {
        return known;
    }
    let alone = i as u32 + 1;
    if known == 0 {
        return alone;
    }
    if known == alone {
        return known;
    }
    n as u32 + 1
}

// Who of a run does not make the step from x to y.
pub fn lone(work: &[u32], faces: &[u32], n: usize, from: usize, to: usize, x: u32, y: u32) -> u32
    requires { RunAsks work.now faces.now n from to }
    ensures { result
        ≡ lone (n + 1) (walk_of (faces_of faces.now) n work.now).faces (step x y)
        (map (λ (id : ℕ). id / 3) (part work.now from (to - from))) }
{
    let mut known: u32 = 0;
    for k in from..to {
        let i = work[k] as usize / 3;
        known = met(work, faces, n, known, i, x, y);
    }
    known
}
