// The loops of a simple boundary, from a row that says for each vertex where the boundary goes on from it. A vertex that a walk has passed is taken out
// of that row, so that each is passed once.
//
// Two regions of the work room are used:
//
//     next    P    where the boundary edge that begins at the vertex ends; P where none begins, and where the vertex is in a loop
//     spare   3F   the walk from the vertex that starts a loop, before it is listed reversed
#![tactic(auto)]

ghost use Rattle.loops.specs.Walks.{WalkAsks, WalkGives, MirrorAsks, MirrorGives};
ghost use Rattle.loops.specs.Loops.{AddAsks, AddGives, TraceAsks, TraceGives, LoopsAsks, LoopsGives};

// How many vertices stand in the room of the loops, and how many ends.
#[derive(Clone, Copy, Debug, PartialEq, Eq)]
pub struct Loops {
    pub loop_vertices: usize,
    pub loop_ends: usize,
}

// Walks from v until the boundary does not go on, which is at v again or at once, and takes the vertices passed out of the row. They stand from `spare`
// on. Returns how many.
fn walk(work: &mut [u32], points: usize, next: usize, spare: usize, v: usize) -> usize
    requires { WalkAsks work.old points next spare v }
    ensures { (q : WalkAsks work.old points next spare v) → WalkGives q work.new result }
{
    let mut u = v;
    let mut to = work[next + u] as usize;
    let mut k = 0;
    while to < points {
        work[spare + k] = u as u32;
        work[next + u] = points as u32;
        u = to;
        to = work[next + u] as usize;
        k += 1;
    }
    k
}

// Lists the n vertices that stand from `spare` on reversed, from `from` on in the room of the loops.
fn mirror(work: &[u32], spare: usize, n: usize, loop_vertices: &mut [u32], from: usize)
    requires { MirrorAsks work.now spare n loop_vertices.old from }
    ensures { MirrorGives work.now spare n loop_vertices.old from loop_vertices.new }
{
    for i in 0..n {
        loop_vertices[from + i] = work[spare + (n - 1 - i)];
    }
}

// Adds the loop that v starts, if v is on the boundary and in no loop yet.
fn add_loop(
    work: &mut [u32],
    points: usize,
    next: usize,
    spare: usize,
    v: usize,
    loop_vertices: &mut [u32],
    loop_ends: &mut [u32],
    found: Loops,
) -> Loops
    requires { AddAsks work.old points next spare v loop_vertices.old loop_ends.old found.loop_vertices found.loop_ends }
    ensures { (q : AddAsks work.old points next spare v loop_vertices.old loop_ends.old found.loop_vertices found.loop_ends)
        → AddGives q work.new loop_vertices.new loop_ends.new result.loop_vertices result.loop_ends }
{
    let n = walk(work, points, next, spare, v);
    if n == 0 {
        return found;
    }
    let from = found.loop_vertices;
    let count = found.loop_ends;
    mirror(work, spare, n, loop_vertices, from);
    let total = from + n;
    loop_ends[count] = total as u32;
    Loops {
        loop_vertices: total,
        loop_ends: count + 1,
    }
}

// Writes the loops and their ends to the front of their rooms.
fn trace(
    work: &mut [u32],
    points: usize,
    next: usize,
    spare: usize,
    loop_vertices: &mut [u32],
    loop_ends: &mut [u32],
) -> Loops
    requires { TraceAsks work.old points next spare loop_vertices.old loop_ends.old }
    ensures { (q : TraceAsks work.old points next spare loop_vertices.old loop_ends.old)
        → TraceGives q work.new loop_vertices.new loop_ends.new result.loop_vertices result.loop_ends }
{
    let mut found = Loops {
        loop_vertices: 0,
        loop_ends: 0,
    };
    for v in 0..points {
        found = add_loop(
            work,
            points,
            next,
            spare,
            v,
            loop_vertices,
            loop_ends,
            found,
        );
    }
    found
}

// Lists the loops: from the lowest vertex not yet in a loop the walk to the start, reversed; and the loops' ends, as running totals. The boundary of the
// faces is simple, and the row `next` has where it goes on.
pub fn list_loops(
    work: &mut [u32],
    faces: &[u32],
    points: usize,
    next: usize,
    spare: usize,
    loop_vertices: &mut [u32],
    loop_ends: &mut [u32],
) -> Loops
    requires { LoopsAsks work.old faces.now points next spare loop_vertices.old loop_ends.old }
    ensures { LoopsGives work.old faces.now points next spare loop_vertices.old loop_ends.old
        work.new loop_vertices.new loop_ends.new result.loop_vertices result.loop_ends }
{
    let found = trace(work, points, next, spare, loop_vertices, loop_ends);
    wiping::wipe(
        loop_vertices,
        found.loop_vertices,
        faces.len() - found.loop_vertices,
    );
    wiping::wipe(loop_ends, found.loop_ends, faces.len() - found.loop_ends);
    found
}
