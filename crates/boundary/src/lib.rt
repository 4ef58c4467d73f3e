// Refusals 7 and 8 from a finished table of the undirected edges, and where the boundary goes on from each vertex.
//
// The rows stand in the work room from `row` on, outside the table:
//
//     row        P   how many boundary edges begin at each vertex
//     row + P    P   how many end there
//     row + 2P   P   where the boundary edge that begins at the vertex ends; P where none begins
#![tactic(auto)]

ghost use Rattle.std.specs.Prelude.{◌≡◌, ◌+◌, ◌≤◌, ◌<◌, length};
ghost use Rattle.boundary.specs.Rows.{FirstOf, long, uneven, AddAsks, AddGives, TraceAsks, TraceGives, CrowdAsks, CrowdGives, BoundaryAsks, BoundaryGives};

use refuse::Refusal;

// The first of the m runs that has more than two entries, if there is one: the runs begin where the row `starts` says, which has one entry more.
fn crowded(work: &[u32], starts: usize, m: usize) -> Option<usize>
    requires { starts + m + 1 ≤ length work.now }
    ensures { FirstOf (long work.now starts) m result }
{
    for i in 0..m {
        let from = work[starts + i] as usize;
        let to = work[starts + i + 1] as usize;
        if from + 2 < to {
            return Some(i);
        }
    }
    None
}

// Counts the boundary edge from v to u at both ends, and notes where it ends.
fn add(work: &mut [u32], count: usize, row: usize, v: usize, u: usize)
    requires { AddAsks work.old count row v u }
    ensures { AddGives work.old count row v u work.new }
{
    work[row + v] += 1;
    work[row + count + u] += 1;
    work[row + 2 * count + v] = u as u32;
}

// Counts all boundary edges, in the direction of their face: an edge occurs once where its run has one entry, and the runs are met in order.
fn trace(work: &mut [u32], faces: &[u32], count: usize, at: usize, m: usize, row: usize)
    requires { TraceAsks work.old faces.now count at m row }
    ensures { TraceGives work.old faces.now count at row work.new }
{
    let order = at + 3 * faces.len();
    let starts = at + 4 * faces.len();
    for r in 0..m {
        let from = work[starts + r] as usize;
        let to = work[starts + r + 1] as usize;
        if to - from == 1 {
            let id = work[order + from] as usize;
            let j = table::after(id);
            add(work, count, row, faces[id] as usize, faces[j] as usize);
        }
    }
}

// The lowest vertex that does not begin as many boundary edges as it ends, or begins more than one, if there is one.
fn uneven(work: &[u32], count: usize, row: usize) -> Option<usize>
    requires { row + count + count ≤ length work.now }
    ensures { FirstOf (uneven work.now row (row + count)) count result }
{
    for i in 0..count {
        let begins = work[row + i];
        if begins != work[row + count + i] || 1 < begins {
            return Some(i);
        }
    }
    None
}

// 7 or nothing, from the table at `at` with m runs: 7 at the position of the first edge that occurs more than twice.
pub fn crowd(work: &[u32], faces: &[u32], at: usize, m: usize) -> Result<(), Refusal>
    requires { CrowdAsks work.now faces.now at m }
    ensures { (q : CrowdAsks work.now faces.now at m) → CrowdGives q result }
{
    match crowded(work, at + 4 * faces.len(), m) {
        Some(r) => Err(Refusal::CrowdedEdge(r)),
        None => Ok(()),
    }
}

// 7, else 8, else nothing, from the table at `at` with m runs: 7 at the position of the first edge that occurs more than twice, 8 at the lowest
// vertex at fault. Where it is nothing, the third row has where the boundary goes on from each vertex.
pub fn boundary(
    work: &mut [u32],
    faces: &[u32],
    count: usize,
    at: usize,
    m: usize,
    row: usize,
) -> Result<(), Refusal>
    requires { BoundaryAsks work.old faces.now count at m row }
    ensures { BoundaryGives work.old faces.now count at m row work.new result }
{
    crowd(work, faces, at, m)?;
    rows::clear(work, row, 2 * count);
    rows::fill(work, row + 2 * count, count, count as u32);
    trace(work, faces, count, at, m, row);
    match uneven(work, count, row) {
        Some(v) => Err(Refusal::BadBoundary(v)),
        None => Ok(()),
    }
}
