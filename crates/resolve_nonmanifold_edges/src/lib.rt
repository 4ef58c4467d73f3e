// Pass 3 of document 01: at each edge with more than two entries two faces are kept, and all others of its faces leave. This crate marks those.
//
// The work room, with P points and n faces:
//
//     0             15n + 1 + P   the undirected table of the faces
//     15n + 1 + P   n             the marks: 1 for a face that leaves
#![tactic(auto)]

ghost use Rattle.std.specs.Prelude.{◌≡◌, false, not, ◌||◌, ◌+◌, ◌*◌, ◌/◌, eqb, length};
ghost use Rattle.rows.specs.Region.{part};
ghost use Rattle.rules.specs.Mesh.{points_of};
ghost use Rattle.rules.specs.Pass3.{crowded, marked3};
ghost use Rattle.leaving.specs.Pass.{standing, PassAsks, MarkGives};
ghost use Rattle.rank.specs.Ranks.{faces_in};
ghost use Rattle.marking.specs.Marking.{taken, MarkAsks, RunAsks, EntriesAsks, LostGives};
ghost use Rattle.resolve_nonmanifold_edges.specs.Crowds.{lost_of, EdgeGives, EdgesGives};

use leaving::Marked;

// Whether face f is neither of the two that are kept.
fn loses(f: usize, one: usize, two: usize) -> bool
    ensures { result ≡ not (eqb f one || eqb f two) }
{
    f != one && f != two
}

// Marks each face of the len entries from `from` on, but neither `one` nor `two`.
fn mark_others(
    work: &mut [u32],
    from: usize,
    len: usize,
    marks: usize,
    count: usize,
    one: usize,
    two: usize,
)
    requires { EntriesAsks work.old from len marks count }
    ensures { LostGives (lost_of (faces_in (part work.old from len)) one two) work.old marks count work.new }
{
    for k in 0..len {
        let f = work[from + k] as usize / 3;
        if loses(f, one, two) {
            work[marks + f] = 1;
        }
    }
}

// Marks what is lost at the edge of run r, if it has more than two entries: all its faces but the first in rank and the next whose walk differs, or, if
// none differs, the second. Returns whether it is such an edge.
fn resolve_edge(points: &[f64], faces: &[u32], work: &mut [u32], marks: usize, r: usize) -> bool
    requires { RunAsks false points.now faces.now work.old marks r }
    ensures { EdgeGives points.now faces.now work.old marks r work.new result }
{
    let n = faces.len();
    let a = work[4 * n + r] as usize;
    let b = work[4 * n + r + 1] as usize;
    if b - a <= 2 {
        return false;
    }
    let first = 3 * n + a;
    let last = 3 * n + b;
    let one = rank::best(points, faces, &work[first..last]);
    let id = work[first] as usize;
    let lower = work[id];
    let higher = work[n + id];
    let two = rank::second(points, faces, &work[first..last], lower, higher, one);
    mark_others(work, first, b - a, marks, n / 3, one, two);
    true
}

// Marks every face that leaves, on the unchanged list, and returns how many edges are crowded.
fn mark_edges(points: &[f64], faces: &[u32], work: &mut [u32], marks: usize) -> usize
    requires { MarkAsks points.now faces.now work.old marks }
    ensures { EdgesGives points.now faces.now work.old marks work.new result }
{
    let m = table::table(work, faces, points.len() / 3, false, 0);
    rows::clear(work, marks, faces.len() / 3);
    let mut c = 0;
    for r in 0..m {
        c += usize::from(resolve_edge(points, faces, work, marks, r));
    }
    c
}

// Pass 3 marks the faces that leave at an edge with more than two entries, and counts such edges. The n faces stand at the front of their room.
pub fn mark(points: &[f64], faces: &[u32], n: usize, work: &mut [u32]) -> Marked
    requires { PassAsks (taken (length points.now / 3) n) points.now faces.now n work.old }
    ensures fact { let ps = points.now in
        MarkGives (marked3 (points_of ps) (standing faces.now n)) (taken (length ps / 3) n) n work.old work.new result.at }
    ensures found_value { result.found ≡ length (crowded (length points.now / 3) (standing faces.now n)) }
{
    let marks = 15 * n + 1 + points.len() / 3;
    let edges = mark_edges(points, &faces[..3 * n], work, marks);
    Marked {
        at: marks,
        found: edges,
    }
}
