// The second half of pass 4 of document 01: of the entries of each directed edge the first in rank stays, and each other one marks its face, which leaves. This crate marks them.
//
// The work room, with P points and n faces:
//
//     0             15n + 1 + P   the directed table of the faces
//     15n + 1 + P   n             the marks: 1 for a face that leaves
#![tactic(auto)]

ghost use Rattle.std.specs.Prelude.{◌≡◌, true, not, ◌&&◌, ◌+◌, ◌*◌, ◌/◌, eqb, length};
ghost use Rattle.rows.specs.Region.{part};
ghost use Rattle.rules.specs.Lists.{has};
ghost use Rattle.rules.specs.Mesh.{faces_of, points_of};
ghost use Rattle.rules.specs.Pass4.{marked4};
ghost use Rattle.rules.specs.Rank.{without};
ghost use Rattle.leaving.specs.Pass.{standing, PassAsks, MarkGives};
ghost use Rattle.rank.specs.Ranks.{faces_in, value_of};
ghost use Rattle.marking.specs.Marking.{taken, face_count, edge_at, MarkAsks, RunAsks, EntriesAsks, LostGives};
ghost use Rattle.resolve_directed_collisions.specs.Collisions.{after_first};

use leaving::Marked;

// Whether an entry of face f is the one that stays: the first one of face `one`. `seen` says that it has passed.
fn stays(f: usize, one: usize, seen: bool) -> bool
    ensures { result ≡ (not seen && eqb one f) }
{
    !seen && one == f
}

// Marks the face of each of the len entries from `from` on, but for the first entry of face `one`.
fn mark_rest(work: &mut [u32], from: usize, len: usize, marks: usize, count: usize, one: usize)
    requires { EntriesAsks work.old from len marks count }
    ensures { LostGives (λ i. has i (without one (faces_in (part work.old from len)))) work.old marks count work.new }
{
    let mut seen = false;
    for k in 0..len {
        let f = work[from + k] as usize / 3;
        if stays(f, one, seen) {
            seen = true;
        } else {
            work[marks + f] = 1;
        }
    }
}

// Marks the face of each entry of run r after the first in rank.
fn resolve_edge(points: &[f64], faces: &[u32], work: &mut [u32], marks: usize, r: usize)
    requires { RunAsks true points.now faces.now work.old marks r }
    ensures { let ps = points.now in
        let xs = faces.now in
        LostGives (after_first (value_of ps xs) (faces_of xs) (edge_at true ps xs r)) work.old marks (face_count xs) work.new }
{
    let n = faces.len();
    let a = work[4 * n + r] as usize;
    let b = work[4 * n + r + 1] as usize;
    if b - a > 1 {
        let first = 3 * n + a;
        let last = 3 * n + b;
        let one = rank::best(points, faces, &work[first..last]);
        mark_rest(work, first, b - a, marks, n / 3, one);
    }
}

// Marks every face that leaves, on the unchanged list.
fn mark_edges(points: &[f64], faces: &[u32], work: &mut [u32], marks: usize)
    requires { MarkAsks points.now faces.now work.old marks }
    ensures { let xs = faces.now in
        MarkGives (marked4 (points_of points.now) (faces_of xs)) (marks + face_count xs) (face_count xs) work.old work.new marks }
{
    let m = table::table(work, faces, points.len() / 3, true, 0);
    rows::clear(work, marks, faces.len() / 3);
    for r in 0..m {
        resolve_edge(points, faces, work, marks, r);
    }
}

// The second half of pass 4 marks each face that has an entry after the first in rank at some directed edge. The n faces stand at the front of their room.
pub fn mark(points: &[f64], faces: &[u32], n: usize, work: &mut [u32]) -> Marked
    requires { PassAsks (taken (length points.now / 3) n) points.now faces.now n work.old }
    ensures fact { let ps = points.now in
        MarkGives (marked4 (points_of ps) (standing faces.now n)) (taken (length ps / 3) n) n work.old work.new result.at }
    ensures found_value { result.found ≡ 0 }
{
    let marks = 15 * n + 1 + points.len() / 3;
    mark_edges(points, &faces[..3 * n], work, marks);
    Marked {
        at: marks,
        found: 0,
    }
}
