// Ranking the faces of a run of entries by quality: higher ranks first, equal ones by lower face index. Entry id is one of face id / 3, and a run is
// handed over as a part of the slice from its first to its last entry. Each scan computes the quality of an entry's face once.
#![tactic(auto)]

ghost use Rattle.std.specs.Prelude.{◌≡◌, ◌/◌, nat_eq};
ghost use Rattle.std.specs.List.{position};
ghost use Rattle.rules.specs.Lists.{first};
ghost use Rattle.rules.specs.Mesh.{face, faces_of};
ghost use Rattle.rules.specs.Pass3 as pass3;
ghost use Rattle.rules.specs.Steps as steps;
ghost use Rattle.rank.specs.Ranks.{faces_in, value_of, above, others, WalksAsks, QualityAsks, BetterAsks, BetterGives, ScanAsks, ScanGives, OtherGives, RestGives, BestAsks, BestGives, RankAsks, SecondAsks};

// A face, and its quality.
#[derive(Clone, Copy, Debug, PartialEq)]
pub struct Choice {
    pub face: usize,
    pub quality: f64,
}

// Whether face i with the quality a ranks before face j with the quality b.
pub fn outranks(a: f64, i: usize, b: f64, j: usize) -> bool
    ensures { result ≡ above a i b j }
{
    b < a || !(a < b) && i < j
}

// The quality of face i.
fn quality(points: &[f64], faces: &[u32], i: usize) -> f64
    requires { QualityAsks points.now faces.now i }
    ensures { result ≡ value_of points.now faces.now i }
{
    let a = faces[3 * i];
    let b = faces[3 * i + 1];
    let c = faces[3 * i + 2];
    measure::quality(points, a, b, c)
}

// Of the best so far, if there is one, and face j the one that ranks first.
fn better(points: &[f64], faces: &[u32], best: Option<Choice>, j: usize) -> Choice
    requires { BetterAsks points.now faces.now best j }
    ensures { BetterGives points.now faces.now best j result }
{
    let q = quality(points, faces, j);
    match best {
        Some(b) if !outranks(q, j, b.quality, b.face) => b,
        _ => Choice {
            face: j,
            quality: q,
        },
    }
}

// The best of `start` and the faces of the run.
fn scan(points: &[f64], faces: &[u32], run: &[u32], start: Option<Choice>) -> Option<Choice>
    requires { ScanAsks points.now faces.now run.now start }
    ensures { ScanGives points.now faces.now run.now start result }
{
    let mut best = start;
    for id in run {
        let j = *id as usize / 3;
        best = Some(better(points, faces, best, j));
    }
    best
}

// The face of the run that ranks first.
pub fn best(points: &[f64], faces: &[u32], run: &[u32]) -> usize
    requires { BestAsks points.now faces.now run.now }
    ensures { BestGives points.now faces.now run.now result }
{
    scan(points, faces, run, None).unwrap().face
}

// The first place of the run with an entry of face `one`, if there is one.
fn found(run: &[u32], one: usize) -> Option<usize>
    ensures { result ≡ position (λ id. nat_eq (id / 3) one) run.now }
{
    run.iter().position(|id| *id as usize / 3 == one)
}

// The first place of the run with an entry of face `one`; the run's length if there is none.
pub fn place(run: &[u32], one: usize) -> usize
    ensures { result ≡ first (nat_eq one) (faces_in run.now) }
{
    found(run, one).unwrap_or(run.len())
}

// Whether the step from x to y is the one from a to b.
pub fn same(x: u32, y: u32, a: u32, b: u32) -> bool
    ensures { result ≡ steps.same (steps.step x y) (steps.step a b) }
{
    x == a && y == b
}

// Whether face i anywhere steps from `from` to `to`.
fn walks(faces: &[u32], i: usize, from: u32, to: u32) -> bool
    requires { WalksAsks faces.now i }
    ensures { result ≡ steps.walks (face (faces_of faces.now) i) (steps.step from to) }
{
    let a = faces[3 * i];
    let b = faces[3 * i + 1];
    let c = faces[3 * i + 2];
    same(from, to, a, b) || same(from, to, b, c) || same(from, to, c, a)
}

// The best of the run's faces whose walk of the edge is not `forward`. Its loop is `scan`'s with a test; one loop over both would take a test that
// always holds.
fn scan_other(
    points: &[f64],
    faces: &[u32],
    run: &[u32],
    from: u32,
    to: u32,
    forward: bool,
) -> Option<Choice>
    requires { RankAsks points.now faces.now run.now }
    ensures { OtherGives points.now faces.now run.now (steps.step from to) forward result }
{
    let mut best = None;
    for id in run {
        let j = *id as usize / 3;
        if walks(faces, j, from, to) != forward {
            best = Some(better(points, faces, best, j));
        }
    }
    best
}

// The best of the run's faces but for the first entry of `one`.
fn scan_rest(points: &[f64], faces: &[u32], run: &[u32], one: usize) -> Option<Choice>
    requires { RankAsks points.now faces.now run.now }
    ensures { RestGives points.now faces.now run.now one result }
{
    match found(run, one) {
        Some(k) => {
            let before = scan(points, faces, &run[..k], None);
            scan(points, faces, &run[k + 1..], before)
        }
        None => scan(points, faces, run, None),
    }
}

// Pass 3's second choice at the edge from `from` to `to`, whose first choice is `one`: the next entry whose walk differs from it, or, if none differs,
// the second entry.
pub fn second(points: &[f64], faces: &[u32], run: &[u32], from: u32, to: u32, one: usize) -> usize
    requires { SecondAsks points.now faces.now run.now one }
    ensures { let fs = faces_of faces.now in
        let us = faces_in run.now in
        let e = steps.step from to in
        result ≡ pass3.second (value_of points.now faces.now) one us (others fs e (steps.walks (face fs one) e) us) }
{
    let forward = walks(faces, one, from, to);
    let other = scan_other(points, faces, run, from, to, forward);
    if let Some(choice) = other {
        return choice.face;
    }
    scan_rest(points, faces, run, one).unwrap().face
}
