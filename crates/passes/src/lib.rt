// The six passes of a repair, each by its option, on the lists that stand at the front of the answer rooms, with the origins of the faces. Each returns what
// it counts.
#![tactic(auto)]

ghost use Rattle.std.specs.Prelude.{◌≡◌, true, ◌/◌, ◌≤◌, length};
ghost use Rattle.rows.specs.Region.{Only};
ghost use Rattle.rules.specs.Mesh.{points_of};
ghost use Rattle.rules.specs.Pass4.{marked4};
ghost use Rattle.rule_laws.proofs.Once.{Once};
ghost use Rattle.leaving.specs.Pass.{standing, PassAsks, LeaveGives};
ghost use Rattle.marking.specs.Marking.{taken};
ghost use Rattle.passes.specs.Passing.{all_kept, lists, stated, Stands, StandsLast, Pass1, Pass2, Pass3, Pass4, Pass5, Pass6};

// What a pass leaves: how many points and faces stand; how many of them left; how many edges, components or vertices it found at fault; how many faces or points it turned or added.
// Of pass 1, those found repeat a corner and those dropped are thin, and both left.
#[derive(Clone, Copy, Debug, PartialEq, Eq)]
pub struct Passed {
    pub points: usize,
    pub faces: usize,
    pub dropped: usize,
    pub found: usize,
    pub changed: usize,
}

// What a pass that is off leaves: all points and faces.
fn all_kept(points: usize, faces: usize) -> Passed
    ensures { result ≡ all_kept points faces }
{
    Passed {
        points,
        faces,
        dropped: 0,
        found: 0,
        changed: 0,
    }
}

// Pass 1, if it is on: degenerate faces leave.
pub fn pass1(
    options: u32,
    s: f64,
    points: &mut [f64],
    p: usize,
    faces: &mut [u32],
    origins: &mut [u32],
    n: usize,
    work: &mut [u32],
) -> Passed
    requires { let before = lists points.old p faces.old origins.old n work.old in Stands (stated before) before }
    ensures { let before = lists points.old p faces.old origins.old n work.old in
        let after = lists points.new result.points faces.new origins.new result.faces work.new in
        Pass1 options s before after result }
{
    if options % 2 == 1 {
        let marked = drop_degenerate::mark(&points[..3 * p], s, faces, n, work);
        let left = leaving::leave(faces, origins, work, marked.at, n);
        return Passed {
            points: p,
            faces: left,
            dropped: n - left - marked.found,
            found: marked.found,
            changed: 0,
        };
    }
    all_kept(p, n)
}

// Pass 2, if it is on: of faces with the same three sorted corners the first stays.
pub fn pass2(
    options: u32,
    s: f64,
    points: &mut [f64],
    p: usize,
    faces: &mut [u32],
    origins: &mut [u32],
    n: usize,
    work: &mut [u32],
) -> Passed
    requires { let before = lists points.old p faces.old origins.old n work.old in Stands (stated before) before }
    ensures { let before = lists points.old p faces.old origins.old n work.old in
        let after = lists points.new result.points faces.new origins.new result.faces work.new in
        Pass2 options s before after result }
{
    if options / 2 % 2 == 1 {
        let marked = drop_duplicate_faces::mark(faces, n, p, work);
        let left = leaving::leave(faces, origins, work, marked.at, n);
        return Passed {
            points: p,
            faces: left,
            dropped: n - left,
            found: 0,
            changed: 0,
        };
    }
    all_kept(p, n)
}

// Pass 3, if it is on: edges with more than two entries are found, and marked faces leave.
pub fn pass3(
    options: u32,
    s: f64,
    points: &mut [f64],
    p: usize,
    faces: &mut [u32],
    origins: &mut [u32],
    n: usize,
    work: &mut [u32],
) -> Passed
    requires { let before = lists points.old p faces.old origins.old n work.old in Stands (stated before) before }
    ensures { let before = lists points.old p faces.old origins.old n work.old in
        let after = lists points.new result.points faces.new origins.new result.faces work.new in
        Pass3 options s before after result }
{
    if options / 4 % 2 == 1 {
        let marked = resolve_nonmanifold_edges::mark(&points[..3 * p], faces, n, work);
        let left = leaving::leave(faces, origins, work, marked.at, n);
        return Passed {
            points: p,
            faces: left,
            dropped: n - left,
            found: marked.found,
            changed: 0,
        };
    }
    all_kept(p, n)
}

// The second half of pass 4, where `single` may say that each directed edge is used at most once: then every face stays. Returns how many do.
fn drop_collisions(
    points: &[f64],
    faces: &mut [u32],
    origins: &mut [u32],
    n: usize,
    work: &mut [u32],
    single: bool,
) -> usize
    requires pass_asks { PassAsks (taken (length points.now / 3) n) points.now faces.old n work.old }
    requires n_in_bounds { n ≤ length origins.old }
    requires once { single ≡ true → Once (standing faces.old n) }
    ensures leave_gives { LeaveGives (marked4 (points_of points.now) (standing faces.old n)) faces.old origins.old n faces.new origins.new result }
    ensures only { Only 0 (taken (length points.now / 3) n) work.old work.new }
{
    if single {
        return n;
    }
    let marked = resolve_directed_collisions::mark(points, faces, n, work);
    leaving::leave(faces, origins, work, marked.at, n)
}

// Pass 4, if it is on: faces are turned until neighbours agree, components in which they cannot are found, and faces leave at directed edges that are used more than once.
pub fn pass4(
    options: u32,
    s: f64,
    points: &mut [f64],
    p: usize,
    faces: &mut [u32],
    origins: &mut [u32],
    n: usize,
    work: &mut [u32],
) -> Passed
    requires { let before = lists points.old p faces.old origins.old n work.old in Stands (stated before) before }
    ensures { let before = lists points.old p faces.old origins.old n work.old in
        let after = lists points.new result.points faces.new origins.new result.faces work.new in
        Pass4 options s before after result }
{
    if options / 16 % 2 == 1 {
        let settled = orient_consistently::settle(faces, n, p, work);
        let left = drop_collisions(&points[..3 * p], faces, origins, n, work, settled.single);
        return Passed {
            points: p,
            faces: left,
            dropped: n - left,
            found: settled.turned.components,
            changed: settled.turned.reoriented,
        };
    }
    all_kept(p, n)
}

// Pass 5, if it is on: vertices whose faces form several fans are found and split, by points that are added.
pub fn pass5(
    options: u32,
    s: f64,
    points: &mut [f64],
    p: usize,
    faces: &mut [u32],
    origins: &mut [u32],
    n: usize,
    work: &mut [u32],
) -> Passed
    requires { let before = lists points.old p faces.old origins.old n work.old in Stands (stated before) before }
    ensures { let before = lists points.old p faces.old origins.old n work.old in
        let after = lists points.new result.points faces.new origins.new result.faces work.new in
        Pass5 options s before after result }
{
    if options / 8 % 2 == 1 {
        let split = split_bowtie_vertices::split_bowtie_vertices(points, p, faces, n, work);
        let q = split.points;
        return Passed {
            points: q,
            faces: n,
            dropped: 0,
            found: split.splits,
            changed: q - p,
        };
    }
    all_kept(p, n)
}

// Pass 6, if it is on: unused points leave.
pub fn pass6(
    options: u32,
    s: f64,
    points: &mut [f64],
    p: usize,
    faces: &mut [u32],
    origins: &mut [u32],
    n: usize,
    work: &mut [u32],
) -> Passed
    requires { let before = lists points.old p faces.old origins.old n work.old in StandsLast before }
    ensures { let before = lists points.old p faces.old origins.old n work.old in
        let after = lists points.new result.points faces.new origins.new result.faces work.new in
        Pass6 options s before after result }
{
    if options / 32 % 2 == 1 {
        let left = drop_isolated_vertices::drop_isolated_vertices(points, p, faces, n, work);
        return Passed {
            points: left,
            faces: n,
            dropped: p - left,
            found: 0,
            changed: 0,
        };
    }
    all_kept(p, n)
}
