// One report lent to each of the six passes in turn and added to there, and the whole repair on the lists in the rooms.
#![tactic(auto)]

ghost use Rattle.std.specs.Prelude.{◌≡◌, ◌+◌, ◌-◌, ◌*◌, ◌^◌};
ghost use Rattle.rules.specs.State.{repeateds, thins, duplicates, crowded_edges, dropped_at_edges, dropped_for_direction, vertices_split, points_added, reoriented, components, isolated};
ghost use Rattle.passes.specs.Passing.{lists, stated, Stands, StandsLast, Pass1, Pass2, Pass3, Pass4, Pass5, Pass6};
ghost use Rattle.lending.specs.Reports.{empty, added, CountsBelow};
ghost use Rattle.lending.specs.Mended.{TurnsGive, MendAsks, MendGives};

use passes::Passed;

// An account of everything that a repair changed.
#[derive(Drop)]
pub struct Report {
    pub repeated_removed: usize,
    pub thin_removed: usize,
    pub duplicate_faces_removed: usize,
    pub nonmanifold_edges: usize,
    pub faces_dropped_at_nonmanifold: usize,
    pub faces_dropped_for_orientation: usize,
    pub bowtie_vertices_split: usize,
    pub points_added_by_splitting: usize,
    pub faces_reoriented: usize,
    pub nonorientable_components: usize,
    pub isolated_vertices_removed: usize,
}

// What a repair leaves: how many points and faces, and its report.
#[derive(Drop)]
pub struct Mended {
    pub points: usize,
    pub faces: usize,
    pub report: Report,
}

// The report before the first pass.
fn new() -> Report
    ensures { result ≡ empty }
{
    Report {
        repeated_removed: 0,
        thin_removed: 0,
        duplicate_faces_removed: 0,
        nonmanifold_edges: 0,
        faces_dropped_at_nonmanifold: 0,
        faces_dropped_for_orientation: 0,
        bowtie_vertices_split: 0,
        points_added_by_splitting: 0,
        faces_reoriented: 0,
        nonorientable_components: 0,
        isolated_vertices_removed: 0,
    }
}

// Pass 1: degenerate faces leave; those that repeat a corner, and those that are thin, are added to the lent report.
pub fn drop_degenerate(
    report: &mut Report,
    options: u32,
    s: f64,
    points: &mut [f64],
    p: usize,
    faces: &mut [u32],
    origins: &mut [u32],
    n: usize,
    work: &mut [u32],
) -> Passed
    requires { let before = lists points.old p faces.old origins.old n work.old in
        Stands (stated before) before × CountsBelow (2 ^ 64 - (p + 3 * n)) report.old }
    ensures { let before = lists points.old p faces.old origins.old n work.old in
        let after = lists points.new result.points faces.new origins.new result.faces work.new in
        Pass1 options s before after result
        × (report.new ≡ added thins result.dropped (added repeateds result.found report.old)) }
{
    let r = passes::pass1(options, s, points, p, faces, origins, n, work);
    report.repeated_removed = report.repeated_removed + r.found;
    report.thin_removed = report.thin_removed + r.dropped;
    r
}

// Pass 2: of faces with the same three sorted corners the first stays; the others are added to the lent report.
pub fn drop_duplicate_faces(
    report: &mut Report,
    options: u32,
    s: f64,
    points: &mut [f64],
    p: usize,
    faces: &mut [u32],
    origins: &mut [u32],
    n: usize,
    work: &mut [u32],
) -> Passed
    requires { let before = lists points.old p faces.old origins.old n work.old in
        Stands (stated before) before × CountsBelow (2 ^ 64 - (p + 3 * n)) report.old }
    ensures { let before = lists points.old p faces.old origins.old n work.old in
        let after = lists points.new result.points faces.new origins.new result.faces work.new in
        Pass2 options s before after result
        × (report.new ≡ added duplicates result.dropped report.old) }
{
    let r = passes::pass2(options, s, points, p, faces, origins, n, work);
    report.duplicate_faces_removed = report.duplicate_faces_removed + r.dropped;
    r
}

// Pass 3: edges with more than two entries, and the faces that leave there, are added to the lent report.
pub fn resolve_nonmanifold_edges(
    report: &mut Report,
    options: u32,
    s: f64,
    points: &mut [f64],
    p: usize,
    faces: &mut [u32],
    origins: &mut [u32],
    n: usize,
    work: &mut [u32],
) -> Passed
    requires { let before = lists points.old p faces.old origins.old n work.old in
        Stands (stated before) before × CountsBelow (2 ^ 64 - (p + 3 * n)) report.old }
    ensures { let before = lists points.old p faces.old origins.old n work.old in
        let after = lists points.new result.points faces.new origins.new result.faces work.new in
        Pass3 options s before after result
        × (report.new ≡ added dropped_at_edges result.dropped (added crowded_edges result.found report.old)) }
{
    let r = passes::pass3(options, s, points, p, faces, origins, n, work);
    report.nonmanifold_edges = report.nonmanifold_edges + r.found;
    report.faces_dropped_at_nonmanifold = report.faces_dropped_at_nonmanifold + r.dropped;
    r
}

// Pass 4: faces turned, components in which neighbours cannot agree, and faces that leave at directed edges are added to the lent report.
pub fn orient_consistently(
    report: &mut Report,
    options: u32,
    s: f64,
    points: &mut [f64],
    p: usize,
    faces: &mut [u32],
    origins: &mut [u32],
    n: usize,
    work: &mut [u32],
) -> Passed
    requires { let before = lists points.old p faces.old origins.old n work.old in
        Stands (stated before) before × CountsBelow (2 ^ 64 - (p + 3 * n)) report.old }
    ensures { let before = lists points.old p faces.old origins.old n work.old in
        let after = lists points.new result.points faces.new origins.new result.faces work.new in
        Pass4 options s before after result
        × (report.new ≡ added dropped_for_direction result.dropped (added components result.found (added reoriented result.changed report.old))) }
{
    let r = passes::pass4(options, s, points, p, faces, origins, n, work);
    report.faces_reoriented = report.faces_reoriented + r.changed;
    report.nonorientable_components = report.nonorientable_components + r.found;
    report.faces_dropped_for_orientation = report.faces_dropped_for_orientation + r.dropped;
    r
}

// Pass 5: vertices that are split, and the points that they add, are added to the lent report.
pub fn split_bowtie_vertices(
    report: &mut Report,
    options: u32,
    s: f64,
    points: &mut [f64],
    p: usize,
    faces: &mut [u32],
    origins: &mut [u32],
    n: usize,
    work: &mut [u32],
) -> Passed
    requires { let before = lists points.old p faces.old origins.old n work.old in
        Stands (stated before) before × CountsBelow (2 ^ 64 - (p + 3 * n)) report.old }
    ensures { let before = lists points.old p faces.old origins.old n work.old in
        let after = lists points.new result.points faces.new origins.new result.faces work.new in
        Pass5 options s before after result
        × (report.new ≡ added points_added result.changed (added vertices_split result.found report.old)) }
{
    let r = passes::pass5(options, s, points, p, faces, origins, n, work);
    report.bowtie_vertices_split = report.bowtie_vertices_split + r.found;
    report.points_added_by_splitting = report.points_added_by_splitting + r.changed;
    r
}

// Pass 6: unused points leave, and are added to the lent report.
pub fn drop_isolated_vertices(
    report: &mut Report,
    options: u32,
    s: f64,
    points: &mut [f64],
    p: usize,
    faces: &mut [u32],
    origins: &mut [u32],
    n: usize,
    work: &mut [u32],
) -> Passed
    requires { let before = lists points.old p faces.old origins.old n work.old in
        StandsLast before × CountsBelow (2 ^ 64 - (p + 3 * n)) report.old }
    ensures { let before = lists points.old p faces.old origins.old n work.old in
        let after = lists points.new result.points faces.new origins.new result.faces work.new in
        Pass6 options s before after result
        × (report.new ≡ added isolated result.dropped report.old) }
{
    let r = passes::pass6(options, s, points, p, faces, origins, n, work);
    report.isolated_vertices_removed = report.isolated_vertices_removed + r.dropped;
    r
}

// The six passes in their order, on p points and n faces at the front of their rooms. One report is lent to each in turn.
fn in_turn(
    options: u32,
    s: f64,
    points: &mut [f64],
    p: usize,
    faces: &mut [u32],
    origins: &mut [u32],
    n: usize,
    work: &mut [u32],
) -> Mended
    requires { let before = lists points.old p faces.old origins.old n work.old in Stands (stated before) before }
    ensures { let before = lists points.old p faces.old origins.old n work.old in
        let after = lists points.new result.points faces.new origins.new result.faces work.new in
        TurnsGive s options before after result }
{
    let mut report = new();
    let a = drop_degenerate(&mut report, options, s, points, p, faces, origins, n, work);
    let b = drop_duplicate_faces(
        &mut report,
        options,
        s,
        points,
        a.points,
        faces,
        origins,
        a.faces,
        work,
    );
    let c = resolve_nonmanifold_edges(
        &mut report,
        options,
        s,
        points,
        b.points,
        faces,
        origins,
        b.faces,
        work,
    );
    let d = orient_consistently(
        &mut report,
        options,
        s,
        points,
        c.points,
        faces,
        origins,
        c.faces,
        work,
    );
    let e = split_bowtie_vertices(
        &mut report,
        options,
        s,
        points,
        d.points,
        faces,
        origins,
        d.faces,
        work,
    );
    let f = drop_isolated_vertices(
        &mut report,
        options,
        s,
        points,
        e.points,
        faces,
        origins,
        e.faces,
        work,
    );
    Mended {
        points: f.points,
        faces: f.faces,
        report,
    }
}

// The six passes, each by its option, from the given lists to those at the front of the rooms, where each face has the number that it had in the given list.
pub fn mend(
    points: &[f64],
    faces: &[u32],
    s: f64,
    options: u32,
    out_points: &mut [f64],
    out_faces: &mut [u32],
    origins: &mut [u32],
    work: &mut [u32],
) -> Mended
    requires { MendAsks points.now faces.now out_points.old out_faces.old origins.old work.old }
    ensures { let after = lists out_points.new result.points out_faces.new origins.new result.faces work.new in
        MendGives points.now faces.now s options out_points.old out_faces.old origins.old work.old after result }
{
    let p = points.len() / 3;
    let n = faces.len() / 3;
    rows::copy_row(points, out_points, 3 * p);
    rows::copy_row(faces, out_faces, 3 * n);
    rows::number(origins, n);
    in_turn(options, s, out_points, p, out_faces, origins, n, work)
}
