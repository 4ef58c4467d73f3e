// Refusals at the limits, checked against document 01's numbers and places: proved, by antt's own run of the rules, and run.
#![tactic(auto)]

ghost use Rattle.std.specs.Prelude.{◌≡◌};
ghost use Rattle.rules.specs.Refusal.{ok, no, decided};
ghost use Rattle.refuse.specs.Verdicts.{check_of};
ghost use Rattle.repair_refusal.specs.Checks.{repair_list};
ghost use Rattle.edges_refusal.specs.Checks.{edges_list};
ghost use Rattle.loops_refusal.specs.Checks.{loops_list};
ghost use Rattle.patches_refusal.specs.Checks.{patches_list};

use refuse::Refusal;

// The largest coordinate, 2^100.
const FAR: f64 = 1267650600228229401496703205376.0;

// The next f64.
const BEYOND: f64 = 1267650600228229682971679916032.0;

// The largest number that a length or a count can be.
const HUGE: usize = usize::MAX;

// Nothing is refused.
fn accepted(checked: Result<(), Refusal>)
    requires { check_of checked ≡ ok }
{
    check::expect(checked.is_ok());
}

// What is refused has this number and place.
fn refused(checked: Result<(), Refusal>, number: u32, place: usize)
    requires { check_of checked ≡ no number place }
{
    match checked {
        Ok(()) => {
            check::expect(false);
        }
        Err(refusal) => {
            check::expect(refusal.number() == number);
            check::expect(refusal.place() == place);
        }
    }
}

// What the repair refuses, with the lengths of its five rooms.
fn repair(
    points: &[f64],
    faces: &[u32],
    s: f64,
    options: u32,
    first: usize,
    second: usize,
    third: usize,
    fourth: usize,
    work: usize,
) -> Result<(), Refusal>
    ensures { check_of result ≡ decided (repair_list points.now faces.now s options first second third fourth work) }
{
    let rooms = repair_refusal::Rooms {
        out_points: first,
        out_faces: second,
        report: third,
        origins: fourth,
        work,
    };
    repair_refusal::repair_refusal(points, faces, s, options, rooms)
}

// What the edge call refuses, with the lengths of its rooms: edges, the two others alike, work.
fn edges(
    points: &[f64],
    faces: &[u32],
    first: usize,
    others: usize,
    work: usize,
) -> Result<(), Refusal>
    ensures { check_of result ≡ decided (edges_list points.now faces.now first others others work) }
{
    let rooms = edges_refusal::Rooms {
        edges: first,
        lengths: others,
        face_edges: others,
        work,
    };
    edges_refusal::edges_refusal(points, faces, rooms)
}

// What the loop call refuses, with the lengths of its rooms.
fn loops(
    points: &[f64],
    faces: &[u32],
    first: usize,
    second: usize,
    work: usize,
) -> Result<(), Refusal>
    ensures { check_of result ≡ decided (loops_list points.now faces.now first second work) }
{
    let rooms = loops_refusal::Rooms {
        loop_vertices: first,
        loop_ends: second,
        work,
    };
    loops_refusal::loops_refusal(points, faces, rooms)
}

// What the patch call refuses for a number of patches, with the lengths of its four rooms.
fn patches(
    points: &[f64],
    faces: &[u32],
    labels: &[u32],
    count: usize,
    first: usize,
    second: usize,
    third: usize,
    work: usize,
) -> Result<(), Refusal>
    ensures { check_of result ≡ decided (patches_list points.now faces.now labels.now count first second third work) }
{
    let rooms = patches_refusal::Rooms {
        face_counts: first,
        numbers: second,
        flags: third,
        work,
    };
    patches_refusal::patches_refusal(points, faces, labels, count, rooms)
}

// 3: s in 0..1, options up to 63.
fn settings() {
    let points = [0.0, 0.0, 0.0, 0.0, 0.0, 0.0, 0.0, 0.0, 0.0];
    let faces = [0, 1, 2];
    let nan = f64::NAN;
    accepted(repair(&points, &faces, 1.0, 63, 18, 3, 11, 1, 176));
    accepted(repair(&points, &faces, -0.0, 0, 18, 3, 11, 1, 176));
    refused(
        repair(&points, &faces, 1.0000000000000002, 0, 18, 3, 11, 1, 176),
        3,
        0,
    );
    refused(repair(&points, &faces, nan, 64, 18, 3, 11, 1, 176), 3, 0);
    refused(repair(&points, &faces, 0.0, 64, 18, 3, 11, 1, 176), 3, 1);
    refused(
        repair(&points, &faces, 0.0, 4294967295, 18, 3, 11, 1, 176),
        3,
        1,
    );
}

// 1: lengths that are no multiple of 3, before all else.
fn lengths() {
    let points = [0.0, 0.0, 0.0, 0.0, 0.0, 0.0, 0.0, 0.0, 0.0];
    let faces = [0, 1, 2, 9];
    refused(
        repair(&points[..8], &faces, 2.0, 64, 18, 3, 11, 1, 176),
        1,
        0,
    );
    refused(repair(&points, &faces, 2.0, 64, 18, 3, 11, 1, 176), 1, 1);
    accepted(repair(&points[..0], &faces[..0], 0.0, 0, 0, 0, 11, 0, 64));
}

// 4: 2^100 passes, the next f64 does not; infinity and NaN neither.
fn domain() {
    let faces = [0, 1, 2];
    let far = [FAR, -FAR, FAR, 0.0, 0.0, 0.0, -FAR, -0.0, 1.0];
    let beyond = [FAR, 0.0, 0.0, 0.0, -BEYOND, 0.0, BEYOND, 0.0, 0.0];
    let infinite = [0.0, 0.0, f64::INFINITY, 0.0, 0.0, 0.0, 0.0, 0.0, 0.0];
    let nan = [0.0, 0.0, 0.0, 0.0, 0.0, 0.0, 0.0, 0.0, f64::NAN];
    accepted(repair(&far, &faces, 0.0, 0, 18, 3, 11, 1, 176));
    refused(repair(&beyond, &faces, 0.0, 0, 18, 3, 11, 1, 176), 4, 1);
    refused(repair(&infinite, &faces, 0.0, 0, 18, 3, 11, 1, 176), 4, 0);
    refused(repair(&nan, &faces, 0.0, 0, 18, 3, 11, 1, 176), 4, 2);
}

// 5: corner P-1 passes, corner P is refused.
fn corners() {
    let points = [0.0, 0.0, 0.0, 0.0, 0.0, 0.0, 0.0, 0.0, 0.0];
    let faces = [0, 1, 2];
    let stray = [0, 1, 2, 0, 3, 0, 4294967295, 0, 0];
    accepted(repair(&points, &faces, 0.0, 0, 18, 3, 11, 1, 176));
    refused(repair(&points, &stray, 0.0, 0, 0, 0, 0, 0, 0), 5, 1);
}

// 6: rooms of a repair, of the edge call and of the loop call, one entry too short.
fn rooms() {
    let points = [0.0, 0.0, 0.0, 0.0, 0.0, 0.0, 0.0, 0.0, 0.0];
    let faces = [0, 1, 2];
    refused(repair(&points, &faces, 0.0, 0, 17, 2, 10, 0, 175), 6, 0);
    refused(repair(&points, &faces, 0.0, 0, 18, 2, 10, 0, 175), 6, 1);
    refused(repair(&points, &faces, 0.0, 0, 18, 3, 10, 0, 175), 6, 2);
    refused(repair(&points, &faces, 0.0, 0, 18, 3, 11, 0, 175), 6, 3);
    refused(
        repair(&points, &faces, 0.0, 0, HUGE, HUGE, HUGE, HUGE, 175),
        6,
        4,
    );
    accepted(edges(&points, &faces, 6, 3, 176));
    refused(edges(&points, &faces, 5, 2, 175), 6, 0);
    refused(edges(&points, &faces, 6, 2, 175), 6, 1);
    refused(edges(&points, &faces, 6, 3, 175), 6, 3);
    accepted(loops(&points, &faces, 3, 3, 176));
    refused(loops(&points, &faces, 2, 2, 175), 6, 0);
    refused(loops(&points, &faces, 3, 2, 175), 6, 1);
    refused(loops(&points, &faces, 3, 3, 175), 6, 2);
}

// 2 and 6 of the edge check: P is a number, and any may come.
fn point_counts() {
    let faces = [0, 1, 4194303];
    accepted(edge_check_refusal::edge_check_refusal(4194304, &faces, 67108992));
    refused(
        edge_check_refusal::edge_check_refusal(4194304, &faces, 67108991),
        6,
        0,
    );
    refused(
        edge_check_refusal::edge_check_refusal(4194305, &faces, HUGE),
        2,
        0,
    );
    refused(
        edge_check_refusal::edge_check_refusal(HUGE, &faces, HUGE),
        2,
        0,
    );
    refused(
        edge_check_refusal::edge_check_refusal(4194303, &faces, HUGE),
        5,
        0,
    );
    refused(
        edge_check_refusal::edge_check_refusal(0, &faces[..2], 0),
        1,
        1,
    );
}

// 2 of the patch call: the patch count is a number, and any may come.
fn patch_counts() {
    let points = [0.0, 0.0, 0.0, 0.0, 0.0, 0.0, 0.0, 0.0, 0.0];
    let faces = [0, 1, 2];
    let labels = [4294967295];
    accepted(patches(
        &points, &faces, &labels, 1048576, 1048576, 7340032, 1048576, 4194304,
    ));
    refused(
        patches(&points, &faces, &labels, 1048577, HUGE, HUGE, HUGE, HUGE),
        2,
        2,
    );
    refused(patches(&points, &faces, &labels, HUGE, 0, 0, 0, 0), 2, 2);
    refused(
        patches(&points, &faces, &labels, 1048576, 1048576, 7340031, 0, 0),
        6,
        1,
    );
}

// 9, looked for in all labels given, then 10.
fn label_rows() {
    let points = [0.0, 0.0, 0.0, 0.0, 0.0, 0.0, 0.0, 0.0, 0.0];
    let faces = [0, 1, 2];
    let labels = [4294967294, 1, 2];
    accepted(patches(&points, &faces, &labels[1..2], 2, 2, 14, 2, 8));
    refused(patches(&points, &faces, &labels[1..3], 2, 0, 0, 0, 0), 9, 1);
    refused(
        patches(&points, &faces, &labels[1..3], 3, 0, 0, 0, 0),
        10,
        0,
    );
    refused(
        patches(&points, &faces, &labels[..1], 1048576, 0, 0, 0, 0),
        9,
        0,
    );
}

// 1 and 6 of the report line.
fn report_line() {
    let counts = [0, 0, 0, 0, 0, 0, 0, 0, 0, 0, 4294967295, 0];
    accepted(line_refusal::line_refusal(&counts[..11], 512));
    refused(line_refusal::line_refusal(&counts[..11], 511), 6, 0);
    refused(line_refusal::line_refusal(&counts[..10], 0), 1, 2);
    refused(line_refusal::line_refusal(&counts, 0), 1, 2);
}

fn main() {
    settings();
    lengths();
    domain();
    corners();
    rooms();
    point_counts();
    patch_counts();
    label_rows();
    report_line();
}
