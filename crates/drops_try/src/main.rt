// Runs passes 1, 2 and 6 on small rooms. A line has how many faces or points stay, and the room of the faces after the pass: beyond the faces that
// the pass was given it holds 9, as before; then, of passes 1 and 2, the room of their origins, which were 50 and on.
#![tactic(auto)]

ghost use Rattle.std.specs.Prelude.{◌≤◌, length};
ghost use Rattle.leaving.specs.Pass.{FacesStand, PassAsks};
ghost use Rattle.drop_duplicate_faces.specs.Keys.{taken};
ghost use Rattle.drop_isolated_vertices.specs.Unused.{UnusedAsks};

use std::io;

// Pass 1: also how many of those that leave repeat a corner, before all else.
fn degenerate(
    rt: &impl Print,
    points: &[f64],
    s: f64,
    faces: &mut [u32],
    origins: &mut [u32],
    n: usize,
    work: &mut [u32],
) -> io::Result<()>
    requires pass_asks { PassAsks n points.now faces.old n work.old }
    requires n_in_bounds { n ≤ length origins.old }
{
    let marked = drop_degenerate::mark(points, s, faces, n, work);
    show::number(rt, marked.found as u64)?;
    show::number(
        rt,
        leaving::leave(faces, origins, work, marked.at, n) as u64,
    )?;
    show::row(rt, faces, faces.len())?;
    show::row(rt, origins, origins.len())
}

// Pass 2.
fn duplicate(
    rt: &impl Print,
    faces: &mut [u32],
    origins: &mut [u32],
    n: usize,
    count: usize,
    work: &mut [u32],
) -> io::Result<()>
    requires faces_stand { FacesStand (taken count n) count faces.old n work.old }
    requires n_in_bounds { n ≤ length origins.old }
{
    let marked = drop_duplicate_faces::mark(faces, n, count, work);
    show::number(
        rt,
        leaving::leave(faces, origins, work, marked.at, n) as u64,
    )?;
    show::row(rt, faces, faces.len())?;
    show::row(rt, origins, origins.len())
}

// Pass 6.
fn isolated(
    rt: &impl Print,
    points: &mut [f64],
    count: usize,
    faces: &mut [u32],
    n: usize,
    work: &mut [u32],
) -> io::Result<()>
    requires { UnusedAsks points.old count faces.old n work.old }
{
    show::number(
        rt,
        drop_isolated_vertices::drop_isolated_vertices(points, count, faces, n, work) as u64,
    )?;
    show::row(rt, faces, faces.len())
}

// A good face, one with its corners in line, one that repeats a corner, and a good one. At the threshold 1 the right angles are degenerate too.
fn thin_ones(rt: &impl Print) -> io::Result<()> {
    let points = [
        0.0, 0.0, 0.0, 1.0, 0.0, 0.0, 0.0, 1.0, 0.0, 0.0, 0.0, 1.0, 2.0, 0.0, 0.0,
    ];
    let mut work = [7; 400];
    let mut faces = [0, 1, 2, 0, 1, 4, 1, 1, 2, 3, 0, 2, 9, 9, 9];
    degenerate(
        rt,
        &points,
        0.0009765625,
        &mut faces,
        &mut [50, 51, 52, 53, 9],
        4,
        &mut work,
    )?;
    let mut others = [0, 1, 2, 0, 1, 4, 1, 1, 2, 3, 0, 2, 9, 9, 9];
    let mut room = [7; 400];
    degenerate(
        rt,
        &points,
        1.0,
        &mut others,
        &mut [50, 51, 52, 53, 9],
        4,
        &mut room,
    )
}

// Faces with the same corners in another order, and faces that repeat a corner: two of one point and one of the other, and the other way.
fn alike_ones(rt: &impl Print) -> io::Result<()> {
    let mut work = [7; 704];
    let mut faces = [
        0, 1, 2, 3, 1, 2, 2, 1, 0, 1, 0, 0, 1, 2, 3, 1, 1, 0, 1, 0, 2, 0, 1, 1, 0, 0, 1, 9, 9,
    ];
    duplicate(
        rt,
        &mut faces,
        &mut [50, 51, 52, 53, 54, 55, 56, 57, 58, 9],
        9,
        4,
        &mut work,
    )?;
    let mut same = [1, 1, 1, 1, 1, 1, 1, 1, 1, 9];
    let mut room = [7; 300];
    duplicate(rt, &mut same, &mut [50, 51, 52, 9], 3, 2, &mut room)
}

// Of five points two are unused, and what lies beyond them stays. Of one point with no face none stays.
fn unused_ones(rt: &impl Print) -> io::Result<()> {
    let mut work = [7; 12];
    let mut points = [
        0.0, 0.0, 0.0, 1.0, 0.0, 0.0, 0.0, 1.0, 0.0, 0.0, 0.0, 1.0, 2.0, 0.0, 0.0, 5.0, 6.0, 7.0,
    ];
    let mut faces = [4, 1, 2, 4, 2, 1, 9];
    isolated(rt, &mut points, 5, &mut faces, 2, &mut work)?;
    show::equal(rt, &points, &[1.0, 0.0, 0.0, 0.0, 1.0, 0.0, 2.0, 0.0, 0.0])?;
    show::equal(rt, &points[15..], &[5.0, 6.0, 7.0])?;
    isolated(rt, &mut points, 1, &mut faces, 0, &mut work)
}

fn main(rt: HostRuntime) -> io::Result<()> {
    thin_ones(&rt)?;
    alike_ones(&rt)?;
    unused_ones(&rt)
}
