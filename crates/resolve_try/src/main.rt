// Runs faces of document 01's examples, and some more, through pass 3 and through the second half of pass 4, in a work room that is not zero. A line has
// the number of crowded edges, in pass 3 alone, the number of faces that stay, and their corners; the next one has their origins, which are the places of all, and 50.
#![tactic(auto)]

ghost use Rattle.std.specs.Prelude.{◌/◌, ◌≤◌, length};
ghost use Rattle.leaving.specs.Pass.{PassAsks};
ghost use Rattle.marking.specs.Marking.{taken};

use std::io;

// Pass 3.
fn edges(
    rt: &impl Print,
    points: &[f64],
    faces: &mut [u32],
    origins: &mut [u32],
    n: usize,
    work: &mut [u32],
) -> io::Result<()>
    requires pass_asks { PassAsks (taken (length points.now / 3) n) points.now faces.old n work.old }
    requires n_in_bounds { n ≤ length origins.old }
{
    let marked = resolve_nonmanifold_edges::mark(points, faces, n, work);
    let r = leaving::leave(faces, origins, work, marked.at, n);
    show::number(rt, marked.found as u64)?;
    show::number(rt, r as u64)?;
    show::row(rt, faces, 3 * r)?;
    show::row(rt, origins, r)
}

// The second half of pass 4.
fn collisions(
    rt: &impl Print,
    points: &[f64],
    faces: &mut [u32],
    origins: &mut [u32],
    n: usize,
    work: &mut [u32],
) -> io::Result<()>
    requires pass_asks { PassAsks (taken (length points.now / 3) n) points.now faces.old n work.old }
    requires n_in_bounds { n ≤ length origins.old }
{
    let marked = resolve_directed_collisions::mark(points, faces, n, work);
    let r = leaving::leave(faces, origins, work, marked.at, n);
    show::number(rt, r as u64)?;
    show::row(rt, faces, 3 * r)?;
    show::row(rt, origins, r)
}

// A face that repeats its corners; three faces on one edge, which walk it alike or not; five points at the origin, walked by the first half already.
fn main(rt: HostRuntime) -> io::Result<()> {
    let legs = [
        0.0, 0.0, 0.0, 1.0, 0.0, 0.0, 0.0, 1.0, 0.0, 0.0, -1.0, 0.0, 0.0, 0.0, 1.0,
    ];
    let origin = [0.0; 15];
    edges(&rt, &origin, &mut [0, 0, 0], &mut [50], 1, &mut [7; 600])?;
    collisions(&rt, &origin, &mut [0, 0, 0], &mut [50], 1, &mut [7; 600])?;
    edges(
        &rt,
        &legs,
        &mut [0, 1, 2, 0, 1, 3, 0, 1, 4],
        &mut [50, 51, 52],
        3,
        &mut [7; 600],
    )?;
    edges(
        &rt,
        &legs,
        &mut [0, 1, 2, 0, 1, 3, 1, 0, 4],
        &mut [50, 51, 52],
        3,
        &mut [7; 600],
    )?;
    edges(
        &rt,
        &legs,
        &mut [0, 1, 2, 0, 1, 3, 1, 0, 4, 0, 1, 0, 9, 9, 9],
        &mut [50, 51, 52, 53],
        4,
        &mut [7; 600],
    )?;
    collisions(
        &rt,
        &legs,
        &mut [0, 1, 2, 0, 1, 3, 0, 1, 4],
        &mut [50, 51, 52],
        3,
        &mut [7; 600],
    )?;
    collisions(
        &rt,
        &legs,
        &mut [0, 1, 0, 0, 1, 0, 1, 0, 4],
        &mut [50, 51, 52],
        3,
        &mut [7; 600],
    )?;
    collisions(
        &rt,
        &origin,
        &mut [0, 1, 2, 1, 3, 2, 2, 3, 4, 3, 0, 4, 4, 1, 0],
        &mut [50, 51, 52, 53, 54],
        5,
        &mut [7; 600],
    )
}
