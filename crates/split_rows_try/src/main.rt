// Writes what passes 5 and 6 do to small meshes, as rows: how many points are split off, their old points, the faces, the corners sorted by their points, and
// the flags of the unused points. The file stdout says what it must be.
#![tactic(auto)]

ghost use Rattle.split_bowtie_vertices.specs.Splits.{taken};
ghost use Rattle.split_rows.specs.Rows.{SplitAsks};

use std::io;

// Runs both on n faces over `count` points. The old points stand behind all that pass 5 takes.
fn run(
    rt: &impl Print,
    faces: &mut [u32],
    n: usize,
    count: usize,
    work: &mut [u32],
) -> io::Result<()>
    requires { SplitAsks faces.old n count work.old (taken count n) }
{
    let m = 3 * n;
    let olds = 42 * n + 2 + count;
    let k = split_rows::split_rows(faces, n, count, work, olds);
    let points = count + k;
    let end = olds + k;
    show::number(rt, k as u64)?;
    show::row(rt, &work[olds..end], k)?;
    show::row(rt, faces, m)?;
    let sorted = m + points;
    let last = sorted + m;
    split_rows::sort_takers(work, faces, n, points, m, sorted);
    show::row(rt, &work[sorted..last], m)?;
    split_rows::mark_unused(faces, n, points, work, m);
    show::row(rt, &work[m..sorted], points)
}

// One face with one point at all corners, as document 02 has it.
fn alone(rt: &impl Print) -> io::Result<()> {
    let mut faces: [u32; 3] = [0, 0, 0];
    let mut work: [u32; 48] = [7; 48];
    run(rt, &mut faces, 1, 1, &mut work)
}

// Two triangles that meet at a point, and a point that no face has.
fn bowtie(rt: &impl Print) -> io::Result<()> {
    let mut faces: [u32; 6] = [0, 1, 2, 0, 3, 4];
    let mut work: [u32; 98] = [7; 98];
    run(rt, &mut faces, 2, 6, &mut work)
}

// Three faces in a fan at point 0, and a face that repeats point 5 and takes the copies of both.
fn fans(rt: &impl Print) -> io::Result<()> {
    let mut faces: [u32; 15] = [0, 1, 2, 3, 4, 0, 2, 3, 0, 6, 7, 5, 5, 0, 5];
    let mut work: [u32; 235] = [7; 235];
    run(rt, &mut faces, 5, 8, &mut work)
}

fn main(rt: HostRuntime) -> io::Result<()> {
    alone(&rt)?;
    bowtie(&rt)?;
    fans(&rt)
}
