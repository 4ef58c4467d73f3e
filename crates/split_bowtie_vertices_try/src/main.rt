// Writes what pass 5 makes of small meshes: the vertices split, the points after it, and the faces. The file stdout says what it must be.
#![tactic(auto)]

ghost use Rattle.split_bowtie_vertices.specs.Splits.{SplitAsks};

use std::io;

// Runs pass 5 and writes what it has done, and the faces.
fn run(
    rt: &impl Print,
    points: &mut [f64],
    count: usize,
    faces: &mut [u32],
    n: usize,
    work: &mut [u32],
) -> io::Result<()>
    requires { SplitAsks points.old count faces.old n work.old }
{
    let s = split_bowtie_vertices::split_bowtie_vertices(points, count, faces, n, work);
    show::number(rt, s.splits as u64)?;
    show::number(rt, s.points as u64)?;
    show::row(rt, faces, faces.len())
}

// One face with one point at all corners, as document 01 has it.
fn alone(rt: &impl Print) -> io::Result<()> {
    let mut points = [0.5; 12];
    let mut faces: [u32; 3] = [0, 0, 0];
    let mut work: [u32; 144] = [7; 144];
    run(rt, &mut points, 1, &mut faces, 1, &mut work)
}

// Two triangles that meet at a point.
fn bowtie(rt: &impl Print) -> io::Result<()> {
    let mut points = [0.5; 33];
    let mut faces: [u32; 6] = [0, 1, 2, 0, 3, 4];
    let mut work: [u32; 272] = [7; 272];
    run(rt, &mut points, 5, &mut faces, 2, &mut work)
}

// A fan of four faces at point 0, and a face that repeats another corner.
fn fans(rt: &impl Print) -> io::Result<()> {
    let mut points = [0.5; 63];
    let mut faces: [u32; 15] = [0, 1, 2, 3, 4, 0, 2, 3, 0, 5, 0, 5, 1, 0, 2];
    let mut work: [u32; 480] = [7; 480];
    run(rt, &mut points, 6, &mut faces, 5, &mut work)
}

fn main(rt: HostRuntime) -> io::Result<()> {
    alone(&rt)?;
    bowtie(&rt)?;
    fans(&rt)
}
