// Runs real values through both ways to the verdict of 7 and 8. A line has the verdict from the faces, the verdict from the table, and the
// third row as it then stands: where it is fine, the vertex to which the boundary goes on from each, and the number of points where it does not. Of
// more than 4096 faces, which are taken a window of vertices at a time, it has the verdict from the faces alone.
#![tactic(auto)]

ghost use Rattle.std.specs.Prelude.{◌≡◌, length};
ghost use Rattle.edge_check_refusal.specs.Checks.{CheckAccepted};

use refuse::Refusal;
use std::io;

// Writes a verdict.
fn show(rt: &impl Print, found: Result<(), Refusal>) -> io::Result<()> {
    match found {
        Ok(()) => print!(rt; "fine "),
        Err(refusal) => {
            show::number(rt, refusal.number() as u64)?;
            print!(rt; "at ")?;
            show::number(rt, refusal.place() as u64)
        }
    }
}

// Both ways, one after the other, in a room that may hold anything.
fn both(rt: &impl Print, count: usize, faces: &[u32], work: &mut [u32]) -> io::Result<()>
    requires { CheckAccepted count faces.now (length work.old) }
{
    show(rt, verdict::loop_verdict(count, faces))?;
    let m = table::table(work, faces, count, false, 0);
    let row = 5 * faces.len() + 1 + count;
    show(rt, boundary::boundary(work, faces, count, 0, m, row))?;
    let third = row + 2 * count;
    show::row(rt, &work[third..], count)
}

// Both ways for faces over a number of points, in a room of 400 entries that all are 7.
fn run(rt: &impl Print, count: usize, faces: &[u32]) -> io::Result<()> {
    let mut work = [7; 400];
    match edge_check_refusal::edge_check_refusal(count, faces, 400) {
        Ok(()) => both(rt, count, faces, &mut work),
        Err(_) => println!(rt; "refused before"),
    }
}

// Fine: no faces, a face, two that share an edge, a face that repeats a corner, a closed shell, two loops.
fn fine_ones(rt: &impl Print) -> io::Result<()> {
    let faces = [0, 1, 2, 0, 2, 3];
    run(rt, 2, &faces[..0])?;
    run(rt, 3, &faces[..3])?;
    run(rt, 4, &faces)?;
    run(rt, 2, &[0, 0, 1])?;
    run(rt, 4, &[0, 1, 2, 0, 2, 3, 0, 3, 1, 1, 3, 2])?;
    run(rt, 6, &[0, 2, 4, 5, 3, 1])
}

// 7: an edge that occurs three times, first and last of all; one that a single face uses three times.
fn crowded_ones(rt: &impl Print) -> io::Result<()> {
    run(rt, 5, &[0, 1, 2, 0, 1, 3, 0, 1, 4])?;
    run(rt, 5, &[3, 4, 2, 3, 4, 1, 4, 3, 0])?;
    run(rt, 2, &[1, 1, 1])
}

// 8: faces that meet in one point, faces turned against each other, and 5 before either.
fn split_ones(rt: &impl Print) -> io::Result<()> {
    run(rt, 5, &[0, 1, 2, 0, 3, 4])?;
    run(rt, 5, &[3, 0, 1, 3, 2, 4])?;
    run(rt, 4, &[0, 1, 2, 0, 1, 3])?;
    run(rt, 4, &[2, 3, 0, 2, 3, 1])?;
    run(rt, 2, &[0, 1, 2])
}

// The verdict from the faces alone.
fn from_faces(rt: &impl Print, count: usize, faces: &[u32]) -> io::Result<()> {
    match edge_check_refusal::edge_check_refusal(count, faces, 4294967295) {
        Ok(()) => {
            show(rt, verdict::loop_verdict(count, faces))?;
            show::end_line(rt)
        }
        Err(_) => println!(rt; "refused before"),
    }
}

// A fan of 2049 faces around point 0, where that stands already, and then 2052 times a face of point 2.
fn fan(faces: &mut [u32])
    requires { length faces.old ≡ 12303 }
{
    for i in 0..2049 {
        faces[3 * i + 1] = (i + 3) as u32;
        faces[3 * i + 2] = (i + 4) as u32;
    }
    for i in 2049..4101 {
        faces[3 * i] = 2;
        faces[3 * i + 1] = 3;
        faces[3 * i + 2] = 4;
    }
}

// 7: points 0 and 2 have more corners than a window takes in, and an edge of point 1 occurs three times, after one that begins and one that ends there.
fn many_ones(rt: &impl Print) -> io::Result<()> {
    let mut faces = [0; 12303];
    fan(&mut faces);
    faces[12294] = 1;
    faces[12295] = 3;
    faces[12296] = 5;
    faces[12297] = 1;
    faces[12298] = 5;
    faces[12299] = 4;
    faces[12300] = 1;
    faces[12301] = 5;
    faces[12302] = 6;
    from_faces(rt, 2053, &faces)
}

fn main(rt: HostRuntime) -> io::Result<()> {
    fine_ones(&rt)?;
    crowded_ones(&rt)?;
    split_ones(&rt)?;
    many_ones(&rt)
}
