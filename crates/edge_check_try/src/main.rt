// Runs real values through the edge check. A line has the answer, how many entries of the work room are 0 from its front on, and how many are still 7,
// as all were before the call.
#![tactic(auto)]

ghost use Rattle.std.specs.Prelude.{◌≤◌};

use std::io;

// The largest number that a count can be.
const HUGE: usize = 18446744073709551615;

// How many entries are 0, from the front on.
fn zeros(row: &[u32]) -> usize {
    row.iter().take_while(|&&x| x == 0).count()
}

// How many entries are 7.
fn sevens(row: &[u32]) -> usize {
    row.iter().filter(|&&x| x == 7).count()
}

// Checks faces over a number of points, in a work room of a length, and writes what comes of it.
fn run(rt: &impl Print, count: usize, faces: &[u32], length: usize) -> io::Result<()>
    requires { length ≤ 700 }
{
    let mut row = [7; 700];
    let work = &mut row[..length];
    match edge_check::check(count, faces, work) {
        Ok(true) => print!(rt; "yes ")?,
        Ok(false) => print!(rt; "no ")?,
        Err(refusal) => {
            print!(rt; "refused ")?;
            show::number(rt, refusal.number() as u64)?;
            show::number(rt, refusal.place() as u64)?;
        }
    }
    show::number(rt, zeros(work) as u64)?;
    show::number(rt, sevens(work) as u64)?;
    show::end_line(rt)
}

// What passes: no faces, a face, both sides of a face, a closed shell.
fn sound_ones(rt: &impl Print) -> io::Result<()> {
    let faces = [0, 1, 2, 0, 2, 1];
    run(rt, 0, &faces[..0], 64)?;
    run(rt, 3, &faces[..3], 176)?;
    run(rt, 3, &faces, 240)?;
    run(rt, 4, &[0, 1, 2, 0, 2, 3, 0, 3, 1, 1, 3, 2], 384)
}

// A directed edge used twice, one used three times, a face that repeats a corner.
fn faulty_ones(rt: &impl Print) -> io::Result<()> {
    let faces = [0, 1, 2, 0, 1, 3, 0, 1, 4];
    run(rt, 4, &faces[..6], 256)?;
    run(rt, 5, &faces, 336)?;
    run(rt, 2, &[0, 0, 1], 160)?;
    run(rt, 2, &[0, 1, 1], 160)?;
    run(rt, 2, &[1, 0, 1], 160)?;
    run(rt, 1, &[0, 0, 0], 144)
}

// Two groups of faces at a point: two faces that share a corner alone, two closed shells with a common tip, and one patch that meets a point twice.
fn pinched_ones(rt: &impl Print) -> io::Result<()> {
    let shells = [
        0, 2, 1, 0, 1, 3, 1, 2, 3, 2, 0, 3, 0, 5, 4, 0, 4, 6, 4, 5, 6, 5, 0, 6,
    ];
    run(rt, 5, &[0, 1, 2, 0, 3, 4], 272)?;
    run(rt, 7, &shells, 688)?;
    run(rt, 5, &[0, 1, 2, 3, 4, 2, 3, 0, 4, 1, 0, 3], 400)
}

// Unused points don't matter: of a face, and of two that share nothing.
fn unused_points(rt: &impl Print) -> io::Result<()> {
    run(rt, 9, &[4, 6, 2], 272)?;
    run(rt, 9, &[4, 6, 2, 3, 0, 8], 336)
}

// Refusals 1, 2, 5 and 6: nothing is written.
fn refusals(rt: &impl Print) -> io::Result<()> {
    let faces = [0, 1, 2, 0, 1, 3];
    run(rt, 3, &faces[..4], 340)?;
    run(rt, HUGE, &faces, 340)?;
    run(rt, 4194305, &faces, 340)?;
    run(rt, 3, &faces, 340)?;
    run(rt, 4, &faces, 255)?;
    run(rt, 3, &faces[..3], 175)
}

// Entries beyond the stated room are as they were.
fn longer_rooms(rt: &impl Print) -> io::Result<()> {
    let faces = [0, 1, 2, 2, 1, 0];
    run(rt, 0, &faces[..0], 70)?;
    run(rt, 3, &faces, 340)?;
    run(rt, 3, &faces[..3], 180)
}

fn main(rt: HostRuntime) -> io::Result<()> {
    sound_ones(&rt)?;
    faulty_ones(&rt)?;
    pinched_ones(&rt)?;
    unused_points(&rt)?;
    refusals(&rt)?;
    longer_rooms(&rt)
}
