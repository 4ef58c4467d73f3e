// Orients a few small meshes in a dirty work room. A line has how many faces were exchanged, how many components are at odds, and then the room of the
// faces. The next has 1 where each directed edge is found to be used at most once then, else 0. The file stdout says what they must be.
#![tactic(auto)]

ghost use Rattle.orient_consistently_try.specs.Asks.{RunAsks};

use std::io;

// Orients n faces over a number of points, and writes what comes of it.
fn run(rt: &impl Print, faces: &mut [u32], n: usize, count: usize) -> io::Result<()>
    requires { RunAsks faces.old n count }
{
    let mut work = [7; 464];
    let turned = orient_consistently::orient_consistently(faces, n, count, &mut work);
    show::number(rt, turned.reoriented as u64)?;
    show::number(rt, turned.components as u64)?;
    show::row(rt, faces, faces.len())?;
    let settled = orient_consistently::settle(faces, n, count, &mut work);
    show::number(rt, settled.single as u64)?;
    show::end_line(rt)
}

// Two faces that agree; two that do not, and two entries behind them; three on one edge; a strip with a twist; faces that repeat corners;
// three on one edge, that first walk it from its higher to its lower end; three in a row, of which the second is reached through the third.
fn main(rt: HostRuntime) -> io::Result<()> {
    let mut agree = [0, 1, 2, 2, 1, 3];
    run(&rt, &mut agree, 2, 4)?;
    let mut turned = [0, 1, 2, 1, 2, 3, 9, 9];
    run(&rt, &mut turned, 2, 4)?;
    let mut crowd = [0, 1, 2, 0, 1, 3, 0, 1, 4];
    run(&rt, &mut crowd, 3, 5)?;
    let mut twist = [0, 1, 2, 1, 2, 3, 2, 3, 4, 3, 4, 0, 4, 0, 1];
    run(&rt, &mut twist, 5, 5)?;
    let mut repeats = [0, 0, 1, 2, 3, 3, 1, 0, 2];
    run(&rt, &mut repeats, 3, 4)?;
    let mut down = [1, 0, 2, 1, 0, 3, 1, 0, 4];
    run(&rt, &mut down, 3, 5)?;
    let mut later = [0, 1, 2, 3, 2, 4, 1, 2, 3];
    run(&rt, &mut later, 3, 5)
}
