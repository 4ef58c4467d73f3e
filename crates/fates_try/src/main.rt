// Runs passes 1 to 4 on small meshes of five points, the first with passes 1 and 2, with pass 2 alone, and with none. Three lines a mesh: how many faces stand, and the room of the faces; the room of the origins; and what
// became of each input face.
#![tactic(auto)]

ghost use Rattle.std.specs.Prelude.{◌≡◌, ◌+◌, ◌≤◌, length};
ghost use Rattle.fates.specs.Fating.{FourAsks};

use std::io;

// One mesh, at the threshold 2^-10.
fn told(
    rt: &impl Print,
    options: u32,
    points: &[f64],
    input: &[u32],
    faces: &mut [u32],
    origins: &mut [u32],
    work: &mut [u32],
    fates: usize,
) -> io::Result<()>
    requires { FourAsks points.now input.now faces.old origins.old work.old fates }
{
    let n = fates::first_four(
        options,
        0.0009765625,
        points,
        input,
        faces,
        origins,
        work,
        fates,
    );
    show::number(rt, n as u64)?;
    show::row(rt, faces, faces.len())?;
    show::row(rt, origins, origins.len())?;
    show::row(rt, &work[fates..], origins.len())
}

// A repeated corner, a face that stays, the same face the other way round, and a thin face.
fn dropped_ones(rt: &impl Print, options: u32) -> io::Result<()> {
    let points = [
        0.0, 0.0, 0.0, 1.0, 0.0, 0.0, 0.0, 1.0, 0.0, 0.0, -1.0, 0.0, 0.0, 0.0, 1.0,
    ];
    let mut faces = [9; 12];
    let mut origins = [9; 4];
    let mut work = [7; 140];
    told(
        rt,
        options,
        &points,
        &[0, 0, 1, 0, 1, 2, 2, 1, 0, 0, 2, 3],
        &mut faces,
        &mut origins,
        &mut work,
        130,
    )
}

// A third face on an edge leaves, and of the other two one is exchanged.
fn crowded_ones(rt: &impl Print) -> io::Result<()> {
    let points = [
        0.0, 0.0, 0.0, 1.0, 0.0, 0.0, 0.0, 1.0, 0.0, 0.0, -1.0, 0.0, 0.0, 0.0, 1.0,
    ];
    let mut faces = [9; 9];
    let mut origins = [9; 3];
    let mut work = [7; 110];
    told(
        rt,
        63,
        &points,
        &[0, 1, 2, 0, 1, 3, 0, 1, 4],
        &mut faces,
        &mut origins,
        &mut work,
        100,
    )
}

// A band that closes the wrong way, with its first face twice: where that left, one behind it is exchanged and then leaves.
fn turned_ones(rt: &impl Print) -> io::Result<()> {
    let points = [0.0; 15];
    let mut faces = [9; 18];
    let mut origins = [9; 6];
    let mut work = [7; 200];
    told(
        rt,
        18,
        &points,
        &[0, 1, 2, 2, 1, 0, 1, 2, 3, 2, 3, 4, 3, 4, 0, 4, 0, 1],
        &mut faces,
        &mut origins,
        &mut work,
        190,
    )
}

fn main(rt: HostRuntime) -> io::Result<()> {
    dropped_ones(&rt, 3)?;
    dropped_ones(&rt, 2)?;
    dropped_ones(&rt, 0)?;
    crowded_ones(&rt)?;
    turned_ones(&rt)
}
