// The lengths of mending lists: a line for each small mesh with one number for each of the options 0 to 63, at the threshold 2^-10; then those of a long strip at
// points that are all equal, in whose lists every line is known. The file stdout says what they must be.
#![tactic(auto)]

ghost use Rattle.std.specs.Prelude.{◌≤◌, length};

use std::io;

// Writes how long the list of a mesh is, if the mesh is accepted.
fn tell(rt: &impl Print, points: &[f64], faces: &[u32], options: u32) -> io::Result<()> {
    if refuse::sizes(points.len(), faces.len()).is_err() {
        return Ok(());
    }
    if refuse::contents(points, faces).is_err() {
        return Ok(());
    }
    show::number(
        rt,
        searched_length::searched_length(points, faces, 0.0009765625, options),
    )
}

// The same for each of the options, on a line.
fn tell_all(rt: &impl Print, points: &[f64], faces: &[u32]) -> io::Result<()> {
    for options in 0..64 {
        tell(rt, points, faces, options)?;
    }
    show::end_line(rt)
}

// A strip: face i has the points i, i + 1 and i + 2.
fn strip(faces: &mut [u32])
    requires { length faces.old ≤ 100000 }
{
    for j in 0..faces.len() {
        faces[j] = (j / 3 + j % 3) as u32;
    }
}

// A face with one point three times; a third face on an edge; two faces that meet in a point; faces that repeat corners, that are thin and that are there twice.
fn legs(rt: &impl Print) -> io::Result<()> {
    let points = [
        0.0, 0.0, 0.0, 1.0, 0.0, 0.0, 0.0, 1.0, 0.0, 0.0, -1.0, 0.0, 0.0, 0.0, 1.0,
    ];
    tell_all(rt, &[0.0, 0.0, 0.0], &[0, 0, 0])?;
    tell_all(rt, &points, &[0, 1, 2, 0, 1, 3, 0, 1, 4])?;
    tell_all(rt, &points, &[0, 1, 2, 0, 3, 4])?;
    tell_all(rt, &points, &[0, 0, 1, 0, 1, 2, 2, 1, 0, 0, 2, 3])
}

// A band that closes the wrong way, at points that are all equal; and many faces of one point, so that some points that are split off have two digits.
fn bands(rt: &impl Print) -> io::Result<()> {
    let points = [0.0; 15];
    tell_all(rt, &points, &[0, 1, 2, 1, 2, 3, 2, 3, 4, 3, 4, 0, 4, 0, 1])?;
    tell_all(
        rt,
        &points,
        &[
            1, 1, 1, 0, 1, 2, 1, 1, 1, 3, 3, 3, 1, 4, 4, 3, 3, 3, 0, 2, 1,
        ],
    )
}

// A strip that has more faces than the small rows: in turn every second face is exchanged, each face is thin, and then each point is isolated too.
fn long_strip(rt: &impl Print) -> io::Result<()> {
    let points = [0.0; 12306];
    let mut faces = [0u32; 12300];
    strip(&mut faces);
    tell(rt, &points, &faces, 62)?;
    tell(rt, &points, &faces, 1)?;
    tell(rt, &points, &faces, 33)?;
    show::end_line(rt)
}

fn main(rt: HostRuntime) -> io::Result<()> {
    legs(&rt)?;
    bands(&rt)?;
    long_strip(&rt)
}
