// Writes the mending lists of small meshes, and what is refused: the answer, the text, its room, and the three parts of the work room by their runs. All rooms
// hold 7 before a call; entry 3 of the last part may hold another number. The file stdout says what it must be.
#![tactic(auto)]

ghost use Rattle.std.specs.Prelude.{◌≤◌, length};

use refuse::Refusal;
use std::io;

// How long the rooms are that are lent, and what entry 3 of the last part holds.
#[derive(Clone, Copy)]
struct Lent {
    text: usize,
    corners: usize,
    origins: usize,
    rest: usize,
    spot: u32,
}

// Writes the first n bytes of a room.
fn show_front(rt: &impl Print, text: &[u8], n: usize) -> io::Result<()>
    requires { n ≤ length text.now }
{
    rt.write_all(&text[..n])
}

// Writes the first n bytes of a room in hex.
fn show_hex(rt: &impl Print, text: &[u8], n: usize) -> io::Result<()>
    requires { n ≤ length text.now }
{
    show::hex(rt, &text[..n])
}

// What the call gives back, and the text, if there is one.
fn show_answer(rt: &impl Print, answer: Result<usize, Refusal>, text: &[u8]) -> io::Result<()> {
    match answer {
        Ok(n) => {
            print!(rt; "done ")?;
            show::number(rt, n as u64)?;
            show::end_line(rt)?;
            if n <= text.len() {
                show_front(rt, text, n)?;
            }
        }
        Err(refusal) => {
            print!(rt; "refused ")?;
            show::number(rt, u64::from(refusal.number()))?;
            show::number(rt, refusal.place() as u64)?;
            show::end_line(rt)?;
        }
    }
    Ok(())
}

// Runs the call in the fronts of these rooms.
fn lend(
    points: &[f64],
    faces: &[u32],
    options: u32,
    lent: Lent,
    text: &mut [u8],
    corners: &mut [u32],
    origins: &mut [u32],
    rest: &mut [u32],
) -> Result<usize, Refusal>
    requires { (lent.text ≤ length text.old) × (lent.corners ≤ length corners.old) × (lent.origins ≤ length origins.old) × (lent.rest ≤ length rest.old) }
{
    write_list::write_list(
        points,
        faces,
        0.0009765625,
        options,
        &mut text[..lent.text],
        &mut corners[..lent.corners],
        &mut origins[..lent.origins],
        &mut rest[..lent.rest],
    )
}

// Runs the call in rooms of these lengths.
fn run(rt: &impl Print, points: &[f64], faces: &[u32], options: u32, lent: Lent) -> io::Result<()>
    requires { (lent.text ≤ 700) × (lent.corners ≤ 16) × (lent.origins ≤ 16) × (lent.rest ≤ 460) }
{
    let mut text = [7u8; 700];
    let mut corners = [7u32; 16];
    let mut origins = [7u32; 16];
    let mut rest = [7u32; 460];
    rest[3] = lent.spot;
    let answer = lend(
        points,
        faces,
        options,
        lent,
        &mut text,
        &mut corners,
        &mut origins,
        &mut rest,
    );
    show_answer(rt, answer, &text)?;
    show_hex(rt, &text, 48)?;
    show::runs(rt, &corners)?;
    show::runs(rt, &origins)?;
    show::runs(rt, &rest)
}

// Runs the call for p points and f faces in a text room of this length and a work room that is one entry longer than stated.
fn stated(
    rt: &impl Print,
    points: &[f64],
    faces: &[u32],
    options: u32,
    text: usize,
    spot: u32,
) -> io::Result<()>
    requires { text ≤ 700 }
{
    let p = points.len() / 3;
    let f = faces.len() / 3;
    if p <= 5 {
        if f <= 5 {
            let lent = Lent {
                text,
                corners: 3 * f,
                origins: f,
                rest: 16 * p + 60 * f + 65,
                spot,
            };
            run(rt, points, faces, options, lent)?;
        }
    }
    Ok(())
}

// The same in a text room that is a byte longer than the text, in one as long, in one a byte shorter, and in one that is ample.
fn list(
    rt: &impl Print,
    points: &[f64],
    faces: &[u32],
    options: u32,
    bytes: usize,
) -> io::Result<()>
    requires { bytes ≤ 600 }
{
    stated(rt, points, faces, options, bytes + 1, 7)?;
    stated(rt, points, faces, options, bytes, 7)?;
    stated(rt, points, faces, options, 690, 9)?;
    if bytes > 0 {
        stated(rt, points, faces, options, bytes - 1, 7)?;
    }
    Ok(())
}

// The same in a work room that is not all one number, in a text room that is a byte longer than the text, in one as long and in one a byte shorter.
fn searched(
    rt: &impl Print,
    points: &[f64],
    faces: &[u32],
    options: u32,
    bytes: usize,
) -> io::Result<()>
    requires { bytes ≤ 600 }
{
    stated(rt, points, faces, options, bytes + 1, 9)?;
    stated(rt, points, faces, options, bytes, 9)?;
    if bytes > 0 {
        stated(rt, points, faces, options, bytes - 1, 9)?;
    }
    Ok(())
}

// Both.
fn both(
    rt: &impl Print,
    points: &[f64],
    faces: &[u32],
    options: u32,
    bytes: usize,
) -> io::Result<()>
    requires { bytes ≤ 600 }
{
    list(rt, points, faces, options, bytes)?;
    searched(rt, points, faces, options, bytes)
}

// A face that has one point three times.
fn alone(rt: &impl Print) -> io::Result<()> {
    both(rt, &[0.0, 0.0, 0.0], &[0, 0, 0], 40, 22)?;
    both(rt, &[0.0, 0.0, 0.0], &[0, 0, 0], 0, 0)
}

// Faces over the unit legs: a third face on an edge, an exchange and an unused point; two faces that meet in a point; both reasons of pass 1, and a
// duplicate.
fn legs(rt: &impl Print) -> io::Result<()> {
    let points = [
        0.0, 0.0, 0.0, 1.0, 0.0, 0.0, 0.0, 1.0, 0.0, 0.0, -1.0, 0.0, 0.0, 0.0, 1.0,
    ];
    both(rt, &points, &[0, 1, 2, 0, 1, 3, 0, 1, 4], 63, 19)?;
    both(rt, &points, &[0, 1, 2, 0, 3, 4], 63, 8)?;
    both(rt, &points, &[0, 0, 1, 0, 1, 2, 2, 1, 0, 0, 2, 3], 3, 42)
}

// Five faces around a band that closes the wrong way.
fn band(rt: &impl Print) -> io::Result<()> {
    let points = [0.0; 15];
    both(
        rt,
        &points,
        &[0, 1, 2, 1, 2, 3, 2, 3, 4, 3, 4, 0, 4, 0, 1],
        16,
        28,
    )
}

// A room for one point and no face: `u 0` in four bytes.
fn point(
    rt: &impl Print,
    text: usize,
    corners: usize,
    origins: usize,
    rest: usize,
    spot: u32,
) -> io::Result<()>
    requires { (text ≤ 700) × (corners ≤ 16) × (origins ≤ 16) × (rest ≤ 460) }
{
    let lent = Lent {
        text,
        corners,
        origins,
        rest,
        spot,
    };
    run(rt, &[0.0, 0.0, 0.0], &[], 32, lent)
}

// Rooms that are too short, a byte or an entry; of two short rooms the first; parts that are not those of one room.
fn rooms(rt: &impl Print) -> io::Result<()> {
    point(rt, 4, 0, 0, 80, 7)?;
    point(rt, 3, 0, 0, 80, 7)?;
    point(rt, 3, 0, 0, 80, 9)?;
    point(rt, 4, 0, 0, 79, 9)?;
    point(rt, 3, 0, 0, 79, 9)?;
    point(rt, 10, 1, 0, 80, 7)?;
    point(rt, 4, 0, 1, 80, 9)?;
    point(rt, 3, 1, 1, 80, 9)
}

// Faults of the input before those of the rooms.
fn faults(rt: &impl Print) -> io::Result<()> {
    let none = Lent {
        text: 0,
        corners: 0,
        origins: 0,
        rest: 0,
        spot: 7,
    };
    run(rt, &[0.0, 0.0], &[0], 0, none)?;
    run(rt, &[], &[0], 64, none)?;
    run(rt, &[0.0 / 0.0, 0.0, 0.0], &[], 64, none)?;
    run(rt, &[0.0 / 0.0, 0.0, 0.0], &[0, 0, 1], 0, none)?;
    run(rt, &[0.0, 0.0, 0.0], &[0, 0, 1], 0, none)?;
    run(rt, &[0.0, 0.0, 0.0], &[], 0, none)
}

fn main(rt: HostRuntime) -> io::Result<()> {
    alone(&rt)?;
    legs(&rt)?;
    band(&rt)?;
    rooms(&rt)?;
    faults(&rt)
}
