// Mending lists through the calls for C, of a face that has one point three times: each text that was written is applied, and so are two others. All rooms hold 7
// before a call. The file stdout says what it must be.
#![tactic(auto)]

ghost use Rattle.std.specs.Prelude.{◌≤◌, length};

use shell::ShellList;
use std::io;

// What applying a list gives back, and its rooms.
fn apply(rt: &impl Print, list: &[u8]) -> io::Result<()> {
    let mut points = [7.0; 13];
    let mut faces = [7u32; 4];
    let mut work = [7u32; 145];
    let r = shell::shell_apply(
        &[0.0, 0.0, 0.0],
        &[0, 0, 0],
        list,
        &mut points,
        &mut faces,
        &mut work,
    );
    print!(rt; "apply ")?;
    show::numbers(rt, &[r.number, r.place], 2)?;
    show::number(rt, r.points)?;
    show::number(rt, r.faces)?;
    show::end_line(rt)?;
    show::bits(rt, &points)?;
    show::row(rt, &faces, faces.len())?;
    show::runs(rt, &work)
}

// The first n bytes of a room, and what applying them gives.
fn apply_front(rt: &impl Print, text: &[u8], n: usize) -> io::Result<()>
    requires { n ≤ length text.now }
{
    rt.write_all(&text[..n])?;
    apply(rt, &text[..n])
}

// What writing a list gave back; where it was written it is applied.
fn told(rt: &impl Print, r: ShellList, text: &[u8]) -> io::Result<()> {
    print!(rt; "list ")?;
    show::numbers(rt, &[r.number, r.place], 2)?;
    show::number(rt, r.bytes)?;
    show::end_line(rt)?;
    let n = r.bytes as usize;
    if r.number == 0 {
        if n <= text.len() {
            apply_front(rt, text, n)?;
        }
    }
    Ok(())
}

// How long the rooms are that are lent.
#[derive(Drop)]
struct Lent {
    text: usize,
    corners: usize,
    rest: usize,
}

// Writes a list in the fronts of these rooms.
fn lend(
    points: &[f64],
    faces: &[u32],
    options: u32,
    lent: Lent,
    text: &mut [u8],
    corners: &mut [u32],
    origins: &mut [u32],
    rest: &mut [u32],
) -> ShellList
    requires { (lent.text ≤ length text.old) × (lent.corners ≤ length corners.old) × (lent.rest ≤ length rest.old) }
{
    shell::shell_list_in_parts(
        points,
        faces,
        0.0009765625,
        options,
        &mut text[..lent.text],
        &mut corners[..lent.corners],
        origins,
        &mut rest[..lent.rest],
    )
}

// The rooms of a list, with what it gave back.
fn list(rt: &impl Print, options: u32, lent: Lent) -> io::Result<()>
    requires { (lent.text ≤ 24) × (lent.corners ≤ 3) × (lent.rest ≤ 141) }
{
    let mut text = [7u8; 24];
    let mut corners = [7u32; 3];
    let mut origins = [7u32; 1];
    let mut rest = [7u32; 141];
    let r = lend(
        &[0.0, 0.0, 0.0],
        &[0, 0, 0],
        options,
        lent,
        &mut text,
        &mut corners,
        &mut origins,
        &mut rest,
    );
    show::hex(rt, &text)?;
    show::runs(rt, &corners)?;
    show::runs(rt, &origins)?;
    show::runs(rt, &rest)?;
    told(rt, r, &text)
}

// In a text room, a first and a third part of the work room of these lengths.
fn stated(rt: &impl Print, options: u32, text: usize, corners: usize, rest: usize) -> io::Result<()>
    requires { (text ≤ 24) × (corners ≤ 3) × (rest ≤ 141) }
{
    let lent = Lent {
        text: text,
        corners: corners,
        rest: rest,
    };
    list(rt, options, lent)
}

fn main(rt: HostRuntime) -> io::Result<()> {
    stated(&rt, 40, 24, 3, 141)?;
    stated(&rt, 8, 14, 3, 140)?;
    stated(&rt, 0, 0, 3, 140)?;
    stated(&rt, 40, 21, 3, 140)?;
    stated(&rt, 40, 22, 3, 139)?;
    stated(&rt, 40, 22, 2, 140)?;
    stated(&rt, 64, 22, 3, 140)?;
    apply(&rt, b"o\t0\no\t0\n")?;
    apply(&rt, b"u\t0\n")
}
