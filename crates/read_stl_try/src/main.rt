// Reads the binary STL file on standard input into points and triples, and writes their entries, a line each. The files stdin and stdout are an example: four
// facets with a common corner, some of whose zeros are -0, a file that is a byte too long, and one whose corner 4 is
// infinite.
#![tactic(auto)]

use std::io;

// Writes the bits of a number.
fn show_float(rt: &impl Print, x: f64) -> io::Result<()> {
    if x != x {
        return Ok(());
    }
    let bits = f64::to_bits(x);
    println!(rt; "{bits:016x}")
}

// Writes the bits of each of some numbers.
fn show_floats(rt: &impl Print, xs: &[f64]) -> io::Result<()> {
    for x in xs {
        show_float(rt, *x)?;
    }
    Ok(())
}

// Writes a number in decimal.
fn show_number(rt: &impl Print, n: u32) -> io::Result<()> {
    println!(rt; "{n}")
}

// Writes each of some numbers in decimal.
fn show_numbers(rt: &impl Print, xs: &[u32]) -> io::Result<()> {
    for x in xs {
        show_number(rt, *x)?;
    }
    Ok(())
}

// Writes what reading a file gives: the entries of the points, then those of the triples; or number and place of the refusal.
fn show(
    rt: &impl Print,
    file: &[u8],
    points: &mut [f64],
    faces: &mut [u32],
    work: &mut [u32],
) -> io::Result<()> {
    match read_stl::read_stl(file, points, faces, work) {
        Ok(read) => {
            if read.points <= points.len() {
                show_floats(rt, &points[..read.points])?;
            }
            if read.faces <= faces.len() {
                show_numbers(rt, &faces[..read.faces])?;
            }
        }
        Err(refusal) => {
            print!(rt; "refused ")?;
            show_number(rt, refusal.number())?;
            let place = refusal.place();
            println!(rt; "{place}")?;
        }
    }
    Ok(())
}

fn main(rt: HostRuntime) -> io::Result<()> {
    let mut file = [0u8; 20084];
    let n = input::read_full(&mut rt.stdin(), &mut file)?;
    let mut points = [1.0f64; 3600];
    let mut faces = [7u32; 1200];
    let mut work = [7u32; 25664];
    show(&rt, &file[..n], &mut points, &mut faces, &mut work)?;
    if n < 20084 {
        show(&rt, &file[..n + 1], &mut points, &mut faces, &mut work)?;
        // corner 4 begins at byte 158
        file[160] = 128;
        file[161] = 127;
        show(&rt, &file[..n], &mut points, &mut faces, &mut work)?;
    }
    Ok(())
}
