// Reads a text as `meshfix` does, and writes what it asks for: options, how many entries stand in the rooms, and one of each
// room; or the refusal's line. The file stdout says what it must be.
#![tactic(auto)]

use std::io;

// Writes the line of refusal 11.
fn refuse(rt: &impl Print) -> io::Result<()> {
    let mut out = [0; 16];
    let end = text_out::put_refusal(&mut out, text_in::BAD_TEXT);
    if end <= 16 {
        rt.write_all(&out[..end])?;
    }
    Ok(())
}

// Reads a text into the rooms, and writes what it asks for.
fn show(rt: &impl Print, text: &[u8]) -> io::Result<()> {
    let mut points = [0.0; 192];
    let mut faces = [0; 192];
    match text_in::read(text, &mut points, &mut faces) {
        None => {
            refuse(rt)?;
        }
        Some(job) => {
            show::number(rt, job.options as u64)?;
            if job.threshold < 1.0 {
                print!(rt; "small ")?;
            }
            show::number(rt, job.points as u64)?;
            show::number(rt, job.faces as u64)?;
            show::number(rt, u64::from(faces[2]))?;
            if points[1] != points[1] {
                print!(rt; "no number")?;
            }
            show::end_line(rt)?;
        }
    }
    Ok(())
}

// The text on standard input, whose last line is a 65th point, and the same without that line.
fn show_input(rt: &(impl Print + Input)) -> io::Result<()> {
    let mut text = [0; 8193];
    let n = input::read_full(&mut rt.reader(), &mut text)?;
    show(rt, &text[..n])?;
    if n >= 53 {
        show(rt, &text[..n - 53])?;
    }
    Ok(())
}

fn main(rt: HostRuntime) -> io::Result<()> {
    show(&rt, b"")?;
    show(&rt, b"o\t63\t3f50000000000000\n")?;
    show(
        &rt,
        b"o\t63\t3f50000000000000\nf\t0\t1\t4294967295\np\t0000000000000000\t7ff8000000000001\tbff0000000000000\n",
    )?;
    show(&rt, b"o\t63\t3f50000000000000\nf\t0\t1\t4294967296\n")?;
    show(&rt, b"o\t063\t3f50000000000000\n")?;
    show(&rt, b"o\t63\t3F50000000000000\n")?;
    show(&rt, b"o\t63\t3f50000000000000\nf\t0\t1\n")?;
    show(&rt, b"o\t63\t3f50000000000000\nf\t0\t1\t2\t3\n")?;
    show(&rt, b"o\t63\t3f50000000000000\nf\t0\t1\t2")?;
    show(&rt, b"o\t63\t3f50000000000000\n\n")?;
    show(&rt, b"f\t0\t1\t2\no\t63\t3f50000000000000\n")?;
    show(&rt, b"o\t63\t3f50000000000000\nf\t00\t1\t2\n")?;
    show(&rt, b"o\t0\t3f50000000000000\n")?;
    show_input(&rt)
}
