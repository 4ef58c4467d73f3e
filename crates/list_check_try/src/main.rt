// Mending lists looked through: for each the number of its first bad line, or a word that there is none.
#![tactic(auto)]

ghost use Rattle.refuse.specs.Accepted.{Faces};

use std::io;

// Looks a list through.
fn look(rt: &impl Print, text: &[u8], faces: &[u32], points: usize) -> io::Result<()>
    requires { Faces points faces.now }
{
    match list_check::bad_list(text, faces, points) {
        Ok(()) => {
            println!(rt; "applies")?;
        }
        Err(refusal) => {
            show::number(rt, u64::from(refusal.number()))?;
            show::number(rt, refusal.place() as u64)?;
            show::end_line(rt)?;
        }
    }
    Ok(())
}

// Form of lines.
fn forms(rt: &impl Print, faces: &[u32]) -> io::Result<()>
    requires { Faces 5 faces.now }
{
    look(rt, b"", faces, 5)?;
    look(rt, b"\n", faces, 5)?;
    look(rt, b"d\t0\t1\tthin\n", faces, 5)?;
    look(rt, b"d\t0\t1\tthin", faces, 5)?;
    look(rt, b"d\t0\t2\tthin\n", faces, 5)?;
    look(rt, b"d\t0\t1\tthin\to\n", faces, 5)?;
    look(rt, b"d\t00\t1\tthin\n", faces, 5)?;
    look(rt, b"o\t4294967296\n", faces, 5)?;
    look(rt, b"o\t0\r\n", faces, 5)
}

// Order of lines, and faces that are gone.
fn orders(rt: &impl Print, faces: &[u32]) -> io::Result<()>
    requires { Faces 5 faces.now }
{
    look(rt, b"d\t0\t1\tthin\nd\t0\t1\trepeated\n", faces, 5)?;
    look(rt, b"d\t1\t1\tthin\nd\t0\t1\trepeated\n", faces, 5)?;
    look(
        rt,
        b"d\t1\t2\tduplicate\nd\t0\t3\tedge\no\t2\no\t3\n",
        faces,
        5,
    )?;
    look(rt, b"d\t0\t3\tedge\no\t1\n", faces, 5)?;
    look(rt, b"o\t0\nd\t0\t4\tdirection\n", faces, 5)?;
    look(rt, b"d\t0\t4\tdirection\no\t1\n", faces, 5)
}

// Splits.
fn splits(rt: &impl Print, faces: &[u32]) -> io::Result<()>
    requires { Faces 5 faces.now }
{
    look(rt, b"s\t0\t5\t0\n", faces, 5)?;
    look(rt, b"s\t0\t6\t0\n", faces, 5)?;
    look(rt, b"s\t0\t5\t0\t1\n", faces, 5)?;
    look(rt, b"s\t0\t5\t1\t0\n", faces, 5)?;
    look(rt, b"s\t0\t5\t1\t1\n", faces, 5)?;
    look(rt, b"s\t0\t5\t2\n", faces, 5)?;
    look(rt, b"s\t0\t5\t0\ns\t0\t6\t0\n", faces, 5)?;
    look(rt, b"s\t0\t5\t0\ns\t0\t6\t1\n", faces, 5)?;
    look(rt, b"s\t0\t5\t0\ns\t1\t6\t0\n", faces, 5)?;
    look(rt, b"s\t5\t5\t0\n", faces, 5)
}

// Points that faces have or have not.
fn unused(rt: &impl Print, faces: &[u32]) -> io::Result<()>
    requires { Faces 5 faces.now }
{
    look(rt, b"s\t0\t5\nu\t5\n", faces, 5)?;
    look(rt, b"s\t0\t5\t0\nu\t5\n", faces, 5)?;
    look(rt, b"s\t0\t5\t0\t1\nu\t0\n", faces, 5)?;
    look(rt, b"s\t0\t5\t0\nu\t0\n", faces, 5)?;
    look(rt, b"d\t0\t1\tthin\nu\t1\nu\t2\n", faces, 5)?;
    look(rt, b"u\t4\n", faces, 5)?;
    look(
        rt,
        b"s\t0\t5\ns\t0\t6\ns\t0\t7\ns\t0\t8\ns\t0\t9\ns\t0\t10\ns\t0\t11\n",
        faces,
        5,
    )
}

// Points that rise.
fn isolated(rt: &impl Print, faces: &[u32]) -> io::Result<()>
    requires { Faces 7 faces.now }
{
    look(rt, b"u\t5\nu\t6\nu\t7\n", faces, 7)?;
    look(rt, b"u\t5\nu\t5\n", faces, 7)?;
    look(rt, b"u\t5\no\t0\n", faces, 7)
}

fn main(rt: HostRuntime) -> io::Result<()> {
    let faces = [0u32, 1, 2, 0, 3, 4];
    forms(&rt, &faces)?;
    orders(&rt, &faces)?;
    splits(&rt, &faces)?;
    unused(&rt, &faces)?;
    isolated(&rt, &faces)
}
