// Runs lists of rules/specs/MendingExamples through the call that applies them. What a call leaves are four lines: the answer, the bits of the points room,
// the runs of the faces room, and those of the work room. Each entry of a room was 7 before the call.
#![tactic(auto)]

ghost use Rattle.std.specs.Prelude.{◌≤◌, length};

use std::io;

// Runs the call, and writes the answer and what stands in the rooms.
fn run(
    rt: &impl Print,
    points: &[f64],
    faces: &[u32],
    text: &[u8],
    out_points: &mut [f64],
    out_faces: &mut [u32],
    work: &mut [u32],
) -> io::Result<()> {
    match apply_list::apply_list(points, faces, text, out_points, out_faces, work) {
        Ok(applied) => {
            print!(rt; "done ")?;
            show::number(rt, applied.points as u64)?;
            show::number(rt, applied.faces as u64)?;
        }
        Err(refusal) => {
            print!(rt; "refused ")?;
            show::number(rt, u64::from(refusal.number()))?;
            show::number(rt, refusal.place() as u64)?;
        }
    }
    show::end_line(rt)?;
    show::bits(rt, out_points)?;
    show::runs(rt, out_faces)?;
    show::runs(rt, work)
}

// In rooms that are longer than stated.
fn in_long_rooms(rt: &impl Print, points: &[f64], faces: &[u32], text: &[u8]) -> io::Result<()> {
    let mut out_points = [7.0; 34];
    let mut out_faces = [7; 7];
    let mut work = [7; 273];
    run(
        rt,
        points,
        faces,
        text,
        &mut out_points,
        &mut out_faces,
        &mut work,
    )
}

// A face that has one point three times, in rooms of these lengths.
fn in_rooms(rt: &impl Print, text: &[u8], a: usize, b: usize, c: usize) -> io::Result<()>
    requires a_bound { a ≤ 12 }
    requires b_bound { b ≤ 3 }
    requires c_bound { c ≤ 144 }
{
    let mut out_points = [7.0; 12];
    let mut out_faces = [7; 3];
    let mut work = [7; 144];
    run(
        rt,
        &[0.0, 0.0, 0.0],
        &[0, 0, 0],
        text,
        &mut out_points[..a],
        &mut out_faces[..b],
        &mut work[..c],
    )
}

// No line; a copy of a point; a face that leaves, an exchange and a point that leaves; points that leave together; as many copies as there may be; nothing
// left. Then rooms as stated and one too short, a bad line before short rooms, and one after a line that applies.
fn main(rt: HostRuntime) -> io::Result<()> {
    let legs = [
        0.0, 0.0, 0.0, 1.0, 0.0, 0.0, 0.0, 1.0, 0.0, 0.0, 0.0, 1.0, 1.0, 1.0, 1.0,
    ];
    in_long_rooms(&rt, &[0.0, 0.0, 0.0], &[0, 0, 0], b"")?;
    in_long_rooms(&rt, &legs, &[0, 1, 2, 0, 3, 4], b"s\t1\t5\t0\n")?;
    in_long_rooms(
        &rt,
        &[0.0, 0.0, 0.0, 0.5, 0.0, 0.0, 0.0, 0.5, 0.0],
        &[0, 1, 2, 0, 2, 0],
        b"d\t0\t1\tthin\no\t1\nu\t1\n",
    )?;
    in_rooms(&rt, b"s\t0\t1\t0\ns\t0\t2\nu\t0\nu\t2\n", 12, 3, 144)?;
    in_rooms(&rt, b"s\t0\t1\t0\ns\t0\t2\ns\t0\t3\n", 12, 3, 144)?;
    in_rooms(&rt, b"d\t0\t1\trepeated\nu\t0\n", 12, 3, 144)?;
    in_rooms(&rt, b"o\t0\n", 11, 3, 144)?;
    in_rooms(&rt, b"o\t0\n", 12, 2, 143)?;
    in_rooms(&rt, b"o\t0\n", 12, 3, 143)?;
    in_rooms(&rt, b"o\t0\n\n", 0, 0, 0)?;
    in_rooms(&rt, b"o\t0\no\t0\n", 12, 3, 144)?;
    in_long_rooms(&rt, &[0.0, 0.0], &[0], b"")?;
    in_long_rooms(&rt, &[0.0, 0.0, 0.0], &[0, 0, 1], b"\n")
}
