// The call that reads a binary PLY file in memory into points and triples: its refusals, its answers, and every room after it.
#![tactic(auto)]

ghost use Rattle.std.specs.Prelude.{◌≡◌};
ghost use Rattle.rules.specs.ReadPlyCall as rule;
ghost use Rattle.read_ply.specs.Answers.{rooms_of, outcome_of};
ghost use Rattle.read_ply.specs.Bodies.{CoordinatesAsk, CoordinatesGive, TriplesAsk, TriplesGive};

use refuse::Refusal;

// What an accepted file gives: how many entries stand in the points and in the faces room.
#[derive(Clone, Copy, Debug, PartialEq, Eq)]
pub struct Read {
    pub points: usize,
    pub faces: usize,
}

// Stores n coordinates, which begin at `at`, in the points room.
fn coordinates(file: &[u8], at: usize, n: usize, points: &mut [f64])
    requires { CoordinatesAsk file.now at n points.old }
    ensures { CoordinatesGive file.now at n points.old points.new }
{
    for i in 0..n {
        points[i] = byte_rows::real_at(file, at + 8 * i);
    }
}

// Stores the corners of f faces, which begin at `at`, in the faces room.
fn triples(file: &[u8], at: usize, f: usize, faces: &mut [u32])
    requires { TriplesAsk file.now at f faces.old }
    ensures { TriplesGive file.now at f faces.old faces.new }
{
    for i in 0..f {
        let a = byte_rows::u32_at(file, at + 13 * i + 1);
        let b = byte_rows::u32_at(file, at + 13 * i + 5);
        let c = byte_rows::u32_at(file, at + 13 * i + 9);
        faces[3 * i] = a;
        faces[3 * i + 1] = b;
        faces[3 * i + 2] = c;
    }
}

// Reads a file: its vertices and triples, bit by bit. Then the rooms: each answer fills its stated room, the work room is all zero.
pub fn read_ply(
    file: &[u8],
    points: &mut [f64],
    faces: &mut [u32],
    work: &mut [u32],
) -> Result<Read, Refusal>
    ensures { let before = rooms_of points.old faces.old work.old in
        outcome_of result points.new faces.new work.new ≡ rule.read_ply file.now before }
{
    let header = ply_file::ply_check(file, points.len(), faces.len(), work.len())?;
    let p = header.vertices;
    let f = header.faces;
    coordinates(file, header.body, 3 * p, points);
    triples(file, header.body + 24 * p, f, faces);
    wiping::wipe(work, 0, refuse::stated_work(p, f));
    Ok(Read {
        points: 3 * p,
        faces: 3 * f,
    })
}
