// The call that writes points and triples as a binary PLY file into a lent room: its refusals, the file, and every room after it.
#![tactic(auto)]

ghost use Rattle.std.specs.Prelude.{◌≡◌};
ghost use Rattle.byte_rows.specs.Put.{Puts};
ghost use Rattle.rules.specs.Lists.{each};
ghost use Rattle.rules.specs.Mesh.{faces_of};
ghost use Rattle.rules.specs.Ply as ply;
ghost use Rattle.rules.specs.WritePlyCall as rule;
ghost use Rattle.write_ply.specs.Written as to;

use refuse::Refusal;
use write_ply_refusal::Rooms;

// Puts the header of p vertices and f faces. Returns where it ends.
fn put_header(out: &mut [u8], p: usize, f: usize) -> usize
    requires { to.HeaderAsks out.old p f }
    ensures { Puts out.old 0 (ply.header p f) out.new result }
{
    let a = byte_rows::put_text(
        out,
        0,
        b"ply\nformat binary_little_endian 1.0\nelement vertex ",
    );
    let b = byte_rows::put_number(out, a, p as u64);
    let c = byte_rows::put_text(
        out,
        b,
        b"\nproperty double x\nproperty double y\nproperty double z\nelement face ",
    );
    let d = byte_rows::put_number(out, c, f as u64);
    byte_rows::put_text(
        out,
        d,
        b"\nproperty list uchar int vertex_indices\nend_header\n",
    )
}

// Puts the bits of each coordinate, from `at` on. Returns where they end.
fn put_reals(out: &mut [u8], at: usize, points: &[f64]) -> usize
    requires { to.RealsAsk out.old at points.now }
    ensures { Puts out.old at (each to.real points.now) out.new result }
{
    let mut next = at;
    for i in 0..points.len() {
        next = byte_rows::put_little(out, next, 8, f64::to_bits(points[i]));
    }
    next
}

// Puts face i: the count 3 and three indices. Returns where it ends.
fn put_triple(out: &mut [u8], at: usize, faces: &[u32], i: usize) -> usize
    requires { to.TripleAsks out.old at faces.now i }
    ensures { Puts out.old at (ply.triple (to.face_at faces.now i)) out.new result }
{
    out[at] = 3;
    let b = byte_rows::put_little(out, at + 1, 4, faces[3 * i] as u64);
    let c = byte_rows::put_little(out, b, 4, faces[3 * i + 1] as u64);
    byte_rows::put_little(out, c, 4, faces[3 * i + 2] as u64)
}

// Puts all faces, from `at` on. Returns where they end.
fn put_triples(out: &mut [u8], at: usize, faces: &[u32]) -> usize
    requires { to.TriplesAsk out.old at faces.now }
    ensures { Puts out.old at (each ply.triple (faces_of faces.now)) out.new result }
{
    let n = faces.len() / 3;
    let mut next = at;
    for i in 0..n {
        next = put_triple(out, next, faces, i);
    }
    next
}

// Writes the file of points and triples. Returns how many bytes it has. The file fills its stated room, what lies behind is as it was, and the work room is all zero.
pub fn write_ply(
    points: &[f64],
    faces: &[u32],
    file: &mut [u8],
    work: &mut [u32],
) -> Result<usize, Refusal>
    ensures { let before = to.rooms_of file.old work.old in
        to.outcome_of result file.new work.new ≡ rule.write_ply points.now faces.now before }
{
    let rooms = Rooms {
        file: file.len(),
        work: work.len(),
    };
    write_ply_refusal::write_ply_refusal(points, faces, rooms)?;
    let p = points.len() / 3;
    let f = faces.len() / 3;
    let a = put_header(file, p, f);
    let b = put_reals(file, a, points);
    let c = put_triples(file, b, faces);
    wiping::wipe(work, 0, refuse::stated_work(p, f));
    Ok(c)
}
