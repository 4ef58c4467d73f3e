// The call that reads a binary STL file in memory into points and triples: its refusals, its answers, and every room after it.
//
// The work room, of F facets with n = 3F corners:
//
//     0    3n   the bits of each corner's x, then y, then z, with +0 for -0
//     3n   n    the corners sorted by these
//     4n   n    for each corner the first one that is equal to it
//     5n   n    a flag for each corner: 1 where an earlier one is equal to it, else 0
//     6n   n    for each corner how many before it have no flag
#![tactic(auto)]

ghost use Rattle.std.specs.Prelude.{◌≡◌, cond, ◌<◌, ◌^◌, eqb};
ghost use Rattle.std.specs.Float.{binary32};
ghost use Rattle.rule_laws.proofs.Equal.{one_zero};
ghost use Rattle.rules.specs.Stl as rule;
ghost use Rattle.read_stl.specs.Answers.{rooms_of, outcome_of};
ghost use Rattle.read_stl.specs.Rows.{FileAsks, KeysGives, CornersAsks, CornersGives, FlagsAsks, FlagsGives, TriplesAsks, TriplesGives};

use refuse::Refusal;

// What an accepted file gives: how many entries stand in the points and in the faces room.
#[derive(Clone, Copy, Debug, PartialEq, Eq)]
pub struct Read {
    pub points: usize,
    pub faces: usize,
}

// The bits of an f32, with +0 for -0.
fn one_zero(bits: u32) -> u32
    ensures value { result ≡ one_zero binary32 bits }
    ensures upper_bound { result < 2 ^ 32 }
{
    if bits == 2147483648 { 0 } else { bits }
}

// Writes the bits of each corner's coordinates, with +0 for -0.
fn keys(file: &[u8], n: usize, work: &mut [u32])
    requires { FileAsks file.now n work.old }
    ensures { KeysGives file.now n work.old work.new }
{
    for c in 0..n {
        let i = stl_file::place_of(c);
        let x = one_zero(byte_rows::u32_at(file, i));
        let y = one_zero(byte_rows::u32_at(file, i + 4));
        let z = one_zero(byte_rows::u32_at(file, i + 8));
        work[c] = x;
        work[n + c] = y;
        work[2 * n + c] = z;
    }
}

// Writes all corners to the points room.
fn corners(file: &[u8], n: usize, points: &mut [f64])
    requires { CornersAsks file.now n points.old }
    ensures { CornersGives file.now n points.old points.new }
{
    for c in 0..n {
        let i = stl_file::place_of(c);
        let x = stl_file::coordinate(file, i);
        let y = stl_file::coordinate(file, i + 4);
        let z = stl_file::coordinate(file, i + 8);
        points[3 * c] = x;
        points[3 * c + 1] = y;
        points[3 * c + 2] = z;
    }
}

// 1 where the corner j is not c itself, else 0.
fn other(j: usize, c: usize) -> u32
    ensures { result ≡ cond (eqb j c) 0 1 }
{
    if j == c { 0 } else { 1 }
}

// Flags each corner to which an earlier one is equal.
fn flags(n: usize, work: &mut [u32])
    requires { FlagsAsks work.old n }
    ensures { FlagsGives work.old n work.new }
{
    for c in 0..n {
        let j = work[4 * n + c] as usize;
        let flag = other(j, c);
        work[5 * n + c] = flag;
    }
}

// Writes for each corner the number of the first one that is equal to it.
fn triples(n: usize, work: &[u32], faces: &mut [u32])
    requires { TriplesAsks work.now n faces.old }
    ensures { TriplesGives work.now n faces.old faces.new }
{
    for c in 0..n {
        let j = work[4 * n + c] as usize;
        faces[c] = work[6 * n + j];
    }
}

// Reads a file: corners equal as numbers become one point, numbered by first appearance, with the bits that appear first. Then the rooms: each answer in
// front, zero to the stated room, the work room all zero.
pub fn read_stl(
    file: &[u8],
    points: &mut [f64],
    faces: &mut [u32],
    work: &mut [u32],
) -> Result<Read, Refusal>
    ensures { let before = rooms_of points.old faces.old work.old in
        outcome_of result points.new faces.new work.new ≡ rule.read_stl file.now before }
{
    stl_file::stl_check(file, points.len(), faces.len(), work.len())?;
    let count = byte_rows::u32_at(file, 80) as usize;
    let n = 3 * count;
    keys(file, n, work);
    corners(file, n, points);
    equal_rows::equal_rows(work, n, 3, 3 * n, 46 * count + 64);
    flags(n, work);
    rows::number_kept(work, 5 * n, n, 6 * n);
    triples(n, work, faces);
    let p = rows::retain(points, work, 5 * n, n);
    rows::clear(points, 3 * p, 3 * n - 3 * p);
    wiping::wipe(work, 0, 64 * count + 64);
    Ok(Read {
        points: 3 * p,
        faces: n,
    })
}
