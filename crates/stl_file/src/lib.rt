// A binary STL file in memory: its numbers, its corners, and the refusals of a call that reads it.
#![tactic(auto)]

ghost use Rattle.std.specs.Prelude.{◌≡◌, ◌∷◌, [], ◌+◌, ◌*◌, ◌≤◌, ◌<◌, length};
ghost use Rattle.std.specs.Float.Ieee.{of_bits};
ghost use Rattle.std.specs.Float.{binary32};
ghost use Rattle.rules.specs.Refusal as refusal;
ghost use Rattle.rules.specs.Stl as rule;
ghost use Rattle.refuse.specs.Verdicts as by;
ghost use Rattle.stl_file.specs.Files.{Whole, CornerAsks, stl_list};

use refuse::Refusal;

// The number that the bits of an f32 stand for, a NaN's too.
fn widened(bits: u32) -> f64
    ensures { result ≡ of_bits binary32 bits }
{
    if 2139095040 < bits % 2147483648 {
        return 0.0 / 0.0;
    }
    f32::from_bits(bits) as f64
}

// The f32 whose lowest byte is byte i, widened.
pub fn coordinate(file: &[u8], i: usize) -> f64
    requires { i + 4 ≤ length file.now }
    ensures { result ≡ rule.coordinate file.now i }
{
    widened(byte_rows::u32_at(file, i))
}

// The byte at which corner c begins, counted through the file.
pub fn place_of(c: usize) -> usize
    requires { c ≤ 3 * refusal.most_faces }
    ensures { result ≡ rule.place_of c }
{
    96 + 50 * (c / 3) + 12 * (c % 3)
}

// Whether corner c has a coordinate outside its domain.
fn far(file: &[u8], c: usize) -> bool
    requires { CornerAsks file.now c }
    ensures { result ≡ by.far (rule.corner_at file.now (rule.place_of c)) }
{
    let i = place_of(c);
    !(refuse::in_domain(coordinate(file, i))
        && refuse::in_domain(coordinate(file, i + 4))
        && refuse::in_domain(coordinate(file, i + 8)))
}

// 4: a coordinate outside its domain, at the first such corner.
fn corners(file: &[u8], count: usize) -> Result<(), Refusal>
    requires { Whole file.now count }
    ensures { by.check_of result ≡ refusal.no4 (rule.corners_of file.now) }
{
    for c in 0..3 * count {
        if far(file, c) {
            return Err(Refusal::BadPoint(c));
        }
    }
    Ok(())
}

// 6: points 9F, faces 3F, work 64F+64.
fn rooms(count: usize, points: usize, faces: usize, work: usize) -> Result<(), Refusal>
    requires { count ≤ refusal.most_faces }
    ensures { by.check_of result ≡ refusal.no6 (rule.stl_rooms count) (points ∷ faces ∷ work ∷ []) }
{
    if points < 9 * count {
        return Err(Refusal::ShortRoom(0));
    }
    if faces < 3 * count {
        return Err(Refusal::ShortRoom(1));
    }
    if work < 64 * count + 64 {
        return Err(Refusal::ShortRoom(2));
    }
    Ok(())
}

// The refusals of a call that reads a file, in their order: 12, 2, 4, 6; the rooms by their lengths.
pub fn stl_check(file: &[u8], points: usize, faces: usize, work: usize) -> Result<(), Refusal>
    ensures { by.check_of result ≡ refusal.decided (stl_list file.now points faces work) }
{
    if file.len() < 84 {
        return Err(Refusal::BadFile);
    }
    let count = byte_rows::u32_at(file, 80) as usize;
    if file.len() != 84 + 50 * count {
        return Err(Refusal::BadFile);
    }
    if rules::MOST_FACES < count {
        return Err(Refusal::TooLarge(1));
    }
    corners(file, count)?;
    rooms(count, points, faces, work)
}
