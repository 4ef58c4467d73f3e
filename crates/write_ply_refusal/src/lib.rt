// The refusals of writing a PLY file, in their order: 1, 2, 4, 5, 6; the rooms by their lengths. Then the file can be written.
#![tactic(auto)]

ghost use Rattle.std.specs.Prelude.{◌≡◌, ◌∷◌, [], ◌+◌, ◌*◌, ◌≤◌, length};
ghost use Rattle.rules.specs.Refusal as refusal;
ghost use Rattle.rules.specs.Ply.{header};
ghost use Rattle.rules.specs.WritePlyCall as rule;
ghost use Rattle.refuse.specs.Verdicts as by;
ghost use Rattle.write_ply_refusal.specs.Checks.{Digits, write_ply_list};

use refuse::Refusal;

// The lengths of the rooms lent to the call.
#[derive(Clone, Copy, Debug, PartialEq, Eq)]
pub struct Rooms {
    pub file: usize,
    pub work: usize,
}

// How many digits a count has in plain decimal.
fn digits(n: usize) -> usize
    requires { n ≤ refusal.most_points }
    ensures { Digits n result }
{
    let mut m = n;
    let mut k = 1;
    while m >= 10 {
        m = m / 10;
        k += 1;
    }
    k
}

// How many bytes the file of p points and f faces has.
fn file_length(p: usize, f: usize) -> usize
    requires { by.Limits p f }
    ensures { result ≡ length (header p f) + 24 * p + 13 * f }
{
    170 + digits(p) + digits(f) + 24 * p + 13 * f
}

// 6: the file, as long as what is written; work.
fn short_room(p: usize, f: usize, rooms: Rooms) -> Result<(), Refusal>
    requires { by.Limits p f }
    ensures { by.check_of result ≡ refusal.no6 (rule.write_ply_rooms p f) (rooms.file ∷ rooms.work ∷ []) }
{
    if rooms.file < file_length(p, f) {
        return Err(Refusal::ShortRoom(0));
    }
    if rooms.work < refuse::stated_work(p, f) {
        return Err(Refusal::ShortRoom(1));
    }
    Ok(())
}

// What writing refuses: 1, 2, 4, 5, 6.
pub fn write_ply_refusal(points: &[f64], faces: &[u32], rooms: Rooms) -> Result<(), Refusal>
    ensures { by.check_of result ≡ refusal.decided (write_ply_list points.now faces.now rooms.file rooms.work) }
{
    refuse::sizes(points.len(), faces.len())?;
    refuse::contents(points, faces)?;
    short_room(points.len() / 3, faces.len() / 3, rooms)
}
