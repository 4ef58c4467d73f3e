// The refusals of the call that applies a mending list, in their order: 1, 2, 4, 5, 15, 6; the rooms by their lengths.
#![tactic(auto)]

ghost use Rattle.std.specs.Prelude.{◌≡◌, ◌∷◌, []};
ghost use Rattle.rules.specs.Refusal as refusal;
ghost use Rattle.rules.specs.ApplyCall as rule;
ghost use Rattle.refuse.specs.Verdicts as by;
ghost use Rattle.apply_refusal.specs.Checks.{apply_checks};

use refuse::Refusal;

// The lengths of the rooms lent to the call.
#[derive(Clone, Copy, Debug, PartialEq, Eq)]
pub struct Rooms {
    pub out_points: usize,
    pub out_faces: usize,
    pub work: usize,
}

// 6: points 3(P+3F), faces 3F, work.
fn short_room(p: usize, f: usize, rooms: Rooms) -> Result<(), Refusal>
    requires { by.Limits p f }
    ensures { by.check_of result ≡ refusal.no6 (rule.apply_rooms p f) (rooms.out_points ∷ rooms.out_faces ∷ rooms.work ∷ []) }
{
    if rooms.out_points < 3 * (p + 3 * f) {
        return Err(Refusal::ShortRoom(0));
    }
    if rooms.out_faces < 3 * f {
        return Err(Refusal::ShortRoom(1));
    }
    if rooms.work < refuse::stated_work(p, f) {
        return Err(Refusal::ShortRoom(2));
    }
    Ok(())
}

// What the call refuses: 1, 2, 4, 5, 15, 6.
pub fn apply_refusal(
    points: &[f64],
    faces: &[u32],
    text: &[u8],
    rooms: Rooms,
) -> Result<(), Refusal>
    ensures { by.check_of result
        ≡ refusal.decided
        (apply_checks points.now faces.now text.now rooms.out_points rooms.out_faces rooms.work) }
{
    refuse::sizes(points.len(), faces.len())?;
    refuse::contents(points, faces)?;
    list_check::bad_list(text, faces, points.len() / 3)?;
    short_room(points.len() / 3, faces.len() / 3, rooms)
}
