// The refusals of a repair, in their order: 1, 2, 3, 4, 5, 6; the rooms by their lengths.
#![tactic(auto)]

ghost use Rattle.std.specs.Prelude.{◌≡◌, ◌∷◌, []};
ghost use Rattle.rules.specs.Refusal as refusal;
ghost use Rattle.rules.specs.RepairCall as rule;
ghost use Rattle.refuse.specs.Verdicts as by;
ghost use Rattle.repair_refusal.specs.Checks.{repair_list};

use refuse::Refusal;

// The lengths of the rooms lent to a repair.
#[derive(Clone, Copy, Debug, PartialEq, Eq)]
pub struct Rooms {
    pub out_points: usize,
    pub out_faces: usize,
    pub report: usize,
    pub origins: usize,
    pub work: usize,
}

// 6: points 3(P+3F), faces 3F, the report, origins F, work.
fn short_room(p: usize, f: usize, rooms: Rooms) -> Result<(), Refusal>
    requires { by.Limits p f }
    ensures { by.check_of result ≡ refusal.no6 (rule.repair_rooms p f) (rooms.out_points ∷ rooms.out_faces ∷ rooms.report ∷ rooms.origins ∷ rooms.work ∷ []) }
{
    if rooms.out_points < 3 * (p + 3 * f) {
        return Err(Refusal::ShortRoom(0));
    }
    if rooms.out_faces < 3 * f {
        return Err(Refusal::ShortRoom(1));
    }
    if rooms.report < rules::COUNTS {
        return Err(Refusal::ShortRoom(2));
    }
    if rooms.origins < f {
        return Err(Refusal::ShortRoom(3));
    }
    if rooms.work < refuse::stated_work(p, f) {
        return Err(Refusal::ShortRoom(4));
    }
    Ok(())
}

// What a repair refuses: 1, 2, 3, 4, 5, 6.
pub fn repair_refusal(
    points: &[f64],
    faces: &[u32],
    s: f64,
    options: u32,
    rooms: Rooms,
) -> Result<(), Refusal>
    ensures { by.check_of result
        ≡ refusal.decided
        (repair_list points.now faces.now s options rooms.out_points rooms.out_faces rooms.report rooms.origins rooms.work) }
{
    refuse::sizes(points.len(), faces.len())?;
    refuse::settings(s, options)?;
    refuse::contents(points, faces)?;
    short_room(points.len() / 3, faces.len() / 3, rooms)
}
