// The refusals of the loop call up to 6, in their order: 1, 2, 4, 5, 6; the rooms by their lengths. Then 7 and 8 are left.
#![tactic(auto)]

ghost use Rattle.std.specs.Prelude.{◌≡◌, ◌∷◌, []};
ghost use Rattle.rules.specs.Refusal as refusal;
ghost use Rattle.rules.specs.LoopsCall as rule;
ghost use Rattle.refuse.specs.Verdicts as by;
ghost use Rattle.loops_refusal.specs.Checks.{loops_list};

use refuse::Refusal;

// The lengths of the rooms lent to the loop call.
#[derive(Clone, Copy, Debug, PartialEq, Eq)]
pub struct Rooms {
    pub loop_vertices: usize,
    pub loop_ends: usize,
    pub work: usize,
}

// 6: loop vertices 3F, loop ends 3F, work.
fn short_room(p: usize, f: usize, rooms: Rooms) -> Result<(), Refusal>
    requires { by.Limits p f }
    ensures { by.check_of result
        ≡ refusal.no6 (rule.loops_rooms p f)
        (rooms.loop_vertices ∷ rooms.loop_ends ∷ rooms.work ∷ []) }
{
    if rooms.loop_vertices < 3 * f {
        return Err(Refusal::ShortRoom(0));
    }
    if rooms.loop_ends < 3 * f {
        return Err(Refusal::ShortRoom(1));
    }
    if rooms.work < refuse::stated_work(p, f) {
        return Err(Refusal::ShortRoom(2));
    }
    Ok(())
}

// What the loop call refuses up to 6: 1, 2, 4, 5, 6.
pub fn loops_refusal(points: &[f64], faces: &[u32], rooms: Rooms) -> Result<(), Refusal>
    ensures { by.check_of result
        ≡ refusal.decided (loops_list points.now faces.now rooms.loop_vertices rooms.loop_ends rooms.work) }
{
    refuse::sizes(points.len(), faces.len())?;
    refuse::contents(points, faces)?;
    short_room(points.len() / 3, faces.len() / 3, rooms)
}
