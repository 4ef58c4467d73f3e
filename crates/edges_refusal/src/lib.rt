// The refusals of the edge call up to 6, in their order: 1, 2, 4, 5, 6; the rooms by their lengths. Then 7 is left.
#![tactic(auto)]

ghost use Rattle.std.specs.Prelude.{◌≡◌, ◌∷◌, []};
ghost use Rattle.rules.specs.Refusal as refusal;
ghost use Rattle.rules.specs.EdgesCall as rule;
ghost use Rattle.refuse.specs.Verdicts as by;
ghost use Rattle.edges_refusal.specs.Checks.{edges_list};

use refuse::Refusal;

// The lengths of the rooms lent to the edge call.
#[derive(Clone, Copy, Debug, PartialEq, Eq)]
pub struct Rooms {
    pub edges: usize,
    pub lengths: usize,
    pub face_edges: usize,
    pub work: usize,
}

// 6: edges 6F, lengths 3F, face edges 3F, work.
fn short_room(p: usize, f: usize, rooms: Rooms) -> Result<(), Refusal>
    requires { by.Limits p f }
    ensures { by.check_of result
        ≡ refusal.no6 (rule.edges_rooms p f)
        (rooms.edges ∷ rooms.lengths ∷ rooms.face_edges ∷ rooms.work ∷ []) }
{
    if rooms.edges < 6 * f {
        return Err(Refusal::ShortRoom(0));
    }
    if rooms.lengths < 3 * f {
        return Err(Refusal::ShortRoom(1));
    }
    if rooms.face_edges < 3 * f {
        return Err(Refusal::ShortRoom(2));
    }
    if rooms.work < refuse::stated_work(p, f) {
        return Err(Refusal::ShortRoom(3));
    }
    Ok(())
}

// What the edge call refuses up to 6: 1, 2, 4, 5, 6.
pub fn edges_refusal(points: &[f64], faces: &[u32], rooms: Rooms) -> Result<(), Refusal>
    ensures { by.check_of result
        ≡ refusal.decided (edges_list points.now faces.now rooms.edges rooms.lengths rooms.face_edges rooms.work) }
{
    refuse::sizes(points.len(), faces.len())?;
    refuse::contents(points, faces)?;
    short_room(points.len() / 3, faces.len() / 3, rooms)
}
