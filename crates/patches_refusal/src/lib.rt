// The refusals of the patch call, in their order: 1, 2, 4, 5, 9, 10, 6; the rooms by their lengths.
#![tactic(auto)]

ghost use Rattle.std.specs.Prelude.{◌≡◌, ◌∷◌, [], ◌≤◌};
ghost use Rattle.rules.specs.Refusal as refusal;
ghost use Rattle.rules.specs.PatchesCall as rule;
ghost use Rattle.refuse.specs.Verdicts as by;
ghost use Rattle.patches_refusal.specs.Checks.{patches_list};

use refuse::Refusal;

// The lengths of the rooms lent to the patch call.
#[derive(Clone, Copy, Debug, PartialEq, Eq)]
pub struct Rooms {
    pub face_counts: usize,
    pub numbers: usize,
    pub flags: usize,
    pub work: usize,
}

// 6: face counts C, numbers 7C, flags C, work 4C.
fn short_room(count: usize, rooms: Rooms) -> Result<(), Refusal>
    requires { count ≤ refusal.most_patches }
    ensures { by.check_of result ≡ refusal.no6 (rule.patches_rooms count) (rooms.face_counts ∷ rooms.numbers ∷ rooms.flags ∷ rooms.work ∷ []) }
{
    if rooms.face_counts < count {
        return Err(Refusal::ShortRoom(0));
    }
    if rooms.numbers < 7 * count {
        return Err(Refusal::ShortRoom(1));
    }
    if rooms.flags < count {
        return Err(Refusal::ShortRoom(2));
    }
    if rooms.work < 4 * count {
        return Err(Refusal::ShortRoom(3));
    }
    Ok(())
}

// What the patch call refuses: 1, 2, 4, 5, 9, 10, 6.
pub fn patches_refusal(
    points: &[f64],
    faces: &[u32],
    labels: &[u32],
    count: usize,
    rooms: Rooms,
) -> Result<(), Refusal>
    ensures { by.check_of result
        ≡ refusal.decided
        (patches_list points.now faces.now labels.now count rooms.face_counts rooms.numbers rooms.flags rooms.work) }
{
    refuse::sizes(points.len(), faces.len())?;
    if rules::MOST_PATCHES < count {
        return Err(Refusal::TooLarge(2));
    }
    refuse::contents(points, faces)?;
    refuse::labelling(count, labels, faces.len() / 3)?;
    short_room(count, rooms)
}
