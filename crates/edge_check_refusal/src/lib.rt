// The refusals of the edge check, from P and faces, in their order: 1, 2, 5, 6; the work room by its length.
#![tactic(auto)]

ghost use Rattle.std.specs.Prelude.{◌≡◌};
ghost use Rattle.rules.specs.Refusal as refusal;
ghost use Rattle.refuse.specs.Verdicts as by;
ghost use Rattle.edge_check_refusal.specs.Checks.{check_list};

use refuse::Refusal;

// What the edge check refuses: 1, 2, 5, 6.
pub fn edge_check_refusal(p: usize, faces: &[u32], work: usize) -> Result<(), Refusal>
    ensures { by.check_of result ≡ refusal.decided (check_list p faces.now work) }
{
    if faces.len() % 3 != 0 {
        return Err(Refusal::BadLength(1));
    }
    refuse::counts(p, faces.len() / 3)?;
    refuse::corners(p, faces)?;
    if work < refuse::stated_work(p, faces.len() / 3) {
        return Err(Refusal::ShortRoom(0));
    }
    Ok(())
}
