// The call that applies a mending list: its refusals, the list's lines, and every room after it.
#![tactic(auto)]

ghost use Rattle.std.specs.Prelude.{◌≡◌};
ghost use Rattle.rules.specs.ApplyCall as rule;
ghost use Rattle.apply_list.specs.Answers.{rooms_of, outcome_of};

use apply_refusal::Rooms;
use refuse::Refusal;

// What the call gives back: how many entries stand in the points and in the faces room.
#[derive(Clone, Copy, Debug, PartialEq, Eq)]
pub struct Applied {
    pub points: usize,
    pub faces: usize,
}

// The list applied to points and faces: the mended ones in front, zero to the stated room, the work room all zero.
pub fn apply_list(
    points: &[f64],
    faces: &[u32],
    text: &[u8],
    out_points: &mut [f64],
    out_faces: &mut [u32],
    work: &mut [u32],
) -> Result<Applied, Refusal>
    ensures { let before = rooms_of out_points.old out_faces.old work.old in
        outcome_of result out_points.new out_faces.new work.new
        ≡ rule.apply_list points.now faces.now text.now before }
{
    let rooms = Rooms {
        out_points: out_points.len(),
        out_faces: out_faces.len(),
        work: work.len(),
    };
    apply_refusal::apply_refusal(points, faces, text, rooms)?;
    let p = points.len() / 3;
    let n = faces.len() / 3;
    let mended = apply_lines::apply_lines(points, faces, text, out_points, out_faces, work);
    let a = 3 * mended.points;
    let b = 3 * mended.faces;
    wiping::wipe(out_points, a, 3 * (p + 3 * n) - a);
    wiping::wipe(out_faces, b, 3 * n - b);
    wiping::wipe(work, 0, 16 * p + 64 * n + 64);
    Ok(Applied {
        points: a,
        faces: b,
    })
}
