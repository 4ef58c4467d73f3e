// The edge check, from P and faces: its refusals, its answer, and the work room after it.
//
// The work room, with n = 3F, within 16P + 64F + 64:
//
//     0             5n + 1 + P    the table of the directed edges (crate table)
//     0             10n + 2 + P   after it, the groups of the corners (crate corner_groups); the last n entries have the first member of each corner's group
//     10n + 2 + P   P             1 at a point where a group has been met
#![tactic(auto)]

ghost use Rattle.std.specs.Prelude.{◌≡◌, not, ◌/◌, ◌<◌, length};
ghost use Rattle.rules.specs.Lists.{all};
ghost use Rattle.rules.specs.Mesh.{faces_of, face};
ghost use Rattle.rules.specs.Float.{repeats};
ghost use Rattle.rules.specs.CheckCall as rule;
ghost use Rattle.edge_check_refusal.specs.Checks.{CheckAccepted};
ghost use Rattle.edge_check.specs.Answers.{outcome_of, MetAsks, MetGives, GroupGives, SoundGives};

use refuse::Refusal;

// Whether face i repeats a corner.
fn repeats(faces: &[u32], i: usize) -> bool
    requires { i < length faces.now / 3 }
    ensures { result ≡ repeats (face (faces_of faces.now) i) }
{
    let a = faces[3 * i];
    let b = faces[3 * i + 1];
    let c = faces[3 * i + 2];
    // As `||` the joins would have no name that a proof can cite.
    if a == b {
        return true;
    }
    if b == c {
        return true;
    }
    c == a
}

// Whether no face repeats a corner.
fn distinct(faces: &[u32]) -> bool
    ensures { result ≡ all (λ f. not (repeats f)) (faces_of faces.now) }
{
    let n = faces.len() / 3;
    for i in 0..n {
        if repeats(faces, i) {
            return false;
        }
    }
    true
}

// Whether no point is met by two corners that stand first in their groups: each such corner marks its point, in a row that is all zero before.
fn met_once(count: usize, faces: &[u32], work: &mut [u32]) -> bool
    requires { MetAsks count faces.now work.old }
    ensures { MetGives count faces.now work.old work.new result }
{
    let n = faces.len();
    let leads = 9 * n + 2 + count;
    let row = 10 * n + 2 + count;
    for c in 0..n {
        if work[leads + c] as usize == c {
            let v = faces[c] as usize;
            if work[row + v] != 0 {
                return false;
            }
            work[row + v] = 1;
        }
    }
    true
}

// Whether the faces at each used point form one group under pass 5's joining: the corners are grouped, and each group marks its point.
fn one_group(count: usize, faces: &[u32], work: &mut [u32]) -> bool
    requires { CheckAccepted count faces.now (length work.old) }
    ensures { GroupGives count faces.now work.old work.new result }
{
    corner_groups::lead_corners(work, faces, count, 0);
    rows::clear(work, 10 * faces.len() + 2 + count, count);
    met_once(count, faces, work)
}

// Whether no face repeats a corner, every directed edge is used at most once, as there are then as many directed edges as steps of faces, and the faces
// at each used point form one group.
fn sound(count: usize, faces: &[u32], work: &mut [u32]) -> bool
    requires { CheckAccepted count faces.now (length work.old) }
    ensures { SoundGives count faces.now work.old work.new result }
{
    if !distinct(faces) {
        return false;
    }
    if table::table(work, faces, count, true, 0) != faces.len() {
        return false;
    }
    one_group(count, faces, work)
}

// The edge check: yes exactly when no face repeats a corner, every directed edge is used at most once, and the faces at each used point form one group
// under pass 5's joining. The work room is all zero after it.
pub fn check(count: usize, faces: &[u32], work: &mut [u32]) -> Result<bool, Refusal>
    ensures { outcome_of result work.new ≡ rule.check count faces.now work.old }
{
    edge_check_refusal::edge_check_refusal(count, faces, work.len())?;
    let answer = sound(count, faces, work);
    wiping::wipe(work, 0, 16 * count + 64 * (faces.len() / 3) + 64);
    Ok(answer)
}
