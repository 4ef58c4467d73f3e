// The refusals of the repair of many meshes, in their order: 1, 2, 3, 6; the rooms by their lengths. No mesh is looked at.
#![tactic(auto)]

ghost use Rattle.std.specs.Prelude.{◌≡◌, ◌∷◌, [], ◌*◌, length, eqb};
ghost use Rattle.rules.specs.Refusal as refusal;
ghost use Rattle.rules.specs.PanelCall as rule;
ghost use Rattle.refuse.specs.Verdicts as by;
ghost use Rattle.panel_refusal.specs.Checks.{rows_list, panel_list, stated, Sums};

use refuse::Refusal;

// Meshes at most: `PanelCall.most_meshes`.
pub const MOST_MESHES: usize = 256;

// The lengths of the rooms lent to the call.
#[derive(Clone, Copy, Debug, PartialEq, Eq)]
pub struct Rooms {
    pub out_points: usize,
    pub out_faces: usize,
    pub report: usize,
    pub origins: usize,
    pub meshes: usize,
    pub work: usize,
}

// Whether the counts, times 3, add up to the length. Each is taken off what is left of it, so that no sum wraps.
fn adds_up(counts: &[u32], length: usize) -> bool
    ensures { result ≡ eqb (3 * rule.total counts.now) length }
{
    let mut left = length;
    for k in 0..counts.len() {
        let taken = 3 * (counts[k] as usize);
        if left < taken {
            return false;
        }
        left -= taken;
    }
    left == 0
}

// 1 and 2: the rows differ in length, their counts do not add up, there are too many meshes.
fn rows(
    point_counts: &[u32],
    face_counts: &[u32],
    points: usize,
    faces: usize,
) -> Result<(), Refusal>
    ensures { by.check_of result ≡ refusal.decided (rows_list point_counts.now face_counts.now points faces) }
{
    if point_counts.len() != face_counts.len() {
        return Err(Refusal::BadLength(0));
    }
    if !adds_up(point_counts, points) {
        return Err(Refusal::BadLength(0));
    }
    if !adds_up(face_counts, faces) {
        return Err(Refusal::BadLength(1));
    }
    if MOST_MESHES < point_counts.len() {
        return Err(Refusal::TooLarge(0));
    }
    Ok(())
}

// The work room of the largest mesh, 0 where there is none.
pub fn largest(point_counts: &[u32], face_counts: &[u32]) -> usize
    requires { length point_counts.now ≡ length face_counts.now }
    ensures { result ≡ rule.largest point_counts.now face_counts.now }
{
    let mut most = 0;
    for k in 0..point_counts.len() {
        let room = 16 * (point_counts[k] as usize) + 64 * (face_counts[k] as usize) + 64;
        if most < room {
            most = room;
        }
    }
    most
}

// 6: points 3(P+3F), faces 3F, reports, origins F, four entries a mesh, work, for P points and F faces of all m meshes.
fn short_room(p: usize, f: usize, m: usize, work: usize, rooms: Rooms) -> Result<(), Refusal>
    requires { Sums p f m }
    ensures { by.check_of result
        ≡ refusal.no6 (stated p f m work) (rooms.out_points ∷ rooms.out_faces ∷ rooms.report ∷ rooms.origins ∷ rooms.meshes ∷ rooms.work ∷ []) }
{
    if rooms.out_points < 3 * (p + 3 * f) {
        return Err(Refusal::ShortRoom(0));
    }
    if rooms.out_faces < 3 * f {
        return Err(Refusal::ShortRoom(1));
    }
    if rooms.report < rules::COUNTS * m {
        return Err(Refusal::ShortRoom(2));
    }
    if rooms.origins < f {
        return Err(Refusal::ShortRoom(3));
    }
    if rooms.meshes < 4 * m {
        return Err(Refusal::ShortRoom(4));
    }
    if rooms.work < work {
        return Err(Refusal::ShortRoom(5));
    }
    Ok(())
}

// What the call refuses: 1, 2, 3, 6.
pub fn panel_refusal(
    points: &[f64],
    faces: &[u32],
    point_counts: &[u32],
    face_counts: &[u32],
    s: f64,
    options: u32,
    rooms: Rooms,
) -> Result<(), Refusal>
    ensures { by.check_of result
        ≡ refusal.decided
        (panel_list (length points.now) (length faces.now) point_counts.now face_counts.now s options rooms.out_points rooms.out_faces rooms.report rooms.origins rooms.meshes rooms.work) }
{
    rows(point_counts, face_counts, points.len(), faces.len())?;
    refuse::settings(s, options)?;
    short_room(
        points.len() / 3,
        faces.len() / 3,
        point_counts.len(),
        largest(point_counts, face_counts),
        rooms,
    )
}
