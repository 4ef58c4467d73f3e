// The repair of many meshes in one call: its refusals, each mesh by the repair in its parts of the rooms, packed one after another, and every room.
#![tactic(auto)]

ghost use Rattle.std.specs.Prelude.{◌≡◌, length};
ghost use Rattle.rules.specs.PanelCall as rule;
ghost use Rattle.panel_refusal.specs.Checks.{PanelAccepted};
ghost use Rattle.repair_panel.specs.Answers.{rooms_of, outcome_of};
ghost use Rattle.repair_panel.specs.Packs.{AllGives};

use mend_mesh::At;
use panel_refusal::Rooms;
use refuse::Refusal;

// What the call gives back: how many entries stand in the rooms of points, faces, reports, origins and meshes.
#[derive(Clone, Copy, Debug, PartialEq, Eq)]
pub struct Packed {
    pub points: usize,
    pub faces: usize,
    pub counts: usize,
    pub origins: usize,
    pub meshes: usize,
}

// All meshes, one after another.
fn mend_all(
    points: &[f64],
    faces: &[u32],
    point_counts: &[u32],
    face_counts: &[u32],
    s: f64,
    options: u32,
    out_points: &mut [f64],
    out_faces: &mut [u32],
    report: &mut [u32],
    origins: &mut [u32],
    meshes: &mut [u32],
    work: &mut [u32],
) -> At
    requires { PanelAccepted (length points.now) (length faces.now) point_counts.now face_counts.now
        (length out_points.old) (length out_faces.old) (length report.old) (length origins.old) (length meshes.old) (length work.old) }
    ensures { AllGives (rule.own_calls s options point_counts.now face_counts.now points.now faces.now)
        point_counts.now face_counts.now
        out_points.old out_faces.old report.old origins.old meshes.old work.old
        out_points.new out_faces.new report.new origins.new meshes.new work.new result }
{
    let mut at = At {
        points: 0,
        faces: 0,
        mended: 0,
        triples: 0,
        counts: 0,
        origins: 0,
    };
    for k in 0..point_counts.len() {
        let p = point_counts[k] as usize;
        let f = face_counts[k] as usize;
        at = mend_mesh::mend_next(
            points, faces, p, f, s, options, out_points, out_faces, report, origins, meshes, work,
            k, at,
        );
    }
    at
}

// The whole call: all meshes, then the rooms: the packed answers in front, zero to the stated room, the work room all zero.
pub fn repair_panel(
    points: &[f64],
    faces: &[u32],
    point_counts: &[u32],
    face_counts: &[u32],
    s: f64,
    options: u32,
    out_points: &mut [f64],
    out_faces: &mut [u32],
    report: &mut [u32],
    origins: &mut [u32],
    meshes: &mut [u32],
    work: &mut [u32],
) -> Result<Packed, Refusal>
    ensures { let before = rooms_of out_points.old out_faces.old report.old origins.old meshes.old work.old in
        outcome_of result out_points.new out_faces.new report.new origins.new meshes.new work.new
        ≡ rule.repair_panel points.now faces.now point_counts.now face_counts.now s options before }
{
    let rooms = Rooms {
        out_points: out_points.len(),
        out_faces: out_faces.len(),
        report: report.len(),
        origins: origins.len(),
        meshes: meshes.len(),
        work: work.len(),
    };
    panel_refusal::panel_refusal(points, faces, point_counts, face_counts, s, options, rooms)?;
    let p = points.len() / 3;
    let f = faces.len() / 3;
    let m = point_counts.len();
    let largest = panel_refusal::largest(point_counts, face_counts);
    let at = mend_all(
        points,
        faces,
        point_counts,
        face_counts,
        s,
        options,
        out_points,
        out_faces,
        report,
        origins,
        meshes,
        work,
    );
    let a = at.mended;
    let b = at.triples;
    let c = at.counts;
    let d = at.origins;
    wiping::wipe(out_points, a, 3 * (p + 3 * f) - a);
    wiping::wipe(out_faces, b, 3 * f - b);
    wiping::wipe(report, c, rules::COUNTS * m - c);
    wiping::wipe(origins, d, f - d);
    wiping::wipe(work, 0, largest);
    Ok(Packed {
        points: a,
        faces: b,
        counts: c,
        origins: d,
        meshes: 4 * m,
    })
}
