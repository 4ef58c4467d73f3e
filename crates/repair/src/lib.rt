// The repair call of document 01: its refusals, the six passes by option bits, and every room after it.
#![tactic(auto)]

ghost use Rattle.std.specs.Prelude.{◌≡◌};
ghost use Rattle.rules.specs.RepairCall as rule;
ghost use Rattle.repair.specs.Answers.{rooms_of, outcome_of, ReportAsks, ReportGives};

use lending::Report;
use refuse::Refusal;
use repair_refusal::Rooms;

// What a repair gives back: how many entries stand in the rooms of points, faces and origins.
#[derive(Clone, Copy, Debug, PartialEq, Eq)]
pub struct Repaired {
    pub points: usize,
    pub faces: usize,
    pub origins: usize,
}

// Writes the counts, in report order.
fn write_report(report: &mut [u32], counts: Report)
    requires { ReportAsks report.old counts }
    ensures { ReportGives report.old counts report.new }
{
    let all = [
        counts.repeated_removed,
        counts.thin_removed,
        counts.duplicate_faces_removed,
        counts.nonmanifold_edges,
        counts.faces_dropped_at_nonmanifold,
        counts.faces_dropped_for_orientation,
        counts.bowtie_vertices_split,
        counts.points_added_by_splitting,
        counts.faces_reoriented,
        counts.nonorientable_components,
        counts.isolated_vertices_removed,
    ];
    for k in 0..rules::COUNTS {
        report[k] = all[k] as u32;
    }
}

// The repair: the passes by option bits, then the rooms: each answer in front, zero to the stated room, the work room all zero.
pub fn repair(
    points: &[f64],
    faces: &[u32],
    s: f64,
    options: u32,
    out_points: &mut [f64],
    out_faces: &mut [u32],
    report: &mut [u32],
    origins: &mut [u32],
    work: &mut [u32],
) -> Result<Repaired, Refusal>
    ensures { let before = rooms_of out_points.old out_faces.old report.old origins.old work.old in
        outcome_of result out_points.new out_faces.new report.new origins.new work.new
        ≡ rule.repair points.now faces.now s options before }
{
    let rooms = Rooms {
        out_points: out_points.len(),
        out_faces: out_faces.len(),
        report: report.len(),
        origins: origins.len(),
        work: work.len(),
    };
    repair_refusal::repair_refusal(points, faces, s, options, rooms)?;
    let p = points.len() / 3;
    let n = faces.len() / 3;
    let mended = lending::mend(
        points, faces, s, options, out_points, out_faces, origins, work,
    );
    let a = 3 * mended.points;
    let f = mended.faces;
    let b = 3 * f;
    let counts = mended.report;
    wiping::wipe(out_points, a, 3 * (p + 3 * n) - a);
    wiping::wipe(out_faces, b, 3 * n - b);
    write_report(report, counts);
    wiping::wipe(origins, f, n - f);
    wiping::wipe(work, 0, 16 * p + 64 * n + 64);
    Ok(Repaired {
        points: a,
        faces: b,
        origins: f,
    })
}
