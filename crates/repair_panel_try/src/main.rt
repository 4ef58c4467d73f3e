// Runs packs of rules/specs/PanelExamples through the call, in rooms one entry longer than stated for the largest of them. What a call leaves are seven lines: the
// answer, the bits of the points room, and the runs of the faces, the reports, the origins, the meshes and the work room. Each entry of a room was 7 before it.
#![tactic(auto)]

use refuse::Refusal;
use repair_panel::Packed;
use std::io;

// Writes an answer.
fn told(rt: &impl Print, answer: Result<Packed, Refusal>) -> io::Result<()> {
    match answer {
        Ok(packed) => {
            print!(rt; "done ")?;
            show::number(rt, packed.points as u64)?;
            show::number(rt, packed.faces as u64)?;
            show::number(rt, packed.counts as u64)?;
            show::number(rt, packed.origins as u64)?;
            show::number(rt, packed.meshes as u64)?;
        }
        Err(refusal) => {
            print!(rt; "refused ")?;
            show::number(rt, refusal.number() as u64)?;
            show::number(rt, refusal.place() as u64)?;
        }
    }
    show::end_line(rt)
}

// Runs the call, and writes the answer and what stands in the rooms.
fn run(
    rt: &impl Print,
    points: &[f64],
    faces: &[u32],
    point_counts: &[u32],
    face_counts: &[u32],
    options: u32,
    out_points: &mut [f64],
    out_faces: &mut [u32],
    report: &mut [u32],
    origins: &mut [u32],
    meshes: &mut [u32],
    work: &mut [u32],
) -> io::Result<()> {
    told(
        rt,
        repair_panel::repair_panel(
            points,
            faces,
            point_counts,
            face_counts,
            0.0009765625,
            options,
            out_points,
            out_faces,
            report,
            origins,
            meshes,
            work,
        ),
    )?;
    show::bits(rt, out_points)?;
    show::runs(rt, out_faces)?;
    show::runs(rt, report)?;
    show::runs(rt, origins)?;
    show::runs(rt, meshes)?;
    show::runs(rt, work)
}

// In rooms of these lengths.
fn mend(
    rt: &impl Print,
    points: &[f64],
    faces: &[u32],
    point_counts: &[u32],
    face_counts: &[u32],
    options: u32,
) -> io::Result<()> {
    let mut out_points = [7.0; 67];
    let mut out_faces = [7; 16];
    let mut report = [7; 34];
    let mut origins = [7; 6];
    let mut meshes = [7; 13];
    let mut work = [7; 337];
    run(
        rt,
        points,
        faces,
        point_counts,
        face_counts,
        options,
        &mut out_points,
        &mut out_faces,
        &mut report,
        &mut origins,
        &mut meshes,
        &mut work,
    )
}

// Three meshes of which the second is refused; the first and the last refused; all refused; none; the largest refused, with a smaller one behind it; then
// rows that differ, sums that are wrong, options that are too many, and rooms that are too short.
fn main(rt: HostRuntime) -> io::Result<()> {
    let points = [
        0.0, 0.0, 0.0, 0.0, 0.0, 0.0, 0.0, 0.0, 0.0, 1.0, 0.0, 0.0, 0.0, 1.0, 0.0, 0.0, -1.0, 0.0,
        0.0, 0.0, 1.0,
    ];
    let faces = [0, 0, 0, 0, 0, 1, 0, 1, 2, 0, 1, 3, 0, 1, 4];
    mend(&rt, &points, &faces, &[1, 1, 5], &[1, 1, 3], 4)?;
    mend(&rt, &points, &faces, &[1, 1, 5], &[1, 1, 3], 63)?;
    let far = [1e31, 0.0, 0.0, 0.0, 0.0, 0.0, 0.0, 0.0, 0.0];
    mend(
        &rt,
        &far,
        &[0, 0, 0, 0, 0, 0, 0, 0, 1],
        &[1, 1, 1],
        &[1, 1, 1],
        8,
    )?;
    mend(&rt, &far, &[0, 0, 0], &[3, 0], &[0, 1], 63)?;
    mend(&rt, &[], &[], &[], &[], 63)?;
    mend(&rt, &far, &[0, 0, 0], &[2, 1], &[1, 0], 0)?;
    mend(&rt, &[], &[], &[0, 0], &[0], 0)?;
    mend(&rt, &far, &[], &[2], &[0], 0)?;
    mend(&rt, &far, &[0, 0, 0], &[3], &[0], 0)?;
    mend(&rt, &far, &[], &[3], &[0], 64)?;
    mend(&rt, &points, &faces, &[1, 1, 4, 1], &[1, 1, 3, 0], 0)
}
