// Runs real values through the patch call: patch 0 has two faces of area 1, patch 1 one face of area 3, patch 2 none, and a face is in no patch. A line
// has the answer, and then the entries of face counts, flags and work, which all were 7 before the call.
#![tactic(auto)]

use patches::{Filter, Limit};
use std::io;

// Writes the entries of a row.
fn show_row(rt: &impl Print, row: &[u32]) -> io::Result<()> {
    show::numbers(rt, row, row.len())?;
    print!(rt; "| ")
}

// Runs the call with these labels for the four faces and this filter, in rooms for three patches and a flag more, and writes what comes of it.
fn run(rt: &impl Print, labels: &[u32], by: Filter) -> io::Result<()> {
    let points = [0.0, 0.0, 0.0, 2.0, 0.0, 0.0, 0.0, 1.0, 0.0, 0.0, 3.0, 0.0];
    let faces = [0, 1, 2, 2, 1, 0, 0, 1, 3, 3, 1, 0];
    let mut counts = [7u32; 3];
    let mut numbers = [7.0; 21];
    let mut flags = [7u32; 4];
    let mut work = [7u32; 12];
    match patches::find_patches(
        &points,
        &faces,
        labels,
        3,
        by,
        &mut counts,
        &mut numbers,
        &mut flags,
        &mut work,
    ) {
        Ok(filled) => {
            print!(rt; "done ")?;
            show::number(rt, filled.face_counts as u64)?;
            show::number(rt, filled.numbers as u64)?;
            show::number(rt, filled.flags as u64)?;
        }
        Err(refusal) => {
            print!(rt; "refused ")?;
            show::number(rt, refusal.number() as u64)?;
            show::number(rt, refusal.place() as u64)?;
        }
    }
    print!(rt; "| ")?;
    show_row(rt, &counts)?;
    show_row(rt, &flags)?;
    show_row(rt, &work)?;
    show::end_line(rt)
}

// A filter by the two whole numbers and the fraction; the others are absent.
fn filter(min_faces: Limit<usize>, fraction: Limit<f64>, keep_largest_n: Limit<usize>) -> Filter {
    Filter {
        min_faces,
        min_area: Limit::Absent,
        min_aabb_diagonal: Limit::Absent,
        min_area_fraction: fraction,
        keep_largest_n,
    }
}

// Nothing set; the largest; the largest where it has too few faces, which ranks all patches and so keeps none; half of the largest; and refusals.
fn main(rt: HostRuntime) -> io::Result<()> {
    let labels = [0, 0, 1, 4294967295];
    run(
        &rt,
        &labels,
        filter(Limit::Absent, Limit::Absent, Limit::Absent),
    )?;
    run(
        &rt,
        &labels,
        filter(Limit::Absent, Limit::Absent, Limit::Limit(1)),
    )?;
    run(
        &rt,
        &labels,
        filter(Limit::Limit(2), Limit::Absent, Limit::Limit(1)),
    )?;
    run(
        &rt,
        &labels,
        filter(Limit::Absent, Limit::Limit(0.5), Limit::Absent),
    )?;
    run(
        &rt,
        &labels[..3],
        filter(Limit::Absent, Limit::Absent, Limit::Absent),
    )?;
    run(
        &rt,
        &[0, 3, 1, 2],
        filter(Limit::Absent, Limit::Absent, Limit::Absent),
    )
}
