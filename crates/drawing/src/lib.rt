// Refusals 7 and 8 of the edge call and of the loop call, which leave the work room as it was. Where nothing is refused, the table of the undirected edges
// stands in it, and for loops where the boundary goes on from each vertex.
//
// The work room, with n = 3F, within 16P + 64F + 64:
//
//     0             5n + 1 + P   the table (crate table)
//     5n + 1 + P    2P           for loops: how many boundary edges begin and end at each vertex (crate boundary)
//     5n + 1 + 3P   P            for loops: where the boundary goes on from each vertex (crate boundary)
#![tactic(auto)]

ghost use Rattle.std.specs.Prelude.{◌≡◌, ◌≤◌};
ghost use Rattle.refuse.specs.Accepted.{Faces};
ghost use Rattle.refuse.specs.Verdicts as by;
ghost use Rattle.drawing.specs.Drawing.{taken, judged, SizeAsks, JudgeAsks, JudgeGives, DrawAsks, DrawGives, PrepareGives};

use refuse::Refusal;

// How many entries of the work room are taken: those of the table, and for loops those of the boundary's rows.
fn taken(corners: usize, count: usize, loops: bool) -> usize
    requires { SizeAsks corners count }
    ensures { result ≡ taken loops count corners }
{
    if loops {
        return 5 * corners + 1 + 4 * count;
    }
    5 * corners + 1 + count
}

// 7, and for loops 8, from the table of m edges; for loops the rows of the boundary are made.
fn judge(
    work: &mut [u32],
    faces: &[u32],
    count: usize,
    m: usize,
    loops: bool,
) -> Result<(), Refusal>
    requires { JudgeAsks work.old faces.now count m }
    ensures { JudgeGives loops work.old faces.now count m work.new result }
{
    if loops {
        return boundary::boundary(work, faces, count, 0, m, 5 * faces.len() + 1 + count);
    }
    boundary::crowd(work, faces, 0, m)
}

// Makes the table of the edges, for loops the rows of the boundary, and decides by them. Returns the number of unique edges.
fn draw(work: &mut [u32], faces: &[u32], count: usize, loops: bool) -> Result<usize, Refusal>
    requires { DrawAsks work.old faces.now count }
    ensures { DrawGives loops work.old faces.now count work.new result }
{
    let m = table::table(work, faces, count, false, 0);
    judge(work, faces, count, m, loops)?;
    Ok(m)
}

// The same verdict from the faces alone. Only a loop call is refused 8.
fn alone(count: usize, faces: &[u32], loops: bool) -> Result<(), Refusal>
    requires { Faces count faces.now }
    ensures { by.check_of result ≡ judged loops count faces.now }
{
    let found = verdict::loop_verdict(count, faces);
    if loops {
        return found;
    }
    let Err(refusal) = found else {
        return Ok(());
    };
    match refusal {
        Refusal::BadBoundary(_) => Ok(()),
        _ => Err(refusal),
    }
}

// 7, and for loops 8. Where what is taken of the work room is all zero, table and rows are made there, and cleared again on a refusal; else the verdict is
// reached from the faces alone first. Returns the number of unique edges.
pub fn prepare(work: &mut [u32], faces: &[u32], count: usize, loops: bool) -> Result<usize, Refusal>
    requires { DrawAsks work.old faces.now count }
    ensures { PrepareGives loops work.old faces.now count work.new result }
{
    let size = taken(faces.len(), count, loops);
    if wiping::is_zero(work, size) {
        let found = draw(work, faces, count, loops);
        if found.is_err() {
            rows::clear(work, 0, size);
        }
        return found;
    }
    alone(count, faces, loops)?;
    draw(work, faces, count, loops)
}
