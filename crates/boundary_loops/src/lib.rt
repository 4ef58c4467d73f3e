// The loop call: the boundary loops and their ends; its refusals, and every room after it.
//
// The work room, with n = 3F, within 16P + 64F + 64:
//
//     0             5n + 1 + P   the table of the undirected edges (crate table)
//     5n + 1 + P    2P           how many boundary edges begin and end at each vertex (crate boundary)
//     5n + 1 + 3P   P            where the boundary goes on from each vertex (crates boundary and loops)
//     5n + 1 + 4P   n            a walk, before it is listed (crate loops)
#![tactic(auto)]

ghost use Rattle.std.specs.Prelude.{◌≡◌};
ghost use Rattle.rules.specs.LoopsCall as rule;
ghost use Rattle.boundary_loops.specs.Answers.{outcome_of, rooms_of};
ghost use Rattle.boundary_loops.specs.Steps.{ListAsks, ListGives};

use loops::Loops;
use loops_refusal::Rooms;
use refuse::Refusal;

// Lists the loops, and clears the work room.
fn list(
    faces: &[u32],
    count: usize,
    loop_vertices: &mut [u32],
    loop_ends: &mut [u32],
    work: &mut [u32],
) -> Loops
    requires { ListAsks count faces.now (rooms_of loop_vertices.old loop_ends.old work.old) }
    ensures { let before = rooms_of loop_vertices.old loop_ends.old work.old in
        let after = rooms_of loop_vertices.new loop_ends.new work.new in
        ListGives count faces.now before after result.loop_vertices result.loop_ends }
{
    let next = 5 * faces.len() + 1 + 3 * count;
    let found = loops::list_loops(
        work,
        faces,
        count,
        next,
        next + count,
        loop_vertices,
        loop_ends,
    );
    wiping::wipe(work, 0, 16 * count + 64 * (faces.len() / 3) + 64);
    found
}

// The loop call: the boundary loops, each from its lowest vertex and listed against its walk, and where each ends. A refusal changes no buffer; after an
// accepted call each answer stands at the front of its room, and the work room is all zero.
pub fn find_loops(
    points: &[f64],
    faces: &[u32],
    loop_vertices: &mut [u32],
    loop_ends: &mut [u32],
    work: &mut [u32],
) -> Result<Loops, Refusal>
    ensures { outcome_of result (rooms_of loop_vertices.new loop_ends.new work.new)
        ≡ rule.find_loops points.now faces.now
        (rooms_of loop_vertices.old loop_ends.old work.old) }
{
    let rooms = Rooms {
        loop_vertices: loop_vertices.len(),
        loop_ends: loop_ends.len(),
        work: work.len(),
    };
    loops_refusal::loops_refusal(points, faces, rooms)?;
    drawing::prepare(work, faces, points.len() / 3, true)?;
    Ok(list(faces, points.len() / 3, loop_vertices, loop_ends, work))
}
