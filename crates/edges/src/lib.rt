// The edge call: the unique edges, their lengths and the edges of each face; its refusals, and every room after it.
//
// The work room, with n = 3F, within 16P + 64F + 64:
//
//     0   5n + 1 + P   the table of the undirected edges (crate table)
#![tactic(auto)]

ghost use Rattle.std.specs.Prelude.{◌≡◌};
ghost use Rattle.rules.specs.EdgesCall as rule;
ghost use Rattle.edges.specs.Answers.{outcome_of, rooms_of};
ghost use Rattle.edges.specs.Steps.{ListAsks, after};

use edges_refusal::Rooms;
use refuse::Refusal;

// How many entries stand in the rooms of edges, lengths and face edges after an accepted edge call.
#[derive(Clone, Copy, Debug, PartialEq, Eq)]
pub struct Found {
    pub edges: usize,
    pub lengths: usize,
    pub face_edges: usize,
}

// Lists the m edges, their lengths and the edges of the faces, and clears the work room.
fn list(
    points: &[f64],
    faces: &[u32],
    m: usize,
    edges: &mut [u32],
    lengths: &mut [f64],
    face_edges: &mut [u32],
    work: &mut [u32],
)
    requires { ListAsks points.now faces.now m (rooms_of edges.old lengths.old face_edges.old work.old) }
    ensures { rooms_of edges.new lengths.new face_edges.new work.new
        ≡ after points.now faces.now (rooms_of edges.old lengths.old face_edges.old work.old) }
{
    listing::list_edges(work, faces, 0, m, edges);
    listing::list_lengths(points, faces, edges, m, lengths);
    listing::list_face_edges(work, faces, 0, face_edges);
    wiping::wipe(
        work,
        0,
        16 * (points.len() / 3) + 64 * (faces.len() / 3) + 64,
    );
}

// The edge call: unique edges sorted by (lower, higher), their lengths, and the edges of each face. A refusal changes no buffer; after an accepted call each
// answer stands at the front of its room, and the work room is all zero.
pub fn find_edges(
    points: &[f64],
    faces: &[u32],
    edges: &mut [u32],
    lengths: &mut [f64],
    face_edges: &mut [u32],
    work: &mut [u32],
) -> Result<Found, Refusal>
    ensures { outcome_of result (rooms_of edges.new lengths.new face_edges.new work.new)
        ≡ rule.find_edges points.now faces.now
        (rooms_of edges.old lengths.old face_edges.old work.old) }
{
    let rooms = Rooms {
        edges: edges.len(),
        lengths: lengths.len(),
        face_edges: face_edges.len(),
        work: work.len(),
    };
    edges_refusal::edges_refusal(points, faces, rooms)?;
    let m = drawing::prepare(work, faces, points.len() / 3, false)?;
    list(points, faces, m, edges, lengths, face_edges, work);
    Ok(Found {
        edges: 2 * m,
        lengths: m,
        face_edges: faces.len(),
    })
}
