// What the edge call lists of a finished undirected table of the faces: the unique edges, their lengths, and the edges of each face. Each function
// writes one answer room, and clears the rest of what is stated for it.
#![tactic(auto)]

ghost use Rattle.listing.specs.Listing.{EdgesAsks, EdgesGives, ListGives, LengthsAsks, LengthsGives, ListLengthsAsks, ListLengthsGives, FaceEdgesAsks, FaceEdgesGives};

// Writes the lower and the higher end of each of the m edges.
fn put_edges(work: &[u32], faces: &[u32], at: usize, m: usize, edges: &mut [u32])
    requires { EdgesAsks work.now faces.now at m edges.old }
    ensures { EdgesGives work.now faces.now at m edges.old edges.new }
{
    let n = faces.len();
    for r in 0..m {
        let id = work[at + 3 * n + work[at + 4 * n + r] as usize] as usize;
        edges[2 * r] = work[at + id];
        edges[2 * r + 1] = work[at + n + id];
    }
}

// Lists the unique edges, sorted by (lower, higher): two ends each. The table of the faces' undirected edges stands in the work room from `at` on,
// and has m runs.
pub fn list_edges(work: &[u32], faces: &[u32], at: usize, m: usize, edges: &mut [u32])
    requires { EdgesAsks work.now faces.now at m edges.old }
    ensures { (q : EdgesAsks work.now faces.now at m edges.old) → ListGives q edges.new }
{
    put_edges(work, faces, at, m, edges);
    wiping::wipe(edges, 2 * m, 2 * faces.len() - 2 * m);
}

// Writes the length of each of m edges whose ends stand in `edges`.
fn put_lengths(points: &[f64], edges: &[u32], m: usize, lengths: &mut [f64])
    requires { LengthsAsks points.now edges.now m lengths.old }
    ensures { LengthsGives points.now edges.now m lengths.old lengths.new }
{
    for r in 0..m {
        lengths[r] = measure::distance(points, edges[2 * r + 1], edges[2 * r]);
    }
}

// Lists the lengths of the m unique edges, whose ends stand in `edges`: norm(higher - lower).
pub fn list_lengths(points: &[f64], faces: &[u32], edges: &[u32], m: usize, lengths: &mut [f64])
    requires { ListLengthsAsks points.now faces.now edges.now m lengths.old }
    ensures { ListLengthsGives points.now faces.now lengths.old lengths.new }
{
    put_lengths(points, edges, m, lengths);
    wiping::wipe(lengths, m, faces.len() - m);
}

// Lists for each face the positions of its edges (1,2), (2,0), (0,1) among the unique edges: the runs of its steps 1, 2 and 0.
pub fn list_face_edges(work: &[u32], faces: &[u32], at: usize, face_edges: &mut [u32])
    requires { FaceEdgesAsks work.now faces.now at face_edges.old }
    ensures { (q : FaceEdgesAsks work.now faces.now at face_edges.old) → FaceEdgesGives q face_edges.new }
{
    let runs = at + 2 * faces.len();
    for i in 0..faces.len() / 3 {
        face_edges[3 * i] = work[runs + 3 * i + 1];
        face_edges[3 * i + 1] = work[runs + 3 * i + 2];
        face_edges[3 * i + 2] = work[runs + 3 * i];
    }
}
