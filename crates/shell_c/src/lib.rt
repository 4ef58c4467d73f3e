// The static library for C: each call of `shell` under its C name, with its clauses.
#![tactic(auto)]

ghost use Rattle.std.specs.Prelude.{◌≡◌, [], ◌∷◌};
ghost use Rattle.rules.specs.Calls as rule;
ghost use Rattle.repair.specs.Answers as repaired;
ghost use Rattle.repair_panel.specs.Answers as packed;
ghost use Rattle.apply_list.specs.Answers as applied;
ghost use Rattle.edges.specs.Answers as edged;
ghost use Rattle.boundary_loops.specs.Answers as looped;
ghost use Rattle.read_stl.specs.Answers as stl;
ghost use Rattle.read_ply.specs.Answers as ply;
ghost use Rattle.write_ply.specs.Written as wrote;
ghost use Rattle.patches.specs.Answers.{rooms_of};
ghost use Rattle.patch_mask.specs.Mask.{masked};
ghost use Rattle.shell.specs.Told.{Given};
ghost use Rattle.shell.specs.Clip.{clip, clipped};
ghost use Rattle.shell.specs.Listed.{ListTold};

use shell::{
    ShellApplied, ShellCheck, ShellEdges, ShellLine, ShellList, ShellLoops, ShellPanel,
    ShellPatches, ShellPly, ShellPlyCounts, ShellPlyFile, ShellRepaired, ShellStl,
};

// The repair: the mended points and faces, the counts of the report, and of each face the number that it had in the input.
#[unsafe(no_mangle)]
pub extern "C" fn shell_repair(
    points: &[f64],
    faces: &[u32],
    s: f64,
    options: u32,
    out_points: &mut [f64],
    out_faces: &mut [u32],
    report: &mut [u32],
    origins: &mut [u32],
    work: &mut [u32],
) -> ShellRepaired
    ensures { let before = repaired.rooms_of out_points.old out_faces.old report.old origins.old work.old in
        let after = repaired.rooms_of out_points.new out_faces.new report.new origins.new work.new in
        Given result.number result.place (result.points ∷ result.faces ∷ result.counts ∷ result.origins ∷ []) after (rule.repair points.now faces.now s options before) }
{
    shell::shell_repair(
        points, faces, s, options, out_points, out_faces, report, origins, work,
    )
}

// The repair of many meshes: what each contributes, packed in order, and four entries a mesh.
#[unsafe(no_mangle)]
pub extern "C" fn shell_repair_panel(
    points: &[f64],
    faces: &[u32],
    point_counts: &[u32],
    face_counts: &[u32],
    s: f64,
    options: u32,
    out_points: &mut [f64],
    out_faces: &mut [u32],
    report: &mut [u32],
    origins: &mut [u32],
    meshes: &mut [u32],
    work: &mut [u32],
) -> ShellPanel
    ensures { let before = packed.rooms_of out_points.old out_faces.old report.old origins.old meshes.old work.old in
        let after = packed.rooms_of out_points.new out_faces.new report.new origins.new meshes.new work.new in
        let entries = result.points ∷ result.faces ∷ result.counts ∷ result.origins ∷ result.meshes ∷ [] in
        Given result.number result.place entries after
        (rule.repair_panel points.now faces.now point_counts.now face_counts.now s options before) }
{
    shell::shell_repair_panel(
        points,
        faces,
        point_counts,
        face_counts,
        s,
        options,
        out_points,
        out_faces,
        report,
        origins,
        meshes,
        work,
    )
}

// The edge call: unique edges, their lengths, and the edges of each face.
#[unsafe(no_mangle)]
pub extern "C" fn shell_edges(
    points: &[f64],
    faces: &[u32],
    edges: &mut [u32],
    lengths: &mut [f64],
    face_edges: &mut [u32],
    work: &mut [u32],
) -> ShellEdges
    ensures { let before = edged.rooms_of edges.old lengths.old face_edges.old work.old in
        let after = edged.rooms_of edges.new lengths.new face_edges.new work.new in
        let entries = result.edges ∷ result.lengths ∷ result.face_edges ∷ [] in
        Given result.number result.place entries after (rule.find_edges points.now faces.now before) }
{
    shell::shell_edges(points, faces, edges, lengths, face_edges, work)
}

// The loop call: the boundary loops and their ends.
#[unsafe(no_mangle)]
pub extern "C" fn shell_loops(
    points: &[f64],
    faces: &[u32],
    loop_vertices: &mut [u32],
    loop_ends: &mut [u32],
    work: &mut [u32],
) -> ShellLoops
    ensures { let before = looped.rooms_of loop_vertices.old loop_ends.old work.old in
        let after = looped.rooms_of loop_vertices.new loop_ends.new work.new in
        let entries = result.loop_vertices ∷ result.loop_ends ∷ [] in
        Given result.number result.place entries after (rule.find_loops points.now faces.now before) }
{
    shell::shell_loops(points, faces, loop_vertices, loop_ends, work)
}

// The edge check: whether no face repeats a corner, every directed edge is used at most once, and the faces at each used point form one group.
#[unsafe(no_mangle)]
pub extern "C" fn shell_check(point_count: u64, faces: &[u32], work: &mut [u32]) -> ShellCheck
    ensures { Given result.number result.place (result.yes ∷ []) work.new (rule.check point_count faces.now work.old) }
{
    shell::shell_check(point_count, faces, work)
}

// The report line: from any counts of a report, the line of text in a room of 512 bytes.
#[unsafe(no_mangle)]
pub extern "C" fn shell_line(counts: &[u32], line: &mut [u8]) -> ShellLine
    ensures { Given result.number result.place (result.bytes ∷ []) line.new (rule.write_line counts.now line.old) }
{
    shell::shell_line(counts, line)
}

// The patch call: face counts, area and box of each patch, and 1 for each that the filter keeps. Limit k of the filter counts where bit k of `limits`
// is 1; the other bits say nothing.
#[unsafe(no_mangle)]
pub extern "C" fn shell_patches(
    points: &[f64],
    faces: &[u32],
    labels: &[u32],
    patch_count: u64,
    limits: u32,
    min_faces: u64,
    min_area: f64,
    min_aabb_diagonal: f64,
    min_area_fraction: f64,
    keep_largest_n: u64,
    face_counts: &mut [u32],
    numbers: &mut [f64],
    flags: &mut [u32],
    work: &mut [u32],
) -> ShellPatches
    ensures { let before = rooms_of face_counts.old numbers.old flags.old work.old in
        let after = rooms_of face_counts.new numbers.new flags.new work.new in
        let filter = masked limits min_faces min_area min_aabb_diagonal min_area_fraction keep_largest_n in
        let outcome = rule.find_patches points.now faces.now labels.now patch_count filter before in
        Given result.number result.place (result.face_counts ∷ result.numbers ∷ result.flags ∷ []) after (clipped outcome) }
{
    shell::shell_patches(
        points,
        faces,
        labels,
        patch_count,
        limits,
        min_faces,
        min_area,
        min_aabb_diagonal,
        min_area_fraction,
        keep_largest_n,
        face_counts,
        numbers,
        flags,
        work,
    )
}

// Reads a binary STL file in memory into points and triples.
#[unsafe(no_mangle)]
pub extern "C" fn shell_read_stl(
    file: &[u8],
    points: &mut [f64],
    faces: &mut [u32],
    work: &mut [u32],
) -> ShellStl
    ensures { let before = stl.rooms_of points.old faces.old work.old in
        let after = stl.rooms_of points.new faces.new work.new in
        Given result.number result.place (result.points ∷ result.faces ∷ []) after (rule.read_stl file.now before) }
{
    shell::shell_read_stl(file, points, faces, work)
}

// Reads a binary PLY file in memory into points and triples.
#[unsafe(no_mangle)]
pub extern "C" fn shell_read_ply(
    file: &[u8],
    points: &mut [f64],
    faces: &mut [u32],
    work: &mut [u32],
) -> ShellPly
    ensures { let before = ply.rooms_of points.old faces.old work.old in
        let after = ply.rooms_of points.new faces.new work.new in
        Given result.number result.place (result.points ∷ result.faces ∷ []) after (rule.read_ply file.now before) }
{
    shell::shell_read_ply(file, points, faces, work)
}

// Writes points and triples as a binary PLY file into a lent room.
#[unsafe(no_mangle)]
pub extern "C" fn shell_write_ply(
    points: &[f64],
    faces: &[u32],
    file: &mut [u8],
    work: &mut [u32],
) -> ShellPlyFile
    ensures { let before = wrote.rooms_of file.old work.old in
        let after = wrote.rooms_of file.new work.new in
        Given result.number result.place (result.bytes ∷ []) after (rule.write_ply points.now faces.now before) }
{
    shell::shell_write_ply(points, faces, file, work)
}

// Tells how many points and faces a binary PLY file in memory has, so that rooms can be lent to reading it.
#[unsafe(no_mangle)]
pub extern "C" fn shell_ply_counts(file: &[u8]) -> ShellPlyCounts
    ensures { Given result.number result.place (result.points ∷ result.faces ∷ []) tt (rule.ply_counts file.now) }
{
    shell::shell_ply_counts(file)
}

// Applies a mending list to points and faces: the mended points and faces.
#[unsafe(no_mangle)]
pub extern "C" fn shell_apply(
    points: &[f64],
    faces: &[u32],
    text: &[u8],
    out_points: &mut [f64],
    out_faces: &mut [u32],
    work: &mut [u32],
) -> ShellApplied
    ensures { let before = applied.rooms_of out_points.old out_faces.old work.old in
        let after = applied.rooms_of out_points.new out_faces.new work.new in
        Given result.number result.place (result.points ∷ result.faces ∷ []) after (rule.apply_list points.now faces.now text.now before) }
{
    shell::shell_apply(points, faces, text, out_points, out_faces, work)
}

// Writes the mending list of a repair into a lent room. The one work room comes in three parts: the first 3F entries, the next F, and the others. Of a short one
// each part is what is left.
#[unsafe(no_mangle)]
pub extern "C" fn shell_list_in_parts(
    points: &[f64],
    faces: &[u32],
    s: f64,
    options: u32,
    text: &mut [u8],
    corners: &mut [u32],
    origins: &mut [u32],
    rest: &mut [u32],
) -> ShellList
    ensures { ListTold points.now faces.now s options text.old corners.old origins.old rest.old text.new corners.new origins.new rest.new result.number result.place result.bytes }
{
    shell::shell_list_in_parts(points, faces, s, options, text, corners, origins, rest)
}
