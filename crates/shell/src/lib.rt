// The calls of document 01 and of the requests after it as C has them; the crate `shell_c` exports them. Each gives back a number and a place (0 and 0 if it is accepted), and how many entries stand in each answer room.
#![tactic(auto)]

ghost use Rattle.std.specs.Prelude.{◌≡◌, [], ◌∷◌};
ghost use Rattle.rules.specs.Calls as rule;
ghost use Rattle.repair.specs.Answers as repaired;
ghost use Rattle.repair_panel.specs.Answers as packed;
ghost use Rattle.apply_list.specs.Answers as applied;
ghost use Rattle.edges.specs.Answers as edged;
ghost use Rattle.boundary_loops.specs.Answers as looped;
ghost use Rattle.read_stl.specs.Answers as stl;
ghost use Rattle.read_ply.specs.Answers as ply;
ghost use Rattle.write_ply.specs.Written as wrote;
ghost use Rattle.patches.specs.Answers.{rooms_of};
ghost use Rattle.patch_mask.specs.Mask.{masked};
ghost use Rattle.shell.specs.Told.{Given};
ghost use Rattle.shell.specs.Clip.{clip, clipped};
ghost use Rattle.shell.specs.Listed.{ListTold};

// What a repair gives back: how many entries stand in the rooms of points, faces, report and origins.
#[repr(C)]
#[derive(Clone, Copy)]
pub struct ShellRepaired {
    pub number: u32,
    pub place: u32,
    pub points: u64,
    pub faces: u64,
    pub counts: u64,
    pub origins: u64,
}

// The repair: the mended points and faces, the counts of the report, and of each face the number that it had in the input.
pub fn shell_repair(
    points: &[f64],
    faces: &[u32],
    s: f64,
    options: u32,
    out_points: &mut [f64],
    out_faces: &mut [u32],
    report: &mut [u32],
    origins: &mut [u32],
    work: &mut [u32],
) -> ShellRepaired
    ensures { let before = repaired.rooms_of out_points.old out_faces.old report.old origins.old work.old in
        let after = repaired.rooms_of out_points.new out_faces.new report.new origins.new work.new in
        Given result.number result.place (result.points ∷ result.faces ∷ result.counts ∷ result.origins ∷ []) after (rule.repair points.now faces.now s options before) }
{
    match repair::repair(
        points, faces, s, options, out_points, out_faces, report, origins, work,
    ) {
        Ok(mended) => ShellRepaired {
            number: 0,
            place: 0,
            points: mended.points as u64,
            faces: mended.faces as u64,
            counts: rules::COUNTS as u64,
            origins: mended.origins as u64,
        },
        Err(refusal) => ShellRepaired {
            number: refusal.number(),
            place: refusal.place() as u32,
            points: 0,
            faces: 0,
            counts: 0,
            origins: 0,
        },
    }
}

// What the repair of many meshes gives back: how many entries stand in the rooms of points, faces, reports, origins and meshes.
#[repr(C)]
#[derive(Clone, Copy)]
pub struct ShellPanel {
    pub number: u32,
    pub place: u32,
    pub points: u64,
    pub faces: u64,
    pub counts: u64,
    pub origins: u64,
    pub meshes: u64,
}

// The repair of many meshes: what each contributes, packed in order, and four entries a mesh.
pub fn shell_repair_panel(
    points: &[f64],
    faces: &[u32],
    point_counts: &[u32],
    face_counts: &[u32],
    s: f64,
    options: u32,
    out_points: &mut [f64],
    out_faces: &mut [u32],
    report: &mut [u32],
    origins: &mut [u32],
    meshes: &mut [u32],
    work: &mut [u32],
) -> ShellPanel
    ensures { let before = packed.rooms_of out_points.old out_faces.old report.old origins.old meshes.old work.old in
        let after = packed.rooms_of out_points.new out_faces.new report.new origins.new meshes.new work.new in
        let entries = result.points ∷ result.faces ∷ result.counts ∷ result.origins ∷ result.meshes ∷ [] in
        Given result.number result.place entries after
        (rule.repair_panel points.now faces.now point_counts.now face_counts.now s options before) }
{
    match repair_panel::repair_panel(
        points,
        faces,
        point_counts,
        face_counts,
        s,
        options,
        out_points,
        out_faces,
        report,
        origins,
        meshes,
        work,
    ) {
        Ok(packed) => ShellPanel {
            number: 0,
            place: 0,
            points: packed.points as u64,
            faces: packed.faces as u64,
            counts: packed.counts as u64,
            origins: packed.origins as u64,
            meshes: packed.meshes as u64,
        },
        Err(refusal) => ShellPanel {
            number: refusal.number(),
            place: refusal.place() as u32,
            points: 0,
            faces: 0,
            counts: 0,
            origins: 0,
            meshes: 0,
        },
    }
}

// What the edge call gives back: how many entries stand in the rooms of edges, lengths and face edges.
#[repr(C)]
#[derive(Clone, Copy)]
pub struct ShellEdges {
    pub number: u32,
    pub place: u32,
    pub edges: u64,
    pub lengths: u64,
    pub face_edges: u64,
}

// The edge call: unique edges, their lengths, and the edges of each face.
pub fn shell_edges(
    points: &[f64],
    faces: &[u32],
    edges: &mut [u32],
    lengths: &mut [f64],
    face_edges: &mut [u32],
    work: &mut [u32],
) -> ShellEdges
    ensures { let before = edged.rooms_of edges.old lengths.old face_edges.old work.old in
        let after = edged.rooms_of edges.new lengths.new face_edges.new work.new in
        let entries = result.edges ∷ result.lengths ∷ result.face_edges ∷ [] in
        Given result.number result.place entries after (rule.find_edges points.now faces.now before) }
{
    match edges::find_edges(points, faces, edges, lengths, face_edges, work) {
        Ok(found) => ShellEdges {
            number: 0,
            place: 0,
            edges: found.edges as u64,
            lengths: found.lengths as u64,
            face_edges: found.face_edges as u64,
        },
        Err(refusal) => ShellEdges {
            number: refusal.number(),
            place: refusal.place() as u32,
            edges: 0,
            lengths: 0,
            face_edges: 0,
        },
    }
}

// What the loop call gives back: how many entries stand in the rooms of loop vertices and loop ends.
#[repr(C)]
#[derive(Clone, Copy)]
pub struct ShellLoops {
    pub number: u32,
    pub place: u32,
    pub loop_vertices: u64,
    pub loop_ends: u64,
}

// The loop call: the boundary loops and their ends.
pub fn shell_loops(
    points: &[f64],
    faces: &[u32],
    loop_vertices: &mut [u32],
    loop_ends: &mut [u32],
    work: &mut [u32],
) -> ShellLoops
    ensures { let before = looped.rooms_of loop_vertices.old loop_ends.old work.old in
        let after = looped.rooms_of loop_vertices.new loop_ends.new work.new in
        let entries = result.loop_vertices ∷ result.loop_ends ∷ [] in
        Given result.number result.place entries after (rule.find_loops points.now faces.now before) }
{
    match boundary_loops::find_loops(points, faces, loop_vertices, loop_ends, work) {
        Ok(loops) => ShellLoops {
            number: 0,
            place: 0,
            loop_vertices: loops.loop_vertices as u64,
            loop_ends: loops.loop_ends as u64,
        },
        Err(refusal) => ShellLoops {
            number: refusal.number(),
            place: refusal.place() as u32,
            loop_vertices: 0,
            loop_ends: 0,
        },
    }
}

// What the edge check gives back: yes is 1, no is 0.
#[repr(C)]
#[derive(Clone, Copy)]
pub struct ShellCheck {
    pub number: u32,
    pub place: u32,
    pub yes: u64,
}

// The edge check: whether no face repeats a corner, every directed edge is used at most once, and the faces at each used point form one group.
pub fn shell_check(point_count: u64, faces: &[u32], work: &mut [u32]) -> ShellCheck
    ensures { Given result.number result.place (result.yes ∷ []) work.new (rule.check point_count faces.now work.old) }
{
    match edge_check::check(point_count as usize, faces, work) {
        Ok(answer) => ShellCheck {
            number: 0,
            place: 0,
            yes: u64::from(answer),
        },
        Err(refusal) => ShellCheck {
            number: refusal.number(),
            place: refusal.place() as u32,
            yes: 0,
        },
    }
}

// What the report line gives back.
#[repr(C)]
#[derive(Clone, Copy)]
pub struct ShellLine {
    pub number: u32,
    pub place: u32,
    pub bytes: u64,
}

// The report line: from any counts of a report, the line of text in a room of 512 bytes.
pub fn shell_line(counts: &[u32], line: &mut [u8]) -> ShellLine
    ensures { Given result.number result.place (result.bytes ∷ []) line.new (rule.write_line counts.now line.old) }
{
    match line::line(counts, line) {
        Ok(bytes) => ShellLine {
            number: 0,
            place: 0,
            bytes: bytes as u64,
        },
        Err(refusal) => ShellLine {
            number: refusal.number(),
            place: refusal.place() as u32,
            bytes: 0,
        },
    }
}

// What the patch call gives back.
#[repr(C)]
#[derive(Clone, Copy)]
pub struct ShellPatches {
    pub number: u32,
    pub place: u32,
    pub face_counts: u64,
    pub numbers: u64,
    pub flags: u64,
}

// A place in 32 bits: one that does not fit is told as the largest that does.
fn place_of(at: usize) -> u32
    ensures { result ≡ clip at }
{
    if at < 4294967295 {
        at as u32
    } else {
        4294967295
    }
}

// The patch call: face counts, area and box of each patch, and 1 for each that the filter keeps. Limit k of the filter counts where bit k of `limits`
// is 1; the other bits say nothing.
pub fn shell_patches(
    points: &[f64],
    faces: &[u32],
    labels: &[u32],
    patch_count: u64,
    limits: u32,
    min_faces: u64,
    min_area: f64,
    min_aabb_diagonal: f64,
    min_area_fraction: f64,
    keep_largest_n: u64,
    face_counts: &mut [u32],
    numbers: &mut [f64],
    flags: &mut [u32],
    work: &mut [u32],
) -> ShellPatches
    ensures { let before = rooms_of face_counts.old numbers.old flags.old work.old in
        let after = rooms_of face_counts.new numbers.new flags.new work.new in
        let filter = masked limits min_faces min_area min_aabb_diagonal min_area_fraction keep_largest_n in
        let outcome = rule.find_patches points.now faces.now labels.now patch_count filter before in
        Given result.number result.place (result.face_counts ∷ result.numbers ∷ result.flags ∷ []) after (clipped outcome) }
{
    let by = patch_mask::filter(
        limits,
        min_faces,
        min_area,
        min_aabb_diagonal,
        min_area_fraction,
        keep_largest_n,
    );
    match patches::find_patches(
        points,
        faces,
        labels,
        patch_count as usize,
        by,
        face_counts,
        numbers,
        flags,
        work,
    ) {
        Ok(patched) => ShellPatches {
            number: 0,
            place: 0,
            face_counts: patched.face_counts as u64,
            numbers: patched.numbers as u64,
            flags: patched.flags as u64,
        },
        Err(refusal) => ShellPatches {
            number: refusal.number(),
            place: place_of(refusal.place()),
            face_counts: 0,
            numbers: 0,
            flags: 0,
        },
    }
}

// What reading a binary STL file gives back: how many entries stand in the rooms of points and faces.
#[repr(C)]
#[derive(Clone, Copy)]
pub struct ShellStl {
    pub number: u32,
    pub place: u32,
    pub points: u64,
    pub faces: u64,
}

// Reads a binary STL file in memory into points and triples.
pub fn shell_read_stl(
    file: &[u8],
    points: &mut [f64],
    faces: &mut [u32],
    work: &mut [u32],
) -> ShellStl
    ensures { let before = stl.rooms_of points.old faces.old work.old in
        let after = stl.rooms_of points.new faces.new work.new in
        Given result.number result.place (result.points ∷ result.faces ∷ []) after (rule.read_stl file.now before) }
{
    match read_stl::read_stl(file, points, faces, work) {
        Ok(read) => ShellStl {
            number: 0,
            place: 0,
            points: read.points as u64,
            faces: read.faces as u64,
        },
        Err(refusal) => ShellStl {
            number: refusal.number(),
            place: refusal.place() as u32,
            points: 0,
            faces: 0,
        },
    }
}

// What reading a binary PLY file gives back: how many entries stand in the rooms of points and faces.
#[repr(C)]
#[derive(Clone, Copy)]
pub struct ShellPly {
    pub number: u32,
    pub place: u32,
    pub points: u64,
    pub faces: u64,
}

// Reads a binary PLY file in memory into points and triples.
pub fn shell_read_ply(
    file: &[u8],
    points: &mut [f64],
    faces: &mut [u32],
    work: &mut [u32],
) -> ShellPly
    ensures { let before = ply.rooms_of points.old faces.old work.old in
        let after = ply.rooms_of points.new faces.new work.new in
        Given result.number result.place (result.points ∷ result.faces ∷ []) after (rule.read_ply file.now before) }
{
    match read_ply::read_ply(file, points, faces, work) {
        Ok(read) => ShellPly {
            number: 0,
            place: 0,
            points: read.points as u64,
            faces: read.faces as u64,
        },
        Err(refusal) => ShellPly {
            number: refusal.number(),
            place: refusal.place() as u32,
            points: 0,
            faces: 0,
        },
    }
}

// What writing a binary PLY file gives back: how many bytes the file has.
#[repr(C)]
#[derive(Clone, Copy)]
pub struct ShellPlyFile {
    pub number: u32,
    pub place: u32,
    pub bytes: u64,
}

// Writes points and triples as a binary PLY file into a lent room.
pub fn shell_write_ply(
    points: &[f64],
    faces: &[u32],
    file: &mut [u8],
    work: &mut [u32],
) -> ShellPlyFile
    ensures { let before = wrote.rooms_of file.old work.old in
        let after = wrote.rooms_of file.new work.new in
        Given result.number result.place (result.bytes ∷ []) after (rule.write_ply points.now faces.now before) }
{
    match write_ply::write_ply(points, faces, file, work) {
        Ok(length) => ShellPlyFile {
            number: 0,
            place: 0,
            bytes: length as u64,
        },
        Err(refusal) => ShellPlyFile {
            number: refusal.number(),
            place: refusal.place() as u32,
            bytes: 0,
        },
    }
}

// What the counts of a binary PLY file are: P and F.
#[repr(C)]
#[derive(Clone, Copy)]
pub struct ShellPlyCounts {
    pub number: u32,
    pub place: u32,
    pub points: u64,
    pub faces: u64,
}

// Tells how many points and faces a binary PLY file in memory has, so that rooms can be lent to reading it.
pub fn shell_ply_counts(file: &[u8]) -> ShellPlyCounts
    ensures { Given result.number result.place (result.points ∷ result.faces ∷ []) tt (rule.ply_counts file.now) }
{
    match ply_counts::ply_counts(file) {
        Ok(counted) => ShellPlyCounts {
            number: 0,
            place: 0,
            points: counted.points as u64,
            faces: counted.faces as u64,
        },
        Err(refusal) => ShellPlyCounts {
            number: refusal.number(),
            place: refusal.place() as u32,
            points: 0,
            faces: 0,
        },
    }
}

// What applying a mending list gives back: how many entries stand in the rooms of points and faces.
#[repr(C)]
#[derive(Clone, Copy)]
pub struct ShellApplied {
    pub number: u32,
    pub place: u32,
    pub points: u64,
    pub faces: u64,
}

// Applies a mending list to points and faces: the mended points and faces.
pub fn shell_apply(
    points: &[f64],
    faces: &[u32],
    text: &[u8],
    out_points: &mut [f64],
    out_faces: &mut [u32],
    work: &mut [u32],
) -> ShellApplied
    ensures { let before = applied.rooms_of out_points.old out_faces.old work.old in
        let after = applied.rooms_of out_points.new out_faces.new work.new in
        Given result.number result.place (result.points ∷ result.faces ∷ []) after (rule.apply_list points.now faces.now text.now before) }
{
    match apply_list::apply_list(points, faces, text, out_points, out_faces, work) {
        Ok(mended) => ShellApplied {
            number: 0,
            place: 0,
            points: mended.points as u64,
            faces: mended.faces as u64,
        },
        Err(refusal) => ShellApplied {
            number: refusal.number(),
            place: refusal.place() as u32,
            points: 0,
            faces: 0,
        },
    }
}

// What writing a mending list gives back: how many bytes the text has.
#[repr(C)]
#[derive(Clone, Copy)]
pub struct ShellList {
    pub number: u32,
    pub place: u32,
    pub bytes: u64,
}

// Writes the mending list of a repair into a lent room. The one work room comes in three parts: the first 3F entries, the next F, and the others. Of a short one
// each part is what is left.
pub fn shell_list_in_parts(
    points: &[f64],
    faces: &[u32],
    s: f64,
    options: u32,
    text: &mut [u8],
    corners: &mut [u32],
    origins: &mut [u32],
    rest: &mut [u32],
) -> ShellList
    ensures { ListTold points.now faces.now s options text.old corners.old origins.old rest.old text.new corners.new origins.new rest.new result.number result.place result.bytes }
{
    match write_list::write_list(points, faces, s, options, text, corners, origins, rest) {
        Ok(written) => ShellList {
            number: 0,
            place: 0,
            bytes: written as u64,
        },
        Err(refusal) => ShellList {
            number: refusal.number(),
            place: refusal.place() as u32,
            bytes: 0,
        },
    }
}
