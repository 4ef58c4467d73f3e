// A binary PLY file in memory: its header, its vertices and faces, and the refusals of a call that reads it.
#![tactic(auto)]

ghost use Rattle.std.specs.Prelude.{◌≡◌, ◌∷◌, [], ◌+◌, ◌*◌, ◌≤◌, ◌<◌, eqb, length, IfOk};
ghost use Rattle.rows.specs.Region.{part};
ghost use Rattle.rules.specs.Refusal as refusal;
ghost use Rattle.rules.specs.Text.{equal};
ghost use Rattle.rules.specs.Ply as rule;
ghost use Rattle.rules.specs.ReadPlyCall.{read_ply_rooms};
ghost use Rattle.refuse.specs.Verdicts as by;
ghost use Rattle.ply_file.specs.Files as ply;

use refuse::Refusal;

// ---- the header

// The count in a line of the header, and where the line ends.
#[derive(Clone, Copy, Debug, PartialEq, Eq)]
struct Line {
    count: usize,
    end: usize,
}

// The header of a file in the form: the counts of vertices and of faces, and where the body begins.
#[derive(Clone, Copy, Debug, PartialEq, Eq)]
pub struct Header {
    pub vertices: usize,
    pub faces: usize,
    pub body: usize,
}

// Whether the text stands in the file at `at`.
fn stands(file: &[u8], at: usize, text: &[u8]) -> bool
    requires { at ≤ length file.now }
    ensures { result ≡ equal (part file.now at (length text.now)) text.now }
{
    file[at..].starts_with(text)
}

// The count in the line that begins at `from`.
fn read_line(file: &[u8], from: usize) -> Option<Line>
    requires { from ≤ length file.now }
    ensures { ply.Lines file.now from result }
{
    let end = text_fields::find(file, from, 10);
    let count = text_fields::read_plain(&file[from..end])? as usize;
    Some(Line { count, end })
}

// Whether p vertices and f faces are as long as the body.
fn fills(body: usize, p: usize, f: usize) -> bool
    ensures { result ≡ eqb body (24 * p + 13 * f) }
{
    if body / 24 < p {
        return false;
    }
    let left = body - 24 * p;
    if left / 13 < f {
        return false;
    }
    left == 13 * f
}

// The header of a file in the form, whose body is as long as the counts tell.
pub fn head(file: &[u8]) -> Option<Header>
    ensures { ply.Heads file.now result }
{
    if !stands(
        file,
        0,
        b"ply\nformat binary_little_endian 1.0\nelement vertex ",
    ) {
        return None;
    }
    let vertices = read_line(file, 51)?;
    if !stands(
        file,
        vertices.end,
        b"\nproperty double x\nproperty double y\nproperty double z\nelement face ",
    ) {
        return None;
    }
    let faces = read_line(file, vertices.end + 68)?;
    if !stands(
        file,
        faces.end,
        b"\nproperty list uchar int vertex_indices\nend_header\n",
    ) {
        return None;
    }
    let body = faces.end + 51;
    if fills(file.len() - body, vertices.count, faces.count) {
        return Some(Header {
            vertices: vertices.count,
            faces: faces.count,
            body,
        });
    }
    None
}

// ---- the body

// 14: a face whose count is not 3, at the first such face; the faces begin at `at`.
fn triples(file: &[u8], at: usize, f: usize) -> Result<(), Refusal>
    requires { ply.FacesAsk file.now at f }
    ensures { by.check_of result ≡ rule.no14 file.now }
{
    for i in 0..f {
        if file[at + 13 * i] != 3 {
            return Err(Refusal::NotATriple(i));
        }
    }
    Ok(())
}

// Whether the vertex that begins at byte i has a coordinate outside its domain.
fn far(file: &[u8], i: usize) -> bool
    requires { i + 24 ≤ length file.now }
    ensures { result ≡ by.far (ply.point_at file.now i) }
{
    !(refuse::in_domain(byte_rows::real_at(file, i))
        && refuse::in_domain(byte_rows::real_at(file, i + 8))
        && refuse::in_domain(byte_rows::real_at(file, i + 16)))
}

// 4: a coordinate outside its domain, at the first such vertex; the vertices begin at `at`.
fn vertices(file: &[u8], at: usize, p: usize) -> Result<(), Refusal>
    requires { ply.VerticesAsk file.now at p }
    ensures { by.check_of result ≡ refusal.no4 (rule.points_of_bytes file.now) }
{
    for i in 0..p {
        if far(file, at + 24 * i) {
            return Err(Refusal::BadPoint(i));
        }
    }
    Ok(())
}

// Whether the face that begins at byte i has a corner >= P.
fn astray(file: &[u8], p: usize, i: usize) -> bool
    requires { i + 13 ≤ length file.now }
    ensures { result ≡ by.astray p (ply.face_at file.now i) }
{
    p <= byte_rows::u32_at(file, i + 1) as usize
        || p <= byte_rows::u32_at(file, i + 5) as usize
        || p <= byte_rows::u32_at(file, i + 9) as usize
}

// 5: a corner >= P, at the first such face.
fn corners(file: &[u8], at: usize, p: usize, f: usize) -> Result<(), Refusal>
    requires { ply.FacesAsk file.now at f }
    ensures { by.check_of result ≡ refusal.no5 p (rule.triples_of file.now) }
{
    for i in 0..f {
        if astray(file, p, at + 13 * i) {
            return Err(Refusal::BadCorner(i));
        }
    }
    Ok(())
}

// 14, 4 and 5, of f faces over p vertices whose body begins at `at`.
fn contents(file: &[u8], at: usize, p: usize, f: usize) -> Result<(), Refusal>
    requires { ply.BodyAsks file.now at p f }
    ensures { by.check_of result ≡ refusal.decided (ply.contents file.now) }
{
    triples(file, at + 24 * p, f)?;
    vertices(file, at, p)?;
    corners(file, at + 24 * p, p, f)
}

// ---- the call

// 6: points 3P, faces 3F, work.
fn short_room(p: usize, f: usize, points: usize, faces: usize, work: usize) -> Result<(), Refusal>
    requires { by.Limits p f }
    ensures { by.check_of result ≡ refusal.no6 (read_ply_rooms p f) (points ∷ faces ∷ work ∷ []) }
{
    if points < 3 * p {
        return Err(Refusal::ShortRoom(0));
    }
    if faces < 3 * f {
        return Err(Refusal::ShortRoom(1));
    }
    if work < refuse::stated_work(p, f) {
        return Err(Refusal::ShortRoom(2));
    }
    Ok(())
}

// The refusals of a call that reads a file, in their order: 13, 2, 14, 4, 5, 6; the rooms by their lengths. An accepted file gives its header.
pub fn ply_check(file: &[u8], points: usize, faces: usize, work: usize) -> Result<Header, Refusal>
    ensures checks { by.check_of result ≡ refusal.decided (ply.ply_list file.now points faces work) }
    ensures header { IfOk result (λ h. ply.Whole file.now h.vertices h.faces h.body) }
{
    let Some(header) = head(file) else {
        return Err(Refusal::BadPly);
    };
    let p = header.vertices;
    let f = header.faces;
    refuse::counts(p, f)?;
    contents(file, header.body, p, f)?;
    short_room(p, f, points, faces, work)?;
    Ok(header)
}
