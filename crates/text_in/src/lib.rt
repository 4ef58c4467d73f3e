// Reading the text of the program `meshfix`: from bytes to the job that they ask for, or to none, which is refused 11.
#![tactic(auto)]

ghost use Rattle.std.specs.Prelude.{◌≡◌, ◌≤◌, ◌<◌, length, drop};
ghost use Rattle.rules.specs.Text as rule;
ghost use Rattle.text_in.specs.Asked as by;

// The number of the refusal of a text that asks for no job.
pub const BAD_TEXT: u32 = 11;

// The cuts of a line of three or of four fields: where the fields after the first begin, less one. Only these lines have a form.
#[derive(Clone, Copy, Debug, PartialEq, Eq)]
enum Fields {
    Three(usize, usize),
    Four(usize, usize, usize),
}

// The first line.
#[derive(Clone, Copy, Debug, PartialEq)]
struct Opened {
    options: u32,
    threshold: f64,
}

// How many entries stand in the points room and in the faces room after a further line.
#[derive(Clone, Copy, Debug, PartialEq, Eq)]
struct Grown {
    points: usize,
    faces: usize,
}

// What a text asks for: options, threshold, and how many entries stand in the points room and in the faces room.
#[derive(Clone, Copy, Debug, PartialEq)]
pub struct Told {
    pub options: u32,
    pub threshold: f64,
    pub points: usize,
    pub faces: usize,
}

// The fields of a line, parted by tabs.
fn cut(line: &[u8]) -> Option<Fields>
    ensures { by.Parts line.now result }
{
    let a = text_fields::find(line, 0, 9);
    if a == line.len() {
        return None;
    }
    let b = text_fields::find(line, a + 1, 9);
    if b == line.len() {
        return None;
    }
    let c = text_fields::find(line, b + 1, 9);
    if c == line.len() {
        return Some(Fields::Three(a, b));
    }
    let d = text_fields::find(line, c + 1, 9);
    if d == line.len() {
        return Some(Fields::Four(a, b, c));
    }
    None
}

// A `p` line: a point more, of at most 64.
// It and `add_face` stay two: the rules add a point by `with_point` and a face by `with_corners`, and one for both would still need either clause.
fn add_point(
    line: &[u8],
    a: usize,
    b: usize,
    c: usize,
    points: &mut [f64],
    p: usize,
    f: usize,
) -> Option<Grown>
    requires { by.AddAsks line.now a b c points.old p }
    ensures { by.PointGives (by.three_of rule.real line.now a b c) points.old p f points.new result }
{
    if p > 189 {
        return None;
    }
    let x = text_fields::read_real(&line[a + 1..b])?;
    let y = text_fields::read_real(&line[b + 1..c])?;
    let z = text_fields::read_real(&line[c + 1..])?;
    points[p] = x;
    points[p + 1] = y;
    points[p + 2] = z;
    Some(Grown {
        points: p + 3,
        faces: f,
    })
}

// An `f` line: a face more, of at most 64.
fn add_face(
    line: &[u8],
    a: usize,
    b: usize,
    c: usize,
    faces: &mut [u32],
    p: usize,
    f: usize,
) -> Option<Grown>
    requires { by.AddAsks line.now a b c faces.old f }
    ensures { by.FaceGives (by.three_of rule.whole line.now a b c) faces.old p f faces.new result }
{
    if f > 189 {
        return None;
    }
    let x = text_fields::read_whole(&line[a + 1..b])?;
    let y = text_fields::read_whole(&line[b + 1..c])?;
    let z = text_fields::read_whole(&line[c + 1..])?;
    faces[f] = x;
    faces[f + 1] = y;
    faces[f + 2] = z;
    Some(Grown {
        points: p,
        faces: f + 3,
    })
}

// A line of four fields adds a point or a face.
fn add_fields(
    line: &[u8],
    a: usize,
    b: usize,
    c: usize,
    points: &mut [f64],
    p: usize,
    faces: &mut [u32],
    f: usize,
) -> Option<Grown>
    requires { by.FieldsAsks line.now a b c points.old p faces.old f }
    ensures { by.Grows (by.four_of line.now a b c) points.old p faces.old f points.new faces.new result }
{
    if a != 1 {
        return None;
    }
    if line[0] == b'p' {
        return add_point(line, a, b, c, points, p, f);
    }
    if line[0] == b'f' {
        return add_face(line, a, b, c, faces, p, f);
    }
    None
}

// A line after the first: it adds a point or a face, or it is bad.
fn add_line(line: &[u8], points: &mut [f64], p: usize, faces: &mut [u32], f: usize) -> Option<Grown>
    requires { by.RoomAsks points.old p faces.old f }
    ensures { by.Grows (rule.parted 9 line.now) points.old p faces.old f points.new faces.new result }
{
    match cut(line) {
        Some(Fields::Four(a, b, c)) => add_fields(line, a, b, c, points, p, faces, f),
        Some(Fields::Three(_, _)) => None,
        None => None,
    }
}

// The options and the threshold of an `o` line.
fn open_job(line: &[u8], a: usize, b: usize) -> Option<Opened>
    requires { by.OpenAsks line.now a b }
    ensures { by.opened_of result ≡ rule.first_line (by.three_fields line.now a b) }
{
    if a != 1 {
        return None;
    }
    if line[0] != b'o' {
        return None;
    }
    let options = text_fields::read_whole(&line[a + 1..b])?;
    let threshold = text_fields::read_real(&line[b + 1..])?;
    Some(Opened { options, threshold })
}

// The first line.
fn first_line(line: &[u8]) -> Option<Opened>
    ensures { by.opened_of result ≡ rule.first_line (rule.parted 9 line.now) }
{
    match cut(line) {
        Some(Fields::Three(a, b)) => open_job(line, a, b),
        Some(Fields::Four(_, _, _)) => None,
        None => None,
    }
}

// The lines from `from` on, after the first.
fn read_lines(
    text: &[u8],
    from: usize,
    options: u32,
    threshold: f64,
    points: &mut [f64],
    faces: &mut [u32],
) -> Option<Told>
    requires { by.LinesAsks text.now from points.old faces.old }
    ensures faces_after { by.told_of result points.new faces.new ≡ by.rest (by.empty options threshold) (rule.parted 10 (drop from text.now)) }
    ensures told_within { by.ToldWithin result }
{
    let mut at = from;
    let mut p = 0;
    let mut f = 0;
    while at < text.len() {
        let end = text_fields::find(text, at, 10);
        if end == text.len() {
            return None;
        }
        let grown = add_line(&text[at..end], points, p, faces, f)?;
        p = grown.points;
        f = grown.faces;
        at = end + 1;
    }
    Some(Told {
        options,
        threshold,
        points: p,
        faces: f,
    })
}

// The job that a text asks for: its points and its faces stand in front of their rooms.
pub fn read(text: &[u8], points: &mut [f64], faces: &mut [u32]) -> Option<Told>
    requires { by.ReadAsks points.old faces.old }
    ensures faces_after { by.told_of result points.new faces.new ≡ rule.read text.now }
    ensures told_within { by.ToldWithin result }
{
    if text.len() > 8_192 {
        return None;
    }
    let end = text_fields::find(text, 0, 10);
    if end == text.len() {
        return None;
    }
    let opened = first_line(&text[..end])?;
    read_lines(
        text,
        end + 1,
        opened.options,
        opened.threshold,
        points,
        faces,
    )
}
