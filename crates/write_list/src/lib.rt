// The call that writes a mending list into a lent room: its refusals, the text, and every room after it. The one work room comes in three parts, of which each
// is lent by itself.
//
// A text that does not fit is refused before anything is changed for good. Where the text room is ample it fits. Where all stated entries of the work room are
// one number the rows are prepared there, and if the text does not fit the number is filled in again. Else the length is found by a search in the faces alone.
#![tactic(auto)]

ghost use Rattle.std.specs.Prelude.{◌≡◌, ◌≤◌, ltb, length};
ghost use Rattle.rules.specs.Mesh.{points_of, faces_of};
ghost use Rattle.rules.specs.Mending.{list_text};
ghost use Rattle.write_list.specs.Called.{LongAsks, LongTold, ThereAsks, ThereGives, ListGives};

use refuse::Refusal;

// ---- 6, of the text

// Whether the text is longer than a room of `room` bytes, with no lent memory.
fn is_longer(points: &[f64], faces: &[u32], s: f64, options: u32, room: usize) -> bool
    requires { LongAsks points.now faces.now s options }
    ensures { result ≡ ltb room (length (list_text s options (points_of points.now) (faces_of faces.now))) }
{
    if list_refusal::is_ample(points.len() / 3, faces.len() / 3, room) {
        return false;
    }
    (room as u64) < searched_length::searched_length(points, faces, s, options)
}

// Whether the text is longer than a room of `room` bytes, unless the stated entries of the work room are all c, so that it can be found there.
fn is_too_long(
    points: &[f64],
    faces: &[u32],
    s: f64,
    options: u32,
    room: usize,
    corners: &[u32],
    origins: &[u32],
    rest: &[u32],
    n: usize,
    c: u32,
) -> bool
    requires long_asks { LongAsks points.now faces.now s options }
    requires n_in_bounds { n ≤ length rest.now }
    ensures { LongTold points.now faces.now s options room corners.now origins.now rest.now n c result }
{
    if list_refusal::is_ample(points.len() / 3, faces.len() / 3, room) {
        return false;
    }
    if list_room::is_uniform(corners, origins, rest, n, c) {
        return false;
    }
    is_longer(points, faces, s, options, room)
}

// The call where the input is accepted, and the work room is parted as it must be and long enough. Returns how many bytes the text has.
fn write_there(
    points: &[f64],
    faces: &[u32],
    s: f64,
    options: u32,
    text: &mut [u8],
    corners: &mut [u32],
    origins: &mut [u32],
    rest: &mut [u32],
) -> Result<usize, Refusal>
    requires { ThereAsks points.now faces.now s options corners.old origins.old rest.old }
    ensures { ThereGives points.now faces.now s options text.old corners.old origins.old rest.old text.new corners.new origins.new rest.new result }
{
    let n = list_refusal::stated_rest(points.len() / 3, faces.len() / 3);
    let c = rest[0];
    if is_too_long(
        points,
        faces,
        s,
        options,
        text.len(),
        corners,
        origins,
        rest,
        n,
        c,
    ) {
        return Err(Refusal::ShortRoom(0));
    }
    let bytes = list_room::put_list(points, faces, s, options, text, corners, origins, rest);
    if bytes <= text.len() {
        return Ok(bytes);
    }
    list_room::fill_parts(corners, origins, rest, n, c);
    Err(Refusal::ShortRoom(0))
}

// Writes the mending list of a repair, and returns how many bytes it has. The text fills its stated room, what lies behind is as it was, and the stated work room is all zero. Parts that are not
// those of one room are refused as no work room at all is.
pub fn write_list(
    points: &[f64],
    faces: &[u32],
    s: f64,
    options: u32,
    text: &mut [u8],
    corners: &mut [u32],
    origins: &mut [u32],
    rest: &mut [u32],
) -> Result<usize, Refusal>
    ensures { ListGives points.now faces.now s options text.old corners.old origins.old rest.old text.new corners.new origins.new rest.new result }
{
    list_refusal::input_refusal(points, faces, s, options)?;
    let p = points.len() / 3;
    let f = faces.len() / 3;
    if list_refusal::is_ready(p, f, corners.len(), origins.len(), rest.len()) {
        return write_there(points, faces, s, options, text, corners, origins, rest);
    }
    if is_longer(points, faces, s, options, text.len()) {
        return Err(Refusal::ShortRoom(0));
    }
    Err(Refusal::ShortRoom(1))
}
