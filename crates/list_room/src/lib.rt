// The work room of the call that writes a mending list, which comes in three parts, each lent by itself: whether they are all one number, filled with a number,
// made 0; and the list's text, prepared in them and put into its room where it fits.
#![tactic(auto)]

ghost use Rattle.std.specs.Prelude.{◌≤◌, length};
ghost use Rattle.list_rows.specs.Prepared.{PrepareAsks};
ghost use Rattle.list_room.specs.Parts.{AllTold, UniformTold, FillGives};
ghost use Rattle.list_room.specs.Put.{PutGives};

// ---- the parts of the work room

// Whether the first n entries are all c.
fn all_are(work: &[u32], n: usize, c: u32) -> bool
    requires { n ≤ length work.now }
    ensures { AllTold work.now n c result }
{
    for i in 0..n {
        if work[i] != c {
            return false;
        }
    }
    true
}

// Whether all corners, all origins and the first n entries of the rest are c.
pub fn is_uniform(corners: &[u32], origins: &[u32], rest: &[u32], n: usize, c: u32) -> bool
    requires { n ≤ length rest.now }
    ensures { UniformTold corners.now origins.now rest.now n c result }
{
    if all_are(corners, corners.len(), c) {
        if all_are(origins, origins.len(), c) {
            return all_are(rest, n, c);
        }
    }
    false
}

// Writes c to all corners, all origins and the first n entries of the rest.
pub fn fill_parts(corners: &mut [u32], origins: &mut [u32], rest: &mut [u32], n: usize, c: u32)
    requires { n ≤ length rest.old }
    ensures { FillGives corners.old origins.old rest.old n c corners.new origins.new rest.new }
{
    rows::fill(corners, 0, corners.len(), c);
    rows::fill(origins, 0, origins.len(), c);
    rows::fill(rest, 0, n, c);
}

// Makes all corners, all origins and the first n entries of the rest 0.
fn wipe_parts(corners: &mut [u32], origins: &mut [u32], rest: &mut [u32], n: usize)
    requires { n ≤ length rest.old }
    ensures { FillGives corners.old origins.old rest.old n 0 corners.new origins.new rest.new }
{
    wiping::wipe(corners, 0, corners.len());
    wiping::wipe(origins, 0, origins.len());
    wiping::wipe(rest, 0, n);
}

// ---- the text

// Prepares the rows, and if the text fits, writes it and clears the stated entries of the work room. Returns how long it is.
pub fn put_list(
    points: &[f64],
    faces: &[u32],
    s: f64,
    options: u32,
    text: &mut [u8],
    corners: &mut [u32],
    origins: &mut [u32],
    rest: &mut [u32],
) -> usize
    requires { PrepareAsks points.now faces.now corners.old origins.old rest.old }
    ensures { PutGives points.now faces.now s options text.old corners.old origins.old rest.old text.new corners.new origins.new rest.new result }
{
    let rows = list_rows::prepare(options, s, points, faces, corners, origins, rest);
    let bytes = list_text::list_length(rest, origins, rows);
    if text.len() < bytes {
        return bytes;
    }
    list_text::list_text(rest, origins, rows, text);
    let n = list_refusal::stated_rest(points.len() / 3, faces.len() / 3);
    wipe_parts(corners, origins, rest, n);
    bytes
}
