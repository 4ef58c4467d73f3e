// A byte a face for the time that a mending list is looked through: its lowest bit is set when the face is gone, and the next three where corner 0, 1 or 2
// of the input face was taken over by a new point.
#![tactic(auto)]

ghost use Rattle.std.specs.Prelude.{◌≡◌, ◌&&◌, ◌/◌, ◌*◌, ◌+◌, ◌<◌, ◌≤◌, eqb, ltb, length};
ghost use Rattle.rules.specs.Lists.{all};
ghost use Rattle.list_lines.specs.Lines.{faces_from_row};
ghost use Rattle.face_marks.specs.Marks as by;

// Whether there is a face of this number.
pub fn is_here(marks: &[u8], n: usize, face: u32) -> bool
    requires { n ≤ length marks.now }
    ensures { result ≡ (ltb face n && by.here marks.now face) }
{
    let f = face as usize;
    if f < n {
        return marks[f] % 2 == 0;
    }
    false
}

// Whether a corner x of a face with the byte m is the point v, and was not taken over.
fn is_free(m: u8, unit: u8, v: u32, x: u32) -> bool
    requires { 0 < unit }
    ensures { result ≡ by.free m unit v x }
{
    if v == x {
        return m / unit % 2 == 0;
    }
    false
}

// Whether face f still has the point v of the input.
fn has_point(faces: &[u32], marks: &[u8], f: usize, v: u32) -> bool
    requires { by.FaceAsks faces.now marks.now f }
    ensures { result ≡ by.keeps faces.now marks.now f v }
{
    let m = marks[f];
    if is_free(m, 2, v, faces[3 * f]) {
        return true;
    }
    if is_free(m, 4, v, faces[3 * f + 1]) {
        return true;
    }
    is_free(m, 8, v, faces[3 * f + 2])
}

// The byte after the corner x, if it is the point v, was taken over.
fn taken(m: u8, unit: u8, v: u32, x: u32) -> u8
    requires { by.TakenAsks m unit }
    ensures { result ≡ by.takes m unit v x }
{
    if is_free(m, unit, v, x) {
        return m + unit;
    }
    m
}

// The corners of face f that are the point v are taken over.
fn take_face(faces: &[u32], marks: &mut [u8], f: usize, v: u32)
    requires { by.TakeAsks faces.now marks.old f }
    ensures { by.TakeGives faces.now marks.old f v marks.new }
{
    let first = taken(marks[f], 2, v, faces[3 * f]);
    let second = taken(first, 4, v, faces[3 * f + 1]);
    marks[f] = taken(second, 8, v, faces[3 * f + 2]);
}

// Whether each face of a split is one of the n faces, is there and still has the point v.
pub fn all_have(
    text: &[u8],
    from: usize,
    end: usize,
    faces: &[u32],
    marks: &[u8],
    n: usize,
    v: u32,
) -> bool
    requires { by.SplitAsks text.now from end faces.now marks.now n }
    ensures { result
        ≡ all (by.has_face faces.now marks.now n v)
        (faces_from_row text.now from end) }
{
    let mut at = from;
    while at < end {
        let face = list_lines::read_face(text, at, end);
        if !is_here(marks, n, face.number) {
            return false;
        }
        if !has_point(faces, marks, face.number as usize, v) {
            return false;
        }
        at = face.next;
    }
    true
}

// The corners of a split's faces that are the point v are taken over.
pub fn take_all(text: &[u8], from: usize, end: usize, faces: &[u32], marks: &mut [u8], v: u32)
    requires { by.TakeAllAsks text.now from end faces.now marks.old }
    ensures { by.TakeAllGives faces.now marks.old (faces_from_row text.now from end) v marks.new }
{
    let mut at = from;
    while at < end {
        let face = list_lines::read_face(text, at, end);
        take_face(faces, marks, face.number as usize, v);
        at = face.next;
    }
}

// The bit of a corner x that was not taken over is set.
fn put_corner(m: u8, unit: u8, x: u32, bits: &mut [u32])
    requires { by.CornerAsks unit x bits.old }
    ensures { by.CornerGives m unit x bits.old bits.new }
{
    if m / unit % 2 == 0 {
        point_bits::set_bit(bits, x as usize);
    }
}

// The bits of the points of the input that face f, which is there, still has are set.
fn put_face(faces: &[u32], marks: &[u8], f: usize, bits: &mut [u32])
    requires { by.PutAsks faces.now marks.now f bits.old }
    ensures { by.PutGives faces.now marks.now f bits.old bits.new }
{
    let m = marks[f];
    put_corner(m, 2, faces[3 * f], bits);
    put_corner(m, 4, faces[3 * f + 1], bits);
    put_corner(m, 8, faces[3 * f + 2], bits);
}

// The bits of the points of the input that the faces still have are set.
pub fn put_used(faces: &[u32], marks: &[u8], n: usize, bits: &mut [u32])
    requires { by.UsedAsks faces.now marks.now n bits.old }
    ensures { by.UsedGives faces.now marks.now n bits.old bits.new }
{
    for f in 0..n {
        if marks[f] % 2 == 0 {
            put_face(faces, marks, f, bits);
        }
    }
}
