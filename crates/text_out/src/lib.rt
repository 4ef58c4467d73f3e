// Writing the text of the program `meshfix`: a mended mesh or a refusal as lines of bytes in a lent room.
#![tactic(auto)]

ghost use Rattle.std.specs.Prelude.{◌≡◌, ◌∷◌, map, ◌+◌, ◌/◌, ◌≤◌, ◌<◌, length};
ghost use Rattle.std.specs.Float.{binary64};
ghost use Rattle.std.specs.Float.Ieee.{to_bits};
ghost use Rattle.byte_rows.specs.Put.{Puts};
ghost use Rattle.rules.specs.Line as text;
ghost use Rattle.rules.specs.Text as rule;
ghost use Rattle.text_out.specs.Printed as by;

// The byte of a hex digit, lower-case.
fn hex_byte(d: u64) -> u8
    requires { d < 16 }
    ensures { result ≡ by.byte d }
{
    if d < 10 {
        return 48 + d as u8;
    }
    87 + d as u8
}

// Puts a number as 16 hex digits, the last one first. Returns where the text goes on.
fn put_hex(out: &mut [u8], at: usize, n: u64) -> usize
    requires { at + 16 ≤ length out.old }
    ensures { Puts out.old at (rule.hex 16 n) out.new result }
{
    let mut m = n;
    for k in 0..16 {
        out[at + (15 - k)] = hex_byte(m % 16);
        m /= 16;
    }
    at + 16
}

// Puts a tab and a float as the 16 hex digits of its bits.
fn put_real(out: &mut [u8], at: usize, x: f64) -> usize
    requires { by.RealAsks out.old at x }
    ensures { Puts out.old at (9 ∷ rule.hex 16 (to_bits binary64 x)) out.new result }
{
    out[at] = 9;
    put_hex(out, at + 1, f64::to_bits(x))
}

// Puts a tab and a number in decimal.
fn put_whole(out: &mut [u8], at: usize, n: u32) -> usize
    requires { at + 11 ≤ length out.old }
    ensures { Puts out.old at (9 ∷ text.decimal n) out.new result }
{
    out[at] = 9;
    byte_rows::put_number(out, at + 1, n as u64)
}

// Puts the `p` line of point i.
fn put_point(out: &mut [u8], at: usize, points: &[f64], i: usize) -> usize
    requires { by.PointAsks out.old at points.now i }
    ensures { Puts out.old at (by.point_line (by.point_at points.now i)) out.new result }
{
    out[at] = b'p';
    let y = put_real(out, at + 1, points[3 * i]);
    let z = put_real(out, y, points[3 * i + 1]);
    let end = put_real(out, z, points[3 * i + 2]);
    out[end] = 10;
    end + 1
}

// Puts the `f` line of face i.
fn put_face(out: &mut [u8], at: usize, faces: &[u32], i: usize) -> usize
    requires { by.FaceAsks out.old at faces.now i }
    ensures { Puts out.old at (by.face_line (by.face_at faces.now i)) out.new result }
{
    out[at] = b'f';
    let b = put_whole(out, at + 1, faces[3 * i]);
    let c = put_whole(out, b, faces[3 * i + 1]);
    let end = put_whole(out, c, faces[3 * i + 2]);
    out[end] = 10;
    end + 1
}

// Puts the `p` lines of all points.
fn put_points(out: &mut [u8], at: usize, points: &[f64]) -> usize
    requires { by.PointsAsk out.old at points.now }
    ensures { by.LinesGive out.old at (by.point_lines points.now) 53 (length points.now / 3) out.new result }
{
    let mut next = at;
    for i in 0..points.len() / 3 {
        next = put_point(out, next, points, i);
    }
    next
}

// Puts the `f` lines of all faces.
fn put_faces(out: &mut [u8], at: usize, faces: &[u32]) -> usize
    requires { by.FacesAsk out.old at faces.now }
    ensures { by.LinesGive out.old at (by.face_lines faces.now) 35 (length faces.now / 3) out.new result }
{
    let mut next = at;
    for i in 0..faces.len() / 3 {
        next = put_face(out, next, faces, i);
    }
    next
}

// Puts a tab and a number for each of the counts.
fn put_counts(out: &mut [u8], at: usize, report: &[u32]) -> usize
    requires { by.CountsAsk out.old at report.now }
    ensures { by.LinesGive out.old at (by.counts report.now) 11 (length report.now) out.new result }
{
    let mut next = at;
    for count in report {
        next = put_whole(out, next, *count);
    }
    next
}

// Puts the `r` line of the counts.
fn put_report(out: &mut [u8], at: usize, report: &[u32]) -> usize
    requires { by.ReportAsks out.old at report.now }
    ensures { Puts out.old at (rule.text_line (text.bytes "r") (map text.decimal report.now)) out.new result }
{
    out[at] = b'r';
    let end = put_counts(out, at + 1, report);
    out[end] = 10;
    end + 1
}

// Puts the lines of a mended mesh: its points, its faces, and the counts of what was mended. Returns where the text ends.
pub fn put_mesh(out: &mut [u8], points: &[f64], faces: &[u32], report: &[u32]) -> usize
    requires { by.MeshAsks out.old points.now faces.now report.now }
    ensures { Puts out.old 0 (rule.mesh_lines (by.state_of points.now faces.now report.now)) out.new result }
{
    let faces_at = put_points(out, 0, points);
    let report_at = put_faces(out, faces_at, faces);
    put_report(out, report_at, report)
}

// Puts the `x` line of a refusal. Returns where the text ends.
pub fn put_refusal(out: &mut [u8], number: u32) -> usize
    requires { 13 ≤ length out.old }
    ensures { Puts out.old 0 (rule.refusal_line number) out.new result }
{
    out[0] = b'x';
    let end = put_whole(out, 1, number);
    out[end] = 10;
    end + 1
}
