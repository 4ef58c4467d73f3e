// The program `meshfix` of document 01 on slices: from the bytes of a text to the bytes of the answer.
#![tactic(auto)]

ghost use Rattle.std.specs.Prelude.{◌≤◌, length};
ghost use Rattle.byte_rows.specs.Put.{Puts};
ghost use Rattle.rules.specs.Text as rule;
ghost use Rattle.mend_text.specs.Job as by;

// Mends the mesh of a job: its lines, or the line of the refusal. Returns where the text ends.
fn mend(points: &[f64], faces: &[u32], threshold: f64, options: u32, out: &mut [u8]) -> usize
    requires { by.MendAsks points.now faces.now out.old }
    ensures { Puts out.old 0 (by.lines options threshold points.now faces.now) out.new result }
{
    let mut mended = [0.0; 768];
    let mut triples = [0; 192];
    let mut report = [0; rules::COUNTS];
    let mut origins = [0; 64];
    let mut work = [0; 5184];
    match repair::repair(
        points,
        faces,
        threshold,
        options,
        &mut mended,
        &mut triples,
        &mut report,
        &mut origins,
        &mut work,
    ) {
        Ok(repaired) => text_out::put_mesh(
            out,
            &mended[..repaired.points],
            &triples[..repaired.faces],
            &report,
        ),
        Err(refusal) => text_out::put_refusal(out, refusal.number()),
    }
}

// The answer to a text. Returns where it ends.
pub fn mend_text(text: &[u8], out: &mut [u8]) -> usize
    requires { 16384 ≤ length out.old }
    ensures { Puts out.old 0 (rule.meshfix text.now) out.new result }
{
    let mut points = [0.0; 192];
    let mut faces = [0; 192];
    match text_in::read(text, &mut points, &mut faces) {
        None => text_out::put_refusal(out, text_in::BAD_TEXT),
        Some(job) => mend(
            &points[..job.points],
            &faces[..job.faces],
            job.threshold,
            job.options,
            out,
        ),
    }
}
