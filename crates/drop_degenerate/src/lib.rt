// Pass 1 of document 01: degenerate faces leave. This crate marks them.
//
// The work room, of n faces:
//
//     0   n   a flag for each face: 1 where it leaves, else 0
#![tactic(auto)]

ghost use Rattle.std.specs.Prelude.{◌≡◌, ◌||◌};
ghost use Rattle.rules.specs.Mesh.{points_of};
ghost use Rattle.rules.specs.Lists.{below, count};
ghost use Rattle.rules.specs.Float.{is_repeated, is_thin};
ghost use Rattle.rules.specs.Pass1.{repeated1, marked1};
ghost use Rattle.measure.specs.Measure.{shape_of};
ghost use Rattle.leaving.specs.Pass.{standing, PassAsks, MarkGives};
ghost use Rattle.drop_degenerate.specs.Marks.{flag_of};

use leaving::Marked;
use measure::Form;

// Whether a face leaves: only a good one stays.
#[tactic(auto, unfolding(rules::specs::Float::is_repeated, rules::specs::Float::is_thin))]
fn leaves(form: Form) -> bool
    ensures { result ≡ (is_repeated (shape_of form) || is_thin (shape_of form)) }
{
    match form {
        Form::Good => false,
        Form::Repeated | Form::Thin => true,
    }
}

// Whether a face repeats a corner.
#[tactic(auto, unfolding(rules::specs::Float::is_repeated))]
fn repeats(form: Form) -> bool
    ensures { result ≡ is_repeated (shape_of form) }
{
    match form {
        Form::Repeated => true,
        Form::Good | Form::Thin => false,
    }
}

// Flags each of the n faces that is degenerate at the threshold s. Returns how many of them repeat a corner.
fn flag_all(points: &[f64], s: f64, faces: &[u32], n: usize, work: &mut [u32]) -> usize
    requires { PassAsks n points.now faces.now n work.old }
    ensures mark_gives { MarkGives (marked1 s (points_of points.now) (standing faces.now n)) n n work.old work.new 0 }
    ensures value { result ≡ count (repeated1 s (points_of points.now) (standing faces.now n)) (below n) }
{
    let mut repeated = 0;
    for i in 0..n {
        let a = faces[3 * i];
        let b = faces[3 * i + 1];
        let c = faces[3 * i + 2];
        let form = measure::shape(points, s, a, b, c);
        work[i] = u32::from(leaves(form));
        repeated += usize::from(repeats(form));
    }
    repeated
}

// Pass 1 marks those of the n faces that are degenerate at the threshold s, and finds how many of them repeat a corner.
pub fn mark(points: &[f64], s: f64, faces: &[u32], n: usize, work: &mut [u32]) -> Marked
    requires { PassAsks n points.now faces.now n work.old }
    ensures mark_gives { MarkGives (marked1 s (points_of points.now) (standing faces.now n)) n n work.old work.new result.at }
    ensures found_value { result.found ≡ count (repeated1 s (points_of points.now) (standing faces.now n)) (below n) }
{
    let repeated = flag_all(points, s, faces, n, work);
    Marked {
        at: 0,
        found: repeated,
    }
}
