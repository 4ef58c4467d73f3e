// The leaves for C, as bench/ times them.
#![tactic(auto)]

ghost use Rattle.std.specs.Prelude.{◌≡◌};
ghost use Rattle.root.specs.Root.{root_of};
ghost use Rattle.rules.specs.Mesh.{points_of};
ghost use Rattle.rules.specs.Float as rule;
ghost use Rattle.measure.specs.Measure.{number_of, face_of, Corners};
ghost use Rattle.rows.specs.Retain.{RetainAsks, RetainGives};
ghost use Rattle.flood.specs.Plan.{plan, FloodAsks};
ghost use Rattle.flood.specs.Answers.{LabelGives};
ghost use Rattle.table.specs.Table.{TableAsks, TableGives};

// The square root.
#[unsafe(no_mangle)]
pub extern "C" fn bench_root(x: f64) -> f64
    ensures { result ≡ root_of x }
{
    root::root(x)
}

// The degeneracy test of a face: 0 good, 1 repeated, 2 thin.
#[unsafe(no_mangle)]
pub extern "C" fn bench_shape(points: &[f64], s: f64, a: u32, b: u32, c: u32) -> u32
    requires { Corners points.now a b c }
    ensures { result ≡ number_of (rule.shape s (points_of points.now) (face_of a b c)) }
{
    u32::from(measure::shape(points, s, a, b, c))
}

// Faces closed up by flags.
#[unsafe(no_mangle)]
pub extern "C" fn bench_retain(faces: &mut [u32], work: &[u32], flags: usize, n: usize) -> usize
    requires { RetainAsks faces.old work.now flags n }
    ensures { RetainGives 0 faces.old work.now flags n faces.new result }
{
    rows::retain(faces, work, flags, n)
}

// The table of a face list.
#[unsafe(no_mangle)]
pub extern "C" fn bench_table(
    work: &mut [u32],
    faces: &[u32],
    points: usize,
    directed: bool,
    at: usize,
) -> usize
    requires { TableAsks work.old faces.now points at }
    ensures { TableGives work.old faces.now points directed at work.new result }
{
    table::table(work, faces, points, directed, at)
}

// Labels of things joined through runs.
#[unsafe(no_mangle)]
pub extern "C" fn bench_flood(
    work: &mut [u32],
    things: usize,
    runs: usize,
    starts: usize,
    order: usize,
    labels: usize,
) -> usize
    requires { FloodAsks work.old (plan things runs starts order labels) }
    ensures { LabelGives work.old (plan things runs starts order labels) work.new result }
{
    flood::label_all(work, things, runs, starts, order, labels)
}
