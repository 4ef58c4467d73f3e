// What passes 1 to 4 do to each input face, as a row: the passes run as in a repair, and before marked faces leave their fates are written down, by origin.
// A fate is 0 for a face that stays, 1 to 5 for the reason that it leaves for, and 8 more where its corners were exchanged.
//
// The work room, of P points and F input faces:
//
//     0       29F + 4 + P   what the passes take
//     fates   F             the fate of each input face; `fates` is any place behind that
#![tactic(auto)]

ghost use Rattle.std.specs.Prelude.{◌≡◌, ◌+◌, ◌*◌, ◌≤◌, length};
ghost use Rattle.fates.specs.Adding.{AddAsks, AddGives, FlagAsks, corners_at, flagged, by_flag, why_of, by_shape, turned_by, by_turn};
ghost use Rattle.fates.specs.Fating.{rooms, Stands, Pass1, Pass2, Pass3, Pass4, FourAsks, FourGives};

// The code, where the flag is 1; else 0.
fn flagged(flag: u32, code: u32) -> u32
    ensures { result ≡ flagged flag code }
{
    if flag == 1 {
        return code;
    }
    0
}

// Adds the code to the fate of each of the n faces whose flag in `work`, from `marks` on, is 1: at its origin.
fn record(origins: &[u32], work: &mut [u32], marks: usize, n: usize, fates: usize, code: u32)
    requires flag_asks { FlagAsks origins.now marks n work.old fates }
    requires code_bound { code ≤ 8 }
    ensures { AddGives (by_flag work.old marks code) origins.now n work.old fates work.new }
{
    for i in 0..n {
        let told = flagged(work[marks + i], code);
        let at = fates + origins[i] as usize;
        work[at] = work[at] + told;
    }
}

// Why a face leaves in pass 1: 1 where two of its corners are the same, else 2.
fn why(a: u32, b: u32, c: u32) -> u32
    ensures { result ≡ why_of (record { a = a; b = b; c = c; origin = 0 }) }
{
    if a == b {
        return 1;
    }
    if b == c {
        return 1;
    }
    if c == a {
        return 1;
    }
    2
}

// Adds to the fate of each of the n faces whose flag in `work`, from `marks` on, is 1 why it leaves in pass 1: at its origin.
fn record_degenerate(
    faces: &[u32],
    origins: &[u32],
    work: &mut [u32],
    marks: usize,
    n: usize,
    fates: usize,
)
    requires flag_asks { FlagAsks origins.now marks n work.old fates }
    requires n_in_bounds { 3 * n ≤ length faces.now }
    ensures { AddGives (by_shape faces.now work.old marks) origins.now n work.old fates work.new }
{
    for i in 0..n {
        let reason = why(faces[3 * i], faces[3 * i + 1], faces[3 * i + 2]);
        let told = flagged(work[marks + i], reason);
        let at = fates + origins[i] as usize;
        work[at] = work[at] + told;
    }
}

// 8 where corner 1 is not what it was, else 0.
fn turned(b: u32, was: u32) -> u32
    ensures { result ≡ turned_by b was }
{
    if b == was {
        return 0;
    }
    8
}

// Adds 8 to the fate of each of the n faces whose corner 1 is not that of its input face: at its origin.
fn record_turned(
    input: &[u32],
    faces: &[u32],
    origins: &[u32],
    n: usize,
    work: &mut [u32],
    fates: usize,
)
    requires add_asks { AddAsks origins.now n work.old fates }
    requires n_in_bounds { 3 * n ≤ length faces.now }
    requires input_len { length input.now ≡ 3 * length origins.now }
    ensures { AddGives (by_turn input.now faces.now origins.now) origins.now n work.old fates work.new }
{
    for i in 0..n {
        let f = origins[i] as usize;
        let told = turned(faces[3 * i + 1], input[3 * f + 1]);
        let at = fates + f;
        work[at] = work[at] + told;
    }
}

// Pass 1, if it is on: degenerate faces leave, and it is told why. Returns how many faces stand.
fn pass1(
    options: u32,
    s: f64,
    points: &[f64],
    faces: &mut [u32],
    origins: &mut [u32],
    n: usize,
    work: &mut [u32],
    fates: usize,
) -> usize
    requires { Stands 0 (rooms points.now faces.old origins.old n work.old fates) }
    ensures { let before = rooms points.now faces.old origins.old n work.old fates in
        let after = rooms points.now faces.new origins.new result work.new fates in
        Pass1 options s before after }
{
    if options % 2 == 1 {
        let marked = drop_degenerate::mark(points, s, faces, n, work);
        record_degenerate(faces, origins, work, marked.at, n, fates);
        return leaving::leave(faces, origins, work, marked.at, n);
    }
    n
}

// Pass 2, if it is on: of faces with the same three sorted corners the first stays. Returns how many faces stand.
fn pass2(
    options: u32,
    points: &[f64],
    faces: &mut [u32],
    origins: &mut [u32],
    n: usize,
    work: &mut [u32],
    fates: usize,
) -> usize
    requires { Stands 2 (rooms points.now faces.old origins.old n work.old fates) }
    ensures { let before = rooms points.now faces.old origins.old n work.old fates in
        let after = rooms points.now faces.new origins.new result work.new fates in
        Pass2 options before after }
{
    if options / 2 % 2 == 1 {
        let marked = drop_duplicate_faces::mark(faces, n, points.len() / 3, work);
        record(origins, work, marked.at, n, fates, 3);
        return leaving::leave(faces, origins, work, marked.at, n);
    }
    n
}

// Pass 3, if it is on: faces leave at edges with more than two entries. Returns how many faces stand.
fn pass3(
    options: u32,
    points: &[f64],
    faces: &mut [u32],
    origins: &mut [u32],
    n: usize,
    work: &mut [u32],
    fates: usize,
) -> usize
    requires { Stands 3 (rooms points.now faces.old origins.old n work.old fates) }
    ensures { let before = rooms points.now faces.old origins.old n work.old fates in
        let after = rooms points.now faces.new origins.new result work.new fates in
        Pass3 options before after }
{
    if options / 4 % 2 == 1 {
        let marked = resolve_nonmanifold_edges::mark(points, faces, n, work);
        record(origins, work, marked.at, n, fates, 4);
        return leaving::leave(faces, origins, work, marked.at, n);
    }
    n
}

// Pass 4, if it is on: faces are turned until neighbours agree, which is told, and then faces leave at directed edges that are used more than once. Returns
// how many faces stand.
fn pass4(
    options: u32,
    points: &[f64],
    input: &[u32],
    faces: &mut [u32],
    origins: &mut [u32],
    n: usize,
    work: &mut [u32],
    fates: usize,
) -> usize
    requires stands { Stands 4 (rooms points.now faces.old origins.old n work.old fates) }
    requires input_len { length input.now ≡ 3 * length origins.old }
    ensures { let before = rooms points.now faces.old origins.old n work.old fates in
        let after = rooms points.now faces.new origins.new result work.new fates in
        Pass4 options input.now before after }
{
    if options / 16 % 2 == 1 {
        orient_consistently::settle(faces, n, points.len() / 3, work);
        record_turned(input, faces, origins, n, work, fates);
        let marked = resolve_directed_collisions::mark(points, faces, n, work);
        record(origins, work, marked.at, n, fates, 5);
        return leaving::leave(faces, origins, work, marked.at, n);
    }
    n
}

// Passes 1 to 4, each by its option, on a copy of the input: those faces that are left, with their origins, at the front of the rooms, and what became of
// each input face from `fates` on. Returns how many faces stand.
pub fn first_four(
    options: u32,
    s: f64,
    points: &[f64],
    input: &[u32],
    faces: &mut [u32],
    origins: &mut [u32],
    work: &mut [u32],
    fates: usize,
) -> usize
    requires { FourAsks points.now input.now faces.old origins.old work.old fates }
    ensures { FourGives options s points.now input.now faces.old origins.old work.old fates faces.new origins.new work.new result }
{
    let n = origins.len();
    rows::copy_row(input, faces, input.len());
    rows::number(origins, n);
    rows::clear(work, fates, n);
    let a = pass1(options, s, points, faces, origins, n, work, fates);
    let b = pass2(options, points, faces, origins, a, work, fates);
    let c = pass3(options, points, faces, origins, b, work, fates);
    pass4(options, points, input, faces, origins, c, work, fates)
}
