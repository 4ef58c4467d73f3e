// The table of a face list: its entries sorted by edge, so that the users of an edge are one run, in face order. Entry 3 * i + k is step k of face i.
//
// The room of a table, from `at` on, with n = 3F:
//
//     at            n       the first key of each entry: the lower end of its edge, or where its step begins
//     at + n        n       the second key: the higher end, or where the step ends
//     at + 2n       n       the run of each entry
//     at + 3n       n       the order: the entries, run after run
//     at + 4n       n + 1   where each run begins in the order, and n behind the last; while sorting, scratch
//     at + 5n + 1   P       bins, 0 at exit
#![tactic(auto)]

ghost use Rattle.std.specs.Prelude.{◌^◌, ◌<◌, ◌≡◌};
ghost use Rattle.rules.specs.Steps.{step};
ghost use Rattle.table.specs.Entries.{next, under};
ghost use Rattle.table.specs.Table.{put, PutAsks, KeysAsks, KeysGives, TableAsks, OrderGives, TableGives};
ghost use Rattle.table.specs.Runs.{begins, BeginsAsks, NoteAsks, NoteGives, RunsAsks, RunsGives};

// The place of the corner that follows the one at place i of the flat list, in its face.
pub fn after(i: usize) -> usize
    requires { i < 2 ^ 32 }
    ensures { result ≡ next i }
{
    if i % 3 == 2 { i - 2 } else { i + 1 }
}

// The two keys of an entry whose step goes from x to y: the ends of the step as it goes, or the lower one first.
fn ends(directed: bool, x: u32, y: u32) -> (u32, u32)
    ensures first { result.0 ≡ (under directed (step x y)).from }
    ensures second { result.1 ≡ (under directed (step x y)).to }
{
    if directed || x <= y { (x, y) } else { (y, x) }
}

// Writes the two keys of entry i, whose step goes from x to y.
fn put(work: &mut [u32], directed: bool, first: usize, second: usize, i: usize, x: u32, y: u32)
    requires { PutAsks work.old first second i }
    ensures { work.new ≡ put work.old directed first second i (step x y) }
{
    let (a, b) = ends(directed, x, y);
    work[first + i] = a;
    work[second + i] = b;
}

// Writes the two keys of each entry, face after face: the ends of its step, as it goes, or the lower one first.
fn keys(work: &mut [u32], faces: &[u32], directed: bool, first: usize, second: usize)
    requires { KeysAsks work.old faces.now first second }
    ensures { KeysGives work.old faces.now directed first second work.new }
{
    for f in 0..faces.len() / 3 {
        let i = 3 * f;
        let x = faces[i];
        let y = faces[i + 1];
        let z = faces[i + 2];
        put(work, directed, first, second, i, x, y);
        put(work, directed, first, second, i + 1, y, z);
        put(work, directed, first, second, i + 2, z, x);
    }
}

// Sorts the entries by their two keys, those of one edge in face order.
fn order(work: &mut [u32], faces: &[u32], points: usize, directed: bool, at: usize)
    requires { TableAsks work.old faces.now points at }
    ensures { OrderGives work.old faces.now points directed at work.new }
{
    let n = faces.len();
    keys(work, faces, directed, at, at + n);
    rows::clear(work, at + 5 * n + 1, points);
    sorting::order_pairs(
        work,
        n,
        at,
        at + n,
        at + 5 * n + 1,
        points,
        at + 4 * n,
        at + 3 * n,
    );
}

// Whether a run begins at place i of the order: its entry's keys are not those of the place before.
fn begins(work: &[u32], n: usize, at: usize, i: usize) -> bool
    requires { BeginsAsks work.now n at i }
    ensures { result ≡ begins work.now n at i }
{
    if i == 0 {
        return true;
    }
    let j = work[at + 3 * n + i] as usize;
    let k = work[at + 3 * n + (i - 1)] as usize;
    work[at + j] != work[at + k] || work[at + n + j] != work[at + n + k]
}

// Notes place i as the beginning of run m, and returns how many runs have begun then: where none begins at i, the next note is written over this one.
fn note(work: &mut [u32], n: usize, at: usize, m: usize, i: usize) -> usize
    requires { NoteAsks work.old n at m i }
    ensures { NoteGives work.old n at m i work.new result }
{
    let b = begins(work, n, at, i);
    work[at + 4 * n + m] = i as u32;
    m + usize::from(b)
}

// Numbers the runs of the n entries in order: writes the run of each entry, and where each run begins. Returns how many runs there are.
fn runs(work: &mut [u32], n: usize, at: usize) -> usize
    requires { RunsAsks work.old n at }
    ensures { RunsGives work.old n at work.new result }
{
    let mut m: usize = 0;
    for i in 0..n {
        m = note(work, n, at, m, i);
        let id = work[at + 3 * n + i] as usize;
        work[at + 2 * n + id] = (m - 1) as u32;
    }
    work[at + 4 * n + m] = n as u32;
    m
}

// Makes the table of the undirected edges of the faces, or of the directed ones: each face contributes its three steps, and the users of an
// edge are one run, in face order. Returns how many edges there are.
pub fn table(work: &mut [u32], faces: &[u32], points: usize, directed: bool, at: usize) -> usize
    requires { TableAsks work.old faces.now points at }
    ensures { TableGives work.old faces.now points directed at work.new result }
{
    order(work, faces, points, directed, at);
    runs(work, faces.len(), at)
}
