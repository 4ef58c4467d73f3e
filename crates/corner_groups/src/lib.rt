// The groups of pass 5 for all points at once, on the unchanged list: each corner's group by its first member. Corner 3 * i + k is corner k of
// face i. Corners at the ends of steps of one edge are joined, those at its lower end and those at its higher end, by the runs of the table.
//
// The room, from `at` on, with n = 3F:
//
//     at                n       the table of the undirected edges, as crates/table has it: keys, runs, order, starts, bins
//     at + 5n + 1       P       its bins, 0 at exit
//     at + 5n + 1 + P   2n      the corners at the lower ends, in the table's order, and then those at the higher ends
//     at + 7n + 1 + P   2n + 1  where each run of them begins
//     at + 9n + 2 + P   n       the first member of each corner's group
#![tactic(auto)]

ghost use Rattle.std.specs.Prelude.{◌≡◌, ◌<◌};
ghost use Rattle.corner_groups.specs.Sides.{lower_of, higher_of, SideAsks, SidesAsks, SidesGives, ShiftAsks, ShiftGives, CornersAsks, CornersGives};

// The corners at the lower and at the higher end of step s; corner 0 for each where both ends are one point, as nothing is joined there.
fn end_corners(faces: &[u32], s: usize) -> (usize, usize)
    requires { SideAsks faces.now s }
    ensures lower { result.0 ≡ lower_of faces.now s }
    ensures higher { result.1 ≡ higher_of faces.now s }
{
    let t = table::after(s);
    let x = faces[s];
    let y = faces[t];
    if x == y {
        (0, 0)
    } else if x < y {
        (s, t)
    } else {
        (t, s)
    }
}

// Writes the corners at the lower ends of the steps that stand from `from` on, and then those at the higher ends.
fn sides(work: &mut [u32], faces: &[u32], from: usize, to: usize)
    requires { SidesAsks work.old faces.now from to }
    ensures { SidesGives work.old faces.now from to work.new }
{
    let n = faces.len();
    for i in 0..n {
        let s = work[from + i] as usize;
        let (a, b) = end_corners(faces, s);
        work[to + i] = a as u32;
        work[to + n + i] = b as u32;
    }
}

// Writes to the n entries from `to` on those from `from` on, each higher by `by`.
fn shift(work: &mut [u32], from: usize, n: usize, by: usize, to: usize)
    requires { ShiftAsks work.old from n by to }
    ensures { ShiftGives work.old from n by to work.new }
{
    for i in 0..n {
        let x = work[from + i] as usize;
        work[to + i] = (by + x) as u32;
    }
}

// Writes the first member of each corner's group, where corners at one point are joined whose faces share another corner.
pub fn lead_corners(work: &mut [u32], faces: &[u32], points: usize, at: usize)
    requires { CornersAsks work.old faces.now points at }
    ensures { CornersGives work.old faces.now points at work.new }
{
    let n = faces.len();
    let order = at + 5 * n + 1 + points;
    let starts = order + 2 * n;
    let m = table::table(work, faces, points, false, at);
    sides(work, faces, at + 3 * n, order);
    rows::copy(work, at + 4 * n, m, starts);
    shift(work, at + 4 * n, m + 1, n, starts + m);
    flood::lead_all(work, n, 2 * m, starts, order, starts + 2 * n + 1);
}
