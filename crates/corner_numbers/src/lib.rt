// The numbers of pass 5 in a lent row: the corners sorted by their points, a number for each group, and the number that a corner takes.
//
// The room, with n = 3F:
//
//     0              n             the point at each corner
//     n              10n + 2 + P   the rows of crates/corner_groups; the first member of each corner's group is at 10n + 2 + P, bins are at 6n + 1
//     11n + 2 + P    n             free
//     12n + 2 + P    n             the corners, point after point, those of one point in face order
//     13n + 2 + P    n             the number of the group that each corner leads
#![tactic(auto)]

ghost use Rattle.std.specs.Prelude.{◌≡◌};
ghost use Rattle.corner_numbers.specs.Numbers.{SortAsks, SortGives, EndAsks, EndGives, extra_by, ExtraAsks, RunAsks, RunGives, led_by, alone_by, new_by, NewAsks, AloneAsks};

// Writes the point at each corner, the first member of its group, and the corners sorted by their points.
pub fn sort_corners(work: &mut [u32], faces: &[u32], points: usize)
    requires { SortAsks work.old faces.now points }
    ensures { SortGives work.old faces.now points work.new }
{
    let n = faces.len();
    rows::copy_row(faces, work, n);
    corner_groups::lead_corners(work, faces, points, n);
    sorting::order(work, n, 0, 6 * n + 1, points, 12 * n + 2 + points);
}

// The place behind the run of corners at v that begins at the place `begin` of the n sorted ones.
pub fn run_end(work: &[u32], sorted: usize, begin: usize, n: usize, v: u32) -> usize
    requires { EndAsks work.now sorted begin n }
    ensures { EndGives work.now sorted begin n v result }
{
    for p in begin..n {
        let id = work[sorted + p] as usize;
        if work[id] != v {
            return p;
        }
    }
    n
}

// Whether the j-th corner of a run stands first in a group that is not the first one.
fn extra(work: &[u32], run: usize, leads: usize, j: usize) -> bool
    requires { ExtraAsks work.now run leads j }
    ensures { result ≡ extra_by work.now run leads j }
{
    if j == 0 {
        return false;
    }
    let id = work[run + j];
    work[leads + id as usize] == id
}

// Numbers the groups of the m corners at v that stand from `run` on: the first keeps v, each other one takes the next new number. Returns the next
// number that is free then. Where a corner does not lead, v is written.
pub fn number_run(
    work: &mut [u32],
    run: usize,
    m: usize,
    leads: usize,
    numbers: usize,
    n: usize,
    v: usize,
    next: usize,
) -> usize
    requires { RunAsks work.old run m leads numbers n v next }
    ensures { RunGives work.old run m leads numbers n v next work.new result }
{
    let mut new = next;
    for j in 0..m {
        let id = work[run + j] as usize;
        if extra(work, run, leads, j) {
            work[numbers + id] = new as u32;
            new += 1;
        } else {
            work[numbers + id] = v as u32;
        }
    }
    new
}

// The number of the group of a corner, by its first member.
fn led(work: &[u32], leads: usize, numbers: usize, n: usize, id: usize) -> u32
    requires { NewAsks work.now leads numbers n id }
    ensures { result ≡ led_by work.now leads numbers id }
{
    let l = work[leads + id] as usize;
    work[numbers + l]
}

// The number that a face with one point at all corners takes, i being its first corner: that of the first of its groups that does not keep the point.
fn alone(work: &[u32], numbers: usize, i: usize) -> u32
    requires { AloneAsks work.now numbers i }
    ensures { result ≡ alone_by work.now numbers i }
{
    let t = work[numbers + i];
    if t == work[i] {
        work[numbers + i + 1]
    } else {
        t
    }
}

// The number that a corner takes.
pub fn new_corner(work: &[u32], leads: usize, numbers: usize, n: usize, id: usize) -> u32
    requires { NewAsks work.now leads numbers n id }
    ensures { result ≡ new_by work.now leads numbers id }
{
    let i = id / 3 * 3;
    if work[i] == work[i + 1] && work[i + 1] == work[i + 2] {
        alone(work, numbers, i)
    } else {
        led(work, leads, numbers, n, id)
    }
}
