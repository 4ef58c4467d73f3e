// The rows of a mending list: passes 1 to 4 as rows of fates, passes 5 and 6 as old points, sorted corners and flags, each by its option. From these rows the
// list's length is found and its text written.
//
// With P points and F faces of the input the work room behind the corners and the origins has 16P + 60F + 64 entries:
//
//     0               42F + 4 + P   what the passes take; then 3n corners, the bins of their points, and 3n numbers of corners sorted by point
//     42F + 4 + P     F             the fate of each input face
//     43F + 4 + P     3F            the old point of each point that is split off
//     46F + 4 + P     P + 3F        1 for each point that is unused
#![tactic(auto)]

ghost use Rattle.split_rows.specs.Rows.{SplitAsks, FlagsAsks};
ghost use Rattle.list_rows.specs.Prepared.{SplitIf, FlagsIf, PrepareAsks, PrepareGives};

use list_text::Rows;

// Pass 5, if it is on, of the n faces at the front of their room over `count` points. Returns how many points are split off.
fn split(
    options: u32,
    corners: &mut [u32],
    n: usize,
    count: usize,
    rest: &mut [u32],
    olds: usize,
) -> usize
    requires { SplitAsks corners.old n count rest.old olds }
    ensures { SplitIf options corners.old n count rest.old olds corners.new rest.new result }
{
    if options / 8 % 2 == 1 {
        return split_rows::split_rows(corners, n, count, rest, olds);
    }
    0
}

// The flags of the unused points, if pass 6 is on; else none is flagged.
fn flag(options: u32, corners: &[u32], n: usize, count: usize, rest: &mut [u32], unused: usize)
    requires { FlagsAsks corners.now n count rest.old unused }
    ensures { FlagsIf options corners.now n count rest.old unused rest.new }
{
    if options / 32 % 2 == 1 {
        split_rows::mark_unused(corners, n, count, rest, unused);
        return;
    }
    rows::clear(rest, unused, count);
}

// Prepares the rows that tell the mending list of the input, in the three parts of a work room.
pub fn prepare(
    options: u32,
    s: f64,
    points: &[f64],
    input: &[u32],
    corners: &mut [u32],
    origins: &mut [u32],
    rest: &mut [u32],
) -> Rows
    requires { PrepareAsks points.now input.now corners.old origins.old rest.old }
    ensures { PrepareGives options s points.now input.now corners.old origins.old rest.old corners.new origins.new rest.new result }
{
    let p = points.len() / 3;
    let f = origins.len();
    let fates = 42 * f + 4 + p;
    let olds = fates + f;
    let unused = olds + 3 * f;
    let left = fates::first_four(options, s, points, input, corners, origins, rest, fates);
    let splits = split(options, corners, left, p, rest, olds);
    let count = p + splits;
    let sorted = 3 * left + count;
    split_rows::sort_takers(rest, corners, left, count, 3 * left, sorted);
    flag(options, corners, left, count, rest, unused);
    Rows {
        points: p,
        faces: f,
        fates,
        splits,
        olds,
        left,
        column: 0,
        sorted,
        unused,
    }
}
