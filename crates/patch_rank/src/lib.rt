// The patches that rank first by area, ties by index. An area is not negative, so that its bits as a whole number rise with it: the area of rank n is
// found by halving the span of all such numbers, 63 counts of C areas, and no patch is moved.
//
// Work, in entries of C patches: 2C, the bits of each area, the upper half first.
#![tactic(auto)]

ghost use Rattle.std.specs.Prelude.{◌≡◌, ◌+◌, ◌*◌, ◌≤◌, length};
ghost use Rattle.patch_rank.specs.Rank.{key_at, reach, flag_of, LayAsks, LayGives, CutAsks, Cut, MarkAsks, MarkGives, RankAsks, RankGives};

// Above every key.
const TOP: u64 = 9223372036854775808;

// The values of a half of a key.
const HALF: u64 = 4294967296;

// Writes the key of each patch, the bits of its area, to two entries of the work room.
fn lay_keys(numbers: &[f64], count: usize, work: &mut [u32])
    requires { LayAsks numbers.now count work.old }
    ensures { LayGives numbers.now count work.old work.new }
{
    for k in 0..count {
        let bits = f64::to_bits(numbers[7 * k]);
        work[2 * k] = (bits / HALF) as u32;
        work[2 * k + 1] = (bits % HALF) as u32;
    }
}

// The key of patch k.
fn key_at(work: &[u32], k: usize) -> u64
    requires { 2 * k + 2 ≤ length work.now }
    ensures { result ≡ key_at work.now k }
{
    u64::from(work[2 * k]) * HALF + u64::from(work[2 * k + 1])
}

// How many keys are t or more.
fn reaching(work: &[u32], count: usize, t: u64) -> usize
    requires { 2 * count ≤ length work.now }
    ensures { result ≡ reach (key_at work.now) count t }
{
    let mut n = 0;
    for k in 0..count {
        if t <= key_at(work, k) {
            n += 1;
        }
    }
    n
}

// The key of rank n: n keys or more reach it, and fewer than n pass it.
fn cut(work: &[u32], count: usize, n: usize) -> u64
    requires { CutAsks work.now count n }
    ensures { Cut (key_at work.now) count n result }
{
    let mut low: u64 = 0;
    let mut high = TOP;
    while 1 < high - low {
        let middle = low + (high - low) / 2;
        if n <= reaching(work, count, middle) {
            low = middle;
        } else {
            high = middle;
        }
    }
    low
}

// The flag of a patch by its key: 1 above the cut, 0 below it, and at the cut by its place in the ranking.
fn flag(key: u64, t: u64, place: usize, n: usize) -> u32
    ensures { result ≡ flag_of key t place n }
{
    if t < key {
        return 1;
    }
    if key < t {
        return 0;
    }
    if place < n { 1 } else { 0 }
}

// Flags the patches before rank n. Those at the cut t stand from place `passing` on, by index.
fn mark(work: &[u32], count: usize, t: u64, passing: usize, n: usize, flags: &mut [u32])
    requires { MarkAsks work.now count t passing n flags.old }
    ensures { MarkGives work.now count n flags.old flags.new }
{
    let mut place = passing;
    for k in 0..count {
        let key = key_at(work, k);
        flags[k] = flag(key, t, place, n);
        if key == t {
            place += 1;
        }
    }
}

// Flags the n patches that rank first by area, ties by index: 1 for them, 0 for the others.
pub fn keep_largest(numbers: &[f64], count: usize, n: usize, flags: &mut [u32], work: &mut [u32])
    requires { RankAsks numbers.now count flags.old work.old }
    ensures { RankGives numbers.now count n flags.old work.old flags.new work.new }
{
    if count <= n {
        rows::fill(flags, 0, count, 1);
        return;
    }
    if n == 0 {
        rows::fill(flags, 0, count, 0);
        return;
    }
    lay_keys(numbers, count, work);
    let t = cut(work, count, n);
    let passing = reaching(work, count, t + 1);
    mark(work, count, t, passing, n, flags);
}
