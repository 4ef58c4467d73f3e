// The patch call of document 01, from points, faces, labels and a filter: face counts, area and box of each patch, and a flag for each that the filter
// keeps.
//
// Work, in entries of C patches: patch_rank's 2C; the rest is only cleared.
#![tactic(auto)]

ghost use Rattle.std.specs.Prelude.{◌≡◌, ◌*◌, ◌≤◌, length, ltb};
ghost use Rattle.std.specs.Float.Ieee.{lt};
ghost use Rattle.rules.specs.Patches as rule;
ghost use Rattle.rules.specs.PatchesCall as call;
ghost use Rattle.patches_refusal.specs.Checks.{PatchesAccepted};
ghost use Rattle.patch_sums.specs.Sums.{patch_of};
ghost use Rattle.patches.specs.Answers.{limit_of, filter_of, largest_in, share_of, small, DropAsks, DropGives, KeepAsks, KeepGives, FillGives, rooms_of, outcome_of};

use measure::Vector;
use patch_sums::Patch;
use patches_refusal::Rooms;
use refuse::Refusal;

// A setting of the filter: absent, or it holds its number. An enum of its own, since that is the form that document 01 names.
#[derive(Clone, Copy)]
pub enum Limit<A> {
    Absent,
    Limit(A),
}

// The filter's five settings; an absent one drops nothing.
#[derive(Clone, Copy)]
pub struct Filter {
    pub min_faces: Limit<usize>,
    pub min_area: Limit<f64>,
    pub min_aabb_diagonal: Limit<f64>,
    pub min_area_fraction: Limit<f64>,
    pub keep_largest_n: Limit<usize>,
}

// What the patch call gives back: how many entries stand in each of these rooms.
#[derive(Clone, Copy, Debug, PartialEq, Eq)]
pub struct Patched {
    pub face_counts: usize,
    pub numbers: usize,
    pub flags: usize,
}

// Whether a number is < its limit. No number is < an absent one, or < NaN.
fn under(x: f64, by: Limit<f64>) -> bool
    ensures { result ≡ rule.under lt x (limit_of by) }
{
    match by {
        Limit::Absent => false,
        Limit::Limit(least) => x < least,
    }
}

// Whether a patch has fewer faces than its limit.
fn few(n: u32, by: Limit<usize>) -> bool
    ensures { result ≡ rule.under ltb n (limit_of by) }
{
    match by {
        Limit::Absent => false,
        Limit::Limit(least) => (n as usize) < least,
    }
}

// The diagonal of a patch's box: 0 for an empty patch, else root((dx² + dy²) + dz²).
fn diagonal(n: u32, r: Patch) -> f64
    ensures { result ≡ rule.diagonal n (patch_of r) }
{
    if n == 0 {
        return 0.0;
    }
    let high = Vector {
        x: r.max_x,
        y: r.max_y,
        z: r.max_z,
    };
    let low = Vector {
        x: r.min_x,
        y: r.min_y,
        z: r.min_z,
    };
    measure::norm(measure::difference(high, low))
}

// The largest area of all patches.
fn largest(numbers: &[f64], count: usize) -> f64
    requires { 7 * count ≤ length numbers.now }
    ensures { result ≡ largest_in numbers.now count }
{
    let mut held = 0.0;
    for k in 0..count {
        let area = numbers[7 * k];
        if held < area {
            held = area;
        }
    }
    held
}

// The limit that a fraction sets: (largest area of all patches)·fraction.
fn share(numbers: &[f64], count: usize, fraction: Limit<f64>) -> Limit<f64>
    requires { 7 * count ≤ length numbers.now }
    ensures { limit_of result ≡ share_of numbers.now count (limit_of fraction) }
{
    match fraction {
        Limit::Absent => Limit::Absent,
        Limit::Limit(part) => Limit::Limit(largest(numbers, count) * part),
    }
}

// Whether a patch is dropped by its faces, area or diagonal, or by the share of the largest area.
fn falls(n: u32, r: Patch, by: Filter, least: Limit<f64>) -> bool
    ensures { result ≡ small (filter_of by) (limit_of least) n (patch_of r) }
{
    few(n, by.min_faces)
        || under(r.area, by.min_area)
        || under(diagonal(n, r), by.min_aabb_diagonal)
        || under(r.area, least)
}

// Clears the flags of the patches that these limits drop.
fn drop_small(
    face_counts: &[u32],
    numbers: &[f64],
    count: usize,
    by: Filter,
    least: Limit<f64>,
    flags: &mut [u32],
)
    requires { DropAsks face_counts.now numbers.now count flags.old }
    ensures { DropGives face_counts.now numbers.now count (filter_of by) (limit_of least) flags.old flags.new }
{
    for k in 0..count {
        let r = patch_sums::read(numbers, k);
        if falls(face_counts[k], r, by, least) {
            flags[k] = 0;
        }
    }
}

// Flags all patches, or, with the setting, the first n of all patches by area.
fn keep(numbers: &[f64], count: usize, most: Limit<usize>, flags: &mut [u32], work: &mut [u32])
    requires { KeepAsks numbers.now count flags.old work.old }
    ensures { KeepGives numbers.now count (limit_of most) flags.old work.old flags.new work.new }
{
    match most {
        Limit::Absent => rows::fill(flags, 0, count, 1),
        Limit::Limit(n) => patch_rank::keep_largest(numbers, count, n, flags, work),
    }
}

// Fills the rooms of an accepted call: face counts, numbers and flags, and the work room all zero.
fn fill_rooms(
    points: &[f64],
    faces: &[u32],
    labels: &[u32],
    count: usize,
    by: Filter,
    face_counts: &mut [u32],
    numbers: &mut [f64],
    flags: &mut [u32],
    work: &mut [u32],
)
    requires { PatchesAccepted points.now faces.now labels.now count (length face_counts.old) (length numbers.old) (length flags.old) (length work.old) }
    ensures { let before = rooms_of face_counts.old numbers.old flags.old work.old in
        let after = rooms_of face_counts.new numbers.new flags.new work.new in
        FillGives points.now faces.now labels.now count (filter_of by) before after }
{
    patch_sums::count_faces(labels, face_counts, count);
    patch_sums::sum_faces(points, faces, labels, numbers, count);
    keep(numbers, count, by.keep_largest_n, flags, work);
    let least = share(numbers, count, by.min_area_fraction);
    drop_small(face_counts, numbers, count, by, least, flags);
    rows::clear(work, 0, 4 * count);
}

// The patch call: face counts, area and box of each patch, and 1 for each patch that the filter keeps, 0 for the others.
pub fn find_patches(
    points: &[f64],
    faces: &[u32],
    labels: &[u32],
    count: usize,
    by: Filter,
    face_counts: &mut [u32],
    numbers: &mut [f64],
    flags: &mut [u32],
    work: &mut [u32],
) -> Result<Patched, Refusal>
    ensures { let before = rooms_of face_counts.old numbers.old flags.old work.old in
        let after = rooms_of face_counts.new numbers.new flags.new work.new in
        outcome_of result after ≡ call.find_patches points.now faces.now labels.now count (filter_of by) before }
{
    let rooms = Rooms {
        face_counts: face_counts.len(),
        numbers: numbers.len(),
        flags: flags.len(),
        work: work.len(),
    };
    patches_refusal::patches_refusal(points, faces, labels, count, rooms)?;
    fill_rooms(
        points,
        faces,
        labels,
        count,
        by,
        face_counts,
        numbers,
        flags,
        work,
    );
    Ok(Patched {
        face_counts: count,
        numbers: 7 * count,
        flags: count,
    })
}
