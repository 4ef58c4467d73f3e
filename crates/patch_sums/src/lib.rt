// The sums of document 01's patch call: how many faces each patch has, and its record of area and box, summed in face order. The numbers room holds
// seven numbers a patch: area, min x y z, max x y z.
#![tactic(auto)]

ghost use Rattle.std.specs.Prelude.{◌≡◌, ◌+◌, ◌*◌, ◌≤◌, length};
ghost use Rattle.std.specs.Float.{nan};
ghost use Rattle.rows.specs.Region.{OnlyOf};
ghost use Rattle.rules.specs.Mesh.{points_of};
ghost use Rattle.rules.specs.Patches as rule;
ghost use Rattle.measure.specs.Measure.{point_of, face_of, Corners};
ghost use Rattle.patch_sums.specs.Sums.{patch_of, record_at, BeginAsks, BeginGives, AddAsks, AddGives, CountAsks, CountGives, SumAsks, SumGives};

use measure::Vector;

// A patch's record: its area and six box numbers.
#[derive(Clone, Copy, Debug, PartialEq)]
pub struct Patch {
    pub area: f64,
    pub min_x: f64,
    pub min_y: f64,
    pub min_z: f64,
    pub max_x: f64,
    pub max_y: f64,
    pub max_z: f64,
}

// A lower box number takes in a coordinate: it changes only for a number below it.
fn lower(held: f64, x: f64) -> f64
    ensures { result ≡ rule.lower held x }
{
    if x < held { x } else { held }
}

// An upper box number takes in a coordinate: it changes only for a number above it.
fn higher(held: f64, x: f64) -> f64
    ensures { result ≡ rule.higher held x }
{
    if held < x { x } else { held }
}

// The box takes in a point.
fn widened(r: Patch, p: Vector) -> Patch
    ensures { patch_of result ≡ rule.widened (patch_of r) (point_of p) }
{
    Patch {
        area: r.area,
        min_x: lower(r.min_x, p.x),
        min_y: lower(r.min_y, p.y),
        min_z: lower(r.min_z, p.z),
        max_x: higher(r.max_x, p.x),
        max_y: higher(r.max_y, p.y),
        max_z: higher(r.max_z, p.z),
    }
}

// A face more: its area is added, and the box takes in its corners.
fn with_face(points: &[f64], r: Patch, a: u32, b: u32, c: u32) -> Patch
    requires { Corners points.now a b c }
    ensures { patch_of result ≡ rule.with_face (points_of points.now) (patch_of r) (face_of a b c) }
{
    let more = Patch {
        area: r.area + measure::area(points, a, b, c),
        ..r
    };
    let one = widened(more, measure::at(points, a));
    let two = widened(one, measure::at(points, b));
    widened(two, measure::at(points, c))
}

// The record of patch k in the numbers room.
pub fn read(numbers: &[f64], k: usize) -> Patch
    requires { 7 * k + 7 ≤ length numbers.now }
    ensures { patch_of result ≡ record_at numbers.now k }
{
    let i = 7 * k;
    Patch {
        area: numbers[i],
        min_x: numbers[i + 1],
        min_y: numbers[i + 2],
        min_z: numbers[i + 3],
        max_x: numbers[i + 4],
        max_y: numbers[i + 5],
        max_z: numbers[i + 6],
    }
}

// Writes the record of patch k to the numbers room.
fn write(numbers: &mut [f64], k: usize, r: Patch)
    requires { 7 * k + 7 ≤ length numbers.old }
    ensures only_of { OnlyOf nan (7 * k) 7 numbers.old numbers.new }
    ensures k_after { record_at numbers.new k ≡ patch_of r }
{
    let i = 7 * k;
    numbers[i] = r.area;
    numbers[i + 1] = r.min_x;
    numbers[i + 2] = r.min_y;
    numbers[i + 3] = r.min_z;
    numbers[i + 4] = r.max_x;
    numbers[i + 5] = r.max_y;
    numbers[i + 6] = r.max_z;
}

// Writes the empty record of each of the patches: area 0, min +infinity, max -infinity.
fn begin(numbers: &mut [f64], count: usize)
    requires { BeginAsks numbers.old count }
    ensures { BeginGives numbers.old count numbers.new }
{
    let empty = Patch {
        area: 0.0,
        min_x: f64::INFINITY,
        min_y: f64::INFINITY,
        min_z: f64::INFINITY,
        max_x: f64::NEG_INFINITY,
        max_y: f64::NEG_INFINITY,
        max_z: f64::NEG_INFINITY,
    };
    for k in 0..count {
        write(numbers, k, empty);
    }
}

// How many faces each patch has. Faces in no patch are not counted.
pub fn count_faces(labels: &[u32], counts: &mut [u32], count: usize)
    requires { CountAsks labels.now counts.old count }
    ensures { CountGives labels.now counts.old count counts.new }
{
    rows::clear(counts, 0, count);
    for i in 0..labels.len() {
        let patch = labels[i];
        if patch != rules::NO_PATCH {
            counts[patch as usize] += 1;
        }
    }
}

// Face i is added to the record of patch k.
fn add_face(points: &[f64], faces: &[u32], i: usize, numbers: &mut [f64], k: usize)
    requires { AddAsks points.now faces.now i numbers.old k }
    ensures { AddGives points.now faces.now i numbers.old k numbers.new }
{
    let r = read(numbers, k);
    let s = with_face(points, r, faces[3 * i], faces[3 * i + 1], faces[3 * i + 2]);
    write(numbers, k, s);
}

// The record of each patch, summed in face order from the empty one.
pub fn sum_faces(points: &[f64], faces: &[u32], labels: &[u32], numbers: &mut [f64], count: usize)
    requires { SumAsks points.now faces.now labels.now numbers.old count }
    ensures { SumGives points.now faces.now labels.now numbers.old count numbers.new }
{
    begin(numbers, count);
    for i in 0..labels.len() {
        let label = labels[i];
        if label != rules::NO_PATCH {
            add_face(points, faces, i, numbers, label as usize);
        }
    }
}
