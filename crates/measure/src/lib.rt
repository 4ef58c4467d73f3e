// The float rules of document 01 over f64: one rounded operation a step, in the order written. Points stand in a slice, three numbers each, and are
// named by their number.

#![tactic(auto)]

ghost use Rattle.std.specs.Prelude.{◌≡◌, ◌/◌, ◌<◌, length};
ghost use Rattle.rules.specs.Mesh.{points_of, point};
ghost use Rattle.rules.specs.Float as rule;
ghost use Rattle.measure.specs.Measure.{point_of, shape_of, number_of, face_of, Corners};

// A point, and also a difference of two points.
#[derive(Clone, Copy, Debug, PartialEq)]
pub struct Vector {
    pub x: f64,
    pub y: f64,
    pub z: f64,
}

// What the degeneracy test finds: nothing, two corners equal, or a sine not above the threshold.
#[derive(Clone, Copy, Debug, PartialEq, Eq)]
pub enum Form {
    Good,
    Repeated,
    Thin,
}

// A form as a number: 0 good, 1 repeated, 2 thin.
impl From<Form> for u32 {
    ghost from_gives = { λ form r. r ≡ number_of (shape_of form) };

    fn from(form: Form) -> u32 {
        match form {
            Form::Good => 0,
            Form::Repeated => 1,
            Form::Thin => 2,
        }
    }
}

// 4·root(3), each step rounded.
const FOUR_ROOT_THREE: f64 = 6.928203230275509;

// Point number i.
pub fn at(points: &[f64], i: u32) -> Vector
    requires { i < length points.now / 3 }
    ensures { point_of result ≡ point (points_of points.now) i }
{
    let k = 3 * i as usize;
    Vector {
        x: points[k],
        y: points[k + 1],
        z: points[k + 2],
    }
}

// A difference of points, p - q, is by component.
pub fn difference(p: Vector, q: Vector) -> Vector
    ensures { point_of result ≡ rule.difference (point_of p) (point_of q) }
{
    Vector {
        x: p.x - q.x,
        y: p.y - q.y,
        z: p.z - q.z,
    }
}

// Cross: (ay·bz - az·by, az·bx - ax·bz, ax·by - ay·bx).
fn cross(a: Vector, b: Vector) -> Vector
    ensures { point_of result ≡ rule.cross (point_of a) (point_of b) }
{
    Vector {
        x: a.y * b.z - a.z * b.y,
        y: a.z * b.x - a.x * b.z,
        z: a.x * b.y - a.y * b.x,
    }
}

// Squared norm: (x·x + y·y) + z·z.
fn square(v: Vector) -> f64
    ensures { result ≡ rule.norm² (point_of v) }
{
    v.x * v.x + v.y * v.y + v.z * v.z
}

// Norm: the square root of the squared norm.
pub fn norm(v: Vector) -> f64
    ensures { result ≡ rule.norm (point_of v) }
{
    root::root(square(v))
}

// With e1 = p1-p0 and e2 = p2-p0, whether norm(e1×e2) <= (s·norm(e1))·norm(e2). Where the exponents of the squared norms decide, no root is taken.
fn flat(s: f64, p0: Vector, p1: Vector, p2: Vector) -> bool
    ensures { result ≡ rule.flat s (point_of p0) (point_of p1) (point_of p2) }
{
    let e1 = difference(p1, p0);
    let e2 = difference(p2, p0);
    let a = square(e1);
    let b = square(e2);
    let c = square(cross(e1, e2));
    if exponents::above(s, a, b, c) {
        return false;
    }
    let m = s * root::root(a);
    root::root(c) <= m * root::root(b)
}

// What the degeneracy test finds of the face with corners a, b, c at the threshold s. A repeated corner wins if both hold.
pub fn shape(points: &[f64], s: f64, a: u32, b: u32, c: u32) -> Form
    requires { Corners points.now a b c }
    ensures { shape_of result ≡ rule.shape s (points_of points.now) (face_of a b c) }
{
    if a == b || b == c || c == a {
        return Form::Repeated;
    }
    let p0 = at(points, a);
    let p1 = at(points, b);
    let p2 = at(points, c);
    if flat(s, p0, p1, p2) {
        return Form::Thin;
    }
    Form::Good
}

// The quality of the face with corners a, b, c: 0 if the sum of the squared lengths is <= 0, else ((4·root(3))·(norm(e0×e1)·0.5))/sum.
pub fn quality(points: &[f64], a: u32, b: u32, c: u32) -> f64
    requires { Corners points.now a b c }
    ensures { result ≡ rule.quality (points_of points.now) (face_of a b c) }
{
    let p0 = at(points, a);
    let p1 = at(points, b);
    let p2 = at(points, c);
    let e0 = difference(p1, p0);
    let e1 = difference(p2, p1);
    let e2 = difference(p0, p2);
    let sum = square(e0) + square(e1) + square(e2);
    if sum <= 0.0 {
        return 0.0;
    }
    FOUR_ROOT_THREE * (norm(cross(e0, e1)) * 0.5) / sum
}

// The area of the face with corners a, b, c: 0.5·norm((b-a)×(c-a)).
pub fn area(points: &[f64], a: u32, b: u32, c: u32) -> f64
    requires { Corners points.now a b c }
    ensures { result ≡ rule.area (points_of points.now) (face_of a b c) }
{
    let p0 = at(points, a);
    let p1 = at(points, b);
    let p2 = at(points, c);
    0.5 * norm(cross(difference(p1, p0), difference(p2, p0)))
}

// The length norm(higher - lower) of the edge between points lower and higher.
pub fn distance(points: &[f64], higher: u32, lower: u32) -> f64
    requires { (higher < length points.now / 3) × (lower < length points.now / 3) }
    ensures { result ≡ rule.norm (rule.difference (point (points_of points.now) higher) (point (points_of points.now) lower)) }
{
    let p = at(points, higher);
    let q = at(points, lower);
    norm(difference(p, q))
}
