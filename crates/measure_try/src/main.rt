// Values of the float rules, checked against recorded bits: proved, by antt's own run of the rules, and run.
#![tactic(auto)]

ghost use Rattle.std.specs.Prelude.{◌≡◌, false};
ghost use Rattle.std.specs.Float.{binary64};
ghost use Rattle.std.specs.Float.Ieee.{to_bits, is_nan};
ghost use Rattle.measure.specs.Measure.{shape_of, number_of};

use measure::Form;

// 2^100, the largest coordinate.
const FAR: f64 = 1267650600228229401496703205376.0;

// The number x has these bits.
fn same(x: f64, bits: u64)
    requires { (is_nan x ≡ false) × (to_bits binary64 x ≡ bits) }
{
    check::expect(f64::to_bits(x) == bits);
}

// The degeneracy test found this: 0 good, 1 repeated, 2 thin.
fn found(form: Form, what: u32)
    requires { number_of (shape_of form) ≡ what }
{
    check::expect(u32::from(form) == what);
}

// The unit legs: with s = 1 the face is thin, with the f64 just below 1 it isn't.
fn unit_legs() {
    let points = [0.0, 0.0, 0.0, 1.0, 0.0, 0.0, 0.0, 1.0, 0.0];
    same(measure::quality(&points, 0, 1, 2), 0x3febb67ae8584caa);
    same(measure::area(&points, 0, 1, 2), 0x3fe0000000000000);
    same(measure::distance(&points, 2, 1), 0x3ff6a09e667f3bcd);
    found(measure::shape(&points, 1.0, 0, 1, 2), 2);
    found(measure::shape(&points, 0.9999999999999999, 0, 1, 2), 0);
    found(measure::shape(&points, 0.0, 0, 1, 0), 1);
}

// Of the unit legs: any two corners are compared, a repeated corner wins, and a thin face repeats none.
fn forms() {
    let points = [0.0, 0.0, 0.0, 1.0, 0.0, 0.0, 0.0, 1.0, 0.0];
    found(measure::shape(&points, 1.0, 0, 0, 1), 1);
    found(measure::shape(&points, 1.0, 1, 0, 0), 1);
    found(measure::shape(&points, 1.0, 0, 1, 0), 1);
    found(measure::shape(&points, 1.0, 0, 1, 2), 2);
}

// Three sides of different length, no coordinate exact.
fn scalene() {
    let points = [0.1, 0.2, 0.3, 1.5, -0.7, 0.9, -2.25, 3.0, 0.125];
    same(measure::quality(&points, 0, 1, 2), 0x3fca0448387fe946);
    same(measure::area(&points, 0, 1, 2), 0x3ff5109ac75f4943);
    same(measure::distance(&points, 2, 1), 0x40154c8f4332c3c2);
    found(measure::shape(&points, 0.0009765625, 0, 1, 2), 0);
}

// The largest coordinates: equal sides, and a quality that rounds to just below 1.
fn far_apart() {
    let points = [FAR, FAR, FAR, -FAR, -FAR, FAR, -FAR, FAR, -FAR];
    same(measure::quality(&points, 0, 1, 2), 0x3fefffffffffffff);
    same(measure::area(&points, 0, 1, 2), 0x4c8bb67ae8584caa);
    same(measure::distance(&points, 2, 1), 0x4646a09e667f3bcd);
    found(measure::shape(&points, 0.0009765625, 0, 1, 2), 0);
}

// Coordinates of 2^-540, whose squares round to 0: the sum is 0, and so is the quality.
fn close_by() {
    let t = 1.0 / (FAR * FAR * FAR * FAR * FAR * 1099511627776.0);
    let points = [0.0, 0.0, 0.0, t, 0.0, 0.0, 0.0, t, 0.0];
    same(measure::quality(&points, 0, 1, 2), 0x0000000000000000);
    same(measure::area(&points, 0, 1, 2), 0x0000000000000000);
    found(measure::shape(&points, 0.0, 0, 1, 2), 2);
}

fn main() {
    unit_legs();
    forms();
    scalene();
    far_apart();
    close_by();
}
