// The degeneracy test without a root, where the exponents alone decide it.

#![tactic(auto)]

ghost use Rattle.std.specs.Prelude.{◌≡◌, true, false};
ghost use Rattle.std.specs.Float.Ieee.{le};
ghost use Rattle.rules.specs.Root.{root};
ghost use Rattle.rules.specs.Float.{◌⊗◌};
ghost use Rattle.exponents.specs.Exponent.{exponent_of};

// 2^52: the bit of a number's first digit, which its pattern leaves out.
const HID: u64 = 0x0010_0000_0000_0000;

// The exponent's field of a number that is finite and not negative; 2047 or more of any other.
fn exponent(x: f64) -> u64
    ensures { result ≡ exponent_of x }
{
    if x != x {
        return 2047;
    }
    f64::to_bits(x) / HID
}

// Whether the exponents alone show that root(c) <= (s·root(a))·root(b) does not hold. An exponent gives its number within a factor of 2, so they show
// it where c is 256 times s·s·a·b or more; where the answer is no, nothing is said.
pub fn above(s: f64, a: f64, b: f64, c: f64) -> bool
    ensures { result ≡ true → le (root c) (s ⊗ root a ⊗ root b) ≡ false }
{
    let z = exponent(c);
    if z == 0 {
        return false;
    }
    if z >= 2047 {
        return false;
    }
    let x = exponent(a);
    if x >= 2047 {
        return false;
    }
    let y = exponent(b);
    if y >= 2047 {
        return false;
    }
    let t = exponent(s);
    if t >= 1024 {
        return false;
    }
    2 * t + x + y < z + 3062
}
