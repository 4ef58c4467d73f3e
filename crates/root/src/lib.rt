// The square root of an f64, correctly rounded: to the nearest f64, a tie (there is none) to the even one.
// It is guessed in floats and settled with whole numbers, by comparing squares; where the guess is not near enough it is computed digit by digit.
#![tactic(auto)]

ghost use Rattle.std.specs.Prelude.{◌≡◌, ◌+◌, ◌*◌, ◌^◌, ◌≤◌, ◌<◌, false};
ghost use Rattle.std.specs.Float.{binary64};
ghost use Rattle.std.specs.Float.Ieee.{of_bits, nan_bits};
ghost use Rattle.root.specs.Root.{near_root, root_units, root_of};

// 2^52: the bit of a number's first digit, which its pattern leaves out.
const HID: u64 = 0x0010_0000_0000_0000;

// 2^26: a number below 2^53 is cut here to be squared.
const HALF: u64 = 0x0400_0000;

// 2^55: stands for 0 where a difference may be below it.
const ZERO: u64 = 0x0080_0000_0000_0000;

// The root of n * 2^52, to the nearest whole number.
fn near(n: u64) -> u64
    requires { n < 2 ^ 54 }
    ensures { result ≡ near_root (n * 2 ^ 52) }
{
    let mut left = n;
    let mut root: u64 = 0;
    let mut rem: u64 = 0;
    for i in 0_u64..53 {
        let next = rem * 4 + left / HID;
        let trial = root * 4 + 1;
        left = left % HID * 4;
        if trial <= next {
            rem = next - trial;
            root = root * 2 + 1;
        } else {
            rem = next;
            root = root * 2;
        }
    }
    if root < rem { root + 1 } else { root }
}

// A first guess at the root of v * 2^104, for the float v that has the pattern b, from 1 up and below 4. Nothing is said of how good it is.
fn guess(b: u64) -> u64
    requires { (1023 * 2 ^ 52 ≤ b) × (b < 1025 * 2 ^ 52) }
    ensures { (2 ^ 52 ≤ result) × (result < 2 ^ 53) }
{
    let v = f64::from_bits(b);
    let h = 0.5 * v;
    let a = f64::from_bits(0x5fe6_eb50_c7b5_37a9 - b / 2);
    let c = a * (1.5 - h * a * a);
    let d = c * (1.5 - h * c * c);
    let e = d * (1.5 - h * d * d);
    let s = v * e;
    let y = s + 0.5 * e * (v - s * s);
    if y != y {
        return HID;
    }
    f64::to_bits(y) % HID + HID
}

// The root of n * 2^52, to the nearest whole number, from a guess q. Where the guess is off by more than one, digit by digit.
fn settle(n: u64, q: u64) -> u64
    requires { (2 ^ 52 ≤ n) × (n < 2 ^ 54) × (2 ^ 52 ≤ q) × (q < 2 ^ 53) }
    ensures { result ≡ near_root (n * 2 ^ 52) }
{
    let h = q / HALF;
    let l = q % HALF;
    let t = 2 * h * l;
    let high = h * h + t / HALF;
    let low = t % HALF * HALF + l * l;
    // q * q is high * 2^52 + low
    if high + 8 < n {
        return near(n);
    }
    let up = high + 8 - n;
    if 16 < up {
        return near(n);
    }
    // q * q - n * 2^52, and 2^55 more
    let over = up * HID + low;
    if over < ZERO + q {
        if ZERO <= over + q {
            return q;
        }
        if ZERO <= over + 3 * q + 2 {
            return q + 1;
        }
    } else if over + 2 < ZERO + 3 * q {
        return q - 1;
    }
    near(n)
}

// The bit pattern of the root of m * 2^k units of 2^-1074.
fn place(m: u64, k: u64) -> u64
    requires { (0 < m) × (m < 2 ^ 53) × (k < 2046) }
    ensures { (of_bits binary64 result ≡ root_units (m * 2 ^ k)) × (nan_bits binary64 result ≡ false) }
{
    let s = (u64::leading_zeros(m) - 11) as u64;
    let w = m << s;
    let c = k + 1022 - s;
    let p = c % 2;
    c / 2 * HID + settle(w * (1 + p), guess((1022 + p) * HID + w))
}

// The bit pattern of the root of the float with the pattern b, finite and above zero.
fn pattern(b: u64) -> u64
    requires { (0 < b) × (b < 2047 * 2 ^ 52) }
    ensures { (of_bits binary64 result ≡ root_of (of_bits binary64 b)) × (nan_bits binary64 result ≡ false) }
{
    let e = b / HID;
    let t = b % HID;
    if e == 0 {
        place(t, 0)
    } else {
        place(HID + t, e - 1)
    }
}

// The square root.
pub fn root(x: f64) -> f64
    ensures { result ≡ root_of x }
{
    if x != x {
        return x;
    }
    let b = f64::to_bits(x);
    if b % 0x8000_0000_0000_0000 == 0 {
        return x;
    }
    if b >= 0x8000_0000_0000_0000 {
        return 0.0 / 0.0;
    }
    if b >= 0x7ff0_0000_0000_0000 {
        return x;
    }
    f64::from_bits(pattern(b))
}
