// Texts and numbers in bytes: numbers in decimal, and numbers with their lowest byte first, read and written.
#![tactic(auto)]

ghost use Rattle.std.specs.Prelude.{◌≡◌, [], ◌∷◌, ◌+◌, ◌≤◌, ◌<◌, length};
ghost use Rattle.std.specs.Float.Ieee.{of_bits};
ghost use Rattle.std.specs.Float.{binary64};
ghost use Rattle.rules.specs.Bytes as rule;
ghost use Rattle.rules.specs.Line.{decimal};
ghost use Rattle.rules.specs.Ply.{real_at};
ghost use Rattle.byte_rows.specs.Put as by;

// ---- read

// The little-endian u32 whose lowest byte is byte i.
pub fn u32_at(file: &[u8], i: usize) -> u32
    requires { i + 4 ≤ length file.now }
    ensures { result ≡ rule.u32_at file.now i }
{
    u32::from_le_bytes([file[i], file[i + 1], file[i + 2], file[i + 3]])
}

// The float of a bit pattern, also where that is no number's.
pub fn float(bits: u64) -> f64
    ensures { result ≡ of_bits binary64 bits }
{
    if bits % 0x8000_0000_0000_0000 > 0x7ff0_0000_0000_0000 {
        return 0.0 / 0.0;
    }
    f64::from_bits(bits)
}

// The f64 whose lowest byte is byte i.
pub fn real_at(file: &[u8], i: usize) -> f64
    requires { i + 8 ≤ length file.now }
    ensures { result ≡ real_at file.now i }
{
    let low = u32_at(file, i);
    let high = u32_at(file, i + 4);
    float(u64::from(low) + 4294967296 * u64::from(high))
}

// ---- written

// How many digits a number has in decimal.
pub fn number_length(n: u32) -> usize
    ensures { result ≡ length (decimal n) }
{
    if n < 10 { 1 } else { number_length(n / 10) + 1 }
}

// Puts the bytes of a text into the room, from `at` on. Returns where it goes on.
pub fn put_text(out: &mut [u8], at: usize, text: &[u8]) -> usize
    requires { at + length text.now ≤ length out.old }
    ensures { by.Puts out.old at text.now out.new result }
{
    let end = at + text.len();
    out[at..end].copy_from_slice(text);
    end
}

// Puts the digit of a number below ten into the room, at `at`. Returns where it goes on.
fn put_digit(out: &mut [u8], at: usize, n: u64) -> usize
    requires { by.DigitAsks out.old at n }
    ensures { by.Puts out.old at ((48 + n) ∷ []) out.new result }
{
    out[at] = b'0' + n as u8;
    at + 1
}

// Puts a number of at most ten digits in decimal, with no leading zeros. Returns where the text goes on.
pub fn put_number(out: &mut [u8], at: usize, n: u64) -> usize
    requires { by.NumberAsks out.old at n }
    ensures { by.Puts out.old at (decimal n) out.new result }
{
    if n < 10 {
        return put_digit(out, at, n);
    }
    let next = put_number(out, at, n / 10);
    put_digit(out, next, n % 10)
}

// Puts n in k bytes, the lowest first, from `at` on. Returns where the bytes end.
pub fn put_little(out: &mut [u8], at: usize, k: usize, n: u64) -> usize
    requires { at + k ≤ length out.old }
    ensures { by.Puts out.old at (rule.little k n) out.new result }
{
    let mut m = n;
    for i in 0..k {
        out[at + i] = (m % 256) as u8;
        m = m / 256;
    }
    at + k
}
