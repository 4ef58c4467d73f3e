// The fields of a line of text: where a piece ends, and the decimal number or the float that a field writes, or none.
#![tactic(auto)]

ghost use Rattle.std.specs.Prelude.{◌≡◌, ◌≤◌, eqb, length, position};
ghost use Rattle.rules.specs.Text as rule;
ghost use Rattle.text_fields.specs.Fields as by;

// Where such a byte stands first.
fn first(bytes: &[u8], byte: u8) -> Option<usize>
    ensures { result ≡ position (λ b. eqb b byte) bytes.now }
{
    bytes.iter().position(|b| *b == byte)
}

// Where the piece that begins at `from` ends: at the next such byte, or at the end of the text.
pub fn find(text: &[u8], from: usize, byte: u8) -> usize
    requires { from ≤ length text.now }
    ensures { by.Piece text.now from byte result }
{
    match first(&text[from..], byte) {
        Some(i) => from + i,
        None => text.len(),
    }
}

// The number that a decimal digit writes.
#[tactic(auto, unfolding(crate::specs::Fields::digit))]
fn digit(byte: u8) -> Option<u64>
    ensures { result ≡ by.digit byte }
{
    match byte {
        b'0'..=b'9' => Some((byte - b'0') as u64),
        _ => None,
    }
}

// The number that a field of at most 19 digits writes, without leading zeros.
pub fn read_plain(field: &[u8]) -> Option<u64>
    ensures { by.Plains field.now result }
{
    if field.len() == 0 {
        return None;
    }
    if field.len() > 19 {
        return None;
    }
    if field[0] == b'0' {
        if field.len() > 1 {
            return None;
        }
        return Some(0);
    }
    let mut n = 0;
    for byte in field {
        n = 10 * n + digit(*byte)?;
    }
    Some(n)
}

// A decimal u32 without leading zeros.
pub fn read_whole(field: &[u8]) -> Option<u32>
    ensures { by.held result ≡ rule.whole field.now }
{
    u32::try_from(read_plain(field)?).ok()
}

// The number that a lower-case hex digit writes.
#[tactic(auto, unfolding(crate::specs::Fields::nibble))]
fn hex_digit(byte: u8) -> Option<u64>
    ensures { result ≡ by.nibble byte }
{
    match byte {
        b'0'..=b'9' => Some((byte - b'0') as u64),
        b'a'..=b'f' => Some((byte - 87) as u64),
        _ => None,
    }
}

// A float as the 16 hex digits of its bits.
pub fn read_real(field: &[u8]) -> Option<f64>
    ensures { by.held result ≡ rule.real field.now }
{
    if field.len() != 16 {
        return None;
    }
    let mut n = 0;
    for byte in field {
        n = 16 * n + hex_digit(*byte)?;
    }
    Some(byte_rows::float(n))
}
