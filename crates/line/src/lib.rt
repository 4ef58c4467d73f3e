// The call "report line" of document 01: from any u32 counts of a report, the line in a lent room of bytes.
#![tactic(auto)]

ghost use Rattle.std.specs.Prelude.{◌≡◌, ◌+◌, ◌^◌, ◌≤◌, ◌<◌, length, get_or, replicate};
ghost use Rattle.byte_rows.specs.Put.{Puts};
ghost use Rattle.line_refusal.specs.Checks.{LineAccepted};
ghost use Rattle.rules.specs.Line as rule;
ghost use Rattle.rules.specs.LineCall.{write_line};
ghost use Rattle.line.specs.Put as by;

use refuse::Refusal;

// How many labels there are.
const LABELS: usize = 10;

// Puts label k, in report order. Returns where the line goes on.
fn put_label(line: &mut [u8], at: usize, k: usize) -> usize
    requires { by.PartAsks line.old at 29 k }
    ensures { Puts line.old at (rule.bytes (by.label k)) line.new result }
{
    match k {
        0 => byte_rows::put_text(line, at, b"degenerate faces removed"),
        1 => byte_rows::put_text(line, at, b"duplicate faces removed"),
        2 => byte_rows::put_text(line, at, b"non-manifold edges"),
        3 => byte_rows::put_text(line, at, b"faces dropped there"),
        4 => byte_rows::put_text(line, at, b"faces dropped as unorientable"),
        5 => byte_rows::put_text(line, at, b"bowtie vertices split"),
        6 => byte_rows::put_text(line, at, b"points added"),
        7 => byte_rows::put_text(line, at, b"faces reoriented"),
        8 => byte_rows::put_text(line, at, b"non-orientable components"),
        _ => byte_rows::put_text(line, at, b"isolated vertices removed"),
    }
}

// Puts part k: number, blank, label. Returns where the line goes on.
fn put_part(line: &mut [u8], at: usize, n: u64, k: usize) -> usize
    requires part_asks { by.PartAsks line.old at 40 k }
    requires n_bound { n < 10 ^ 10 }
    ensures { Puts line.old at (rule.part (n, by.label k)) line.new result }
{
    let next = byte_rows::put_number(line, at, n);
    line[next] = b' ';
    put_label(line, next + 1, k)
}

// Puts a comma and a blank, where a part stands in the line already. Returns where the line goes on.
fn put_comma(line: &mut [u8], at: usize) -> usize
    requires { at + 2 ≤ length line.old }
    ensures { Puts line.old at (by.comma at) line.new result }
{
    if at == 0 {
        return at;
    }
    line[at] = b',';
    line[at + 1] = b' ';
    at + 2
}

// Puts part k behind those that stand in the line, unless its number is zero. Returns where the line goes on.
fn put_next(line: &mut [u8], at: usize, n: u64, k: usize) -> usize
    requires part_asks { by.PartAsks line.old at 42 k }
    requires n_bound { n < 10 ^ 10 }
    ensures { Puts line.old at (by.more at n k) line.new result }
{
    if n == 0 {
        return at;
    }
    let next = put_comma(line, at);
    put_part(line, next, n, k)
}

// The sum of two counts, exact: it may have 33 bits.
fn sum(a: u32, b: u32) -> u64
    ensures { result ≡ a + b }
{
    u64::from(a) + u64::from(b)
}

// The number printed with label k: at label 0 the sum of the first two counts, repeated and thin, and at another count k + 1.
fn value(counts: &[u32], k: usize) -> u64
    requires { k + 1 < length counts.now }
    ensures value { result ≡ get_or (rule.summed counts.now) k 0 }
    ensures upper_bound { result < 10 ^ 10 }
{
    if k == 0 {
        return sum(counts[0], counts[1]);
    }
    u64::from(counts[k + 1])
}

// Puts the parts of the counts, joined, the first two as their sum. Returns where the line ends.
fn put_parts(counts: &[u32], line: &mut [u8]) -> usize
    requires { LineAccepted counts.now (length line.old) }
    ensures { by.LineGives line.old (by.parts (rule.summed counts.now)) line.new result }
{
    let mut at = 0;
    for k in 0..LABELS {
        at = put_next(line, at, value(counts, k), k);
    }
    at
}

// Puts the line of the counts: their parts, or, all zero, that nothing changed. Returns where the line ends.
fn put_line(counts: &[u32], line: &mut [u8]) -> usize
    requires { LineAccepted counts.now (length line.old) }
    ensures { by.LineGives line.old (rule.line counts.now) line.new result }
{
    let end = put_parts(counts, line);
    if end == 0 {
        return byte_rows::put_text(line, 0, b"mesh was already manifold, nothing changed");
    }
    end
}

// The report line: how many bytes stand in the room. The line stands in front, the rest of the 512 bytes is zero, and entries beyond are unchanged.
pub fn line(counts: &[u32], line: &mut [u8]) -> Result<usize, Refusal>
    ensures { by.outcome_of result line.new ≡ write_line counts.now line.old }
{
    line_refusal::line_refusal(counts, line.len())?;
    let end = put_line(counts, line);
    line[end..512].fill(0);
    Ok(end)
}
