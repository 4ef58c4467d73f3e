// What the programs that run real values write by: numbers, rows of them, floats by their bits, bytes, how far two rows of floats are equal, and the end of
// a line, on standard output. An error is that of a write, and what stands behind it is not written.
#![tactic(auto)]

ghost use Rattle.std.specs.Prelude.{◌≤◌, ◌<◌, length, IfOk};

use std::io;

// Writes a number and a space.
pub fn number(rt: &impl Print, n: u64) -> io::Result<()> {
    print!(rt; "{n} ")
}

// Ends the line.
pub fn end_line(rt: &impl Print) -> io::Result<()> {
    println!(rt)
}

// Writes the first n numbers of a row, a space behind each.
pub fn numbers(rt: &impl Print, row: &[u32], n: usize) -> io::Result<()>
    requires { n ≤ length row.now }
{
    for i in 0..n {
        number(rt, row[i] as u64)?;
    }
    Ok(())
}

// Writes the first n numbers of a row, and ends the line.
pub fn row(rt: &impl Print, row: &[u32], n: usize) -> io::Result<()>
    requires { n ≤ length row.now }
{
    numbers(rt, row, n)?;
    end_line(rt)
}

// Writes how many entries of two rows of floats are equal, from the front on, and ends the line.
pub fn equal(rt: &impl Print, row: &[f64], other: &[f64]) -> io::Result<()> {
    let same = row
        .iter()
        .zip(other)
        .take_while(|(x, y)| **x == **y)
        .count();
    number(rt, same as u64)?;
    end_line(rt)
}

// ---- runs of a row

// Writes a run.
fn run(rt: &impl Print, n: usize, x: u32) -> io::Result<()> {
    print!(rt; "{n}x{x} ")
}

// Writes the run that ends before entry i, if one does. Returns where the run of entry i begins.
fn passed(rt: &impl Print, row: &[u32], begin: usize, i: usize) -> io::Result<usize>
    requires begin_le_i { begin ≤ i }
    requires i_in_bounds { i < length row.now }
    ensures { IfOk result (λ next. next ≤ i) }
{
    if row[i] == row[begin] {
        return Ok(begin);
    }
    run(rt, i - begin, row[begin])?;
    Ok(i)
}

// Writes a row by its runs: how many entries, and the number that they all hold.
pub fn runs(rt: &impl Print, row: &[u32]) -> io::Result<()> {
    let mut begin = 0;
    for i in 0..row.len() {
        begin = passed(rt, row, begin, i)?;
    }
    if begin < row.len() {
        run(rt, row.len() - begin, row[begin])?;
    }
    end_line(rt)
}

// ---- bits and bytes

// Writes the bits of a float in hex, and a space; of a NaN a dash.
fn float(rt: &impl Print, x: f64) -> io::Result<()> {
    if x != x {
        return print!(rt; "- ");
    }
    let bits = f64::to_bits(x);
    print!(rt; "{bits:016x} ")
}

// Writes a row of floats by their bits, and ends the line.
pub fn bits(rt: &impl Print, row: &[f64]) -> io::Result<()> {
    for i in 0..row.len() {
        float(rt, row[i])?;
    }
    end_line(rt)
}

// Writes a row of bytes in hex, and ends the line.
pub fn hex(rt: &impl Print, row: &[u8]) -> io::Result<()> {
    for i in 0..row.len() {
        let byte = row[i];
        print!(rt; "{byte:02x}")?;
    }
    end_line(rt)
}
