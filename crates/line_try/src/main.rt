// Writes the report line of real counts. The file stdout says what it must be.
#![tactic(auto)]

use std::io;

// How many bytes from `from` on are one, as all were before the call.
fn ones(room: &[u8], from: usize) -> usize {
    room.iter().skip(from).filter(|&&x| x == 1).count()
}

// Writes a number.
fn show_number(rt: &impl Print, n: usize) -> io::Result<()> {
    print!(rt; "{n}")
}

// Writes the answer of a call: how many bytes, the bytes, and how many ones are left behind them; or number and place of the refusal,
// and how many ones are left.
fn show(rt: &impl Print, counts: &[u32], room: &mut [u8]) -> io::Result<()> {
    match line::line(counts, room) {
        Ok(n) => {
            if n <= room.len() {
                show_number(rt, n)?;
                print!(rt; ": ")?;
                rt.write_all(&room[..n])?;
                print!(rt; "\nbehind: ")?;
                show_number(rt, ones(room, n))?;
                println!(rt)?;
            }
        }
        Err(refusal) => {
            let number = refusal.number();
            print!(rt; "refused {number}, place ")?;
            show_number(rt, refusal.place())?;
            print!(rt; "\nkept: ")?;
            show_number(rt, ones(room, 0))?;
            println!(rt)?;
        }
    }
    Ok(())
}

// Writes the answer of a call whose room is the stated one.
fn show_stated(rt: &impl Print, counts: &[u32]) -> io::Result<()> {
    let mut room = [1u8; 512];
    show(rt, counts, &mut room)
}

// Reports of which nothing, two counts, the last one and all are not zero, in rooms of 512 bytes and more.
fn show_lines(rt: &impl Print) -> io::Result<()> {
    show_stated(rt, &[0; 11])?;
    let mut some = [1u8; 520];
    show(rt, &[10, 0, 0, 2, 0, 0, 0, 0, 0, 0, 0], &mut some)?;
    show_stated(rt, &[0, 0, 0, 0, 0, 0, 0, 0, 0, 0, 101])?;
    let mut large = [1u8; 600];
    show(rt, &[4294967295; 11], &mut large)
}

// Sums of the first two counts: the line is the same for a repeated corner and a thin face, and a sum beyond a u32 is whole.
fn show_sums(rt: &impl Print) -> io::Result<()> {
    show_stated(rt, &[1, 0, 0, 0, 0, 0, 0, 0, 0, 0, 0])?;
    show_stated(rt, &[0, 1, 0, 0, 0, 0, 0, 0, 0, 0, 0])?;
    show_stated(rt, &[2, 3, 4, 0, 0, 0, 0, 0, 0, 0, 0])?;
    show_stated(rt, &[4294967295, 1, 0, 0, 0, 0, 0, 0, 0, 0, 0])?;
    show_stated(rt, &[4294967295, 4294967295, 0, 0, 0, 0, 0, 0, 0, 0, 0])
}

// Refusals: ten counts and twelve, a room under 512 bytes, and where both are met the first.
fn show_refusals(rt: &impl Print) -> io::Result<()> {
    show_stated(rt, &[1, 2, 3, 4, 5, 6, 7, 8, 9, 10])?;
    show_stated(rt, &[1, 2, 3, 4, 5, 6, 7, 8, 9, 10, 11, 12])?;
    let mut short = [1u8; 511];
    show(rt, &[1, 2, 3, 4, 5, 6, 7, 8, 9, 10, 11], &mut short)?;
    let mut none = [1u8; 0];
    show(rt, &[0; 12], &mut none)
}

fn main(rt: HostRuntime) -> io::Result<()> {
    show_lines(&rt)?;
    show_sums(&rt)?;
    show_refusals(&rt)
}
