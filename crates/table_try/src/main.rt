// Writes the undirected and the directed table of two faces that share an edge and one that repeats a corner. The file stdout says what they must be.
#![tactic(auto)]

ghost use Rattle.std.specs.Prelude.{◌≡◌, length};
ghost use Rattle.table.specs.Table.{TableAsks};

use std::io;

// Makes the table of the faces in a dirty room, and writes how many runs there are, and the room.
fn tabled(rt: &impl Print, faces: &[u32], work: &mut [u32], directed: bool) -> io::Result<()>
    requires { TableAsks work.old faces.now 4 1 }
{
    let m = table::table(work, faces, 4, directed, 1);
    show::number(rt, m as u64)?;
    show::row(rt, work, work.len())
}

fn main(rt: HostRuntime) -> io::Result<()> {
    let faces = [0, 1, 2, 2, 1, 3, 1, 1, 0];
    let mut work = [7; 52];
    tabled(&rt, &faces, &mut work, false)?;
    tabled(&rt, &faces, &mut work, true)
}
