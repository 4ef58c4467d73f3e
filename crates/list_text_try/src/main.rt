// Writes the mending lists that some rows tell: how long each is, and its text. The file stdout says what they must be.
#![tactic(auto)]

ghost use Rattle.list_text.specs.Written.{ListAsks};

use list_text::Rows;
use std::io;

// The length of the list, and the list, which fits.
fn show_list(rt: &impl Print, work: &[u32], origins: &[u32], rows: Rows) -> io::Result<()>
    requires { ListAsks work.now origins.now rows }
{
    let mut text = [0; 200];
    let n = list_text::list_length(work, origins, rows);
    show::number(rt, n as u64)?;
    show::end_line(rt)?;
    if n > 200 {
        return Ok(());
    }
    let end = list_text::list_text(work, origins, rows, &mut text);
    rt.write_all(&text[..end])
}

// A line of every kind: of eight faces 1 to 4 leave, 5 is exchanged and leaves, 6 is exchanged. The first new point stands at two corners of face 6, which is
// named once, the second at none.
fn every_kind(rt: &impl Print) -> io::Result<()> {
    let work = [
        0, 1, 2, 3, 4, 13, 8, 0, 0, 0, 2, 4, 1, 2, 4, 4, 1, 6, 1, 4, 1, 5, 7, 2, 0, 3, 4, 8, 6, 1,
        0, 0, 1, 0, 1, 0,
    ];
    let rows = Rows {
        points: 4,
        faces: 8,
        fates: 0,
        splits: 3,
        olds: 8,
        left: 3,
        column: 11,
        sorted: 20,
        unused: 29,
    };
    show_list(rt, &work, &[0, 6, 7], rows)
}

// A face with one point at all corners, in passes 5 and 6: the first new point takes the face, and the second is unused.
fn one_point(rt: &impl Print) -> io::Result<()> {
    let work = [0, 0, 0, 1, 1, 1, 0, 1, 2, 1, 0, 1];
    let rows = Rows {
        points: 1,
        faces: 1,
        fates: 0,
        splits: 2,
        olds: 1,
        left: 1,
        column: 3,
        sorted: 6,
        unused: 9,
    };
    show_list(rt, &work, &[0], rows)
}

// Nothing was done.
fn nothing(rt: &impl Print) -> io::Result<()> {
    let work = [0, 0, 1, 2, 0, 1, 2, 0, 0, 0];
    let rows = Rows {
        points: 3,
        faces: 1,
        fates: 0,
        splits: 0,
        olds: 0,
        left: 1,
        column: 1,
        sorted: 4,
        unused: 7,
    };
    show_list(rt, &work, &[0], rows)
}

fn main(rt: HostRuntime) -> io::Result<()> {
    every_kind(&rt)?;
    one_point(&rt)?;
    nothing(&rt)
}
