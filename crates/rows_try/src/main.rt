// Writes what each function of `rows`, of `wiping` and of `sorting` makes of small rows. The file stdout says what it must be.
#![tactic(auto)]

ghost use Rattle.std.specs.Prelude.{◌≡◌, length};
ghost use Rattle.sorting.specs.Sort.{SortAsks};
ghost use Rattle.sorting.specs.Order.{OrderTriplesAsks};

use std::io;

// The whole number below 100 that x equals, and 100 where there is none, or where x is -0.
fn whole(x: f64) -> u64 {
    if 1.0 / x < 0.0 {
        return 100;
    }
    (0..100).find(|n: &u64| x == *n as f64).unwrap_or(100)
}

// Writes the floats of a row, which are small whole numbers, and ends the line.
fn show_points(rt: &impl Print, row: &[f64]) -> io::Result<()> {
    for x in row {
        show::number(rt, whole(*x))?;
    }
    show::end_line(rt)
}

// Six ids, three columns of keys below 3, three bins, and room for two rows of ids.
fn keyed() -> [u32; 39]
    ensures value { 39 ≡ length result }
    ensures sort_asks { SortAsks result 0 6 18 24 3 33 }
    ensures order_triples_asks { OrderTriplesAsks result 6 6 12 18 24 3 27 33 }
{
    [
        0, 1, 2, 3, 4, 5, 2, 0, 2, 0, 2, 1, 1, 2, 0, 1, 1, 0, 2, 1, 0, 1, 0, 2, 0, 0, 0, 9, 9, 9,
        9, 9, 9, 9, 9, 9, 9, 9, 9,
    ]
}

// The ids by the third key.
fn by_one(rt: &impl Print) -> io::Result<()> {
    let mut work = keyed();
    sorting::sort(&mut work, 0, 6, 18, 24, 3, 33);
    show::row(rt, &work, 39)
}

// The numbers 0 .. 5 by one key, by two and by three.
fn by_number(rt: &impl Print) -> io::Result<()> {
    let mut one = keyed();
    sorting::order(&mut one, 6, 18, 24, 3, 33);
    show::row(rt, &one, 39)?;
    let mut two = keyed();
    sorting::order_pairs(&mut two, 6, 12, 18, 24, 3, 33, 27);
    show::row(rt, &two, 39)?;
    let mut three = keyed();
    sorting::order_triples(&mut three, 6, 6, 12, 18, 24, 3, 27, 33);
    show::row(rt, &three, 39)
}

// A region filled, one cleared, and one copied.
fn regions(rt: &impl Print, work: &mut [u32]) -> io::Result<()>
    requires { length work.old ≡ 12 }
{
    rows::fill(work, 2, 3, 7);
    show::row(rt, work, work.len())?;
    rows::clear(work, 4, 2);
    show::row(rt, work, work.len())?;
    rows::copy(work, 1, 4, 7);
    show::row(rt, work, work.len())
}

// Whether the first entries are all 0, of one, two and three; then a region made zero.
fn wiped(rt: &impl Print, work: &mut [u32]) -> io::Result<()>
    requires { length work.old ≡ 6 }
{
    show::number(rt, wiping::is_zero(work, 1) as u64)?;
    show::number(rt, wiping::is_zero(work, 2) as u64)?;
    show::number(rt, wiping::is_zero(work, 3) as u64)?;
    wiping::wipe(work, 1, 4);
    show::row(rt, work, work.len())
}

// A region of floats, all -0, made +0.
fn wiped_points(rt: &impl Print, points: &mut [f64]) -> io::Result<()>
    requires { length points.old ≡ 7 }
{
    show_points(rt, points)?;
    wiping::wipe(points, 1, 5);
    show_points(rt, points)
}

// The first flag that is not 0, and two stores, of which one changes nothing.
fn stores(rt: &impl Print, row: &mut [u32]) -> io::Result<()>
    requires { length row.old ≡ 4 }
{
    show::number(rt, rows::first_flag(row, 0, 4) as u64)?;
    rows::store(row, 2, 5);
    rows::store(row, 3, 6);
    show::row(rt, row, row.len())
}

// Faces by flags: those that stay, and the number that each has then.
fn faces(rt: &impl Print, faces: &mut [u32], work: &mut [u32]) -> io::Result<()>
    requires faces_len { length faces.old ≡ 13 }
    requires work_len { length work.old ≡ 10 }
{
    rows::number_kept(work, 1, 4, 6);
    show::row(rt, work, work.len())?;
    show::number(rt, rows::retain(faces, work, 1, 4) as u64)?;
    show::row(rt, faces, faces.len())?;
    rows::copy_row(faces, work, 5);
    show::row(rt, work, work.len())
}

// A row numbered, and its entries by flags: those that stay.
fn ones(rt: &impl Print, row: &mut [u32], work: &[u32]) -> io::Result<()>
    requires row_len { length row.old ≡ 6 }
    requires work_len { length work.now ≡ 5 }
{
    rows::number(row, 5);
    show::row(rt, row, row.len())?;
    show::number(rt, rows::retain_ones(row, work, 1, 4) as u64)?;
    show::row(rt, row, row.len())
}

// Points by flags: those that stay. Then a region cleared, and a row copied.
fn points(rt: &impl Print, points: &mut [f64], work: &[u32], to: &mut [f64]) -> io::Result<()>
    requires points_len { length points.old ≡ 13 }
    requires work_len { length work.now ≡ 5 }
    requires to_len { length to.old ≡ 6 }
{
    show::number(rt, rows::retain(points, work, 1, 4) as u64)?;
    show_points(rt, points)?;
    rows::clear(points, 6, 5);
    show_points(rt, points)?;
    rows::copy_row(points, to, 4);
    show_points(rt, to)
}

fn main(rt: HostRuntime) -> io::Result<()> {
    by_one(&rt)?;
    by_number(&rt)?;
    let mut row = [1, 2, 3, 4, 5, 6, 7, 8, 9, 10, 11, 12];
    regions(&rt, &mut row)?;
    let mut room = [0, 0, 5, 0, 3, 2];
    wiped(&rt, &mut room)?;
    let mut negative = [-0.0, -0.0, -0.0, -0.0, -0.0, -0.0, -0.0];
    wiped_points(&rt, &mut negative)?;
    let mut short = [0, 0, 5, 0];
    stores(&rt, &mut short)?;
    let mut corners = [1, 2, 3, 4, 5, 6, 7, 8, 9, 10, 11, 12, 13];
    let mut work = [1, 0, 1, 0, 0, 1, 77, 77, 77, 77];
    faces(&rt, &mut corners, &mut work)?;
    let mut coordinates = [
        1.0, 2.0, 3.0, 4.0, 5.0, 6.0, 7.0, 8.0, 9.0, 10.0, 11.0, 12.0, 13.0,
    ];
    let flags = [0, 1, 0, 1, 0];
    let mut room = [50.0, 51.0, 52.0, 53.0, 54.0, 55.0];
    points(&rt, &mut coordinates, &flags, &mut room)?;
    ones(&rt, &mut [9; 6], &flags)
}
