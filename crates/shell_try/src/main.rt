// Runs real meshes through the calls for C, in rooms that hold 7 before the call, or 0 where that is said, and are longer than document 01 asks. First
// what a call gives back is written, then its rooms. A row of floats is compared with what it must be.
#![tactic(auto)]

use patches::Limit;
use std::io;

// Writes how many entries of a row of floats are those of another, and how many after those of the other are 0.
fn floats(rt: &impl Print, row: &[f64], other: &[f64]) -> io::Result<()> {
    show::equal(rt, row, other)?;
    if other.len() < row.len() {
        show::equal(rt, &row[other.len()..], &[0.0; 64])?;
    }
    Ok(())
}

// The repair, of at most 5 faces; the mended points must be these.
fn repair(
    rt: &impl Print,
    points: &[f64],
    faces: &[u32],
    options: u32,
    mended: &[f64],
) -> io::Result<()> {
    let mut out_points = [7.0; 64];
    let mut out_faces = [7u32; 16];
    let mut report = [7u32; 12];
    let mut origins = [7u32; 6];
    let mut work = [7u32; 470];
    let r = shell::shell_repair(
        points,
        faces,
        0.0009765625,
        options,
        &mut out_points,
        &mut out_faces,
        &mut report,
        &mut origins,
        &mut work,
    );
    print!(rt; "repair ")?;
    show::numbers(rt, &[r.number, r.place], 2)?;
    show::number(rt, r.points)?;
    show::number(rt, r.faces)?;
    show::number(rt, r.counts)?;
    show::number(rt, r.origins)?;
    show::end_line(rt)?;
    floats(rt, &out_points, mended)?;
    show::row(rt, &out_faces, out_faces.len())?;
    show::row(rt, &report, report.len())?;
    show::row(rt, &origins, origins.len())?;
    show::runs(rt, &work)
}

// Document 01's mesh with three faces at an edge, by all passes, and by pass 4 alone; its five faces of one place, by pass 4; two faces at an edge, by
// pass 3; two faces that repeat a corner, a good one and a thin one, by pass 1; and its face of one point, by pass 3, and by pass 5.
fn repairs(rt: &impl Print) -> io::Result<()> {
    let legs = [
        0.0, 0.0, 0.0, 1.0, 0.0, 0.0, 0.0, 1.0, 0.0, 0.0, -1.0, 0.0, 0.0, 0.0, 1.0,
    ];
    let four = [0.0, 0.0, 0.0, 1.0, 0.0, 0.0, 0.0, 1.0, 0.0, 0.0, -1.0, 0.0];
    let three = [0, 1, 2, 0, 1, 3, 0, 1, 4];
    repair(rt, &legs, &three, 63, &four)?;
    repair(rt, &legs, &three, 16, &legs)?;
    let five = [0, 1, 2, 1, 2, 3, 2, 3, 4, 3, 4, 0, 4, 0, 1];
    repair(rt, &[0.0; 15], &five, 16, &[0.0; 15])?;
    repair(rt, &legs, &[0, 1, 2, 2, 1, 3], 4, &legs)?;
    repair(rt, &legs, &[0, 0, 1, 2, 1, 0, 3, 3, 3, 0, 2, 3], 1, &legs)?;
    repair(rt, &[2.0; 3], &[0, 0, 0], 4, &[2.0; 3])?;
    repair(rt, &[2.0; 3], &[0, 0, 0], 8, &[2.0; 9])
}

// Three fans at a point, by pass 5; a corner that is no point; a coordinate that is none.
fn fans(rt: &impl Print) -> io::Result<()> {
    let mut points = [1.0; 21];
    points[0] = 5.0;
    points[2] = 6.0;
    let mut mended = [1.0; 27];
    mended[0] = 5.0;
    mended[2] = 6.0;
    mended[21] = 5.0;
    mended[23] = 6.0;
    mended[24] = 5.0;
    mended[26] = 6.0;
    repair(rt, &points, &[0, 1, 2, 0, 3, 4, 0, 5, 6], 8, &mended)?;
    repair(rt, &points, &[0, 1, 2, 0, 3, 7], 8, &[7.0; 64])?;
    repair(
        rt,
        &[0.0, 0.0, 0.0, 0.0, 0.0 / 0.0, 0.0],
        &[0, 1, 1],
        8,
        &[7.0; 64],
    )
}

// The edge call, of at most 3 faces, in a work room that holds this number; the lengths must be these.
fn edges(
    rt: &impl Print,
    points: &[f64],
    faces: &[u32],
    fill: u32,
    face_edges: &mut [u32],
    long: &[f64],
) -> io::Result<()> {
    let mut edges = [7u32; 19];
    let mut lengths = [7.0; 10];
    let mut work = [fill; 360];
    let r = shell::shell_edges(
        points,
        faces,
        &mut edges,
        &mut lengths,
        face_edges,
        &mut work,
    );
    print!(rt; "edges ")?;
    show::numbers(rt, &[r.number, r.place], 2)?;
    show::number(rt, r.edges)?;
    show::number(rt, r.lengths)?;
    show::number(rt, r.face_edges)?;
    show::end_line(rt)?;
    show::row(rt, &edges, edges.len())?;
    floats(rt, &lengths, long)?;
    show::row(rt, face_edges, face_edges.len())?;
    show::runs(rt, &work)
}

// The loop call, of at most 3 faces, in a work room that holds this number.
fn loops(
    rt: &impl Print,
    points: &[f64],
    faces: &[u32],
    fill: u32,
    loop_ends: &mut [u32],
) -> io::Result<()> {
    let mut loop_vertices = [7u32; 10];
    let mut work = [fill; 360];
    let r = shell::shell_loops(points, faces, &mut loop_vertices, loop_ends, &mut work);
    print!(rt; "loops ")?;
    show::numbers(rt, &[r.number, r.place], 2)?;
    show::number(rt, r.loop_vertices)?;
    show::number(rt, r.loop_ends)?;
    show::end_line(rt)?;
    show::row(rt, &loop_vertices, loop_vertices.len())?;
    show::row(rt, loop_ends, loop_ends.len())?;
    show::runs(rt, &work)
}

// Both calls.
fn both(rt: &impl Print, points: &[f64], faces: &[u32], fill: u32, long: &[f64]) -> io::Result<()> {
    let mut face_edges = [7u32; 10];
    edges(rt, points, faces, fill, &mut face_edges, long)?;
    let mut loop_ends = [7u32; 10];
    loops(rt, points, faces, fill, &mut loop_ends)
}

// A face with sides 3, 4 and 5; that one with a neighbour; and with one apart, which are two loops.
fn simple(rt: &impl Print, points: &[f64], fill: u32) -> io::Result<()> {
    both(rt, points, &[0, 1, 2], fill, &[3.0, 4.0, 5.0])?;
    both(
        rt,
        points,
        &[0, 1, 2, 2, 1, 3],
        fill,
        &[3.0, 4.0, 5.0, 4.0, 3.0],
    )?;
    both(
        rt,
        points,
        &[0, 1, 2, 3, 4, 5],
        fill,
        &[3.0, 4.0, 5.0, 6.0, 8.0, 10.0],
    )
}

// A boundary that is not simple, an edge with three faces, and a room of face edges and one of loop ends that are too short.
fn not_simple(rt: &impl Print, points: &[f64], fill: u32) -> io::Result<()> {
    both(
        rt,
        points,
        &[1, 0, 2, 1, 3, 4],
        fill,
        &[3.0, 4.0, 5.0, 4.0, 7.211102550927978, 6.0],
    )?;
    both(rt, points, &[1, 2, 0, 1, 2, 3, 1, 2, 4], fill, &[7.0; 10])?;
    let mut short = [7u32; 5];
    edges(
        rt,
        points,
        &[0, 1, 2, 3, 4, 5],
        fill,
        &mut short,
        &[7.0; 10],
    )?;
    loops(rt, points, &[0, 1, 2, 3, 4, 5], fill, &mut short)
}

// The two calls over six points, in a work room that holds something, and in one that is zero.
fn edge_calls(rt: &impl Print) -> io::Result<()> {
    let points = [
        0.0, 0.0, 0.0, 3.0, 0.0, 0.0, 0.0, 4.0, 0.0, 3.0, 4.0, 0.0, 9.0, 4.0, 0.0, 3.0, 12.0, 0.0,
    ];
    simple(rt, &points, 7)?;
    simple(rt, &points, 0)?;
    not_simple(rt, &points, 7)?;
    not_simple(rt, &points, 0)
}

// The edge check, of at most 2 faces.
fn check(rt: &impl Print, points: u64, faces: &[u32]) -> io::Result<()> {
    let mut work = [7u32; 260];
    let r = shell::shell_check(points, faces, &mut work);
    print!(rt; "check ")?;
    show::numbers(rt, &[r.number, r.place], 2)?;
    show::number(rt, r.yes)?;
    show::end_line(rt)?;
    show::runs(rt, &work)
}

// Two faces that agree, two that do not, and a corner that is no point.
fn checks(rt: &impl Print) -> io::Result<()> {
    check(rt, 4, &[0, 1, 2, 2, 1, 3])?;
    check(rt, 4, &[0, 1, 2, 1, 2, 3])?;
    check(rt, 3, &[0, 1, 2, 2, 1, 3])
}

// Writes the first n bytes of a row.
fn text(rt: &impl Print, row: &[u8], n: u64) -> io::Result<()> {
    if n as usize <= row.len() {
        rt.write_all(&row[..n as usize])?;
    }
    Ok(())
}

// The report line.
fn line(rt: &impl Print, counts: &[u32]) -> io::Result<()> {
    let mut room = [33u8; 513];
    let r = shell::shell_line(counts, &mut room);
    print!(rt; "line ")?;
    show::numbers(rt, &[r.number, r.place], 2)?;
    show::number(rt, r.bytes)?;
    text(rt, &room, r.bytes)?;
    show::end_line(rt)
}

// The patch call: two faces of area 1 are patch 0, one of area 3 is patch 1, and one is in no patch. Its filter has these limits, the whole numbers n
// and the floats x.
fn patches(
    rt: &impl Print,
    count: u64,
    limits: u32,
    n: u64,
    x: f64,
    sums: &[f64],
) -> io::Result<()> {
    let points = [0.0, 0.0, 0.0, 2.0, 0.0, 0.0, -0.0, 1.0, 0.0, 0.0, 3.0, 0.0];
    let faces = [0, 1, 2, 0, 1, 2, 0, 1, 3, 3, 1, 0];
    let mut face_counts = [7u32; 5];
    let mut numbers = [7.0; 29];
    let mut flags = [7u32; 5];
    let mut work = [7u32; 17];
    let r = shell::shell_patches(
        &points,
        &faces,
        &[0, 0, 1, 4294967295],
        count,
        limits,
        n,
        x,
        x,
        x,
        n,
        &mut face_counts,
        &mut numbers,
        &mut flags,
        &mut work,
    );
    print!(rt; "patches ")?;
    show::numbers(rt, &[r.number, r.place], 2)?;
    show::number(rt, r.face_counts)?;
    show::number(rt, r.numbers)?;
    show::number(rt, r.flags)?;
    show::end_line(rt)?;
    show::row(rt, &face_counts, 5)?;
    show::row(rt, &flags, 5)?;
    show::runs(rt, &work)?;
    floats(rt, &numbers, sums)?;
    show::equal(rt, &[1.0 / numbers[1]], &[1.0 / 0.0])
}

// No limit, each limit alone, and limits that are no numbers.
fn filters(rt: &impl Print, sums: &[f64]) -> io::Result<()> {
    patches(rt, 4, 0, 0, 9.0, sums)?;
    patches(rt, 4, 1, 2, 9.0, sums)?;
    patches(rt, 4, 2, 0, 2.0, sums)?;
    patches(rt, 4, 4, 0, 2.5, sums)?;
    patches(rt, 4, 8, 0, 0.75, sums)?;
    patches(rt, 4, 16, 3, 9.0, sums)?;
    patches(rt, 4, 14, 0, 0.0 / 0.0, sums)
}

// The filters, in rooms for four patches; then a label that is no patch, and rooms that are too short.
fn patch_calls(rt: &impl Print) -> io::Result<()> {
    let far = 1.0 / 0.0;
    let sums = [
        2.0, 0.0, 0.0, 0.0, 2.0, 1.0, 0.0, 3.0, 0.0, 0.0, 0.0, 2.0, 3.0, 0.0, 0.0, far, far, far,
        -far, -far, -far, 0.0, far, far, far, -far, -far, -far, 7.0,
    ];
    filters(rt, &sums)?;
    patches(rt, 1, 0, 0, 9.0, &[7.0; 29])?;
    patches(rt, 5, 0, 0, 9.0, &[7.0; 29])
}

// Reads a PLY file of at most one point and one face.
fn read_ply(rt: &impl Print, file: &[u8]) -> io::Result<()> {
    let mut points = [7.0; 4];
    let mut faces = [7u32; 4];
    let mut work = [7u32; 145];
    let r = shell::shell_read_ply(file, &mut points, &mut faces, &mut work);
    print!(rt; "read ")?;
    show::numbers(rt, &[r.number, r.place], 2)?;
    show::number(rt, r.points)?;
    show::number(rt, r.faces)?;
    show::end_line(rt)?;
    show::bits(rt, &points)?;
    show::row(rt, &faces, 4)?;
    show::runs(rt, &work)
}

// Tells the counts of a PLY file.
fn count_ply(rt: &impl Print, file: &[u8]) -> io::Result<()> {
    let r = shell::shell_ply_counts(file);
    print!(rt; "counts ")?;
    show::numbers(rt, &[r.number, r.place], 2)?;
    show::number(rt, r.points)?;
    show::number(rt, r.faces)?;
    show::end_line(rt)
}

// One point and one face as a PLY file; then what stands in its room is read, and a byte more.
fn ply(rt: &impl Print, points: &[f64], faces: &[u32]) -> io::Result<()> {
    let mut file = [7u8; 210];
    let mut work = [7u32; 145];
    let r = shell::shell_write_ply(points, faces, &mut file, &mut work);
    print!(rt; "write ")?;
    show::numbers(rt, &[r.number, r.place], 2)?;
    show::number(rt, r.bytes)?;
    show::end_line(rt)?;
    show::hex(rt, &file)?;
    show::runs(rt, &work)?;
    read_ply(rt, &file[..209])?;
    count_ply(rt, &file[..209])?;
    read_ply(rt, &file)?;
    count_ply(rt, &file)
}

// Writes a limit: absent, zero, or another number.
fn limit(rt: &impl Print, by: Limit<f64>) -> io::Result<()> {
    match by {
        Limit::Absent => {
            print!(rt; "absent ")?;
        }
        Limit::Limit(x) => {
            if x == 0.0 {
                print!(rt; "zero ")?;
            } else {
                print!(rt; "another ")?;
            }
        }
    }
    Ok(())
}

// The limits that are floats, by a mask.
fn mask(rt: &impl Print, limits: u32) -> io::Result<()> {
    let by = patch_mask::filter(limits, 0, 0.0, 1.0, 2.0, 0);
    let area = by.min_area;
    let diagonal = by.min_aabb_diagonal;
    let fraction = by.min_area_fraction;
    limit(rt, area)?;
    limit(rt, diagonal)?;
    limit(rt, fraction)?;
    show::end_line(rt)
}

fn main(rt: HostRuntime) -> io::Result<()> {
    repairs(&rt)?;
    fans(&rt)?;
    edge_calls(&rt)?;
    checks(&rt)?;
    line(&rt, &[0, 0, 1, 1, 0, 0, 0, 1, 0, 1])?;
    line(&rt, &[0, 0, 1])?;
    patch_calls(&rt)?;
    ply(&rt, &[0.0, -0.0, 1.0], &[0, 0, 0])?;
    ply(&rt, &[0.0, 0.0, 0.0], &[0, 1, 0])?;
    mask(&rt, 0)?;
    mask(&rt, 2)?;
    mask(&rt, 12)
}
