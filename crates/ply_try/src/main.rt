// Runs binary PLY files through the calls, in rooms that hold something and are one entry too long where nothing else is said. The file on standard input
// was packed by another program: four points, some of whose zeros are -0, and two triples, 294 bytes.
#![tactic(auto)]

ghost use Rattle.std.specs.Prelude.{◌≤◌, ◌<◌, length};

use refuse::Refusal;
use std::io;

// Writes a word and two numbers.
fn answer(rt: &impl Print, word: &[u8], a: u64, b: u64) -> io::Result<()> {
    rt.write_all(word)?;
    show::number(rt, a)?;
    show::number(rt, b)?;
    show::end_line(rt)
}

// Writes number and place of a refusal.
fn refused(rt: &impl Print, refusal: Refusal) -> io::Result<()> {
    answer(
        rt,
        b"refused ",
        refusal.number() as u64,
        refusal.place() as u64,
    )
}

// Reads a file, and writes what the call gives back and what each room then holds.
fn read_in(
    rt: &impl Print,
    file: &[u8],
    points: &mut [f64],
    faces: &mut [u32],
    work: &mut [u32],
) -> io::Result<()> {
    match read_ply::read_ply(file, points, faces, work) {
        Ok(read) => answer(rt, b"read ", read.points as u64, read.faces as u64)?,
        Err(refusal) => refused(rt, refusal)?,
    }
    show::bits(rt, points)?;
    show::row(rt, faces, faces.len())?;
    show::runs(rt, work)
}

// Reads a file of at most four points and two faces.
fn read(rt: &impl Print, file: &[u8]) -> io::Result<()> {
    let mut points = [7.0; 13];
    let mut faces = [7u32; 7];
    let mut work = [7u32; 257];
    read_in(rt, file, &mut points, &mut faces, &mut work)
}

// Reads the file of four points and two faces, with one room after the other too short.
fn short_rooms(rt: &impl Print, file: &[u8]) -> io::Result<()> {
    let mut points = [7.0; 11];
    let mut faces = [7u32; 6];
    let mut work = [7u32; 256];
    read_in(rt, file, &mut points, &mut faces, &mut work)?;
    let mut points = [7.0; 12];
    let mut faces = [7u32; 5];
    read_in(rt, file, &mut points, &mut faces, &mut work)?;
    let mut faces = [7u32; 6];
    let mut work = [7u32; 255];
    read_in(rt, file, &mut points, &mut faces, &mut work)
}

// Tells the counts of a file.
fn count(rt: &impl Print, file: &[u8]) -> io::Result<()> {
    match ply_counts::ply_counts(file) {
        Ok(counts) => answer(rt, b"counts ", counts.points as u64, counts.faces as u64),
        Err(refusal) => refused(rt, refusal),
    }
}

// The file with one byte changed.
fn changed(rt: &impl Print, file: &mut [u8], at: usize, byte: u8) -> io::Result<()>
    requires { at < length file.old }
    ensures { length file.old ≤ length file.new }
{
    let was = file[at];
    file[at] = byte;
    read(rt, file)?;
    count(rt, file)?;
    file[at] = was;
    Ok(())
}

// Changes of the header, of a count, of a vertex and of a face.
fn changes(rt: &impl Print, file: &mut [u8]) -> io::Result<()>
    requires { 294 ≤ length file.old }
{
    // the first newline; the blank before the count of vertices; that count
    changed(rt, file, 3, 13)?;
    changed(rt, file, 50, 9)?;
    changed(rt, file, 51, 53)?;
    // the count of face 1: two corners
    changed(rt, file, 281, 2)?;
    // y of vertex 1 is infinite, and z of vertex 2 the next number above 2^100
    changed(rt, file, 211, 127)?;
    changed(rt, file, 236, 1)?;
    // corner 2 of face 1 is no point, and corner 2 of face 0 is negative
    changed(rt, file, 290, 4)?;
    changed(rt, file, 280, 128)
}

// Headers without a body: empty, a leading zero, a count that 64 bits would wrap to 0, no count.
fn headers(rt: &impl Print) -> io::Result<()> {
    read(
        rt,
        b"ply\nformat binary_little_endian 1.0\nelement vertex 0\nproperty double x\nproperty double y\nproperty double z\nelement face 0\nproperty list uchar int vertex_indices\nend_header\n",
    )?;
    read(
        rt,
        b"ply\nformat binary_little_endian 1.0\nelement vertex 00\nproperty double x\nproperty double y\nproperty double z\nelement face 0\nproperty list uchar int vertex_indices\nend_header\n",
    )?;
    read(
        rt,
        b"ply\nformat binary_little_endian 1.0\nelement vertex 0\nproperty double x\nproperty double y\nproperty double z\nelement face 18446744073709551616\nproperty list uchar int vertex_indices\nend_header\n",
    )?;
    count(
        rt,
        b"ply\nformat binary_little_endian 1.0\nelement vertex 0\nproperty double x\nproperty double y\nproperty double z\nelement face \nproperty list uchar int vertex_indices\nend_header\n",
    )
}

// Writes points and triples as a file, and then what the call gives back and what both rooms hold.
fn write_in(
    rt: &impl Print,
    points: &[f64],
    faces: &[u32],
    file: &mut [u8],
    work: &mut [u32],
) -> io::Result<()> {
    match write_ply::write_ply(points, faces, file, work) {
        Ok(bytes) => answer(rt, b"wrote ", bytes as u64, 0)?,
        Err(refusal) => refused(rt, refusal)?,
    }
    show::hex(rt, file)?;
    show::runs(rt, work)
}

// Points and triples, of at most ten points and one face.
fn write(rt: &impl Print, points: &[f64], faces: &[u32]) -> io::Result<()> {
    let mut file = [7u8; 427];
    let mut work = [7u32; 289];
    write_in(rt, points, faces, &mut file, &mut work)
}

// One point and one face, with rooms exactly as long as stated, and each of them one short.
fn exact_rooms(rt: &impl Print, points: &[f64], faces: &[u32]) -> io::Result<()> {
    let mut file = [7u8; 209];
    let mut work = [7u32; 144];
    write_in(rt, points, faces, &mut file, &mut work)?;
    let mut work = [7u32; 143];
    write_in(rt, points, faces, &mut file, &mut work)?;
    let mut file = [7u8; 208];
    let mut work = [7u32; 144];
    write_in(rt, points, faces, &mut file, &mut work)
}

// Ten points and one face, whose file has a count of two digits, with a room one byte too short for it.
fn byte_short(rt: &impl Print, points: &[f64], faces: &[u32]) -> io::Result<()> {
    let mut file = [7u8; 425];
    let mut work = [7u32; 288];
    write_in(rt, points, faces, &mut file, &mut work)
}

// No point; ten points; a coordinate that is none, with a corner that is none; such a corner alone; one point; then ten again.
fn meshes(rt: &impl Print) -> io::Result<()> {
    write(rt, &[], &[])?;
    write(rt, &[0.5; 30], &[9, 8, 7])?;
    write(rt, &[0.0, 0.0, 0.0, 1.0, 0.0 / 0.0, 2.0], &[0, 1, 2])?;
    write(rt, &[0.0, 0.0, 0.0], &[0, 0, 0, 0, 1, 0])?;
    exact_rooms(rt, &[0.0, -0.0, 1.0], &[0, 0, 0])?;
    byte_short(rt, &[0.5; 30], &[9, 8, 7])
}

fn main(rt: HostRuntime) -> io::Result<()> {
    let mut file = [0u8; 295];
    input::read_full(&mut rt.stdin(), &mut file)?;
    read(&rt, &file)?;
    count(&rt, &file)?;
    read(&rt, &file[..293])?;
    count(&rt, &file[..293])?;
    read(&rt, &file[..294])?;
    count(&rt, &file[..294])?;
    short_rooms(&rt, &file[..294])?;
    changes(&rt, &mut file[..294])?;
    headers(&rt)?;
    meshes(&rt)
}
