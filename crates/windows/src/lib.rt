// Refusals 7 and 8 of the edge call from the faces alone, a window of vertices at a time.
//
// A corner has two half entries at its vertex: of the step to the next corner of its face, and of the step from the one before. So the corners of
// a vertex have all half entries of its keys. One pass over the faces puts those of the vertices of a window into a buffer on the stack, each
// vertex' in a run of their own, and counts the corners of the vertices that follow, from which the next window is made. In a run the key
// v * P + u, doubled, plus the direction is kept without the part of the vertex: 2 * u, or 2 * u + 1.
#![tactic(auto)]

ghost use Rattle.std.specs.Prelude.{◌≡◌, ◌+◌, ◌*◌, ◌^◌, ◌<◌, ◌≤◌, length};
ghost use Rattle.refuse.specs.Accepted.{Faces};
ghost use Rattle.halves.specs.Gather.{halves, RoundsGives};
ghost use Rattle.halves.specs.Right.{Right};
ghost use Rattle.windows.specs.Around.{previous_of, CornerAsks, CornerGives, PassAsks, PassGives, FitAsks, FitGives, WidenAsks, WidenGives};
ghost use Rattle.windows.specs.Window.{RunsAsks, RunsGives, WindowAsks, WindowGives, AdvanceAsks, AdvanceGives, AllAsks};

use halves::State;
use refuse::Refusal;

// The place of the corner before the one at place i of the flat list, in its face.
fn previous(i: usize) -> usize
    requires { i + 2 < 2 ^ 64 }
    ensures { result ≡ previous_of i }
{
    if i % 3 == 0 {
        return i + 2;
    }
    i - 1
}

// Puts the two half entries of the corner at place i at the end of run j.
fn put_corner(faces: &[u32], i: usize, j: usize, ends: &mut [u32], buffer: &mut [u32])
    requires { CornerAsks faces.now i j ends.old buffer.old }
    ensures { CornerGives faces.now i j ends.old buffer.old ends.new buffer.new }
{
    let p = ends[j] as usize;
    let u = faces[halves::next(i)];
    let s = faces[previous(i)];
    buffer[p] = 2 * u;
    buffer[p + 1] = 2 * s + 1;
    ends[j] = (p + 2) as u32;
}

// One pass over the faces: the half entries of the w vertices from v on are put at the ends of their runs, and the corners of each of the `width`
// vertices after them are counted.
fn pass(
    faces: &[u32],
    v: u64,
    w: usize,
    width: usize,
    ends: &mut [u32],
    buffer: &mut [u32],
    counts: &mut [u32],
)
    requires { PassAsks faces.now v w width ends.old buffer.old counts.old }
    ensures { PassGives faces.now v w width ends.new buffer.new counts.new }
{
    let inner = w as u64;
    let outer = (w + width) as u64;
    for i in 0..faces.len() {
        let j = std::num::wrapping_sub_u64(faces[i] as u64, v);
        if j < outer {
            if j < inner {
                put_corner(faces, i, j as usize, ends, buffer);
            } else {
                let k = (j - inner) as usize;
                counts[k] += 1;
            }
        }
    }
}

// Where the runs of the first vertices begin, by how many corners each has: as many vertices, at most `limit`, as `room` holds, none with more half
// entries than `most`. Returns how many.
fn fit(counts: &[u32], limit: usize, room: usize, most: usize, ends: &mut [u32]) -> usize
    requires { FitAsks counts.now limit room ends.old }
    ensures { FitGives counts.now limit room most ends.new result }
{
    let mut s: usize = 0;
    for k in 0..limit {
        let n = 2 * (counts[k] as usize);
        if most < n || room - s < n {
            return k;
        }
        ends[k] = s as u32;
        s += n;
    }
    limit
}

// Copies the n entries from `s` on to the front of `to`, with `base` added to each.
fn widen(buffer: &[u32], s: usize, n: usize, base: u64, to: &mut [u64])
    requires { WidenAsks buffer.now s n base to.old }
    ensures { WidenGives buffer.now s n base to.new }
{
    for i in 0..n {
        to[i] = base + buffer[s + i] as u64;
    }
}

// Takes in all keys of the w vertices from v on, whose runs stand in the buffer, vertex after vertex.
fn runs(
    points: u64,
    v: u64,
    w: usize,
    ends: &[u32],
    buffer: &[u32],
    entries: &mut [u64],
    t: State,
) -> Result<State, Refusal>
    requires { RunsAsks points v w ends.now buffer.now entries.old t }
    ensures { RunsGives points v w ends.now buffer.now t result }
{
    let mut r = t;
    let mut from = v * points;
    let mut s: usize = 0;
    for j in 0..w {
        let e = ends[j] as usize;
        let to = from + points;
        widen(buffer, s, e - s, 2 * from, entries);
        r = short_runs::walk(entries, 0, e - s, from, to, points, r)?;
        from = to;
        s = e;
    }
    Ok(r)
}

// Takes in all keys of the vertex v, of which a run would be too long, and counts the corners of the vertices after it.
fn alone(
    points: u64,
    faces: &[u32],
    v: u64,
    width: usize,
    t: State,
    ends: &mut [u32],
    buffer: &mut [u32],
    counts: &mut [u32],
    entries: &mut [u64],
) -> Result<State, Refusal>
    requires { WindowAsks faces.now points v 0 1 width t ends.old buffer.old counts.old entries.old }
    ensures { WindowGives faces.now points (v + 1) width counts.new result }
{
    let from = v * points;
    let r = halves::rounds(points, faces, from, from + points, t, entries)?;
    pass(faces, v + 1, 0, width, ends, buffer, counts);
    Ok(r)
}

// Takes in all keys of the w vertices from v on, and counts the corners of the vertices after them.
fn together(
    points: u64,
    faces: &[u32],
    v: u64,
    w: usize,
    width: usize,
    t: State,
    ends: &mut [u32],
    buffer: &mut [u32],
    counts: &mut [u32],
    entries: &mut [u64],
) -> Result<State, Refusal>
    requires { WindowAsks faces.now points v w w width t ends.old buffer.old counts.old entries.old }
    ensures { WindowGives faces.now points (v + w) width counts.new result }
{
    pass(faces, v, w, width, ends, buffer, counts);
    runs(points, v, w, ends, buffer, entries, t)
}

// The vertices before v are passed.
#[derive(Clone, Copy, Debug, PartialEq, Eq)]
struct Step {
    v: u64,
    t: State,
}

// Takes in all keys of the next window, whose corners are counted.
fn advance(
    points: u64,
    faces: &[u32],
    v: u64,
    width: usize,
    t: State,
    ends: &mut [u32],
    buffer: &mut [u32],
    counts: &mut [u32],
    entries: &mut [u64],
) -> Result<Step, Refusal>
    requires { AdvanceAsks faces.now points v width t ends.old counts.old entries.old }
    ensures { AdvanceGives faces.now points v width counts.new result }
{
    let room = buffer.len().min(1073741824);
    let limit = width.min((points - v) as usize);
    let w = fit(counts, limit, room, entries.len(), ends);
    rows::clear(counts, 0, width);
    if w == 0 {
        let r = alone(points, faces, v, width, t, ends, buffer, counts, entries)?;
        return Ok(Step { v: v + 1, t: r });
    }
    let r = together(points, faces, v, w, width, t, ends, buffer, counts, entries)?;
    Ok(Step {
        v: v + w as u64,
        t: r,
    })
}

// Takes in all keys, window after window.
fn all(
    points: u64,
    faces: &[u32],
    ends: &mut [u32],
    buffer: &mut [u32],
    counts: &mut [u32],
    entries: &mut [u64],
) -> Result<State, Refusal>
    requires { AllAsks faces.now points entries.old }
    ensures { RoundsGives faces.now points (points * points) result }
{
    let width = ends.len().min(counts.len()).min(65536);
    rows::clear(counts, 0, width);
    pass(faces, 0, 0, width, ends, buffer, counts);
    let mut t = halves::start();
    let mut v: u64 = 0;
    while v < points {
        let s = advance(points, faces, v, width, t, ends, buffer, counts, entries)?;
        v = s.v;
        t = s.t;
    }
    Ok(t)
}

// The verdict of all keys, with buffers of 8 * (RUNS + ENTRIES) + 4 * BUFFER bytes. It is not made a part of its caller, so that the buffers are on the stack
// only where they are used.
#[inline(never)]
fn windowed<const RUNS: usize, const BUFFER: usize, const ENTRIES: usize>(
    points: u64,
    faces: &[u32],
) -> Result<(), Refusal>
    requires accepted { Faces points faces.now }
    requires entries_fit { 4 < ENTRIES }
    requires bounded { RUNS + BUFFER + ENTRIES < 2 ^ 32 }
    ensures { Right (halves faces.now points (length faces.now)) points result }
{
    let mut ends = [0u32; RUNS];
    let mut counts = [0u32; RUNS];
    let mut buffer = [0u32; BUFFER];
    let mut entries = [0u64; ENTRIES];
    let t = all(
        points,
        faces,
        &mut ends,
        &mut buffer,
        &mut counts,
        &mut entries,
    )?;
    halves::judge(points, t)
}

// The verdict of the edge call on 7 and 8: up to 4096 faces with a small buffer, up to 65536 corners of 32768 points with buffers of 672 KB, and else of
// 1.75 MB.
pub fn decide(points: u64, faces: &[u32]) -> Result<(), Refusal>
    requires { Faces points faces.now }
    ensures { Right (halves faces.now points (length faces.now)) points result }
{
    if faces.len() <= 12288 {
        return halves::decide(points, faces);
    }
    if faces.len() <= 65536 && points <= 32768 {
        return windowed::<16384, 131072, 4096>(points, faces);
    }
    windowed::<32768, 262144, 65536>(points, faces)
}
