// Refusals 7 and 8 of the edge call from the faces alone: nothing is lent but the faces, so that a refusal changes no buffer.
//
// The step of a face from v to u has two half entries: 2 * (v * P + u), as it begins at v, and 2 * (u * P + v) + 1, as it ends at u. Half of
// one is its key, a vertex and the other end. In rising order of keys one scan finds the first edge with more than two users and its position,
// and for each vertex how many boundary edges it begins and ends. The half entries of a range of keys are gathered in a buffer on the stack,
// as many ranges after each other as it takes.
#![tactic(auto)]

ghost use Rattle.std.specs.Prelude.{◌≡◌, ◌+◌, ◌*◌, ◌/◌, ◌%◌, ◌^◌, ◌≤◌, ◌<◌, ◌&&◌, leb, ltb, length};
ghost use Rattle.halves.specs.Split.{SplitGives, SpanGives, EvensGives};
ghost use Rattle.halves.specs.Scan.{one, users_of, out_of, into_of, StartGives, FaultGives, CloseGives, VisitAsks, VisitGives};
ghost use Rattle.halves.specs.Walk.{WalkAsks, WalkGives};
ghost use Rattle.halves.specs.Gather.{next_of, halves, ShrinkAsks, ShrinkGives, PutAsks, PutGives, BothAsks, BothGives, GatherAsks, GatherGives, RoundsAsks, RoundsGives};
ghost use Rattle.refuse.specs.Accepted.{Faces};
ghost use Rattle.halves.specs.Right.{Right, JudgeGives};

use refuse::Refusal;

// Of the n entries from `s` on puts those whose key is below `mid` first, and returns how many they are.
fn split(buffer: &mut [u64], s: usize, n: usize, mid: u64) -> usize
    requires { s + n ≤ length buffer.old }
    ensures { SplitGives buffer.old s n mid buffer.new result }
{
    let mut m = 0;
    for i in 0..n {
        let x = buffer[s + i];
        if x / 2 < mid {
            buffer[s + i] = buffer[s + m];
            buffer[s + m] = x;
            m += 1;
        }
    }
    m
}

// The least and the greatest key of some entries.
#[derive(Clone, Copy, Debug, PartialEq, Eq)]
struct Reach {
    low: u64,
    high: u64,
}

// The least and the greatest key of the n entries from `s` on, of which there is one at least.
fn span(buffer: &[u64], s: usize, n: usize) -> Reach
    requires { (s + n ≤ length buffer.now) × (0 < n) }
    ensures { SpanGives buffer.now s n result.low result.high }
{
    let mut low = buffer[s] / 2;
    let mut high = low;
    for i in 1..n {
        let k = buffer[s + i] / 2;
        low = low.min(k);
        high = high.max(k);
    }
    Reach { low, high }
}

// How many of the n entries from `s` on are even: those that begin at their vertex.
fn evens(buffer: &[u64], s: usize, n: usize) -> usize
    requires { s + n ≤ length buffer.now }
    ensures { EvensGives buffer.now s n result }
{
    let mut b: usize = 0;
    for i in 0..n {
        if buffer[s + i] % 2 == 0 {
            b += 1;
        }
    }
    b
}

// What is known of the keys that are passed, none of whose edges has more than two users: how many edges they have, the last vertex, how many
// boundary edges begin and end there, and the first vertex before it that is at fault.
#[derive(Clone, Copy, Debug, PartialEq, Eq)]
pub struct State {
    pub unique: u64,
    pub at: u64,
    pub begins: u64,
    pub ends: u64,
    pub bad: Option<u64>,
}

// The vertex t.at, if it is at fault: it does not begin as many boundary edges as it ends, or more than one.
fn fault(t: State) -> Option<u64>
    ensures { FaultGives t result }
{
    if t.begins != t.ends || 1 < t.begins {
        return Some(t.at);
    }
    None
}

// Judges the vertex t.at, whose keys are all passed, and goes on to v.
fn close(v: u64, t: State) -> State
    ensures { CloseGives v t result }
{
    if v == t.at {
        return t;
    }
    let bad = t.bad.or(fault(t));
    State {
        unique: t.unique,
        at: v,
        begins: 0,
        ends: 0,
        bad,
    }
}

// The users of the edge {v, u}, of which v has n half entries, b of them even: a step from v to itself has both its half entries at v.
fn users_of(v: u64, u: u64, n: u64, b: u64) -> u64
    ensures { result ≡ users_of v u n b }
{
    if v == u { b } else { n }
}

// How many boundary edges begin at a vertex by a key with b even half entries.
fn out_of(users: u64, b: u64) -> u64
    ensures { result ≡ out_of users b }
{
    if users == 1 {
        return b;
    }
    0
}

// How many end there, with e odd half entries.
fn into_of(v: u64, u: u64, users: u64, e: u64) -> u64
    ensures { result ≡ into_of v u users e }
{
    if users == 1 {
        if v == u {
            return 1;
        }
        return e;
    }
    0
}

// 1 where v is the lower end of the edge, as an edge is written from its lower end, else 0.
fn lower(v: u64, u: u64) -> u64
    ensures { result ≡ one (leb v u) }
{
    if v <= u {
        return 1;
    }
    0
}

// Whether the key is an edge, written from its lower end, that occurs more than twice.
fn crowds(v: u64, u: u64, users: u64) -> bool
    ensures { result ≡ (leb v u && ltb 2 users) }
{
    v <= u && 2 < users
}

// Takes in the key k, of which there are n half entries, b of them even. An edge with more than two users is refused with its position.
pub fn visit(points: u64, k: u64, n: u64, b: u64, t: State) -> Result<State, Refusal>
    requires { VisitAsks points k n b t }
    ensures { VisitGives points k n b t result }
{
    let v = k / points;
    let u = k % points;
    let o = close(v, t);
    let users = users_of(v, u, n, b);
    if crowds(v, u, users) {
        return Err(Refusal::CrowdedEdge(o.unique as usize));
    }
    let l = lower(v, u);
    let x = out_of(users, b);
    let y = into_of(v, u, users, n - b);
    Ok(State {
        unique: o.unique + l,
        at: o.at,
        begins: o.begins + x,
        ends: o.ends + y,
        bad: o.bad,
    })
}

// Takes in all keys from `from` up to `to`, whose half entries are the n from `s` on: the range is halved until it has one key.
pub fn walk(
    buffer: &mut [u64],
    s: usize,
    n: usize,
    from: u64,
    to: u64,
    points: u64,
    t: State,
) -> Result<State, Refusal>
    requires { WalkAsks buffer.old s n from to points t }
    ensures { WalkGives buffer.old s n from to points t buffer.new result }
{
    if n == 0 {
        return Ok(t);
    }
    let sp = span(buffer, s, n);
    let low = sp.low;
    let high = sp.high;
    if low == high {
        let b = evens(buffer, s, n);
        return visit(points, low, n as u64, b as u64, t);
    }
    let mid = low + (high - low) / 2 + 1;
    let m = split(buffer, s, n, mid);
    let t1 = walk(buffer, s, m, from, mid, points, t)?;
    walk(buffer, s + m, n - m, mid, to, points, t1)
}

// How many entries have a key below x.
fn under(buffer: &[u64], x: u64) -> usize {
    // A loop and not `filter(..).count()`, which takes its entries one by one and eight times as long.
    let mut c: usize = 0;
    for i in 0..buffer.len() {
        if buffer[i] / 2 < x {
            c += 1;
        }
    }
    c
}

// A key between `from` and `to` that parts the entries into two heaps of some size, where there is one.
fn cut(buffer: &[u64], from: u64, to: u64) -> u64
    requires { from + 1 < to }
    ensures { (from < result) × (result < to) }
{
    let n = buffer.len();
    let few = n / 8;
    let most = n - n / 8;
    let mut l = from;
    let mut h = to;
    while 1 < h - l {
        let m = l + (h - l) / 2;
        let c = under(buffer, m);
        if c < few {
            l = m;
        } else {
            if c <= most {
                return m;
            }
            h = m;
        }
    }
    if from < l {
        return l;
    }
    if h < to {
        return h;
    }
    from + 1
}

// The n half entries at the buffer's front are all those of a range of keys, which ends before `to`.
#[derive(Clone, Copy, Debug, PartialEq, Eq)]
pub struct Got {
    pub to: u64,
    pub n: usize,
}

// Makes room in a full buffer: the upper part of the range is left for later, unless the range is one key.
fn shrink(buffer: &mut [u64], from: u64, to: u64) -> Got
    requires { ShrinkAsks buffer.old from to }
    ensures { ShrinkGives buffer.old from to buffer.new result.n result.to }
{
    let size = buffer.len();
    let mut h = to;
    let mut n = size;
    while n == size {
        if h == from + 1 {
            return Got { to: h, n };
        }
        let m = cut(buffer, from, h);
        n = split(buffer, 0, size, m);
        h = m;
    }
    Got { to: h, n }
}

// Puts the half entry 2 * k + d into the buffer, if k is in the range.
fn put(buffer: &mut [u64], n: usize, from: u64, to: u64, k: u64, d: u64) -> Got
    requires { PutAsks buffer.old n from to k d }
    ensures { PutGives buffer.old n from to k d buffer.new result.n result.to }
{
    if k < from || to <= k {
        return Got { to, n };
    }
    buffer[n] = 2 * k + d;
    if n + 1 < buffer.len() {
        return Got { to, n: n + 1 };
    }
    shrink(buffer, from, to)
}

// Puts the two half entries of the step from v to u.
fn put_both(buffer: &mut [u64], n: usize, from: u64, to: u64, points: u64, v: u64, u: u64) -> Got
    requires { BothAsks buffer.old n from to points v u }
    ensures { BothGives buffer.old n from to points v u buffer.new result.n result.to }
{
    let g = put(buffer, n, from, to, v * points + u, 0);
    let h = g.to;
    let m = g.n;
    if m == buffer.len() {
        return g;
    }
    put(buffer, m, from, h, u * points + v, 1)
}

// The place of the corner that follows the one at place i of the flat list, in its face.
pub fn next(i: usize) -> usize
    requires { i + 1 < 2 ^ 64 }
    ensures { result ≡ next_of i }
{
    if i % 3 == 2 {
        return i - 2;
    }
    i + 1
}

// Gathers the half entries with keys from `from` up to as high as the buffer holds them all, or fills the buffer with one key.
fn gather(points: u64, faces: &[u32], from: u64, top: u64, buffer: &mut [u64]) -> Got
    requires { GatherAsks faces.now points from top buffer.old }
    ensures { GatherGives faces.now points from top buffer.old buffer.new result.n result.to }
{
    let size = buffer.len();
    let mut to = top;
    let mut n: usize = 0;
    for i in 0..faces.len() {
        let j = next(i);
        let v = faces[i] as u64;
        let u = faces[j] as u64;
        let g = put_both(buffer, n, from, to, points, v, u);
        to = g.to;
        n = g.n;
        if n == size {
            return Got { to, n };
        }
    }
    Got { to, n }
}

// What is known before the first key.
pub fn start() -> State
    ensures { StartGives result }
{
    State {
        unique: 0,
        at: 0,
        begins: 0,
        ends: 0,
        bad: None,
    }
}

// Takes in the keys from `from` up to `top`, as many at a time as the buffer holds.
pub fn rounds(
    points: u64,
    faces: &[u32],
    from: u64,
    top: u64,
    t: State,
    buffer: &mut [u64],
) -> Result<State, Refusal>
    requires { RoundsAsks faces.now points from top t buffer.old }
    ensures { RoundsGives faces.now points top result }
{
    let size = buffer.len();
    let mut low = from;
    let mut s = t;
    while low < top {
        let g = gather(points, faces, low, top, buffer);
        let n = g.n;
        let to = g.to;
        if n == size {
            return Err(Refusal::CrowdedEdge(s.unique as usize));
        }
        s = walk(buffer, 0, n, low, to, points, s)?;
        low = to;
    }
    Ok(s)
}

// The verdict when all keys are passed.
pub fn judge(points: u64, t: State) -> Result<(), Refusal>
    ensures { JudgeGives points t result }
{
    let o = close(points, t);
    match o.bad {
        Some(v) => Err(Refusal::BadBoundary(v as usize)),
        None => Ok(()),
    }
}

// The verdict of the edge call on 7 and 8, with a buffer of 32 KB.
pub fn decide(points: u64, faces: &[u32]) -> Result<(), Refusal>
    requires { Faces points faces.now }
    ensures { Right (halves faces.now points (length faces.now)) points result }
{
    let mut buffer = [0u64; 4096];
    let s = start();
    let t = rounds(points, faces, 0, points * points, s, &mut buffer)?;
    judge(points, t)
}
