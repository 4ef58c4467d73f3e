// The checks that calls share, each as its line of the table of document 01, "Numbers a call may give back": for any lengths and any bits. What a call
// refuses, in its order, stands in the crate of its refusal.

#![tactic(auto)]

ghost use Rattle.std.specs.Prelude.{◌≡◌, ◌&&◌, ◌/◌, ◌<◌, length};
ghost use Rattle.std.specs.Float.Ieee.{le};
ghost use Rattle.rules.specs.Mesh.{points_of, faces_of, point, face};
ghost use Rattle.rules.specs.Refusal as rule;
ghost use Rattle.rules.specs.Rooms as room;
ghost use Rattle.refuse.specs.Verdicts as by;

// Why a call is refused: a line of the table, with the place there.
#[derive(Clone, Copy, Debug, PartialEq, Eq)]
pub enum Refusal {
    BadLength(usize),
    TooLarge(usize),
    BadSetting(usize),
    BadPoint(usize),
    BadCorner(usize),
    ShortRoom(usize),
    CrowdedEdge(usize),
    BadBoundary(usize),
    BadLabel(usize),
    LabelCount,
    BadFile,
    BadPly,
    NotATriple(usize),
    BadList(usize),
}

impl Refusal {
    // The number that stands for it in the table.
    pub fn number(self) -> u32
        ensures { result ≡ by.number_of self }
    {
        match self {
            Refusal::BadLength(_) => 1,
            Refusal::TooLarge(_) => 2,
            Refusal::BadSetting(_) => 3,
            Refusal::BadPoint(_) => 4,
            Refusal::BadCorner(_) => 5,
            Refusal::ShortRoom(_) => 6,
            Refusal::CrowdedEdge(_) => 7,
            Refusal::BadBoundary(_) => 8,
            Refusal::BadLabel(_) => 9,
            Refusal::LabelCount => 10,
            Refusal::BadFile => 12,
            Refusal::BadPly => 13,
            Refusal::NotATriple(_) => 14,
            Refusal::BadList(_) => 15,
        }
    }

    // The place in what is refused; 0 where there is one place alone.
    pub fn place(self) -> usize
        ensures { result ≡ by.place_of self }
    {
        match self {
            Refusal::BadLength(place)
            | Refusal::TooLarge(place)
            | Refusal::BadSetting(place)
            | Refusal::BadPoint(place)
            | Refusal::BadCorner(place)
            | Refusal::ShortRoom(place)
            | Refusal::CrowdedEdge(place)
            | Refusal::BadBoundary(place)
            | Refusal::BadLabel(place)
            | Refusal::NotATriple(place)
            | Refusal::BadList(place) => place,
            Refusal::LabelCount | Refusal::BadFile | Refusal::BadPly => 0,
        }
    }
}

// The largest coordinate, 2^100.
const FAR: f64 = 1267650600228229401496703205376.0;

// ---- 1 and 2: lengths and counts

// 2: P or F too large.
pub fn counts(p: usize, f: usize) -> Result<(), Refusal>
    ensures { by.check_of result ≡ rule.decided (by.counts p f) }
{
    if rules::MOST_POINTS < p {
        return Err(Refusal::TooLarge(0));
    }
    if rules::MOST_FACES < f {
        return Err(Refusal::TooLarge(1));
    }
    Ok(())
}

// 1 and 2: points or faces length no multiple of 3; P or F too large.
pub fn sizes(points: usize, faces: usize) -> Result<(), Refusal>
    ensures { by.check_of result ≡ rule.decided (by.sizes points faces) }
{
    if points % 3 != 0 {
        return Err(Refusal::BadLength(0));
    }
    if faces % 3 != 0 {
        return Err(Refusal::BadLength(1));
    }
    counts(points / 3, faces / 3)
}

// ---- 3: settings

// Whether x lies in low..high; NaN does not.
fn within(low: f64, x: f64, high: f64) -> bool
    ensures { result ≡ (le low x && le x high) }
{
    if low <= x {
        return x <= high;
    }
    false
}

// 3: s not in 0..1 (NaN included), or options above 63.
pub fn settings(s: f64, options: u32) -> Result<(), Refusal>
    ensures { by.check_of result ≡ rule.decided (by.settings s options) }
{
    if within(0.0, s, 1.0) {
        if options <= 63 {
            return Ok(());
        }
        return Err(Refusal::BadSetting(1));
    }
    Err(Refusal::BadSetting(0))
}

// ---- 4 and 5: points and faces

// Coordinates are finite and at most 2^100 in magnitude.
pub fn in_domain(x: f64) -> bool
    ensures { result ≡ rule.in_domain x }
{
    within(-FAR, x, FAR)
}

// Whether point i has a coordinate outside its domain.
fn far(points: &[f64], i: usize) -> bool
    requires { i < length points.now / 3 }
    ensures { result ≡ by.far (point (points_of points.now) i) }
{
    let k = 3 * i;
    if in_domain(points[k]) {
        if in_domain(points[k + 1]) {
            if in_domain(points[k + 2]) {
                return false;
            }
            return true;
        }
        return true;
    }
    true
}

// 4: a coordinate outside its domain, at the first such point. Unused points are checked too.
fn coordinates(points: &[f64]) -> Result<(), Refusal>
    ensures { by.check_of result ≡ rule.no4 (points_of points.now) }
{
    let n = points.len() / 3;
    for i in 0..n {
        if far(points, i) {
            return Err(Refusal::BadPoint(i));
        }
    }
    Ok(())
}

// Whether face i has a corner >= P.
fn astray(p: usize, faces: &[u32], i: usize) -> bool
    requires { i < length faces.now / 3 }
    ensures { result ≡ by.astray p (face (faces_of faces.now) i) }
{
    let k = 3 * i;
    if p <= faces[k] as usize {
        return true;
    }
    if p <= faces[k + 1] as usize {
        return true;
    }
    p <= faces[k + 2] as usize
}

// 5: a corner >= P, at the first such face.
pub fn corners(p: usize, faces: &[u32]) -> Result<(), Refusal>
    ensures { by.check_of result ≡ rule.no5 p (faces_of faces.now) }
{
    let n = faces.len() / 3;
    for i in 0..n {
        if astray(p, faces, i) {
            return Err(Refusal::BadCorner(i));
        }
    }
    Ok(())
}

// 4 and 5.
pub fn contents(points: &[f64], faces: &[u32]) -> Result<(), Refusal>
    ensures { by.check_of result ≡ rule.decided (by.contents points.now faces.now) }
{
    coordinates(points)?;
    corners(points.len() / 3, faces)
}

// ---- 9 and 10: labels

// Whether a label is neither 4,294,967,295 nor below the patch count.
fn strange(count: usize, label: u32) -> bool
    ensures { result ≡ by.strange count label }
{
    if label == rules::NO_PATCH {
        return false;
    }
    count <= label as usize
}

// 9: a label that is neither 4,294,967,295 nor below the patch count, at the first such face.
fn known(count: usize, labels: &[u32]) -> Result<(), Refusal>
    ensures { by.check_of result ≡ rule.no9 count labels.now }
{
    for i in 0..labels.len() {
        if strange(count, labels[i]) {
            return Err(Refusal::BadLabel(i));
        }
    }
    Ok(())
}

// 9, in all labels given, and 10: the number of labels differs from F.
pub fn labelling(count: usize, labels: &[u32], f: usize) -> Result<(), Refusal>
    ensures { by.check_of result ≡ rule.decided (by.labelling count labels.now f) }
{
    known(count, labels)?;
    if labels.len() == f {
        return Ok(());
    }
    Err(Refusal::LabelCount)
}

// ---- 6: the work room that three calls share

// The work room of repair, edges and check: 16P+64F+64.
pub fn stated_work(p: usize, f: usize) -> usize
    requires { by.Limits p f }
    ensures { result ≡ room.work_room p f }
{
    16 * p + 64 * f + 64
}
