// The entries of an edge, or of a step, found by a search through the faces that stand: how many there are, which face ranks first among them, and who is
// kept at a crowded edge. Which faces are looked at is told by an index of the faces.
#![tactic(auto)]

ghost use Rattle.std.specs.Prelude.{◌≡◌, length};
ghost use Rattle.rules.specs.Lists.{filter};
ghost use Rattle.rules.specs.Steps as steps;
ghost use Rattle.measure.specs.Measure as measured;
ghost use Rattle.face_words.specs.Words.{takers_at};
ghost use Rattle.face_words.specs.Views.{seen_as, ViewAsks, Worded};
ghost use Rattle.face_index.specs.Index.{Indexed};
ghost use Rattle.entry_search.specs.Searching as search;
ghost use Rattle.entry_search.specs.Choosing as choosing;

use face_words::Corners;
use rank::{Choice, outranks, same};

// Whether the step from x to y is along the step from a to b, or, where direction does not matter, along its edge.
#[tactic(auto, using(crate::proofs::Entries::along_is))]
fn along(directed: bool, a: u32, b: u32, x: u32, y: u32) -> bool
    ensures { result ≡ search.along directed (steps.step a b) (steps.step x y) }
{
    same(a, b, x, y) || !directed && same(b, a, x, y)
}

// How many of the three steps of a face are along the step from a to b, or along its edge.
#[tactic(auto, using(crate::proofs::Entries::three_pass), unfolding(rules::specs::Steps::steps))]
pub fn uses(g: Corners, directed: bool, a: u32, b: u32) -> usize
    ensures { result ≡ length (filter (search.along directed (steps.step a b)) (steps.steps (seen_as g 0))) }
{
    let x = usize::from(along(directed, a, b, g.a, g.b));
    let y = usize::from(along(directed, a, b, g.b, g.c));
    let z = usize::from(along(directed, a, b, g.c, g.a));
    x + y + z
}

// How many entries face f has there, none if it does not stand.
fn entries_of(faces: &[u32], words: &[u32], f: usize, directed: bool, a: u32, b: u32) -> usize
    requires { ViewAsks faces.now words.now f }
    ensures { result ≡ search.uses_at faces.now words.now (search.along directed (steps.step a b)) f }
{
    if face_words::stands(words, f) {
        return uses(face_words::view(faces, words, f), directed, a, b);
    }
    0
}

// How many entries the step from a to b has, or its edge.
pub fn count_entries(
    faces: &[u32],
    index: &[u32],
    words: &[u32],
    directed: bool,
    a: u32,
    b: u32,
) -> usize
    requires worded { Worded faces.now words.now }
    requires indexed { Indexed faces.now index.now }
    ensures { result ≡ length (takers_at (search.along directed (steps.step a b)) faces.now words.now (length words.now)) }
{
    let mut n = 0;
    let mut f = face_index::next_indexed(faces, index, a, b, 0);
    while f < words.len() {
        n += entries_of(faces, words, f, directed, a, b);
        f = face_index::next_indexed(faces, index, a, b, f + 1);
    }
    n
}

// Whether the face anywhere steps from a to b.
#[tactic(auto, unfolding(rules::specs::Steps::walks, rules::specs::Lists::any))]
pub fn walks(g: Corners, a: u32, b: u32) -> bool
    ensures { result ≡ steps.walks (seen_as g 0) (steps.step a b) }
{
    same(a, b, g.a, g.b) || same(a, b, g.b, g.c) || same(a, b, g.c, g.a)
}

// Whether face f with the corners g has an entry that is wanted, not counting one entry of face `but`. Where `walk` says so, it is wanted only of a face that
// steps from the edge's lower to its higher end, or only of one that does not.
pub fn admits(
    g: Corners,
    f: usize,
    directed: bool,
    a: u32,
    b: u32,
    walk: Option<bool>,
    but: Option<usize>,
) -> bool
    ensures { result ≡ choosing.admits walk but directed (steps.step a b) (seen_as g 0) f }
{
    let u = uses(g, directed, a, b);
    let passed = usize::from(Some(f) == but);
    if u <= passed {
        return false;
    }
    match walk {
        Some(forward) => walks(g, a.min(b), a.max(b)) == forward,
        None => true,
    }
}

// Of the best so far, if there is one, and face f, with the corners g, the one that ranks first.
fn better(points: &[f64], g: Corners, f: usize, best: Option<Choice>) -> Choice
    requires { measured.Corners points.now g.a g.b g.c }
    ensures { choosing.BetterGives points.now g f best result }
{
    let q = measure::quality(points, g.a, g.b, g.c);
    match best {
        Some(b) if !outranks(q, f, b.quality, b.face) => b,
        _ => Choice {
            face: f,
            quality: q,
        },
    }
}

// The best so far when face f was looked at.
fn consider(
    points: &[f64],
    faces: &[u32],
    words: &[u32],
    f: usize,
    directed: bool,
    a: u32,
    b: u32,
    walk: Option<bool>,
    but: Option<usize>,
    best: Option<Choice>,
) -> Option<Choice>
    requires { choosing.ConsiderAsks points.now faces.now words.now f best }
    ensures { choosing.ConsiderGives points.now faces.now words.now f directed (steps.step a b) walk but best result }
{
    if face_words::stands(words, f) {
        let g = face_words::view(faces, words, f);
        if admits(g, f, directed, a, b, walk, but) {
            return Some(better(points, g, f, best));
        }
    }
    best
}

// The face that ranks first among the wanted entries, see `admits`.
pub fn best_entry(
    points: &[f64],
    faces: &[u32],
    index: &[u32],
    words: &[u32],
    directed: bool,
    a: u32,
    b: u32,
    walk: Option<bool>,
    but: Option<usize>,
) -> Option<usize>
    requires best_asks { choosing.BestAsks points.now faces.now words.now }
    requires indexed { Indexed faces.now index.now }
    ensures { choosing.BestGives points.now faces.now words.now directed (steps.step a b) walk but result }
{
    let mut best = None;
    let mut f = face_index::next_indexed(faces, index, a, b, 0);
    while f < words.len() {
        best = consider(points, faces, words, f, directed, a, b, walk, but, best);
        f = face_index::next_indexed(faces, index, a, b, f + 1);
    }
    best.map(|choice| choice.face)
}

// Pass 3's second choice at the edge from a to b, whose first choice is `first`: the best of those whose walk differs, or, if none differs, of the other
// entries.
fn second(
    points: &[f64],
    faces: &[u32],
    index: &[u32],
    words: &[u32],
    a: u32,
    b: u32,
    first: usize,
) -> usize
    requires second_asks { choosing.SecondAsks points.now faces.now words.now (steps.step a b) first }
    requires indexed { Indexed faces.now index.now }
    ensures { result ≡ choosing.second_at points.now faces.now words.now (steps.step a b) first }
{
    let g = face_words::view(faces, words, first);
    let forward = walks(g, a.min(b), a.max(b));
    let other = best_entry(
        points,
        faces,
        index,
        words,
        false,
        a,
        b,
        Some(!forward),
        None,
    );
    if let Some(f) = other {
        return f;
    }
    best_entry(points, faces, index, words, false, a, b, None, Some(first)).unwrap()
}

// Whether face f is kept at the edge from a to b, which has at least two entries.
pub fn kept(
    points: &[f64],
    faces: &[u32],
    index: &[u32],
    words: &[u32],
    a: u32,
    b: u32,
    f: usize,
) -> bool
    requires kept_asks { choosing.KeptAsks points.now faces.now words.now (steps.step a b) }
    requires indexed { Indexed faces.now index.now }
    ensures { result ≡ choosing.kept_at points.now faces.now words.now (steps.step a b) f }
{
    let first = best_entry(points, faces, index, words, false, a, b, None, None).unwrap();
    f == first || f == second(points, faces, index, words, a, b, first)
}
