// Orientation, the first half of pass 4, by a search on the words of the faces. A face that is visited has bit 3 of its word, one that is exchanged bit 1. The
// stack is a chain: from bit 8 on the word of a face on it has the number of the face below. At the end only bits 0 and 1 are left.
#![tactic(auto)]

ghost use Rattle.std.specs.Prelude.{◌≡◌, not, ◌||◌, cond, length};
ghost use Rattle.rules.specs.Steps.{step};
ghost use Rattle.face_words.specs.Words.{place};
ghost use Rattle.face_index.specs.Index.{Indexed};
ghost use Rattle.searched_walk.specs.Walking as walking;

// What the walk has beside the words: the top face of the stack, how many are on it, how many faces were exchanged, whether the present component is marked,
// and how many components before it are.
#[derive(Clone, Copy, Debug, PartialEq, Eq)]
struct Hand {
    top: u32,
    size: usize,
    exchanges: usize,
    mark: bool,
    marks: usize,
}

// How many faces were exchanged, and how many components have faces that disagree.
#[derive(Clone, Copy, Debug, PartialEq, Eq)]
pub struct Turned {
    pub reoriented: usize,
    pub components: usize,
}

// Whether face f is visited.
fn seen(words: &[u32], f: usize) -> bool
    requires { walking.Within words.now f }
    ensures { result ≡ walking.seen words.now f }
{
    words[f] / 8 % 2 == 1
}

// What a face that is exchanged adds to its word.
fn turn(agrees: bool) -> u32
    ensures { result ≡ cond agrees 0 2 }
{
    if agrees { 0 } else { 2 }
}

// 1 for a test that fails.
fn one_more(b: bool) -> usize
    ensures { result ≡ cond b 0 1 }
{
    if b { 0 } else { 1 }
}

// A mark is made where a face does not agree.
fn remark(mark: bool, agrees: bool) -> bool
    ensures { result ≡ (mark || not agrees) }
{
    mark || !agrees
}

// The neighbour g across the step from a to b: visited, it marks the component if it disagrees; else it is visited, exchanged if it disagrees, and pushed.
fn meet(faces: &[u32], words: &mut [u32], g: usize, a: u32, b: u32, hand: Hand) -> Hand
    requires { walking.MeetAsks faces.now words.old hand g }
    ensures { walking.MeetGives faces.now words.old hand g (step a b) words.new result }
{
    let agrees = entry_search::walks(face_words::view(faces, words, g), b, a);
    if seen(words, g) {
        return Hand {
            mark: remark(hand.mark, agrees),
            ..hand
        };
    }
    words[g] = words[g] + 8 + turn(agrees) + 256 * hand.top;
    Hand {
        top: g as u32,
        size: hand.size + 1,
        exchanges: hand.exchanges + one_more(agrees),
        ..hand
    }
}

// The neighbour g is met so many times.
fn meet_times(
    faces: &[u32],
    words: &mut [u32],
    g: usize,
    a: u32,
    b: u32,
    times: usize,
    hand: Hand,
) -> Hand
    requires { walking.MeetAsks faces.now words.old hand g }
    ensures { walking.TimesGives faces.now words.old hand g (step a b) times words.new result }
{
    let mut now = hand;
    for _time in 0..times {
        now = meet(faces, words, g, a, b, now);
    }
    now
}

// Face j meets face g across the step from a to b, once for each of its entries along that edge, if it stands and is another face.
fn meet_face(
    faces: &[u32],
    words: &mut [u32],
    j: usize,
    g: usize,
    a: u32,
    b: u32,
    hand: Hand,
) -> Hand
    requires { walking.FaceAsks faces.now words.old hand g }
    ensures { walking.FaceGives faces.now words.old hand j g (step a b) words.new result }
{
    if g == j {
        return hand;
    }
    if !face_words::stands(words, g) {
        return hand;
    }
    let times = entry_search::uses(face_words::view(faces, words, g), false, a, b);
    meet_times(faces, words, g, a, b, times, hand)
}

// Face j crosses by the step from a to b: it meets the users of that edge, in order, itself skipped.
fn across(
    faces: &[u32],
    index: &[u32],
    words: &mut [u32],
    j: usize,
    a: u32,
    b: u32,
    hand: Hand,
) -> Hand
    requires meet_asks { walking.MeetAsks faces.now words.old hand j }
    requires indexed { Indexed faces.now index.now }
    ensures { walking.AcrossGives faces.now words.old hand j (step a b) words.new result }
{
    let mut now = hand;
    let mut g = face_index::next_indexed(faces, index, a, b, 0);
    while g < words.len() {
        now = meet_face(faces, words, j, g, a, b, now);
        g = face_index::next_indexed(faces, index, a, b, g + 1);
    }
    now
}

// Face j crosses its edges: its steps (0,1), (1,2), (2,0) as it stands.
fn cross_face(faces: &[u32], index: &[u32], words: &mut [u32], j: usize, hand: Hand) -> Hand
    requires meet_asks { walking.MeetAsks faces.now words.old hand j }
    requires indexed { Indexed faces.now index.now }
    ensures { walking.CrossGives faces.now words.old hand j words.new result }
{
    let v = face_words::view(faces, words, j);
    let first = across(faces, index, words, j, v.a, v.b, hand);
    let second = across(faces, index, words, j, v.b, v.c, first);
    across(faces, index, words, j, v.c, v.a, second)
}

// Takes a face off the stack, which crosses its edges.
fn pop(faces: &[u32], index: &[u32], words: &mut [u32], hand: Hand) -> Hand
    requires pop_asks { walking.PopAsks faces.now words.old hand }
    requires indexed { Indexed faces.now index.now }
    ensures { walking.PopGives faces.now words.old hand words.new result }
{
    let j = hand.top as usize;
    let rest = Hand {
        top: words[j] / 256,
        size: hand.size - 1,
        ..hand
    };
    cross_face(faces, index, words, j, rest)
}

// Takes face after face off the stack until it is empty, n at most: each is pushed only once.
fn empty_stack(faces: &[u32], index: &[u32], words: &mut [u32], n: usize, hand: Hand) -> Hand
    requires ready { walking.Ready faces.now words.old hand }
    requires indexed { Indexed faces.now index.now }
    ensures { walking.EmptyGives faces.now words.old hand n words.new result }
{
    let mut now = hand;
    for _turn in 0..n {
        if now.size == 0 {
            return now;
        }
        now = pop(faces, index, words, now);
    }
    now
}

// Walks the component of face f, which is unvisited; n faces stand.
fn component(
    faces: &[u32],
    index: &[u32],
    words: &mut [u32],
    n: usize,
    f: usize,
    hand: Hand,
) -> Hand
    requires start_asks { walking.StartAsks faces.now words.old hand n f }
    requires indexed { Indexed faces.now index.now }
    ensures { walking.ComponentGives faces.now words.old hand f words.new result }
{
    words[f] = words[f] + 8;
    let started = Hand {
        top: f as u32,
        size: 1,
        mark: false,
        ..hand
    };
    empty_stack(faces, index, words, n, started)
}

// Walks the component of face f, if that stands and is unvisited, and counts it if it is marked.
fn begin(faces: &[u32], index: &[u32], words: &mut [u32], n: usize, f: usize, hand: Hand) -> Hand
    requires begin_asks { walking.BeginAsks faces.now words.old hand n f }
    requires indexed { Indexed faces.now index.now }
    ensures { walking.BeginGives faces.now words.old hand f words.new result }
{
    if !face_words::stands(words, f) {
        return hand;
    }
    if seen(words, f) {
        return hand;
    }
    let walked = component(faces, index, words, n, f, hand);
    let marks = walked.marks + 1 - one_more(walked.mark);
    Hand { marks, ..walked }
}

// How many faces stand.
fn count_standing(words: &[u32]) -> usize
    ensures { result ≡ place words.now (length words.now) }
{
    let mut n = 0;
    for f in 0..words.len() {
        if face_words::stands(words, f) {
            n += 1;
        }
    }
    n
}

// Walks all components, starts by rising face.
fn walk_all(faces: &[u32], index: &[u32], words: &mut [u32], n: usize) -> Hand
    requires all_asks { walking.AllAsks faces.now words.old n }
    requires indexed { Indexed faces.now index.now }
    ensures { walking.AllGives faces.now words.old words.new result }
{
    let mut now = Hand {
        top: 0,
        size: 0,
        exchanges: 0,
        mark: false,
        marks: 0,
    };
    for f in 0..words.len() {
        now = begin(faces, index, words, n, f, now);
    }
    now
}

// Only bits 0 and 1 of each word are left.
fn clean(words: &mut [u32])
    ensures { walking.CleanGives words.old words.new }
{
    for word in words.iter_mut() {
        *word %= 4;
    }
}

// Orients the faces that stand: each agrees with the one from which it was reached. Returns how many were exchanged, and how many components have faces that
// disagree.
pub fn walk(faces: &[u32], index: &[u32], words: &mut [u32]) -> Turned
    requires walk_asks { walking.WalkAsks faces.now words.old }
    requires indexed { Indexed faces.now index.now }
    ensures { walking.TurnedGives faces.now words.old words.new result }
{
    let n = count_standing(words);
    let hand = walk_all(faces, index, words, n);
    clean(words);
    Turned {
        reoriented: hand.exchanges,
        components: hand.marks,
    }
}
