// Pass 5 by search, over the input faces and one word a face: the groups of corners at a point, and how long the lines are that tell the pass.
// Bits 2 and 3 of a word say how far the search for a group has come: 0 not met, 1 waits, 2 gone through. Bits 4 to 6: the group of corner 0, 1, 2 has been met.
#![tactic(auto)]

ghost use Rattle.std.specs.Prelude.{◌≡◌, cond, eqb};
ghost use Rattle.face_index.specs.Index.{Indexed};
ghost use Rattle.searched_fans.specs.Reaching as by;

use byte_rows::number_length;
use face_index::among;
use face_words::{stands, view};

// Whether face g stands, was not met, and has both v and x.
fn meets(faces: &[u32], words: &[u32], g: usize, v: u32, x: u32) -> bool
    requires { by.MeetAsks faces.now words.now g }
    ensures { result ≡ by.meets faces.now words.now v x g }
{
    if words[g] / 4 % 4 != 0 {
        return false;
    }
    if !stands(words, g) {
        return false;
    }
    let c = view(faces, words, g);
    among(v, c.a, c.b, c.c) && among(x, c.a, c.b, c.c)
}

// The next face to look at from `from` on among those that may have both a and b.
fn next_face(faces: &[u32], index: &[u32], a: u32, b: u32, from: usize) -> usize
    requires next_asks { by.NextAsks faces.now from }
    requires indexed { Indexed faces.now index.now }
    ensures { by.NextGives faces.now a b from result }
{
    face_index::next_indexed(faces, index, a, b, from)
}

// Lets each face wait that stands, was not met, and has both v and x, where x is another point than v.
fn cross(faces: &[u32], index: &[u32], words: &mut [u32], v: u32, x: u32)
    requires cross_asks { by.CrossAsks faces.now words.old }
    requires indexed { Indexed faces.now index.now }
    ensures { by.CrossGives faces.now words.old v x words.new }
{
    if x == v {
        return;
    }
    let mut g = next_face(faces, index, v, x, 0);
    while g < words.len() {
        if meets(faces, words, g, v, x) {
            words[g] = words[g] + 4;
        }
        g = next_face(faces, index, v, x, g + 1);
    }
}

// Goes through face i, which waits: each face waits that was not met and shares v and another point with it.
fn go_through(faces: &[u32], index: &[u32], words: &mut [u32], i: usize, v: u32)
    requires through_asks { by.ThroughAsks faces.now words.old i }
    requires indexed { Indexed faces.now index.now }
    ensures { by.ThroughGives faces.now words.old i v words.new }
{
    let c = view(faces, words, i);
    words[i] = words[i] + 4;
    cross(faces, index, words, v, c.a);
    cross(faces, index, words, v, c.b);
    cross(faces, index, words, v, c.c);
}

// The first face that waits.
fn next_waiting(words: &[u32]) -> Option<usize>
    ensures { by.WaitingGives words.now result }
{
    words.iter().position(|word| *word / 4 % 4 == 1)
}

// The flag of a corner, if it is v.
fn flag(x: u32, v: u32, bit: u32) -> u32
    ensures { result ≡ cond (eqb x v) bit 0 }
{
    if x == v { bit } else { 0 }
}

// The flags of the corners that are v.
fn flags(a: u32, b: u32, c: u32, v: u32) -> u32
    ensures { result ≡ by.flags_of a b c v }
{
    flag(a, v, 16) + flag(b, v, 32) + flag(c, v, 64)
}

// Flags the corners at v of each face that was gone through, which is then not met any more. Returns the bytes of their numbers, each after a tab.
fn settle(faces: &[u32], words: &mut [u32], v: u32) -> usize
    requires { by.CrossAsks faces.now words.old }
    ensures { by.SettleGives faces.now words.old v words.new result }
{
    let mut bytes = 0;
    for g in 0..words.len() {
        if words[g] / 4 % 4 == 2 {
            let c = view(faces, words, g);
            words[g] = words[g] - 8 + flags(c.a, c.b, c.c, v);
            bytes = bytes + 1 + number_length(g as u32);
        }
    }
    bytes
}

// Flags the corners at v in the group of face f's, which has v and another point. Returns the bytes of the numbers of the group's faces, each after a tab.
pub fn reach(faces: &[u32], index: &[u32], words: &mut [u32], f: usize, v: u32) -> usize
    requires reach_asks { by.ReachAsks faces.now words.old f v }
    requires indexed { Indexed faces.now index.now }
    ensures { (q : by.ReachAsks faces.now words.old f v) → by.ReachGives q words.new result }
{
    words[f] = words[f] + 4;
    let mut waiting = Some(f);
    while let Some(i) = waiting {
        go_through(faces, index, words, i, v);
        waiting = next_waiting(words);
    }
    settle(faces, words, v)
}
