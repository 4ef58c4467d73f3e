// How long the lines are that tell pass 5, by search over the input faces and one word a face. Corner after corner in face order: one that is not flagged leads
// its group; if its point was met before, a point is split off for it. Bits 4 to 6 of a word: the corner's group has been met. Bits 7 to 9: the corner leads a group
// that is not the first one of its point.
#![tactic(auto)]

ghost use Rattle.std.specs.Prelude.{◌≡◌, ◌&&◌, eqb};
ghost use Rattle.face_index.specs.Index.{Indexed};
ghost use Rattle.searched_splits.specs.Splits as by;

use byte_rows::number_length;
use face_index::among;
use face_words::{corner, stands, view};
use searched_fans::reach;

// How many points are split off, and the bytes of the lines that tell them.
#[derive(Clone, Copy, Debug, PartialEq, Eq)]
pub struct Told {
    pub splits: usize,
    pub bytes: usize,
}

// The flag of corner k.
#[tactic(auto, unfolding(crate::specs::Splits::bit_of))]
pub fn bit(k: usize) -> u32
    ensures { result ≡ by.bit_of k }
{
    match k {
        0 => 16,
        1 => 32,
        _ => 64,
    }
}

// Whether corner k is flagged in a word.
fn flagged(word: u32, k: usize) -> bool
    ensures { result ≡ by.flagged_in word k }
{
    word / bit(k) % 2 == 1
}

// Whether one of the corners before corner k is v.
#[tactic(auto, unfolding(crate::specs::Splits::earlier_in))]
fn earlier(a: u32, b: u32, k: usize, v: u32) -> bool
    ensures { result ≡ by.earlier_in a b k v }
{
    match k {
        0 => false,
        1 => a == v,
        _ => a == v || b == v,
    }
}

// Whether face g stands and has v.
fn has_point(faces: &[u32], words: &[u32], g: usize, v: u32) -> bool
    requires { by.HasAsks faces.now words.now g }
    ensures { result ≡ by.has_point faces.now words.now v g }
{
    if !stands(words, g) {
        return false;
    }
    let c = view(faces, words, g);
    among(v, c.a, c.b, c.c)
}

// Whether a face before f stands and has v.
fn met(faces: &[u32], index: &[u32], words: &[u32], f: usize, v: u32) -> bool
    requires has_asks { by.HasAsks faces.now words.now f }
    requires indexed { Indexed faces.now index.now }
    ensures { result ≡ by.met_before faces.now words.now v f }
{
    let mut g = face_index::next_indexed(faces, index, v, v, 0);
    while g < f {
        if has_point(faces, words, g, v) {
            return true;
        }
        g = face_index::next_indexed(faces, index, v, v, g + 1);
    }
    false
}

// Whether v was met before corner k of face f.
pub fn met_at(faces: &[u32], index: &[u32], words: &[u32], f: usize, k: usize, v: u32) -> bool
    requires has_asks { by.HasAsks faces.now words.now f }
    requires indexed { Indexed faces.now index.now }
    ensures { result ≡ by.met_at faces.now words.now v f k }
{
    if met(faces, index, words, f, v) {
        return true;
    }
    let c = view(faces, words, f);
    earlier(c.a, c.b, k, v)
}

// Whether three corners are equal.
pub fn same(a: u32, b: u32, c: u32) -> bool
    ensures { result ≡ (eqb a b && eqb b c) }
{
    a == b && b == c
}

// Whether a face with three equal corners, of this word, takes the point that is split off for its corner k.
#[tactic(auto, unfolding(crate::specs::Splits::gives_in))]
pub fn gives(word: u32, k: usize) -> bool
    ensures { result ≡ by.gives_in word k }
{
    match k {
        0 => true,
        1 => word / 128 % 2 == 0,
        _ => false,
    }
}

// Flags the group of corner k of face f, which is v. Returns the bytes of the numbers of the faces that take a point split off for it, each after a tab.
fn close(faces: &[u32], index: &[u32], words: &mut [u32], f: usize, k: usize, v: u32) -> usize
    requires close_asks { by.CloseAsks faces.now words.old f k v }
    requires indexed { Indexed faces.now index.now }
    ensures { by.CloseGives faces.now words.old f k words.new result }
{
    let c = view(faces, words, f);
    if same(c.a, c.b, c.c) {
        let word = words[f];
        words[f] = word + bit(k);
        if gives(word, k) {
            return 1 + number_length(f as u32);
        }
        return 0;
    }
    reach(faces, index, words, f, v)
}

// Goes through corner k of face f, which stands.
fn split_corner(
    faces: &[u32],
    index: &[u32],
    words: &mut [u32],
    f: usize,
    k: usize,
    points: usize,
    told: Told,
) -> Told
    requires corner_asks { by.CornerAsks faces.now words.old f k points told.splits told.bytes }
    requires indexed { Indexed faces.now index.now }
    ensures { (q : by.CornerAsks faces.now words.old f k points told.splits told.bytes) → by.CornerGives q words.new result.splits result.bytes }
{
    if flagged(words[f], k) {
        return told;
    }
    let v = corner(faces, words, f, k);
    let extra = met_at(faces, index, words, f, k, v);
    let taken = close(faces, index, words, f, k, v);
    if !extra {
        return told;
    }
    words[f] = words[f] + 8 * bit(k);
    let old = number_length(v);
    let new = number_length((points + told.splits) as u32);
    Told {
        splits: told.splits + 1,
        bytes: told.bytes + 4 + old + new + taken,
    }
}

// Goes through the three corners of face f, which stands.
fn split_face(
    faces: &[u32],
    index: &[u32],
    words: &mut [u32],
    f: usize,
    points: usize,
    told: Told,
) -> Told
    requires face_asks { by.FaceAsks faces.now words.old f points told.splits told.bytes }
    requires indexed { Indexed faces.now index.now }
    ensures { (q : by.FaceAsks faces.now words.old f points told.splits told.bytes) → by.FaceGives q words.new result.splits result.bytes }
{
    let first = split_corner(faces, index, words, f, 0, points, told);
    let second = split_corner(faces, index, words, f, 1, points, first);
    split_corner(faces, index, words, f, 2, points, second)
}

// How many points pass 5 splits off, and how long the lines are that tell it. Flags every corner that stands, and marks those that lead a group which is not the
// first one of its point.
pub fn split_length(faces: &[u32], index: &[u32], words: &mut [u32], points: usize) -> Told
    requires split_asks { by.SplitAsks faces.now words.old points }
    requires indexed { Indexed faces.now index.now }
    ensures { by.SplitGives faces.now words.old points words.new result.splits result.bytes }
{
    let mut told = Told {
        splits: 0,
        bytes: 0,
    };
    for f in 0..words.len() {
        if stands(words, f) {
            told = split_face(faces, index, words, f, points, told);
        }
    }
    told
}
