// How long the lines are that tell pass 6 after pass 5, by search over the input faces and one word a face: the lines of all points of the input, and of those that
// keep a face, by their first corners.
#![tactic(auto)]

ghost use Rattle.std.specs.Prelude.{◌≡◌, ◌+◌, ◌≤◌};
ghost use Rattle.rules.specs.Lists.{below};
ghost use Rattle.fan_laws.specs.Sums.{sum_of, field};
ghost use Rattle.face_index.specs.Index.{Indexed};
ghost use Rattle.searched_isolated.specs.Points as by;

use byte_rows::number_length;
use face_words::{corner, stands, view};
use searched_splits::{met_at, same};

// The bytes of a line for each of the points.
pub fn all_length(points: usize) -> usize
    requires { points ≤ 4194304 }
    ensures { result ≡ sum_of (λ v. 2 + field v) (below points) }
{
    let mut bytes = 0;
    for v in 0..points {
        bytes += 3 + number_length(v as u32);
    }
    bytes
}

// The bytes of the line of the point at corner k of face f, if it is the first corner there.
fn kept_corner(faces: &[u32], index: &[u32], words: &[u32], f: usize, k: usize) -> usize
    requires corner_asks { by.CornerAsks faces.now words.now f k }
    requires indexed { Indexed faces.now index.now }
    ensures { result ≡ by.first_length faces.now words.now f k }
{
    let v = corner(faces, words, f, k);
    if met_at(faces, index, words, f, k, v) {
        return 0;
    }
    3 + number_length(v)
}

// The same of the three corners of face f, if it has different ones.
fn kept_face(faces: &[u32], index: &[u32], words: &[u32], f: usize) -> usize
    requires face_asks { by.FaceAsks faces.now words.now f }
    requires indexed { Indexed faces.now index.now }
    ensures { result ≡ by.face_length faces.now words.now f }
{
    let c = view(faces, words, f);
    if same(c.a, c.b, c.c) {
        return 0;
    }
    kept_corner(faces, index, words, f, 0)
        + kept_corner(faces, index, words, f, 1)
        + kept_corner(faces, index, words, f, 2)
}

// The bytes of a line for each point of the input that a face keeps after pass 5.
pub fn kept_length(faces: &[u32], index: &[u32], words: &[u32]) -> usize
    requires kept_asks { by.KeptAsks faces.now words.now }
    requires indexed { Indexed faces.now index.now }
    ensures { result ≡ by.kept_length faces.now words.now }
{
    let mut bytes = 0;
    for f in 0..words.len() {
        if stands(words, f) {
            bytes += kept_face(faces, index, words, f);
        }
    }
    bytes
}
