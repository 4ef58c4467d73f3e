// The points that pass 5 splits off and no face takes: of faces with three equal corners. How long the lines are that tell them in pass 6, by search over the marks
// that the search for the lines of pass 5 leaves in the words.
#![tactic(auto)]

ghost use Rattle.std.specs.Prelude.{◌≡◌, ◌*◌, length};
ghost use Rattle.face_words.specs.Words.{viewed};
ghost use Rattle.searched_splits.specs.Splits.{id_of};
ghost use Rattle.searched_lost.specs.Lost as by;

use byte_rows::number_length;
use face_words::{corner, stands, view};

// The bytes of the line of the point that is split off for corner k of face f, if no face takes it.
fn lost_corner(faces: &[u32], words: &[u32], points: usize, f: usize, k: usize) -> usize
    requires { by.CornerAsks faces.now words.now points f k }
    ensures { (q : by.CornerAsks faces.now words.now points f k) → result ≡ by.lost_line faces.now q.face.all.base points (id_of q.face.all.base f k) }
{
    let word = words[f];
    if !searched_ranks::marked(word, k) {
        return 0;
    }
    let c = view(faces, words, f);
    if !searched_splits::same(c.a, c.b, c.c) {
        return 0;
    }
    if searched_splits::gives(word, k) {
        return 0;
    }
    let v = corner(faces, words, f, k);
    let rank = searched_ranks::rank(faces, words, v, 3 * f + k);
    3 + number_length((points + rank) as u32)
}

// The same of the three corners of face f.
fn lost_face(faces: &[u32], words: &[u32], points: usize, f: usize) -> usize
    requires { by.FaceAsks faces.now words.now points f }
    ensures { (q : by.FaceAsks faces.now words.now points f) → result ≡ by.lost_face faces.now q.all.base points f }
{
    let first = lost_corner(faces, words, points, f, 0);
    let second = lost_corner(faces, words, points, f, 1);
    let third = lost_corner(faces, words, points, f, 2);
    first + second + third
}

// The bytes of the lines of all points that are split off and that no face takes.
pub fn lost_length(faces: &[u32], words: &[u32], points: usize) -> usize
    requires { by.LostAsks faces.now words.now points }
    ensures { (q : by.LostAsks faces.now words.now points) → result ≡ by.lost_to faces.now q.base points (3 * length (viewed faces.now q.base)) }
{
    let mut bytes = 0;
    for f in 0..words.len() {
        if stands(words, f) {
            bytes += lost_face(faces, words, points, f);
        }
    }
    bytes
}
