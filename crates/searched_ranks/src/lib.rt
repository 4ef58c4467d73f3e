// The rank of a corner that leads a group which is not the first one of its point, by a search over the marks of all corners: how many such corners come before it by
// point and corner. The new point that is split off for it has the number of points and the rank.
#![tactic(auto)]

ghost use Rattle.std.specs.Prelude.{◌≡◌};
ghost use Rattle.searched_ranks.specs.Ranks as by;

use face_words::{corner, stands};
use searched_splits::bit;

// Whether corner k is marked in a word.
pub fn marked(word: u32, k: usize) -> bool
    ensures { result ≡ by.marked_in word k }
{
    word / (8 * bit(k)) % 2 == 1
}

// Whether x is below v, or is v and corner y comes before corner id.
#[tactic(auto, unfolding(crate::specs::Ranks::before_in))]
fn comes_before(x: u32, v: u32, y: usize, id: usize) -> bool
    ensures { result ≡ by.before_in x v y id }
{
    x < v || x == v && y < id
}

// 1 if corner j of face g is marked and comes before corner k of face f, which is v.
fn rank_corner(faces: &[u32], words: &[u32], g: usize, j: usize, v: u32, id: usize) -> usize
    requires { by.CornerAsks faces.now words.now g j }
    ensures { result ≡ by.count_at faces.now words.now v id g j }
{
    if !marked(words[g], j) {
        return 0;
    }
    if comes_before(corner(faces, words, g, j), v, 3 * g + j, id) {
        return 1;
    }
    0
}

// How many marked corners of faces that stand come before corner `id`, which is at v.
pub fn rank(faces: &[u32], words: &[u32], v: u32, id: usize) -> usize
    requires { by.RankAsks faces.now words.now }
    ensures { result ≡ by.rank_by faces.now words.now v id }
{
    let mut count = 0;
    for g in 0..words.len() {
        if stands(words, g) {
            count += rank_corner(faces, words, g, 0, v, id)
                + rank_corner(faces, words, g, 1, v, id)
                + rank_corner(faces, words, g, 2, v, id);
        }
    }
    count
}
