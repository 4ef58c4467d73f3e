// The points that no face has, by a search with the index of the faces, and the length of the lines that tell them in a mending list.
#![tactic(auto)]

ghost use Rattle.std.specs.Prelude.{◌≡◌, ◌<◌};
ghost use Rattle.rules.specs.Pass6 as rule6;
ghost use Rattle.face_words.specs.Words.{viewed};
ghost use Rattle.face_words.specs.Views.{Worded, ViewAsks};
ghost use Rattle.face_index.specs.Index.{Indexed};
ghost use Rattle.searched_unused.specs.Unused as by;

// Whether face g stands and has point v.
fn holds(faces: &[u32], words: &[u32], g: usize, v: u32) -> bool
    requires { ViewAsks faces.now words.now g }
    ensures { result ≡ by.holds_at faces.now words.now v g }
{
    face_words::stands(words, g) && face_index::joins(faces, g, v, v)
}

// Whether a face that stands has point v.
fn is_used(faces: &[u32], index: &[u32], words: &[u32], v: u32) -> bool
    requires worded { Worded faces.now words.now }
    requires indexed { Indexed faces.now index.now }
    ensures { result ≡ rule6.used (viewed faces.now words.now) v }
{
    let mut g = face_index::next_indexed(faces, index, v, v, 0);
    while g < words.len() {
        if holds(faces, words, g, v) {
            return true;
        }
        g = face_index::next_indexed(faces, index, v, v, g + 1);
    }
    false
}

// The bytes of the line of point v, none if a face that stands has it.
fn unused_line(faces: &[u32], index: &[u32], words: &[u32], v: u32) -> usize
    requires worded { Worded faces.now words.now }
    requires indexed { Indexed faces.now index.now }
    ensures { result ≡ by.unused_line faces.now words.now v }
{
    if is_used(faces, index, words, v) {
        return 0;
    }
    3 + byte_rows::number_length(v)
}

// The bytes of the lines of the points that no face that stands has, of so many points.
pub fn unused_length(faces: &[u32], index: &[u32], words: &[u32], points: usize) -> usize
    requires unused_asks { by.UnusedAsks faces.now words.now points }
    requires indexed { Indexed faces.now index.now }
    ensures { by.UnusedGives faces.now words.now points result }
{
    let mut bytes = 0;
    for v in 0..points {
        bytes += unused_line(faces, index, words, v as u32);
    }
    bytes
}
