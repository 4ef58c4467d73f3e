// One word a face over the input faces, which never change. Bit 0 of a word: the face is gone. Bit 1: its corners 1 and 2 are exchanged. The other bits are of
// the pass that searches, which says what they are.
#![tactic(auto)]

ghost use Rattle.std.specs.Prelude.{◌≡◌, ◌<◌, length, get_or};
ghost use Rattle.rules.specs.Mesh.{corners};
ghost use Rattle.face_words.specs.Words as word;
ghost use Rattle.face_words.specs.Views.{seen_as, ViewAsks, CornerAsks};

// The corners of a face as it stands.
#[derive(Clone, Copy, Debug, PartialEq, Eq)]
pub struct Corners {
    pub a: u32,
    pub b: u32,
    pub c: u32,
}

// Whether face f stands.
pub fn stands(words: &[u32], f: usize) -> bool
    requires { f < length words.now }
    ensures { result ≡ word.stands words.now f }
{
    words[f] % 2 == 0
}

// The corners of face f under its word.
pub fn view(faces: &[u32], words: &[u32], f: usize) -> Corners
    requires { ViewAsks faces.now words.now f }
    ensures { seen_as result f ≡ word.view faces.now words.now f }
{
    let a = faces[3 * f];
    let b = faces[3 * f + 1];
    let c = faces[3 * f + 2];
    if words[f] / 2 % 2 == 0 {
        return Corners { a, b, c };
    }
    Corners { a, b: c, c: b }
}

// Corner k of face f under its word.
pub fn corner(faces: &[u32], words: &[u32], f: usize, k: usize) -> u32
    requires { CornerAsks faces.now words.now f k }
    ensures { result ≡ get_or (corners (word.view faces.now words.now f)) k 0 }
{
    let g = view(faces, words, f);
    match k {
        0 => g.a,
        1 => g.b,
        _ => g.c,
    }
}
