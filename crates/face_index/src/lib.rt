// Bits that tell in which blocks of faces a point may be a corner, so that a search for the faces that have two corners passes most blocks at once. The index
// has 1024 rows, one for each bucket of points, of as many words as it has room for; a bit of a row stands for a block of faces.
#![tactic(auto)]

ghost use Rattle.std.specs.Prelude.{◌≡◌, [], ◌∷◌, ◌<◌};
ghost use Rattle.rules.specs.Lists.{has};
ghost use Rattle.face_index.specs.Index as index_of;

// The bucket of point v.
fn bucket(v: u32) -> usize
    ensures { result ≡ index_of.bucket_of v }
{
    let x = v as u64;
    (x * x % 1000003 % 1024) as usize
}

// How many faces a block has.
fn block_size(faces: &[u32], index: &[u32]) -> usize
    requires { index_of.IndexAsks faces.now index.now }
    ensures { result ≡ index_of.size_of faces.now index.now }
{
    faces.len() / 3 / (32 * (index.len() / 1024)) + 1
}

// Sets the bit of the bucket of v and block k.
fn note(index: &mut [u32], v: u32, k: usize)
    requires { index_of.NoteAsks index.old k }
    ensures { index_of.NoteGives index.old v k index.new }
{
    let at = bucket(v) * (index.len() / 1024) + k / 32;
    let bit = (k % 32) as u32;
    index[at] = index[at] | (1 << bit);
}

// Sets the bits of all corners; the other bits stay.
pub fn make_index(faces: &[u32], index: &mut [u32])
    requires { index_of.IndexAsks faces.now index.old }
    ensures { index_of.Indexed faces.now index.new }
{
    let size = block_size(faces, index);
    for (i, v) in faces.iter().enumerate() {
        note(index, *v, i / 3 / size);
    }
}

// Whether a is one of x, y and z.
#[tactic(auto, unfolding(rules::specs::Lists::has, rules::specs::Lists::any))]
pub fn among(a: u32, x: u32, y: u32, z: u32) -> bool
    ensures { result ≡ has a (x ∷ y ∷ z ∷ []) }
{
    a == x || a == y || a == z
}

// Whether both a and b are corners of face f.
pub fn joins(faces: &[u32], f: usize, a: u32, b: u32) -> bool
    requires { index_of.JoinsAsks faces.now f }
    ensures { result ≡ index_of.joins faces.now a b f }
{
    let x = faces[3 * f];
    let y = faces[3 * f + 1];
    let z = faces[3 * f + 2];
    among(a, x, y, z) && among(b, x, y, z)
}

// The next face after f that is not in a block whose bit is clear in x, the word of the block of f, or the first one of the next word.
fn past(x: u32, f: usize, size: usize) -> usize
    requires { index_of.PastAsks f size }
    ensures { index_of.PastGives x f size result }
{
    let k = f / size;
    if x == 0 {
        return (k / 32 + 1) * 32 * size;
    }
    let bit = (k % 32) as u32;
    if (x >> bit) % 2 == 0 {
        return (k + 1) * size;
    }
    f + 1
}

// The next face from `from` on that has both a and b among its corners, or the number of faces.
pub fn next_indexed(faces: &[u32], index: &[u32], a: u32, b: u32, from: usize) -> usize
    requires indexed { index_of.Indexed faces.now index.now }
    requires candidate_asks { index_of.CandidateAsks faces.now from }
    ensures { index_of.CandidateGives faces.now a b from result }
{
    let size = block_size(faces, index);
    let row = bucket(a) * (index.len() / 1024);
    let other = bucket(b) * (index.len() / 1024);
    let mut f = from;
    while f < faces.len() / 3 {
        if joins(faces, f, a, b) {
            return f;
        }
        let word = f / size / 32;
        f = past(index[row + word] & index[other + word], f, size);
    }
    faces.len() / 3
}
