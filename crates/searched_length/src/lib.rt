// The length of a mending list, found by a search in the faces alone, with one word a face and an index of the faces.
#![tactic(auto)]

ghost use Rattle.std.specs.Prelude.{◌≡◌, ◌/◌, ◌≤◌, length};
ghost use Rattle.rules.specs.Mesh.{points_of, faces_of};
ghost use Rattle.rules.specs.Mending.{list_text};
ghost use Rattle.refuse.specs.Accepted.{Accepted};
ghost use Rattle.face_index.specs.Index.{Indexed};
ghost use Rattle.searched_length.specs.Length as by;

// How long the lines of passes 5 and 6 are.
#[derive(Clone, Copy, Debug, PartialEq, Eq)]
struct Ends {
    fifth: usize,
    sixth: usize,
}

// How long the lines of passes 5 and 6 are, each if it is on, after passes 1 to 4.
fn ending(
    split: bool,
    unused: bool,
    points: &[f64],
    faces: &[u32],
    index: &[u32],
    words: &mut [u32],
    count: usize,
) -> Ends
    requires end_asks { by.EndAsks points.now faces.now words.old count }
    requires indexed { Indexed faces.now index.now }
    ensures { by.EndGives split unused points.now faces.now words.old result.fifth result.sixth }
{
    if !split {
        if !unused {
            return Ends { fifth: 0, sixth: 0 };
        }
        let sixth = searched_unused::unused_length(faces, index, words, count);
        return Ends { fifth: 0, sixth };
    }
    if !unused {
        let told = searched_splits::split_length(faces, index, words, count);
        return Ends {
            fifth: told.bytes,
            sixth: 0,
        };
    }
    let every = searched_isolated::all_length(count);
    let kept = searched_isolated::kept_length(faces, index, words);
    let told = searched_splits::split_length(faces, index, words, count);
    let lost = searched_lost::lost_length(faces, words, count);
    Ends {
        fifth: told.bytes,
        sixth: every - kept + lost,
    }
}

// How long the list is, pass by pass, with a word of 0 for each face.
fn all_lines(
    points: &[f64],
    faces: &[u32],
    s: f64,
    options: u32,
    index: &[u32],
    words: &mut [u32],
) -> usize
    requires { by.RowsAsk points.now faces.now index.now words.old }
    ensures { result ≡ length (list_text s options (points_of points.now) (faces_of faces.now)) }
{
    let first = searched_lines::first(options % 2 == 1, points, s, faces, words);
    let second = searched_lines::second(options / 2 % 2 == 1, points, faces, index, words);
    let third = searched_lines::third(options / 4 % 2 == 1, points, faces, index, words);
    let fourth = searched_lines::fourth(options / 16 % 2 == 1, points, faces, index, words);
    let split = options / 8 % 2 == 1;
    let unused = options / 32 % 2 == 1;
    let ends = ending(split, unused, points, faces, index, words, points.len() / 3);
    first + second + third + fourth + ends.fifth + ends.sixth
}

// How long the list is, in rows that are long enough.
pub fn in_rows(
    points: &[f64],
    faces: &[u32],
    s: f64,
    options: u32,
    words: &mut [u32],
    index: &mut [u32],
) -> usize
    requires { by.RoomAsk points.now faces.now words.old index.old }
    ensures { result ≡ length (list_text s options (points_of points.now) (faces_of faces.now)) }
{
    let n = faces.len() / 3;
    rows::clear(words, 0, n);
    face_index::make_index(faces, index);
    all_lines(points, faces, s, options, index, &mut words[..n])
}

// How long the list is, with rows of WORDS words and of INDEX words for the index, on the stack. It is not made a part of its caller, so that the rows are on the
// stack only where they are used.
#[inline(never)]
fn within<const WORDS: usize, const INDEX: usize>(
    points: &[f64],
    faces: &[u32],
    s: f64,
    options: u32,
) -> usize
    requires accepted { Accepted points.now faces.now }
    requires words { length faces.now / 3 ≤ WORDS }
    requires most_words { WORDS ≤ 1048576 }
    requires index { 1024 ≤ INDEX }
    requires most_index { INDEX ≤ 262144 }
    ensures { result ≡ length (list_text s options (points_of points.now) (faces_of faces.now)) }
{
    let mut words = [0u32; WORDS];
    let mut index = [0u32; INDEX];
    in_rows(points, faces, s, options, &mut words, &mut index)
}

// How long the text of the mending list is, by a search in the faces alone: for up to 4,096 faces with 48 KB of rows, and else with 5 MB.
pub fn searched_length(points: &[f64], faces: &[u32], s: f64, options: u32) -> u64
    requires { Accepted points.now faces.now }
    ensures { result ≡ length (list_text s options (points_of points.now) (faces_of faces.now)) }
{
    if faces.len() <= 12288 {
        return within::<4096, 8192>(points, faces, s, options) as u64;
    }
    within::<1048576, 262144>(points, faces, s, options) as u64
}
