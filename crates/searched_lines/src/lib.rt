// Passes 1 to 4 by a search, on the words of the faces, each with the length of the lines that tell it in a mending list.
#![tactic(auto)]

ghost use Rattle.std.specs.Prelude.{◌≡◌, [], cond, length};
ghost use Rattle.rules.specs.Pass1 as rule1;
ghost use Rattle.rules.specs.Pass2 as rule2;
ghost use Rattle.rules.specs.Pass3 as rule3;
ghost use Rattle.rules.specs.Pass4 as rule4;
ghost use Rattle.rules.specs.Mending as mending;
ghost use Rattle.rules.specs.Repair.{optional};
ghost use Rattle.face_words.specs.Views.{Worded, ViewAsks};
ghost use Rattle.face_index.specs.Index.{Indexed};
ghost use Rattle.searched_marks.specs.Marks.{FaceAsks};
ghost use Rattle.entry_search.specs.Choosing.{BestAsks};
ghost use Rattle.searched_lines.specs.Lines as by;

use measure::Form;

// The bytes of the line of face f in pass 1, at the threshold s; none if it stays.
fn degenerate_line(points: &[f64], s: f64, faces: &[u32], words: &[u32], f: usize) -> usize
    requires { FaceAsks points.now faces.now words.now f }
    ensures { result ≡ by.degenerate_line s points.now faces.now words.now f }
{
    if !face_words::stands(words, f) {
        return 0;
    }
    let g = face_words::view(faces, words, f);
    match measure::shape(points, s, g.a, g.b, g.c) {
        Form::Good => 0,
        Form::Repeated => 14 + byte_rows::number_length(f as u32),
        Form::Thin => 10 + byte_rows::number_length(f as u32),
    }
}

// The bytes of the lines of pass 1, at the threshold s.
fn degenerate_length(points: &[f64], s: f64, faces: &[u32], words: &[u32]) -> usize
    requires { BestAsks points.now faces.now words.now }
    ensures { by.SumGives (by.degenerate_line s points.now faces.now words.now) (length words.now) result }
{
    let mut bytes = 0;
    for f in 0..words.len() {
        bytes += degenerate_line(points, s, faces, words, f);
    }
    bytes
}

// The bytes of the line of face f if it is marked, for a reason of n letters.
fn marked_line(words: &[u32], n: usize, f: usize) -> usize
    requires { by.LineAsks words.now n f }
    ensures { result ≡ by.marked_line n words.now f }
{
    if words[f] / 4 % 2 == 1 {
        return 6 + n + byte_rows::number_length(f as u32);
    }
    0
}

// The bytes of the lines of the marked faces, which leave for a reason of n letters.
fn marked_length(words: &[u32], n: usize) -> usize
    requires { by.MarkedAsks words.now n }
    ensures { by.SumGives (by.marked_line n words.now) (length words.now) result }
{
    let mut bytes = 0;
    for f in 0..words.len() {
        bytes += marked_line(words, n, f);
    }
    bytes
}

// The bytes of the line of face f if it stands and is exchanged, so that it shows.
fn exchange_line(faces: &[u32], words: &[u32], f: usize) -> usize
    requires { ViewAsks faces.now words.now f }
    ensures { result ≡ by.exchange_line faces.now words.now f }
{
    if !face_words::stands(words, f) {
        return 0;
    }
    if words[f] / 2 % 2 == 0 {
        return 0;
    }
    if faces[3 * f + 1] == faces[3 * f + 2] {
        return 0;
    }
    3 + byte_rows::number_length(f as u32)
}

// The bytes of the lines of the exchanged faces.
fn exchange_length(faces: &[u32], words: &[u32]) -> usize
    requires { Worded faces.now words.now }
    ensures { by.SumGives (by.exchange_line faces.now words.now) (length words.now) result }
{
    let mut bytes = 0;
    for f in 0..words.len() {
        bytes += exchange_line(faces, words, f);
    }
    bytes
}

// Pass 1 at the threshold s, if it is on. Returns the bytes of its lines.
pub fn first(on: bool, points: &[f64], s: f64, faces: &[u32], words: &mut [u32]) -> usize
    requires { by.PassAsks points.now faces.now words.old }
    ensures { by.ToldGives 2 (optional on (rule1.pass1 s)) (λ m. cond on (mending.lines1 s m) []) points.now faces.now words.old words.new result }
{
    if !on {
        return 0;
    }
    let bytes = degenerate_length(points, s, faces, words);
    searched_marks::pass1(points, s, faces, words);
    bytes
}

// Pass 2, if it is on. Returns the bytes of its lines.
pub fn second(on: bool, points: &[f64], faces: &[u32], index: &[u32], words: &mut [u32]) -> usize
    requires pass_asks { by.PassAsks points.now faces.now words.old }
    requires indexed { Indexed faces.now index.now }
    ensures { by.ToldGives 2 (optional on rule2.pass2) (λ m. cond on (mending.lines2 m) []) points.now faces.now words.old words.new result }
{
    if !on {
        return 0;
    }
    searched_marks::mark_duplicates(faces, index, words);
    let bytes = marked_length(words, 9);
    searched_marks::sweep(words);
    bytes
}

// Pass 3, if it is on. Returns the bytes of its lines.
pub fn third(on: bool, points: &[f64], faces: &[u32], index: &[u32], words: &mut [u32]) -> usize
    requires pass_asks { by.PassAsks points.now faces.now words.old }
    requires indexed { Indexed faces.now index.now }
    ensures { by.ToldGives 2 (optional on rule3.pass3) (λ m. cond on (mending.lines3 m) []) points.now faces.now words.old words.new result }
{
    if !on {
        return 0;
    }
    searched_marks::mark_at_edges(points, faces, index, words);
    let bytes = marked_length(words, 4);
    searched_marks::sweep(words);
    bytes
}

// Pass 4, if it is on. Returns the bytes of its lines.
pub fn fourth(on: bool, points: &[f64], faces: &[u32], index: &[u32], words: &mut [u32]) -> usize
    requires pass_asks { by.PassAsks points.now faces.now words.old }
    requires indexed { Indexed faces.now index.now }
    ensures { by.ToldGives 4 (optional on rule4.pass4) (λ m. cond on (mending.lines4 m) []) points.now faces.now words.old words.new result }
{
    if !on {
        return 0;
    }
    searched_walk::walk(faces, index, words);
    let turned = exchange_length(faces, words);
    searched_marks::mark_at_steps(points, faces, index, words);
    let bytes = marked_length(words, 9);
    searched_marks::sweep(words);
    turned + bytes
}
