// The text of a mending list, from rows that tell what becomes of each face and point: its length, found without writing, and its bytes.
#![tactic(auto)]

ghost use Rattle.std.specs.Prelude.{◌≡◌, ◌+◌, ◌*◌, ◌≤◌, ◌<◌, length};
ghost use Rattle.byte_rows.specs.Put.{Puts};
ghost use Rattle.rules.specs.Line.{decimal};
ghost use Rattle.list_text.specs.Written as by;

// Where the rows stand in the work room, for `points` points and `faces` faces of the input: the fate of each face from `fates` on; `splits` old
// points from `olds` on; of the `left` faces that stand after pass 5 the point at each corner from `column` on, and the corners sorted by it from
// `sorted` on; and from `unused` on 1 for each point that is told as isolated.
#[derive(Clone, Copy, Debug, PartialEq, Eq)]
pub struct Rows {
    pub points: usize,
    pub faces: usize,
    pub fates: usize,
    pub splits: usize,
    pub olds: usize,
    pub left: usize,
    pub column: usize,
    pub sorted: usize,
    pub unused: usize,
}

// What a line of a face or a point tells: the face leaves for a reason, it was exchanged, or the point is isolated.
#[derive(Clone, Copy, Debug, PartialEq, Eq)]
enum Kind {
    Repeated,
    Thin,
    Duplicate,
    Edge,
    Direction,
    Exchange,
    Isolated,
}

// The lines of a row that stand together in the list: of one pass, of its exchanges, or of the points.
#[derive(Clone, Copy, Debug, PartialEq, Eq)]
enum Section {
    Degenerate,
    Duplicate,
    Edge,
    Exchange,
    Direction,
    Isolated,
}

// ---- one line of a face or a point

// How many digits a number has in decimal.
fn number_length(n: u32) -> usize
    ensures { result ≡ length (decimal n) }
{
    let mut m = n;
    let mut k = 1;
    while m >= 10 {
        m = m / 10;
        k += 1;
    }
    k
}

// The kind of line of a section that an entry of a row tells, if it tells one: a fate is the number of a reason, and 8 more for an exchange.
#[tactic(auto, using(std::proofs::lemmas::Bool::Decides::nat_tests))]
fn told_kind(entry: u32, section: Section) -> Option<Kind>
    ensures { by.told_code result ≡ by.kind_of entry (by.first_of section) (by.last_of section) }
{
    match section {
        Section::Degenerate => match entry % 8 {
            1 => Some(Kind::Repeated),
            2 => Some(Kind::Thin),
            _ => None,
        },
        Section::Duplicate => (entry % 8 == 3).then_some(Kind::Duplicate),
        Section::Edge => (entry % 8 == 4).then_some(Kind::Edge),
        Section::Exchange => (entry >= 8).then_some(Kind::Exchange),
        Section::Direction => (entry % 8 == 5).then_some(Kind::Direction),
        Section::Isolated => (entry == 1).then_some(Kind::Isolated),
    }
}

// The letter of a kind of line.
fn letter(kind: Kind) -> u8
    ensures { result ≡ by.letter_of (by.code_of kind) }
{
    match kind {
        Kind::Repeated | Kind::Thin | Kind::Duplicate | Kind::Edge | Kind::Direction => b'd',
        Kind::Exchange => b'o',
        Kind::Isolated => b'u',
    }
}

// How many bytes follow the number in a line of a kind.
#[tactic(auto, unfolding(rules::specs::Line::bytes))]
fn tail_length(kind: Kind) -> usize
    ensures { result ≡ length (by.tail_of (by.code_of kind)) }
{
    match kind {
        Kind::Repeated => 12,
        Kind::Thin => 8,
        Kind::Duplicate => 13,
        Kind::Edge => 8,
        Kind::Direction => 13,
        Kind::Exchange | Kind::Isolated => 1,
    }
}

// Puts what follows the number in a line of a kind: pass, reason and newline, or the newline alone. Returns where the text goes on.
#[tactic(auto, unfolding(rules::specs::Line::bytes))]
fn put_tail(text: &mut [u8], at: usize, kind: Kind) -> usize
    requires { at + length (by.tail_of (by.code_of kind)) ≤ length text.old }
    ensures { Puts text.old at (by.tail_of (by.code_of kind)) text.new result }
{
    match kind {
        Kind::Repeated => byte_rows::put_text(text, at, b"\t1\trepeated\n"),
        Kind::Thin => byte_rows::put_text(text, at, b"\t1\tthin\n"),
        Kind::Duplicate => byte_rows::put_text(text, at, b"\t2\tduplicate\n"),
        Kind::Edge => byte_rows::put_text(text, at, b"\t3\tedge\n"),
        Kind::Direction => byte_rows::put_text(text, at, b"\t4\tdirection\n"),
        Kind::Exchange | Kind::Isolated => byte_rows::put_text(text, at, b"\n"),
    }
}

// Puts a tab and a number. Returns where the text goes on.
fn put_field(text: &mut [u8], at: usize, n: u32) -> usize
    requires { at + length (by.field n) ≤ length text.old }
    ensures { Puts text.old at (by.field n) text.new result }
{
    text[at] = 9;
    byte_rows::put_number(text, at + 1, n as u64)
}

// How long a line of a kind is, with the number n; no line, 0.
fn line_length(kind: Option<Kind>, n: u32) -> usize
    ensures value { result ≡ length (by.kind_text (by.told_code kind) n) }
    ensures upper_bound { result ≤ 25 }
{
    match kind {
        None => 0,
        Some(kind) => 2 + number_length(n) + tail_length(kind),
    }
}

// Puts a line of a kind, with the number n, if it is one. Returns where the text goes on.
fn put_line(text: &mut [u8], at: usize, kind: Option<Kind>, n: u32) -> usize
    requires { at + length (by.kind_text (by.told_code kind) n) ≤ length text.old }
    ensures { Puts text.old at (by.kind_text (by.told_code kind) n) text.new result }
{
    match kind {
        None => at,
        Some(kind) => {
            text[at] = letter(kind);
            let next = put_field(text, at + 1, n);
            put_tail(text, next, kind)
        }
    }
}

// ---- the lines of a row

// How long the lines are that the n entries from `row` on tell, of a section.
fn row_length(work: &[u32], row: usize, n: usize, section: Section) -> usize
    requires { by.RowAsks work.now row n }
    ensures value { result ≡ length (by.row_text work.now row n (by.first_of section) (by.last_of section)) }
    ensures upper_bound { result ≤ 25 * n }
{
    let mut total = 0;
    for i in 0..n {
        let kind = told_kind(work[row + i], section);
        total += line_length(kind, i as u32);
    }
    total
}

// Puts the lines that the n entries from `row` on tell, of a section. Returns where the text goes on.
fn put_row(
    text: &mut [u8],
    at: usize,
    work: &[u32],
    row: usize,
    n: usize,
    section: Section,
) -> usize
    requires row_asks { by.RowAsks work.now row n }
    requires last_in_bounds { at + length (by.row_text work.now row n (by.first_of section) (by.last_of section)) ≤ length text.old }
    ensures { Puts text.old at (by.row_text work.now row n (by.first_of section) (by.last_of section)) text.new result }
{
    let mut next = at;
    for i in 0..n {
        let kind = told_kind(work[row + i], section);
        next = put_line(text, next, kind, i as u32);
    }
    next
}

// ---- the splits

// How many of the sorted corners stand at points below v, if that is so of the first `from` of them.
fn corners_below(work: &[u32], rows: Rows, from: usize, v: usize) -> usize
    requires { by.BelowAsks work.now rows from v }
    ensures { result ≡ by.start_of work.now rows v }
{
    for q in from..3 * rows.left {
        let id = work[rows.sorted + q] as usize;
        if work[rows.column + id] as usize >= v {
            return q;
        }
    }
    3 * rows.left
}

// How long the field of face i is, if i is not the face told last.
fn taker_length(origins: &[u32], i: usize, last: usize) -> usize
    requires { i < length origins.now }
    ensures value { result ≡ length (by.taker_text origins.now i last) }
    ensures upper_bound { result ≤ 11 }
{
    if i == last {
        return 0;
    }
    1 + number_length(origins[i])
}

// Puts the field of face i, if i is not the face told last. Returns where the text goes on.
fn put_taker(text: &mut [u8], at: usize, origins: &[u32], i: usize, last: usize) -> usize
    requires i_in_bounds { i < length origins.now }
    requires last_in_bounds { at + length (by.taker_text origins.now i last) ≤ length text.old }
    ensures { Puts text.old at (by.taker_text origins.now i last) text.new result }
{
    if i == last {
        return at;
    }
    put_field(text, at, origins[i])
}

// How long the fields of the faces are at the sorted corners from `from` to before `to`, each once.
fn takers_length(work: &[u32], origins: &[u32], rows: Rows, from: usize, to: usize) -> usize
    requires { by.RunAsks work.now origins.now rows from to }
    ensures value { result ≡ length (by.run_text work.now origins.now rows from to) }
    ensures from_bound { result + 11 * from ≤ 11 * to }
{
    let mut total = 0;
    let mut last = rows.left;
    for q in from..to {
        let i = work[rows.sorted + q] as usize / 3;
        total += taker_length(origins, i, last);
        last = i;
    }
    total
}

// Puts the fields of the faces at the sorted corners from `from` to before `to`, each once. Returns where the text goes on.
fn put_takers(
    text: &mut [u8],
    at: usize,
    work: &[u32],
    origins: &[u32],
    rows: Rows,
    from: usize,
    to: usize,
) -> usize
    requires run_asks { by.RunAsks work.now origins.now rows from to }
    requires to_in_bounds { at + length (by.run_text work.now origins.now rows from to) ≤ length text.old }
    ensures { Puts text.old at (by.run_text work.now origins.now rows from to) text.new result }
{
    let mut next = at;
    let mut last = rows.left;
    for q in from..to {
        let i = work[rows.sorted + q] as usize / 3;
        next = put_taker(text, next, origins, i, last);
        last = i;
    }
    next
}

// How long the line of the j-th split is, whose new point stands at the sorted corners from `from` to before `to`.
fn split_length(
    work: &[u32],
    origins: &[u32],
    rows: Rows,
    j: usize,
    from: usize,
    to: usize,
) -> usize
    requires { by.SplitAsks work.now origins.now rows j from to }
    ensures value { result ≡ length (by.split_text work.now origins.now rows j from to) }
    ensures from_bound { result + 11 * from ≤ 24 + 11 * to }
{
    let old = number_length(work[rows.olds + j]);
    let new = number_length((rows.points + j) as u32);
    4 + old + new + takers_length(work, origins, rows, from, to)
}

// Puts the line of the j-th split, whose new point stands at the sorted corners from `from` to before `to`. Returns where the text goes on.
fn put_split(
    text: &mut [u8],
    at: usize,
    work: &[u32],
    origins: &[u32],
    rows: Rows,
    j: usize,
    from: usize,
    to: usize,
) -> usize
    requires split_asks { by.SplitAsks work.now origins.now rows j from to }
    requires to_in_bounds { at + length (by.split_text work.now origins.now rows j from to) ≤ length text.old }
    ensures { Puts text.old at (by.split_text work.now origins.now rows j from to) text.new result }
{
    text[at] = b's';
    let new_at = put_field(text, at + 1, work[rows.olds + j]);
    let takers_at = put_field(text, new_at, (rows.points + j) as u32);
    let end = put_takers(text, takers_at, work, origins, rows, from, to);
    text[end] = 10;
    end + 1
}

// How long the lines of the splits are.
fn splits_length(work: &[u32], origins: &[u32], rows: Rows) -> usize
    requires { by.SplitsAsk work.now origins.now rows }
    ensures value { result ≡ length (by.splits_text work.now origins.now rows) }
    ensures upper_bound { result ≤ 24 * rows.splits + 33 * rows.left }
{
    let mut total = 0;
    let mut from = corners_below(work, rows, 0, rows.points);
    for j in 0..rows.splits {
        let to = corners_below(work, rows, from, rows.points + j + 1);
        total += split_length(work, origins, rows, j, from, to);
        from = to;
    }
    total
}

// Puts the lines of the splits: one cursor goes on through the sorted corners. Returns where the text goes on.
fn put_splits(text: &mut [u8], at: usize, work: &[u32], origins: &[u32], rows: Rows) -> usize
    requires splits_ask { by.SplitsAsk work.now origins.now rows }
    requires rows_in_bounds { at + length (by.splits_text work.now origins.now rows) ≤ length text.old }
    ensures { Puts text.old at (by.splits_text work.now origins.now rows) text.new result }
{
    let mut next = at;
    let mut from = corners_below(work, rows, 0, rows.points);
    for j in 0..rows.splits {
        let to = corners_below(work, rows, from, rows.points + j + 1);
        next = put_split(text, next, work, origins, rows, j, from, to);
        from = to;
    }
    next
}

// ---- the list

// How long the text of the mending list is that the rows tell.
pub fn list_length(work: &[u32], origins: &[u32], rows: Rows) -> usize
    requires { by.ListAsks work.now origins.now rows }
    ensures { result ≡ length (by.list_text_by_rows work.now origins.now rows) }
{
    let f = rows.faces;
    let first = row_length(work, rows.fates, f, Section::Degenerate);
    let second = row_length(work, rows.fates, f, Section::Duplicate);
    let third = row_length(work, rows.fates, f, Section::Edge);
    let exchanges = row_length(work, rows.fates, f, Section::Exchange);
    let fourth = row_length(work, rows.fates, f, Section::Direction);
    let splits = splits_length(work, origins, rows);
    let unused = row_length(
        work,
        rows.unused,
        rows.points + rows.splits,
        Section::Isolated,
    );
    first + second + third + exchanges + fourth + splits + unused
}

// Writes the text of the mending list that the rows tell to the front of the room, and returns its length.
pub fn list_text(work: &[u32], origins: &[u32], rows: Rows, text: &mut [u8]) -> usize
    requires list_asks { by.ListAsks work.now origins.now rows }
    requires rows_in_bounds { length (by.list_text_by_rows work.now origins.now rows) ≤ length text.old }
    ensures { Puts text.old 0 (by.list_text_by_rows work.now origins.now rows) text.new result }
{
    let f = rows.faces;
    let second = put_row(text, 0, work, rows.fates, f, Section::Degenerate);
    let third = put_row(text, second, work, rows.fates, f, Section::Duplicate);
    let exchanges = put_row(text, third, work, rows.fates, f, Section::Edge);
    let fourth = put_row(text, exchanges, work, rows.fates, f, Section::Exchange);
    let splits = put_row(text, fourth, work, rows.fates, f, Section::Direction);
    let unused = put_splits(text, splits, work, origins, rows);
    put_row(
        text,
        unused,
        work,
        rows.unused,
        rows.points + rows.splits,
        Section::Isolated,
    )
}
