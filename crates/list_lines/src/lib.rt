// The lines of a mending list: what a line says, or that it is bad; and the faces of a split, one after the other.
#![tactic(auto)]

ghost use Rattle.std.specs.Prelude.{◌≡◌, ◌<◌, length};
ghost use Rattle.rows.specs.Region.{part};
ghost use Rattle.rules.specs.Text as rule;
ghost use Rattle.text_fields.specs.Fields.{held};
ghost use Rattle.list_lines.specs.Lines as by;

// Why a face was dropped.
#[derive(Clone, Copy, Debug, PartialEq, Eq)]
pub enum Reason {
    Repeated,
    Thin,
    Duplicate,
    Edge,
    Direction,
}

// A line. Its newline stands at `end`. The fields of a split's faces begin at `fields`: at a tab, or where the line ends.
#[derive(Clone, Copy, Debug, PartialEq, Eq)]
pub enum Line {
    Dropped {
        face: u32,
        reason: Reason,
        end: usize,
    },
    Exchange {
        face: u32,
        end: usize,
    },
    Split {
        old: u32,
        new: u32,
        fields: usize,
        end: usize,
    },
    Isolated {
        point: u32,
        end: usize,
    },
}

// A face of a split, and where the fields of the faces after it begin.
#[derive(Clone, Copy, Debug, PartialEq, Eq)]
pub struct Face {
    pub number: u32,
    pub next: usize,
}

// The number in the first of some fields, and where the others begin.
#[derive(Clone, Copy, Debug, PartialEq, Eq)]
struct Number {
    value: u32,
    end: usize,
}

// Whether a field is this text.
fn same(field: &[u8], text: &[u8]) -> bool
    ensures { result ≡ rule.equal field.now text.now }
{
    field == text
}

// The number in the first field.
fn read_number(fields: &[u8]) -> Option<Number>
    requires { 0 < length fields.now }
    ensures { by.FirstNumber fields.now result }
{
    let end = text_fields::find(fields, 1, 9);
    let value = text_fields::read_whole(&fields[1..end])?;
    Some(Number { value, end })
}

// The number of a line that has no other.
fn read_one(fields: &[u8]) -> Option<u32>
    requires { 0 < length fields.now }
    ensures { held result ≡ by.one_of (by.tabbed fields.now) }
{
    let number = read_number(fields)?;
    if number.end == fields.len() {
        return Some(number.value);
    }
    None
}

// The reason with this pass and this word.
fn reason_of(pass: u32, word: &[u8]) -> Option<Reason>
    ensures { by.why result ≡ by.reason_at pass word.now }
{
    match pass {
        1 if same(word, b"repeated") => Some(Reason::Repeated),
        1 if same(word, b"thin") => Some(Reason::Thin),
        2 if same(word, b"duplicate") => Some(Reason::Duplicate),
        3 if same(word, b"edge") => Some(Reason::Edge),
        4 if same(word, b"direction") => Some(Reason::Direction),
        _ => None,
    }
}

// The reason that pass and word tell, if there are just these fields.
fn read_reason(fields: &[u8]) -> Option<Reason>
    requires { 0 < length fields.now }
    ensures { by.why result ≡ by.reason_told (by.tabbed fields.now) }
{
    let pass = read_number(fields)?;
    if pass.end == fields.len() {
        return None;
    }
    let end = text_fields::find(fields, pass.end + 1, 9);
    if end != fields.len() {
        return None;
    }
    reason_of(pass.value, &fields[pass.end + 1..])
}

// Whether all fields are numbers that rise.
fn all_rise(fields: &[u8]) -> bool
    ensures { result ≡ by.rise_from 0 (by.tabbed fields.now) }
{
    let mut at = 0;
    let mut least = 0u64;
    while at < fields.len() {
        let Some(number) = read_number(&fields[at..]) else {
            return false;
        };
        if u64::from(number.value) < least {
            return false;
        }
        least = u64::from(number.value) + 1;
        at += number.end;
    }
    true
}

// A `d` line, whose fields after the letter begin at `from`.
fn read_dropped(text: &[u8], from: usize, end: usize) -> Option<Line>
    requires { by.FieldsAsk text.now from end }
    ensures { by.Tells (by.dropped_told (by.fields_in text.now from end)) text.now end result }
{
    let face = read_number(&text[from..end])?;
    let at = from + face.end;
    if at == end {
        return None;
    }
    let reason = read_reason(&text[at..end])?;
    Some(Line::Dropped {
        face: face.value,
        reason,
        end,
    })
}

// An `o` line.
fn read_exchange(text: &[u8], from: usize, end: usize) -> Option<Line>
    requires { by.FieldsAsk text.now from end }
    ensures { by.Tells (by.exchange_told (by.fields_in text.now from end)) text.now end result }
{
    let face = read_one(&text[from..end])?;
    Some(Line::Exchange { face, end })
}

// A `u` line.
fn read_isolated(text: &[u8], from: usize, end: usize) -> Option<Line>
    requires { by.FieldsAsk text.now from end }
    ensures { by.Tells (by.isolated_told (by.fields_in text.now from end)) text.now end result }
{
    let point = read_one(&text[from..end])?;
    Some(Line::Isolated { point, end })
}

// An `s` line.
fn read_split(text: &[u8], from: usize, end: usize) -> Option<Line>
    requires { by.FieldsAsk text.now from end }
    ensures { by.Tells (by.split_told (by.fields_in text.now from end)) text.now end result }
{
    let old = read_number(&text[from..end])?;
    let second = from + old.end;
    if second == end {
        return None;
    }
    let new = read_number(&text[second..end])?;
    let fields = second + new.end;
    if all_rise(&text[fields..end]) {
        return Some(Line::Split {
            old: old.value,
            new: new.value,
            fields,
            end,
        });
    }
    None
}

// The line by its letter, if the newline stands at `end`.
fn read_letter(text: &[u8], at: usize, end: usize) -> Option<Line>
    requires { by.LetterAsks text.now at end }
    ensures { by.Tells (by.line_told text.now at end) text.now end result }
{
    if end - at < 2 {
        return None;
    }
    if text[at + 1] != 9 {
        return None;
    }
    match text[at] {
        b'd' => read_dropped(text, at + 1, end),
        b'o' => read_exchange(text, at + 1, end),
        b's' => read_split(text, at + 1, end),
        b'u' => read_isolated(text, at + 1, end),
        _ => None,
    }
}

// The line that begins at `at`, if it is not bad. One that no newline ends is bad.
pub fn read_line(text: &[u8], at: usize) -> Option<Line>
    requires { at < length text.now }
    ensures { by.Reads text.now at result }
{
    let end = text_fields::find(text, at, 10);
    if end == text.len() {
        return None;
    }
    read_letter(text, at, end)
}

// The next face of a split whose faces' fields go from `at` to `end`.
pub fn read_face(text: &[u8], at: usize, end: usize) -> Face
    requires { by.FaceAsks text.now at end }
    ensures { by.FaceGives text.now at end result.number result.next }
{
    match read_number(&text[at..end]) {
        None => Face {
            number: 0,
            next: end,
        },
        Some(number) => Face {
            number: number.value,
            next: at + number.end,
        },
    }
}
