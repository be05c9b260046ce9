// A line of a text as far as it is read: its word, and its fields one after the other.
#![tactic(auto)]

ghost use Rattle.std.specs.Prelude.{◌≡◌, ◌≤◌, ◌<◌, length};
ghost use Rattle.meaning.specs.Plan.{most_bytes};
ghost use Rattle.meaning.specs.Reading.{tab_byte};
ghost use Rattle.text.specs.Bytes.{until};
ghost use Rattle.fields.specs.Fields.{begun, with_number, FieldRead};

use text::Word;

const TAB: u8 = 9;

// A line as far as it is read: its number, its word, the place where its word ends, how many numbers were read, and the first four of them.
#[derive(Clone, Copy)]
pub struct Line {
    pub number: usize,
    pub word: Word,
    pub first: usize,
    pub count: usize,
    pub fields: [i32; 4],
}

// Where the first field of a line, or of what is left of it, ends: at a tab, or with the line.
fn field_end(line: &[u8]) -> usize
    ensures first { result ≡ until tab_byte line.now }
    ensures inside { result ≤ length line.now }
{
    text::find(line, TAB).unwrap_or(line.len())
}

// The line, none of its numbers read.
pub fn begin(line: &[u8], number: usize) -> Line
    ensures { result ≡ begun line.now number }
{
    let first = field_end(line);
    let word = text::read_word(&line[..first]);
    Line {
        number,
        word,
        first,
        count: 0,
        fields: [0; 4],
    }
}

// The field behind the tab at `tab`: its number and the place where it ends, or none where it is no number.
pub fn field_after(line: &[u8], tab: usize) -> Option<(i32, usize)>
    requires { tab < length line.now }
    ensures { FieldRead line.now tab result }
{
    let rest = &line[tab + 1..];
    let count = field_end(rest);
    let v = text::read_number(&rest[..count]).ok()?;
    Some((v, tab + 1 + count))
}

// One number more.
pub fn with_number(line: Line, v: i32) -> Line
    requires { (line.count < most_bytes) × (length line.fields ≡ 4) }
    ensures { result ≡ with_number line v }
{
    let mut more = line;
    more.count += 1;
    if line.count < 4 {
        more.fields[line.count] = v;
    }
    more
}
