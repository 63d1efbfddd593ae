// The lines of a sheet: a cursor that is handed on by value, lines with a key, two lines that belong together.
#![tactic(auto)]

ghost use Rattle.std.specs.Prelude.{◌≡◌, ◌+◌, ◌<◌, ◌≤◌, length};
ghost use Rattle.rules.specs.Text.{bytes};
ghost use Rattle.sheet.specs.Places.{word_of, place_of};
ghost use Rattle.sheet.specs.Lines.{up_to, part_of, line_at, value_at};
ghost use Rattle.sheet.specs.Pairs.{two_lines_at};

use text::places::word;

// A position in the sheet, handed on by value after each line: a form of document 01.
#[derive(Clone, Copy, Debug, PartialEq, Eq)]
pub struct Cursor {
    pub at: usize,
}

// A text of the sheet: the bytes from `from` up to `to`. No Range, which is not Copy.
#[derive(Clone, Copy, Debug, PartialEq, Eq)]
pub struct Place {
    pub from: usize,
    pub to: usize,
}

// A place as one word is its start times this and its length: texts are kept and sorted as words of lent memory.
const START: u32 = 65536;

// No From for words: `word` asks that the text is short.
impl Place {
    // The text, the caller's own bytes.
    pub fn text(self, sheet: &[u8]) -> &[u8]
        requires { (self.from ≤ self.to) × (self.to ≤ length sheet.now) }
        ensures { result.now ≡ part_of self.from self.to sheet.now }
    {
        part(sheet, self.from, self.to)
    }

    // The place as one word.
    pub fn word(self) -> u32
        requires { (self.from < 65536) × (self.from ≤ self.to) × (self.to < self.from + 65536) }
        ensures { result ≡ word_of self }
    {
        word(self.from, self.to)
    }

    // The place that a word names.
    pub fn of(word: u32) -> Place
        ensures { result ≡ place_of word }
    {
        let from = (word / START) as usize;
        Place {
            from,
            to: from + (word % START) as usize,
        }
    }
}

// A value that was read, and the position after its lines.
#[derive(Clone, Copy, Debug, PartialEq, Eq)]
pub struct Read<T> {
    pub value: T,
    pub next: Cursor,
}

// How many bytes stand before the first line feed. One call of the library: a function for any byte is no plainer.
fn line_length(text: &[u8]) -> Option<usize>
    ensures { result ≡ up_to 10 text.now }
{
    text.iter().position(|b| *b == b'\n')
}

impl Cursor {
    // The line at the cursor, if it ends.
    #[tactic(auto, unfolding(crate::specs::Lines::line_at))]
    fn line(self, sheet: &[u8]) -> Option<Read<Place>>
        ensures { result ≡ line_at sheet.now self.at }
    {
        let from = self.at;
        let rest = sheet.get(from..)?;
        let to = from + line_length(rest)?;
        Some(Read {
            value: Place { from, to },
            next: Cursor { at: to + 1 },
        })
    }

    // The value of the line at the cursor, if the line begins with the key.
    #[tactic(auto, using(text::proofs::Library::begins_is), unfolding(crate::specs::Lines::value_at))]
    pub fn keyed(self, sheet: &[u8], key: &[u8]) -> Option<Read<Place>>
        ensures { result ≡ value_at sheet.now key.now self.at }
    {
        let line = self.line(sheet)?;
        let Place { from, to } = line.value;
        if !line.value.text(sheet).starts_with(key) {
            return None;
        }
        Some(Read {
            value: Place {
                from: from + key.len(),
                to,
            },
            next: line.next,
        })
    }
}

// A part of the lent sheet: of a line's value, the caller's own bytes after the equals sign. A form of document 01.
pub fn part(sheet: &[u8], from: usize, to: usize) -> &[u8]
    requires { (from ≤ to) × (to ≤ length sheet.now) }
    ensures { result.now ≡ part_of from to sheet.now }
{
    &sheet[from..to]
}

// The values of two lines that belong together.
#[derive(Clone, Copy, Debug, PartialEq, Eq)]
pub struct Sides {
    pub left: Place,
    pub right: Place,
}

// The values of the two lines at the cursor, if the first begins with one key and the second with the other.
#[tactic(auto, unfolding(crate::specs::Pairs::two_lines_at))]
fn two_lines(sheet: &[u8], cursor: Cursor, first: &[u8], second: &[u8]) -> Option<Read<Sides>>
    ensures { result ≡ two_lines_at first.now second.now sheet.now cursor.at }
{
    let left = cursor.keyed(sheet, first)?;
    let right = left.next.keyed(sheet, second)?;
    Some(Read {
        value: Sides {
            left: left.value,
            right: right.value,
        },
        next: right.next,
    })
}

// The next pair of lines `left`, `right`.
pub fn next_pair(sheet: &[u8], cursor: Cursor) -> Option<Read<Sides>>
    ensures { result ≡ two_lines_at (bytes "left=") (bytes "right=") sheet.now cursor.at }
{
    two_lines(sheet, cursor, b"left=", b"right=")
}

// The next lines `key`, `value` of a member: the key is the left side, the value the right.
pub fn next_entry(sheet: &[u8], cursor: Cursor) -> Option<Read<Sides>>
    ensures { result ≡ two_lines_at (bytes "key=") (bytes "value=") sheet.now cursor.at }
{
    two_lines(sheet, cursor, b"key=", b"value=")
}

// The next line `member`.
pub fn next_member(sheet: &[u8], cursor: Cursor) -> Option<Read<Place>>
    ensures { result ≡ value_at sheet.now (bytes "member=") cursor.at }
{
    cursor.keyed(sheet, b"member=")
}
