// The list read from its front: bytes, lines, numbers, records.
ghost use Rattle.std.specs.Prelude.{◌≡◌, ◌++◌, length, min, IfSome};
ghost use Rattle.text.specs.Prefix.{begins_with};
ghost use Rattle.replay.specs.Records.{LeftOf, ReadsRecord, first_word, in_form};

use crate::call::Record;
use text::is_digit;

// What is left of the list.
#[derive(Clone, Copy)]
pub(crate) struct Reader<'a> {
    pub(crate) rest: &'a [u8],
}

// The number with one more digit. A number above a thousand million stays as it is, where number_up_to would give none.
fn with_digit(value: usize, digit: u8) -> usize {
    if value > 1000000000 || digit < b'0' {
        return value;
    }
    let worth = digit - b'0';
    value * 10 + worth as usize
}

// Whether a record starts with the word of its call.
fn opened(start: &[u8], paged: bool) -> bool
    ensures { result ≡ begins_with (first_word paged) start.now }
{
    if paged {
        return start.starts_with(b"pages ");
    }
    start.starts_with(b"sheet ")
}

// Whether it does and ends with byte 10.
fn closed(start: &[u8], paged: bool, end: &[u8]) -> bool
    ensures { result ≡ in_form start.now paged end.now }
{
    opened(start, paged) && end == b"\n".as_slice()
}

impl<'a> Reader<'a> {
    // The next bytes, as many as asked for or all that are left.
    fn take(&mut self, count: usize) -> &'a [u8]
        ensures parts { self.old.rest.now ≡ result.now ++ self.new.rest.now }
        ensures count { length result.now ≡ min count (length self.old.rest.now) }
    {
        let (front, rest) = self.rest.split_at(count.min(self.rest.len()));
        self.rest = rest;
        front
    }

    // The bytes up to the next byte 10, that one too, or all that are left. One call of the library: a function for any byte is no plainer.
    fn line(&mut self) -> &'a [u8]
        ensures { self.old.rest.now ≡ result.now ++ self.new.rest.now }
    {
        let count = match self.rest.iter().position(|b| *b == b'\n') {
            Some(length) => length + 1,
            None => self.rest.len(),
        };
        self.take(count)
    }

    // Drops the lines that start with `#`.
    pub(crate) fn skip_head(&mut self)
        ensures { LeftOf self.old.rest.now self.new.rest.now }
    {
        while self.rest.starts_with(b"#") {
            self.take(1);
            self.line();
        }
    }

    // The next number; the byte that ends it is dropped.
    fn number(&mut self) -> usize
        ensures { LeftOf self.old.rest.now self.new.rest.now }
    {
        let count = self
            .rest
            .iter()
            .position(|b| !is_digit(*b))
            .unwrap_or(self.rest.len());
        let digits = self.take(count);
        self.take(1);
        digits
            .iter()
            .fold(0, |value, digit| with_digit(value, *digit))
    }

    // The next record, if it is in form.
    pub(crate) fn record(&mut self) -> Option<Record<'a>>
        ensures { IfSome result (λ r. ReadsRecord self.old.rest.now r self.new.rest.now) }
    {
        let start = self.rest;
        let paged = opened(start, true);
        self.take(6);
        let words = self.number();
        let room = self.number();
        let refusal = self.number();
        let sheet_bytes = self.number();
        let answer_bytes = self.number();
        let label = self.line();
        let sheet = self.take(sheet_bytes);
        let answer = self.take(answer_bytes);
        let end = self.take(1);
        if !closed(start, paged, end) {
            return None;
        }
        Some(Record {
            paged,
            words,
            room,
            refusal,
            label,
            sheet,
            answer,
        })
    }
}
