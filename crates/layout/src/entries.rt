// The lines of an entry, and the heading before them where a page begins.
ghost use Rattle.std.specs.Prelude.{◌≡◌, ◌+◌, ◌<◌, ◌≤◌, ℕ, suc, [], ◌∷◌, ◌++◌, length, eqb, nat_lt, position};
ghost use Rattle.rules.specs.Text.{count_of};
ghost use Rattle.rules.specs.Page.{heading};
ghost use Rattle.text.specs.Printing.{printed_over};
ghost use Rattle.layout.specs.Places.{length_before, Unread, laid_out, HeadingRoom, Headed};

use crate::lines::{put_heading, put_line};

// Where the layout stands: the position of the next line, that of the first unread byte, the lines left on the page, and the number of
// the next one.
#[derive(Clone, Copy)]
pub(crate) struct Place {
    pub(crate) at: usize,
    pub(crate) from: usize,
    pub(crate) left: usize,
    pub(crate) number: usize,
}

// Where the first byte that is b stands.
fn position_of(text: &[u8], b: u8) -> Option<usize>
    ensures { result ≡ position (λ (x : ℕ). eqb x b) text.now }
{
    text.iter().position(|x| *x == b)
}

// How many bytes stand before the first that is b, or in all.
fn length_before(text: &[u8], b: u8) -> usize
    ensures { result ≡ length_before b text.now }
{
    position_of(text, b).unwrap_or(text.len())
}

// Whether one of the bytes is b. Every byte is looked at, so that many are looked at together.
fn holds(text: &[u8], b: u8) -> bool
    ensures { result ≡ nat_lt 0 (count_of b text.now) }
{
    let mut found = false;
    for x in text {
        found |= *x == b;
    }
    found
}

// The bytes that are looked at together.
const BLOCK: usize = 64;

// How many bytes stand before the first byte 10, or in all. Long texts are passed over block by block.
fn text_length(text: &[u8]) -> usize
    ensures { result ≡ length_before 10 text.now }
{
    let mut at = 0;
    while BLOCK <= text.len() - at && !holds(&text[at..at + BLOCK], b'\n') {
        at += BLOCK;
    }
    at + length_before(&text[at..], b'\n')
}

// The heading, where a page begins.
fn begin_line(output: &mut [u8], place: Place) -> Place
    requires { HeadingRoom output.old place }
    ensures { Headed output.old output.new place result }
{
    if place.left != 0 {
        return place;
    }
    put_heading(output, place.at, place.number);
    Place {
        at: place.at + 73,
        left: 49,
        number: place.number + 1,
        ..place
    }
}

// The lines of the next entry.
pub(crate) fn lay_entry(output: &mut [u8], end: usize, place: Place) -> Place
    requires unread { Unread output.old end place }
    requires some { place.from < end }
    ensures unread { Unread output.new end result }
    ensures laid { laid_out output.new end result ≡ laid_out output.old end place }
    ensures further { place.from < result.from }
{
    let mut key = length_before(&output[place.from..end], b'=');
    let mut place = Place {
        from: place.from + key + 1,
        ..place
    };
    let mut rest = text_length(&output[place.from..end]);
    loop {
        place = begin_line(output, place);
        let count = rest.min(63);
        put_line(output, place.at, key, place.from, count);
        place.at += 73;
        place.from += count;
        place.left -= 1;
        rest -= count;
        if rest == 0 {
            break;
        }
        key = 0;
    }
    place.from += 1;
    place
}
