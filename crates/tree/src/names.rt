// Names of cells, and texts written into an output. They are written at a place that is handed on, as the public ones promise: a writer of
// bytes would serve one caller.
ghost use Rattle.std.specs.Prelude.{◌≡◌, ◌+◌, ◌<◌, ◌≤◌, length};
ghost use Rattle.rules.specs.Bytes.{same};
ghost use Rattle.laws.specs.Unspelled.{unspelled};
ghost use Rattle.tree.specs.Names.{name_text};
ghost use Rattle.text.specs.Printing.{Printed};

use crate::fixed::Fixed;
use text::copying::copy;

// How many zeros the first name has that no sheet spells.
pub const ZEROS: usize = 65536;

#[derive(Clone, Copy, Debug, PartialEq, Eq)]
pub(crate) enum Name<'a> {
    // A text of the sheet.
    Spelled(&'a [u8]),
    Fixed(Fixed),
    // An x, 65,536 zeros and so many more, a colon and the sort: no sheet spells it.
    Unspelled(u8),
}

impl Name<'_> {
    pub(crate) fn len(self) -> usize
        ensures { result ≡ length (name_text self.entry) }
    {
        match self {
            Name::Spelled(text) => text.len(),
            Name::Fixed(name) => name.text().len(),
            Name::Unspelled(n) => 5 + ZEROS + n as usize,
        }
    }

    // Whether the name is a text.
    pub(crate) fn is(self, text: &[u8]) -> bool
        ensures { result ≡ same (name_text self.entry) text.now }
    {
        match self {
            Name::Spelled(name) => name == text,
            Name::Fixed(name) => name.text() == text,
            Name::Unspelled(n) => is_unspelled(n, text),
        }
    }

    // Writes the name at a place of an output, and answers where it ends.
    pub(crate) fn print(self, out: &mut [u8], at: usize) -> usize
        requires { at + length (name_text self) ≤ length out.old }
        ensures { Printed out.old out.new at (name_text self.entry) result }
    {
        match self {
            Name::Spelled(text) => print_text(out, at, text),
            Name::Fixed(name) => print_text(out, at, name.text()),
            Name::Unspelled(n) => print_unspelled(out, at, n),
        }
    }
}

// Whether the n-th name that no sheet spells is a text.
fn is_unspelled(n: u8, text: &[u8]) -> bool
    ensures { result ≡ same (unspelled n) text.now }
{
    let Some(rest) = text.strip_prefix(b"x") else {
        return false;
    };
    let Some(zeros) = rest.strip_suffix(b":Msg") else {
        return false;
    };
    zeros.len() == ZEROS + n as usize && zeros.iter().all(|b| *b == b'0')
}

// Writes the n-th name that no sheet spells, and answers where it ends.
fn print_unspelled(out: &mut [u8], at: usize, n: u8) -> usize
    requires { at + length (unspelled n) ≤ length out.old }
    ensures { Printed out.old out.new at (unspelled n) result }
{
    let end = at + 1 + ZEROS + n as usize;
    out[at] = b'x';
    out[at + 1..end].fill(b'0');
    print_text(out, end, b":Msg")
}

// Writes the bytes of a text, and answers where they end.
pub fn print_text(out: &mut [u8], at: usize, text: &[u8]) -> usize
    requires { at + length text.now ≤ length out.old }
    ensures { Printed out.old out.new at text.now result }
{
    let end = at + text.len();
    copy(&mut out[at..end], text);
    end
}
