// Tokens of a text (syntax.rs): where each starts and ends, and the symbol that it is.
// A text and a position, not the rest of the text: names are told by their places.
#![tactic(auto)]

pub mod symbols; // symbols.rt: the next symbol of a text

ghost use Rattle.std.specs.Prelude.{◌≡◌, ℕ, ◌+◌, ◌<◌, Bool, length, get_or, drop};
ghost use Rattle.rules.specs.Names.{digit, alphanumeric};
ghost use Rattle.rules.specs.Tokens.{run_length, sigil, mark, sort_length, variable_rest, plain_rest, rest_length};
ghost use Rattle.syntax.specs.Next.{blank, end_of};

// A class of bytes that a run is made of.
pub trait Class {
    ghost has: { ℕ → Bool };

    fn has(b: u8) -> bool
        ensures { result ≡ has b };
}

#[derive(Clone, Copy)]
pub struct Blank;

#[derive(Clone, Copy)]
pub struct Digit;

#[derive(Clone, Copy)]
pub struct Word;

impl Class for Blank {
    ghost has = { blank };

    fn has(b: u8) -> bool {
        b == b' '
    }
}

impl Class for Digit {
    ghost has = { digit };

    fn has(b: u8) -> bool {
        text::is_digit(b)
    }
}

impl Class for Word {
    ghost has = { alphanumeric };

    fn has(b: u8) -> bool {
        text::is_alphanumeric(b)
    }
}

// The two classes of a single byte: each stands here and in the definitions alone.
fn is_sigil(b: u8) -> bool
    ensures { result ≡ sigil b }
{
    matches!(b, b'x' | b'#' | b'%')
}

fn is_mark(b: u8) -> bool
    ensures { result ≡ mark b }
{
    matches!(b, b'(' | b')' | b',')
}

// Where the run of a class ends that starts at `at`.
// A loop over places: a slice of what is left and its count took ten instructions more for each symbol.
pub fn run_end<C: Class>(text: &[u8], at: usize) -> usize
    ensures { result ≡ at + run_length C.has (drop at text.now) }
{
    let mut end = at;
    while end < text.len() && C::has(text[end]) {
        end += 1;
    }
    end
}

// Where a colon, a letter, and then letters and digits end.
#[tactic(auto, using(crate::proofs::TokenEnds::sort_is), unfolding(rules::specs::Names::alphabetic))]
fn sort_end(text: &[u8], at: usize) -> Option<usize>
    ensures { result ≡ end_of at (sort_length (drop at text.now)) }
{
    if *text.get(at)? != b':' || !text::is_alphabetic(*text.get(at + 1)?) {
        return None;
    }
    Some(run_end::<Word>(text, at + 2))
}

// Where a variable ends whose first byte stands at `at`.
#[tactic(auto, using(crate::proofs::TokenEnds::variable_is))]
fn variable_end(text: &[u8], at: usize) -> Option<usize>
    requires { at < length text.now }
    ensures { result ≡ end_of (at + 1) (variable_rest (get_or text.now at 0) (drop (at + 1) text.now)) }
{
    if !is_sigil(text[at]) {
        return None;
    }
    let colon = run_end::<Digit>(text, at + 1);
    if colon <= at + 1 {
        return None;
    }
    sort_end(text, colon)
}

// Where a name, a number or a mark ends that starts at `at`.
#[tactic(auto, unfolding(rules::specs::Tokens::plain_rest))]
fn plain_end(text: &[u8], at: usize) -> Option<usize>
    requires { at < length text.now }
    ensures { result ≡ end_of (at + 1) (plain_rest (get_or text.now at 0) (drop (at + 1) text.now)) }
{
    let b = text[at];
    if text::is_alphabetic(b) {
        return Some(run_end::<Word>(text, at + 1));
    }
    if text::is_digit(b) {
        return Some(run_end::<Digit>(text, at + 1));
    }
    is_mark(b).then_some(at + 1)
}

// Where the token ends that starts at `at`.
#[tactic(auto, unfolding(rules::specs::Tokens::rest_length))]
pub(crate) fn token_end(text: &[u8], at: usize) -> Option<usize>
    requires { at < length text.now }
    ensures { result ≡ end_of (at + 1) (rest_length (get_or text.now at 0) (drop (at + 1) text.now)) }
{
    variable_end(text, at).or_else(|| plain_end(text, at))
}
