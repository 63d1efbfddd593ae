// Fingerprints of texts: texts that are one have one fingerprint.
#![tactic(auto)]

ghost use Rattle.std.specs.Prelude.{◌≡◌, ◌+◌, ◌*◌, ◌<◌, ◌≤◌, length};
ghost use Rattle.rules.specs.Tree.{size};
ghost use Rattle.rules.specs.Sums.{canonical};
ghost use Rattle.laws.specs.Unspelled.{zeros_name};
ghost use Rattle.tree.specs.Areas.{CellIn, tree_in};
ghost use Rattle.runs.specs.Texts.{word_text, texts, Token, Tokens};
ghost use Rattle.equivalence.specs.Words.{TreeWritten};
ghost use Rattle.fingerprints.specs.Fingerprints.{mixed_byte, mixed, fingerprint};

use equivalence::words::tree_words;
use flattening::writer::Writer;
use rules::SUM;
use runs::order::{Piece, piece_of};
use tree::area::Area;
use tree::names::ZEROS;

// The fingerprint of no bytes, what it is multiplied by at each byte, what a zero adds to it, and what it stays below.
const BASIS: u32 = 2166136261;

const PRIME: u64 = 16777619;

const ZERO: u64 = 2654435769;

const MODULUS: u64 = 4294967296;

// The fingerprint h, carried on through the byte b.
fn mix_byte(h: u32, b: u8) -> u32
    ensures { result ≡ mixed_byte h b }
{
    if b == b'0' {
        return ((u64::from(h) + ZERO) % MODULUS) as u32;
    }
    ((u64::from(h) * PRIME + u64::from(b)) % MODULUS) as u32
}

// The same through a text.
fn mix_bytes(h: u32, text: &[u8]) -> u32
    ensures { result ≡ mixed h text.now }
{
    text.iter().fold(h, |mixed, b| mix_byte(mixed, *b))
}

// The same through an x, n zeros, a colon and Msg.
fn mix_zeros(h: u32, n: usize) -> u32
    requires { n < 131072 }
    ensures { result ≡ mixed h (zeros_name n) }
{
    let zeros = u64::from(mix_byte(h, b'x')) + n as u64 * ZERO;
    mix_bytes((zeros % MODULUS) as u32, b":Msg")
}

// The same through the text of the word x.
#[tactic(auto, using(runs::proofs::Pieces::text_piece))]
fn mix(sheet: &[u8], h: u32, x: u32) -> u32
    requires { Token sheet.now x }
    ensures { result ≡ mixed h (word_text sheet.now x) }
{
    match piece_of(x) {
        Piece::Place { start, length } => mix_bytes(h, &sheet[start..start + length]),
        Piece::Byte(b) => mix_byte(h, b),
        Piece::Sum => mix_bytes(h, SUM),
        Piece::Fixed(name) => mix_bytes(h, name.text()),
        Piece::Unspelled(more) => mix_zeros(h, ZEROS + more as usize),
    }
}

// The fingerprint of the text of the words.
// A loop: a fold's closure would need a clause of its own for each word.
fn fingerprint(sheet: &[u8], words: &[u32]) -> u32
    requires { Tokens sheet.now words.now 0 (length words.now) }
    ensures { result ≡ fingerprint (texts sheet.now words.now) }
{
    let mut mixed = BASIS;
    for word in words {
        mixed = mix(sheet, mixed, *word);
    }
    mixed
}

// Writes the canonical words of the tree of cell i, and answers their fingerprint. Fifteen words for each node may change.
pub fn tree_fingerprint(area: &Area, i: usize, out: &mut Writer) -> u32
    requires cell { CellIn area.now i }
    requires small { 5 * size (tree_in area.now i) < 65536 }
    requires room { out.old.end + 15 * size (tree_in area.now i) ≤ length out.old.words.now }
    ensures written { TreeWritten area.now.sheet.now (tree_in area.now i) out.old out.new }
    ensures value { result ≡ fingerprint (canonical (tree_in area.now i)) }
{
    let base = out.end;
    tree_words(area, i, out);
    fingerprint(area.sheet, out.since(base))
}
