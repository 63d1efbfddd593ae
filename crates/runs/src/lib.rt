// Texts as runs of words: their order, and runs sorted by it.
#![tactic(auto)]

pub mod order; // order.rt: the bytes of words, and the order of texts
pub mod sorting; // sorting.rt: runs of words, sorted by their texts

// A word is a start, or a code, times SPAN, and a length.
pub const SPAN: u32 = 65536;

// The words of the marks `(`, `)` and `,`: constants and no enum, since they are matched where they lie, in lent words.
pub const OPEN: u32 = b'(' as u32 * SPAN;

pub const SHUT: u32 = b')' as u32 * SPAN;

pub const COMMA: u32 = b',' as u32 * SPAN;

// The word of the name of sums; those of the fixed names come after it.
pub const PLUS: u32 = 256 * SPAN;
