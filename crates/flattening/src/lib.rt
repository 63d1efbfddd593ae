// The words of a text, written while its form is read; a sum inside a sum loses its name and brackets.
#![tactic(auto)]

pub mod brackets; // brackets.rt: the brackets of lists
pub mod writer; // writer.rt: words written one after another

ghost use Rattle.std.specs.Prelude.{◌≡◌, ◌+◌, ◌-◌, ◌<◌, ◌≤◌, length};
ghost use Rattle.sheet.specs.Places.{word_of};
ghost use Rattle.text.specs.Frames.{Outside};
ghost use Rattle.flattening.specs.Items.{adds};
ghost use Rattle.flattening.specs.Writer.{TextRoom, finished, TextWords};
ghost use Rattle.flattening.specs.Writers.{BracketOpened};

use crate::brackets::Stack;
use crate::writer::Writer;
use rules::SUM;
use runs::COMMA;
use sheet::Place;
use syntax::symbols::{Symbol, next_symbol};

// Whether a name is that of sums.
#[tactic(auto, using(crate::proofs::WriterSteps::adds_is))]
fn adds(sheet: &[u8], name: Place) -> bool
    requires { (name.from < name.to) × (name.to ≤ length sheet.now) × (name.to < 65536) }
    ensures { result ≡ adds sheet.now (word_of name) }
{
    name.text(sheet) == SUM
}

// Writes a name and its opening bracket, which is open then.
fn open_list(sheet: &[u8], name: Place, stack: &mut Stack, out: &mut Writer)
    requires name { (name.from < name.to) × (name.to ≤ length sheet.now) × (name.to < 65536) }
    requires depth { stack.old.depth < length stack.old.words.now }
    requires room { out.old.end + 2 ≤ length out.old.words.now }
    ensures { BracketOpened sheet.now (word_of name) stack.old stack.new out.old out.new }
{
    let outer = stack.last();
    let sum = adds(sheet, name);
    let bracket = outer.within(sum);
    bracket.open(name.word(), out);
    stack.push(bracket);
}

// The end of the words of a text whose last bracket is closed, if nothing follows.
fn finished(next: Symbol, end: usize) -> Option<usize>
    ensures { result ≡ finished next end }
{
    (next == Symbol::Stop).then_some(end)
}

// Writes the words of a text, and answers how many if it is a term. At most as many as the text has bytes may change; as many words of
// the stack hold the open brackets.
pub fn text_words(sheet: &[u8], text: Place, words: &mut [u32], stack: &mut [u32]) -> Option<usize>
    requires { TextRoom sheet.now text words.old stack.old }
    ensures words { Outside words.old words.new 0 (text.to - text.from) }
    ensures stack { Outside stack.old stack.new 0 (text.to - text.from) }
    ensures written { TextWords sheet.now words.new text result }
{
    let read = &sheet[..text.to];
    let mut at = text.from;
    let mut stack = Stack {
        words: stack,
        depth: 0,
    };
    let mut out = Writer { words, end: 0 };
    // The loops of document 01: a term from its name on, then what follows it.
    'term: loop {
        let Symbol::Name(name) = next_symbol(read, at)? else {
            return None;
        };
        if let Symbol::Begin(inner) = next_symbol(read, name.to)? {
            open_list(sheet, name, &mut stack, &mut out);
            at = inner;
            continue 'term;
        }
        out.push(name.word());
        at = name.to;
        loop {
            let next = next_symbol(read, at)?;
            if stack.depth == 0 {
                return finished(next, out.end);
            }
            match next {
                Symbol::Comma(past) => {
                    out.push(COMMA);
                    at = past;
                    continue 'term;
                }
                Symbol::Shut(past) => {
                    stack.pop().close(&mut out);
                    at = past;
                }
                _ => return None,
            }
        }
    }
}
