// The answers to `unify` and `match`, put into an output.
#![tactic(auto)]

ghost use Rattle.std.specs.Prelude.{◌≡◌, ◌<◌};
ghost use Rattle.rules.specs.Answer.{binding_lines, verdict_lines};
ghost use Rattle.laws.specs.Laying.{binding_entries, verdict_entries, line_count};
ghost use Rattle.tree.specs.Areas.{trees_in};
ghost use Rattle.printing.specs.Putting.{PutInto};
ghost use Rattle.substitution.specs.Areas.{bindings_in};
ghost use Rattle.substitution.specs.Answers.{answer_in};
ghost use Rattle.substitution.specs.Bindings.{Chain};
ghost use Rattle.verdicts.specs.Verdicts.{ending_word, head_lines, head_count, VerdictHeld};

use printing::output::Output;
use rules::Ending;
use substitution::answer::Answer;
use tree::area::Area;

// The verdict of a run that ends without a solution. No Display: it would write twice through fmt.
fn word_of(ending: Ending) -> &'static [u8]
    ensures { result.now ≡ ending_word ending }
{
    match ending {
        Ending::Failed => b"failed",
        Ending::Unsupported => b"unsupported",
    }
}

// The verdict's line and the line `spent`.
pub fn put_head(out: &mut Output, verdict: &[u8], spent: usize) -> Option<()>
    ensures { PutInto out.old out.new (head_lines verdict.now spent) (head_count verdict.now spent) result }
{
    out.word_line(b"verdict=", verdict)?;
    out.number_line(b"spent=", spent)
}

// The lines `key` and `value` of the bindings from cell `list` on. Two cells a step: a key and its value.
fn put_bindings(out: &mut Output, area: &Area, list: usize) -> Option<()>
    requires { (list < area.now.free) × Chain (trees_in area.now list) }
    ensures { PutInto out.old out.new (binding_lines (bindings_in area.now list)) (line_count (binding_entries (bindings_in area.now list))) result }
{
    let mut cells = area.list(list);
    while let (Some(key), Some(value)) = (cells.next(), cells.next()) {
        out.line(b"key=", area, key)?;
        out.line(b"value=", area, value)?;
    }
    Some(())
}

// The lines of an answer: its verdict, the number of pairs taken, and the bindings where it is solved.
pub fn put_answer(out: &mut Output, area: &Area, answer: Answer) -> Option<()>
    requires { VerdictHeld area.now answer.verdict }
    ensures { PutInto out.old out.new (verdict_lines (answer_in area.now answer)) (line_count (verdict_entries (answer_in area.now answer))) result }
{
    match answer.verdict {
        Ok(bindings) => {
            put_head(out, b"solved", answer.spent)?;
            put_bindings(out, area, bindings)
        }
        Err(ending) => put_head(out, word_of(ending), answer.spent),
    }
}
