// A decision in the output: measured, then written where it fits.
ghost use Rattle.std.specs.Prelude.{length};
ghost use Rattle.answers.specs.Deciding.{reply_of, Standing, NamesNone};
ghost use Rattle.tree.specs.declared.area.Area.{Area};
ghost use Rattle.answers.specs.Settling.{within_room, Settles};

use crate::deciding::Decision;
use crate::lines::put_lines;
use printing::output::{Output, Pass};
use rules::Refusal;
use tree::area::Area;

// What the call gives: the count of bytes written, or a refusal.
pub type Reply = Result<usize, Refusal>;

// The refusal that was decided, 12 where the answer does not fit, or the answer, written from byte 0 on. It is measured before a byte is
// written.
pub fn give(area: &Area, decision: Decision, output: &mut [u8]) -> Reply
    requires { Standing area.now decision }
    ensures { Settles (within_room (reply_of area.now decision) (length output.old)) output.old output.new result }
{
    let lines = decision?;
    let room = output.len();
    let mut out = Output {
        bytes: output,
        at: 0,
        lines: 0,
        room,
        pass: Pass::Measure,
    };
    put_lines(&mut out, area, lines).ok_or(Refusal::ShortOutput)?;
    out.lines = 0;
    out.at = 0;
    out.pass = Pass::Write;
    put_lines(&mut out, area, lines).unwrap();
    Ok(out.at)
}

// The same for a decision that names no cell, which says one thing in every area.
fn give_alike(area: &Area, decision: Decision, output: &mut [u8]) -> Reply
    requires { NamesNone decision }
    ensures { (a : Area) → Settles (within_room (reply_of a decision) (length output.old)) output.old output.new result }
{
    give(area, decision, output)
}

// The same for a decision that names no cell, of a caller who has no work area.
pub fn give_told(decision: Decision, output: &mut [u8]) -> Reply
    requires { NamesNone decision }
    ensures { (a : Area) → Settles (within_room (reply_of a decision) (length output.old)) output.old output.new result }
{
    let mut words = [0u32; 4];
    let area = Area {
        sheet: b"",
        work: &mut words,
        free: 1,
    };
    give_alike(&area, decision, output)
}
