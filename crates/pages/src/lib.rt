// A decision in the output, laid out in pages where they are not too many and fit.
#![tactic(auto)]

ghost use Rattle.std.specs.Prelude.{◌≡◌, ◌+◌, ◌*◌, ◌≤◌, ◌++◌, length, drop};
ghost use Rattle.rules.specs.Page.{page, page_count};
ghost use Rattle.answers.specs.Deciding.{lines_text, LinesHeld, reply_of, Standing, FitsColumns};
ghost use Rattle.answers.specs.Settling.{Settles};
ghost use Rattle.pages.specs.Paging.{on_pages, Needs};

use answers::deciding::{Decision, Lines};
use answers::giving::Reply;
use answers::lines::put_lines;
use layout::lay_out;
use printing::output::{Output, Pass};
use rules::Refusal;
use tree::area::Area;

// The bytes of 9,999 pages. An answer that needs no more pages is no longer.
const MOST: usize = 3650 * 9999;

// The length of an answer, and the pages that it needs.
#[derive(Clone, Copy)]
struct Needed {
    length: usize,
    pages: usize,
}

// Measures the lines of an answer; none where they need more than 9,999 pages.
fn measure(area: &Area, lines: Lines, output: &mut [u8]) -> Option<Needed>
    requires held { LinesHeld area.now lines }
    requires columned { FitsColumns area.now (Ok lines) }
    ensures kept { output.new ≡ output.old }
    ensures needs { Needs (lines_text area.now lines) result }
{
    let mut out = Output {
        bytes: output,
        at: 0,
        lines: 0,
        room: MOST,
        pass: Pass::Measure,
    };
    put_lines(&mut out, area, lines)?;
    let pages = (out.lines + 48) / 49;
    if pages > 9999 {
        return None;
    }
    Some(Needed {
        length: out.at,
        pages,
    })
}

// Writes the lines of an answer up to the end of its pages, and lays them out.
fn put_pages(area: &Area, lines: Lines, output: &mut [u8], needed: Needed)
    requires held { LinesHeld area.now lines }
    requires columned { FitsColumns area.now (Ok lines) }
    requires needs { Needs (lines_text area.now lines) (Some needed) }
    requires room { 3650 * needed.pages ≤ length output.old }
    ensures { output.new ≡ page (lines_text area.now lines) ++ drop (3650 * needed.pages) output.old }
{
    let end = 3650 * needed.pages;
    let start = end - needed.length;
    let mut out = Output {
        bytes: output,
        at: start,
        lines: 0,
        room: end,
        pass: Pass::Write,
    };
    put_lines(&mut out, area, lines).unwrap();
    lay_out(output, start, needed.pages);
}

// The refusal that was decided, 13 where the answer needs more than 9,999 pages, 12 where its pages do not fit, or the answer laid out, from
// byte 0 on. It is measured before a byte is written.
pub fn give_pages(area: &Area, decision: Decision, output: &mut [u8]) -> Reply
    requires standing { Standing area.now decision }
    requires columned { FitsColumns area.now decision }
    ensures { Settles (on_pages (reply_of area.now decision) (length output.old)) output.old output.new result }
{
    let lines = decision?;
    let needed = measure(area, lines, output).ok_or(Refusal::TooManyPages)?;
    let end = 3650 * needed.pages;
    if end > output.len() {
        return Err(Refusal::ShortOutput);
    }
    put_pages(area, lines, output, needed);
    Ok(end)
}
