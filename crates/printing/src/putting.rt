// A text, a name or a number put into an output: its bytes are written, or only counted. What does not fit is not put.
ghost use Rattle.std.specs.Prelude.{◌≡◌, ◌<◌, length};
ghost use Rattle.rules.specs.Bytes.{Text};
ghost use Rattle.rules.specs.Decimal.{decimal};
ghost use Rattle.tree.specs.Areas.{name_in, CellIn};
ghost use Rattle.printing.specs.Putting.{PutInto};

use crate::output::{Output, Pass};
use text::copying::copy;
use text::decimal::{print, width_of};
use tree::area::Area;

impl Output<'_> {
    // So many bytes, as `fill` leaves them in the part of the output that is theirs.
    fn put<F: Fn(&mut [u8])>(&mut self, count: usize, fill: F) -> Option<()>
        requires { (part : _) → length part.now ≡ count → F.pre fill part }
        ensures { (t : Text) → length t ≡ count → ((p : _) (q : _) → length p.now ≡ count → F.post fill p tt q → q.now ≡ t) → PutInto self.old self.new t 0 result }
    {
        if self.room - self.at < count {
            return None;
        }
        let end = self.at + count;
        if let Pass::Write = self.pass {
            fill(&mut self.bytes[self.at..end]);
        }
        self.at = end;
        Some(())
    }

    // A text.
    pub(crate) fn text(&mut self, text: &[u8]) -> Option<()>
        ensures { PutInto self.old self.new text.now 0 result }
    {
        self.put(text.len(), |part| copy(part, text))
    }

    // A number in decimal.
    pub(crate) fn decimal(&mut self, n: usize) -> Option<()>
        ensures { PutInto self.old self.new (decimal n) 0 result }
    {
        self.put(width_of(n), |part| {
            print(n, part, 0);
        })
    }

    // The name of cell i.
    pub(crate) fn name(&mut self, area: &Area, i: usize) -> Option<()>
        requires { CellIn area.now i }
        ensures { PutInto self.old self.new (name_in area.now i) 0 result }
    {
        self.put(area.name_len(i), |part| {
            area.print_name(i, part, 0);
        })
    }
}
