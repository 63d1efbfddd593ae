// The pairs by which one member covers, in an area.
ghost use Rattle.std.specs.Prelude.{◌≤◌, length};
ghost use Rattle.forms.specs.Members.{EntriesThere};
ghost use Rattle.variables.specs.Areas.{SolutionIn};
ghost use Rattle.values.specs.Areas.{PairsRoomIn, PairsUpMemberIn};

use crate::values::read_values;
use sheet::{Cursor, Read};
use tree::area::Area;
use variables::pairing::{Solution, pair_values};

// At each variable of a solution: the tree that the entries from a cursor on give it, and that of the solution's bindings; and where the
// entries end. None where one of the values cannot be read.
pub fn pair_member(area: &mut Area, solution: Solution, start: Cursor) -> Option<Read<usize>>
    requires solution { SolutionIn area.old solution }
    requires start { (start.at ≤ length area.old.sheet.now) × (length area.old.sheet.now ≤ 65536) }
    requires room { PairsRoomIn area.old solution.names }
    requires entries_there { EntriesThere area.old.sheet.now start.at }
    ensures { PairsUpMemberIn area.old area.new solution start.at result }
{
    let read = read_values(area, solution.names, start)?;
    Some(Read {
        value: pair_values(area, read.value, solution, 0),
        next: read.next,
    })
}
