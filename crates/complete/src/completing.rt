// Kind `complete` over an area: whether every scheme that is solved and normal is generalized by a member (variants.rs, `complete`).
ghost use Rattle.std.specs.Prelude.{◌<◌};
ghost use Rattle.complete.specs.Areas.{CompleteInputIn, ClaimsCompleteIn};
ghost use Rattle.tree.specs.Areas.{CellIn};

use crate::judging::{Question, judge};
use families::members::read_members;
use fresh::cells::fresh_cells;
use fresh::naming::name_variables;
use schemes::counting::count_schemes;
use schemes::systems::Schemes;
use sheet::Cursor;
use tree::area::Area;

// Whether the members from a cursor on are complete for the tree of cell term; no claim where a text is unreadable, a variable has no
// index, there are over 4,096 schemes or one of them is not supported. `named` is how many names a scheme has at most.
#[tactic(auto, unfolding(rules::specs::Sheet::words_needed))]
pub fn complete(area: &mut Area, term: usize, named: usize, members: Cursor) -> Option<bool>
    requires term { CellIn area.old term × CompleteInputIn area.old term named members.at }
    ensures { ClaimsCompleteIn area.old area.new term members.at result }
{
    let variables = name_variables(area, term)?;
    let count = count_schemes(area, term)?;
    let fresh = fresh_cells(area, variables.base);
    let list = read_members(area, members)?;
    let schemes = Schemes { term, fresh, count };
    let asked = Question {
        schemes,
        named,
        names: variables.names,
        members: list,
    };
    judge(area, asked)
}
