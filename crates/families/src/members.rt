// The members of a sheet as one list of trees of an area, the last first.
ghost use Rattle.std.specs.Prelude.{◌≡◌, ◌+◌, ◌<◌};
ghost use Rattle.rules.specs.Tree.{more, size, sizes};
ghost use Rattle.tree.specs.Areas.{tree_in, trees_in, CellIn, HasRoom};
ghost use Rattle.tree.specs.Lists.{Lists};
ghost use Rattle.variants.specs.Members.{TextsRoom};
ghost use Rattle.families.specs.Families.{member_tree, MembersThere};
ghost use Rattle.families.specs.Areas.{ReadsMembersIn};

use sheet::{Cursor, next_member};
use tree::area::Area;
use tree::fixed::Fixed;
use variants::members::read_member;

// Puts a member before the list from cell `list` on: the tree of cell value and the bindings from cell bindings on, as one tree.
fn push_member(area: &mut Area, value: usize, bindings: usize, list: usize) -> usize
    requires cells { CellIn area.old value × (bindings < area.old.free) × (list < area.old.free) }
    requires small { size (tree_in area.old value) + sizes (trees_in area.old bindings) < 65535 }
    requires room { HasRoom area.old 2 }
    ensures lists { Lists area.old area.new result (more (member_tree (tree_in area.old value) (trees_in area.old bindings)) (trees_in area.old list)) }
    ensures end { area.new.free ≡ area.old.free + 2 }
{
    area.push_over(Fixed::Pair, value, bindings, list)
}

// Every member from a cursor on, if all can be read.
pub fn read_members(area: &mut Area, start: Cursor) -> Option<usize>
    requires room { TextsRoom area.old.sheet.now area.old.work.now area.old.free start.at }
    requires members { MembersThere area.old.sheet.now start.at }
    ensures { ReadsMembersIn area.old area.new start.at result }
{
    let mut cursor = start;
    let mut list = 0;
    // A loop of its own: a trait for the loops that read lines into a list would be longer than they are.
    while next_member(area.sheet, cursor).is_some() {
        // No `?`: the wrong program that ends the list at a member that cannot be read changes only the value returned here.
        let Some(member) = read_member(area, cursor) else {
            return None;
        };
        list = push_member(area, member.value, member.bindings, list);
        cursor = member.next;
    }
    Some(list)
}
