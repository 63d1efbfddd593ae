// Kind `sound` in an area: the instance of a term under a member's bindings, reduced, against the member's own tree.
ghost use Rattle.std.specs.Prelude.{◌+◌, ◌*◌, ◌<◌, ◌≤◌, length};
ghost use Rattle.rules.specs.Tree.{size};
ghost use Rattle.tree.specs.Areas.{CellIn, tree_in};
ghost use Rattle.reading.specs.Areas.{texts_end_in};
ghost use Rattle.reduction.specs.Areas.{InstanceRoom};
ghost use Rattle.forms.specs.Form.{fewest_words};
ghost use Rattle.variants.specs.Soundness.{OneMember};
ghost use Rattle.variants.specs.Areas.{ClaimsInstanceIn, ClaimsSoundIn};

use crate::members::{Variant, read_member};
use equivalence::equivalent;
use reduction::normalizing::normalize;
use sheet::Cursor;
use substitution::instances::substitute;
use tree::area::Area;

// Whether the instance of the tree of cell term under a member's bindings reduces to the member's tree, up to the order of summands, if the
// instance is not too large. `complete::judging` substitutes and normalizes too, but compares with the instance itself.
fn reduces_to(area: &mut Area, term: usize, member: Variant) -> Option<bool>
    requires cells { CellIn area.old term × CellIn area.old member.value × (member.bindings < area.old.free) }
    requires room { (size (tree_in area.old member.value) ≤ 4096) × InstanceRoom area.old }
    ensures { ClaimsInstanceIn area.old area.new term member result }
{
    let instance = substitute(area, term, member.bindings, 0, 4096)?;
    let normal = normalize(area, instance.index, 0);
    Some(equivalent(area, normal, member.value))
}

// Whether the one member at the cursor is a sound variant of the tree of cell term, if its texts can be read and the instance is not too
// large.
pub fn sound(area: &mut Area, term: usize, start: Cursor) -> Option<bool>
    requires term { CellIn area.old term }
    requires room { (length area.old.sheet.now ≤ 65536) × (fewest_words area.old.sheet.now ≤ length area.old.work.now) × (texts_end_in area.old start.at ≤ 1 + 4 * length area.old.sheet.now) }
    requires one_member { OneMember area.old.sheet.now start.at }
    ensures { ClaimsSoundIn area.old area.new term start.at result }
{
    let member = read_member(area, start)?;
    reduces_to(area, term, member)
}
