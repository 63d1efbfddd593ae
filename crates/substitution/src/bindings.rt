// Bindings in an area: one list of cells, the key and the value of each in turn.
ghost use Rattle.std.specs.Prelude.{◌≡◌, ◌<◌};
ghost use Rattle.rules.specs.Tree.{variable};
ghost use Rattle.rules.specs.Substitution.{lookup};
ghost use Rattle.tree.specs.Areas.{name_in, tree_in, CellIn};
ghost use Rattle.tree.specs.Arena.{Links};
ghost use Rattle.tree.specs.Cells.{next_of};
ghost use Rattle.substitution.specs.Areas.{bindings_in, FindsIn};

use tree::area::Area;
use tree::cells::next_of;

// The value's cell of the binding whose key is cell b, 0 for none.
pub fn value_of(work: &[u32], free: usize, b: usize) -> usize
    requires links { Links work.now free }
    requires b_nonzero { (0 < b) × (b < free) }
    ensures { (result ≡ next_of work.now b) × (result < b) }
{
    next_of(work, free, b)
}

// The bindings after the one whose value is cell v, 0 for none.
pub fn rest_of(work: &[u32], free: usize, v: usize) -> usize
    requires links { Links work.now free }
    requires v_nonzero { (0 < v) × (v < free) }
    ensures { (result ≡ next_of work.now v) × (result < v) }
{
    next_of(work, free, v)
}

// The value in the first of the bindings from cell b on whose key has the name of cell x. Two cells a step: a key and
// its value.
pub fn lookup(area: &Area, b: usize, x: usize) -> Option<usize>
    requires b_link { b < area.now.free }
    requires x_cell { CellIn area.now x }
    ensures { FindsIn area.now (bindings_in area.now b) (name_in area.now x) result }
{
    let mut cells = area.list(b);
    while let Some(key) = cells.next() {
        let value = cells.next()?;
        if area.same_name(key, x) {
            return Some(value);
        }
    }
    None
}

// The cell of what the bindings from cell b on give the variable of cell x: its own where none has its name.
pub fn image(area: &Area, b: usize, x: usize) -> usize
    requires b_link { b < area.now.free }
    requires x_cell { CellIn area.now x × (tree_in area.now x ≡ variable (name_in area.now x)) }
    ensures cell { CellIn area.now result }
    ensures value { tree_in area.now result ≡ lookup (bindings_in area.now b) (name_in area.now x) }
{
    lookup(area, b, x).unwrap_or(x)
}
