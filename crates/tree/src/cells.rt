// The words of cells (specs/Cells.antt). Functions of words and not of an area: they ask for no more than that the words are there, or that
// links fall. A kind is a number here, 0 that of an application. 65536 is bare: each splits or makes one word.
ghost use Rattle.std.specs.Prelude.{◌≡◌, ◌+◌, ◌*◌, ◌<◌, ◌≤◌, ◌^◌, length};
ghost use Rattle.rules.specs.Bytes.{Text};
ghost use Rattle.rules.specs.Tree.{children};
ghost use Rattle.tree.specs.Cells.{start_of, length_of, kind_of, nodes_of, first_of, next_of, tree_at, trees_at};
ghost use Rattle.tree.specs.Arena.{Links, WroteCell};

// The start of a cell's name in the sheet, or the code of its name.
pub fn start_of(work: &[u32], k: usize) -> usize
    requires { 4 * k + 4 ≤ length work.now }
    ensures { result ≡ start_of work.now k }
{
    work[4 * k] as usize / 65536
}

// The length of a cell's name in the sheet, 0 for a name by its code.
pub fn length_of(work: &[u32], k: usize) -> usize
    requires { 4 * k + 4 ≤ length work.now }
    ensures { result ≡ length_of work.now k }
{
    work[4 * k] as usize % 65536
}

// The number of a cell's kind.
pub fn kind_of(work: &[u32], k: usize) -> usize
    requires { 4 * k + 4 ≤ length work.now }
    ensures { result ≡ kind_of work.now k }
{
    work[4 * k + 1] as usize / 65536
}

// The count of nodes.
pub fn count_of(work: &[u32], k: usize) -> usize
    requires { 4 * k + 4 ≤ length work.now }
    ensures { (result ≡ nodes_of work.now k) × (result < 65536) }
{
    work[4 * k + 1] as usize % 65536
}

// The first child, 0 for none.
pub fn first_of(work: &[u32], free: usize, k: usize) -> usize
    requires links { Links work.now free }
    requires k_nonzero { (0 < k) × (k < free) }
    ensures { (result ≡ first_of work.now k) × (result < k) }
{
    work[4 * k + 2] as usize
}

// The next sibling, 0 for none.
pub fn next_of(work: &[u32], free: usize, k: usize) -> usize
    requires links { Links work.now free }
    requires k_nonzero { (0 < k) × (k < free) }
    ensures { (result ≡ next_of work.now k) × (result < k) }
{
    work[4 * k + 3] as usize
}

// The first child, 0 for a leaf.
pub fn child_of(work: &[u32], free: usize, k: usize) -> usize
    requires links { Links work.now free }
    requires k_nonzero { (0 < k) × (k < free) }
    ensures { (result < k) × ((s : Text) → trees_at s work.now result ≡ children (tree_at s work.now k)) × (0 < result → (kind_of work.now k ≡ 0) × (result ≡ first_of work.now k)) × (result ≡ 0 → kind_of work.now k ≡ 0 → first_of work.now k ≡ 0) }
{
    match kind_of(work, k) {
        0 => first_of(work, free, k),
        _ => 0,
    }
}

// Writes cell `free`, and returns the free end after it.
pub fn push_cell(
    work: &mut [u32],
    free: usize,
    start: usize,
    len: usize,
    kind: usize,
    first: usize,
    next: usize,
    count: usize,
) -> usize
    requires free_in_bounds { 4 * free + 4 ≤ length work.old }
    requires start_bound { (start < 65536) × (len < 65536) × (kind < 65536) × (count < 65536) }
    requires first_bound { (first < 2 ^ 32) × (next < 2 ^ 32) }
    ensures { (result ≡ free + 1) × WroteCell work.old work.new free start len kind first next count }
{
    let at = 4 * free;
    work[at] = (start * 65536 + len) as u32;
    work[at + 1] = (kind * 65536 + count) as u32;
    work[at + 2] = first as u32;
    work[at + 3] = next as u32;
    free + 1
}

// Writes cell `free` with the name and the kind of cell k, and returns the free end after it.
pub fn push_like(
    work: &mut [u32],
    free: usize,
    k: usize,
    first: usize,
    next: usize,
    count: usize,
) -> usize
    requires free_in_bounds { (4 * free + 4 ≤ length work.old) × (k < free) }
    requires first_bound { (first < 2 ^ 32) × (next < 2 ^ 32) × (count < 65536) }
    ensures { (result ≡ free + 1) × WroteCell work.old work.new free (start_of work.old k) (length_of work.old k) (kind_of work.old k) first next count }
{
    let place = work[4 * k] as usize;
    let mark = work[4 * k + 1] as usize;
    push_cell(
        work,
        free,
        place / 65536,
        place % 65536,
        mark / 65536,
        first,
        next,
        count,
    )
}
