// The words and the cells that steps need, beside those of their trees.

// The words above the cells that one step may use and give up.
pub const STEP_WORDS: usize = 204802;

// The cells that a run of `unify` needs for each name: 4,100, 4,096 and 4,097 (unifier, Running).
pub const NAME_CELLS: usize = 12293;
