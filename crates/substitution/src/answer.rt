// What `unify` and `match` answer.
use rules::Ending;

// The bindings of a solved run, or how it ends without them, with the number of pairs taken. The bindings are a list of cells: the key and
// the value of each in turn.
#[derive(Clone, Copy, Debug, PartialEq, Eq)]
pub struct Answer {
    pub verdict: Result<usize, Ending>,
    pub spent: usize,
}
