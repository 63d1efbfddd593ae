// The words of a work area above its cells.
ghost use Rattle.std.specs.Prelude.{◌≡◌, ◌*◌, ◌<◌, ◌≤◌, ◌^◌, length, get_or};
ghost use Rattle.tree.specs.Words.{Writes};

use crate::area::Area;

impl Area<'_, '_> {
    pub fn word(&self, at: usize) -> usize
        requires { at < length self.now.work.now }
        ensures { (result ≡ get_or self.now.work.now at 0) × (result < 2 ^ 32) }
    {
        self.work[at] as usize
    }

    // Writes a word above the cells.
    pub fn set_word(&mut self, at: usize, value: usize)
        requires above { (4 * self.old.free ≤ at) × (at < length self.old.work.now) }
        requires small { value < 2 ^ 32 }
        ensures { Writes self.old self.new at value }
    {
        self.work[at] = value as u32;
    }
}
