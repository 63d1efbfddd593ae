// A lent work area with the sheet that its cells name and the free end: cells 1 up to it hold trees. Cells go by their numbers: the words
// are lent, and there is no heap. Where a part of the words is wanted as an area it is made in place: that a function lends one is not
// covered by the borrow checker, since an area has a ghost field. That the sheet has at most 65,536 bytes is asked where it is needed: as a
// ghost field it would be asked of every function. That a list is below the free end is one factor of a clause: a name for it is no plainer.
ghost use Rattle.tree.specs.Arena.{Arena};

#[derive(Drop)]
pub struct Area<'s, 'w> {
    pub sheet: &'s [u8],
    pub work: &'w mut [u32],
    pub free: usize,
    pub ghost arena: { Arena sheet.now work.now free },
}
