// The cells of a list of an area, one after another.
ghost use Rattle.std.specs.Prelude.{◌<◌};

use crate::area::Area;

#[derive(Drop)]
pub struct Cells<'a> {
    pub(crate) area: &'a Area<'a, 'a>,
    pub(crate) cell: usize,
    pub(crate) ghost inside: { cell < area.now.free },
}

impl Iterator for Cells<'_> {
    ghost use Rattle.std.specs.Iterator.{YieldsFirst, item_count};
    ghost use Rattle.tree.specs.Lists.{cells_left};

    type Item = usize;

    ghost next_gives = { YieldsFirst cells_left };

    ghost remaining = { item_count cells_left };

    #[tactic(auto, using(crate::proofs::Chains::cells_none, crate::proofs::Chains::cells_more))]
    fn next(&mut self) -> Option<usize> {
        let k = self.cell;
        if k == 0 {
            return None;
        }
        self.cell = self.area.next_of(k);
        Some(k)
    }
}
