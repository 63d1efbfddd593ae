// The canonical texts of the trees of cells, as words.
ghost use Rattle.std.specs.Prelude.{◌≡◌, ◌+◌, ◌*◌, ◌<◌, ◌≤◌, length, get_or};
ghost use Rattle.std.proofs.Math.Seq.{slice};
ghost use Rattle.rules.specs.Tree.{Tree};
ghost use Rattle.rules.specs.Bytes.{same};
ghost use Rattle.sums.specs.Summands.{AreCells, heft_in, TextsIn, TextFits, TextIs, nth_text, SomeTree, FindsPartner};

use equivalence::words::one_text;
use fingerprints::tree_fingerprint;
use flattening::writer::Writer;
use tree::area::Area;

// The fingerprint of each text, then the words of one after another. The words of the p-th are those from the p-th start to the next.
// In two lists of lent words: a list of texts needs a heap.
#[derive(Clone, Copy)]
pub(crate) struct Texts<'a> {
    pub(crate) starts: &'a [u32],
    pub(crate) words: &'a [u32],
}

// Writes the canonical texts of the trees of the cells. The starts and the texts grow together: no iterator is plainer.
pub(crate) fn describe(area: &Area, cells: &[u32], starts: &mut [u32], words: &mut [u32])
    requires cells { AreCells area.now cells.now }
    requires small { 5 * heft_in area.now cells.now < 65536 }
    requires room { (length cells.now < length starts.old) × (15 * heft_in area.now cells.now < length words.old) }
    ensures { TextsIn area.now cells.now 0 starts.new words.new }
{
    let mut out = Writer {
        words,
        end: cells.len(),
    };
    starts[0] = out.end as u32;
    for (p, cell) in cells.iter().enumerate() {
        let mark = tree_fingerprint(area, *cell as usize, &mut out);
        out.words[p] = mark;
        starts[p + 1] = out.end as u32;
    }
}

impl Texts<'_> {
    // The words of text p.
    fn text(&self, p: usize) -> &[u32]
        requires { (p + 1 < length self.now.starts.now) × (get_or self.now.starts.now p 0 ≤ get_or self.now.starts.now (p + 1) 0) × (get_or self.now.starts.now (p + 1) 0 ≤ length self.now.words.now) }
        ensures { result.now ≡ slice (get_or self.now.starts.now p 0) (get_or self.now.starts.now (p + 1) 0) self.now.words.now }
    {
        &self.words[self.starts[p] as usize..self.starts[p + 1] as usize]
    }

    // Whether texts p and q are one.
    fn same(&self, sheet: &[u8], p: usize, q: usize) -> bool
        requires { TextFits sheet.now self.now.starts.now self.now.words.now p × TextFits sheet.now self.now.starts.now self.now.words.now q }
        ensures { result ≡ same (nth_text sheet.now self.now.starts.now self.now.words.now p) (nth_text sheet.now self.now.starts.now self.now.words.now q) }
    {
        one_text(sheet, self.text(p), self.text(q))
    }
}

// The first of the right cells whose tree is equal to that of text p up to order and grouping of sums. Trees with two fingerprints are not
// compared, and the fingerprints, of which most differ, are tested first. The texts of the right cells are those from `first` on.
// Not inlined: the loop is the n squared of two sums, and by itself it is so short that no jump of it lies across 32 bytes, which costs
// half of the time on some processors.
#[inline(never)]
pub(crate) fn find(
    area: &Area,
    texts: Texts,
    p: usize,
    rights: &[u32],
    first: usize,
) -> Option<usize>
    requires text { TextFits area.now.sheet.now texts.starts.now texts.words.now p × SomeTree area.now.sheet.now texts.starts.now texts.words.now p }
    requires texts { TextsIn area.now rights.now first texts.starts.now texts.words.now }
    requires marks { first + length rights.now ≤ length texts.words.now }
    ensures { (t : Tree) → TextIs area.now.sheet.now texts.entry.starts.now texts.entry.words.now p t → FindsPartner area.now t rights.now result }
{
    let mark = texts.words[p];
    let marks = &texts.words[first..first + rights.len()];
    marks.iter().enumerate().position(|(k, other)| {
        *other == mark && (rights[k] != 0 && texts.same(area.sheet, p, first + k))
    })
}
