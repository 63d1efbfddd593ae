// One record of the list through its call.
ghost use Rattle.std.specs.Prelude.{◌≡◌, ◌&&◌, length, take, nat_le};
ghost use Rattle.rules.specs.Bytes.{same};
ghost use Rattle.yukhtsami.specs.Answering.{Gives};
ghost use Rattle.replay.specs.Replaying.{lends, asked, Compares, Replays};

use yukhtsami::{Called, yukhtsami_answer, yukhtsami_page};

// A record: whether pages are asked for, the words and bytes of output lent, the refusal, its label with the byte 10 after it, the sheet
// and the answer. The refusal is a number, as the list has it.
#[derive(Clone, Copy)]
pub(crate) struct Record<'a> {
    pub(crate) paged: bool,
    pub(crate) words: usize,
    pub(crate) room: usize,
    pub(crate) refusal: usize,
    pub(crate) label: &'a [u8],
    pub(crate) sheet: &'a [u8],
    pub(crate) answer: &'a [u8],
}

impl Record<'_> {
    // Whether so many words and bytes of output are as many as the record lends.
    #[tactic(auto, unfolding(crate::specs::Replaying::lends))]
    fn lends(&self, words: usize, room: usize) -> bool
        ensures { result ≡ lends words room self.now }
    {
        self.words <= words && self.room <= room
    }

    // What its call gives.
    fn called(&self, work: &mut [u32], output: &mut [u8]) -> Called
        ensures { Gives (asked self.now.paged) self.now.sheet.now work.old work.new output.old output.new result.refusal result.written }
    {
        if self.paged {
            return yukhtsami_page(self.sheet, work, output);
        }
        yukhtsami_answer(self.sheet, work, output)
    }

    // Whether its call gives the reply stored.
    fn agrees(&self, work: &mut [u32], output: &mut [u8]) -> bool
        ensures { Compares (asked self.now.paged) self.now.sheet.now work.old work.new output.old output.new self.now.refusal self.now.answer.now result }
    {
        let called = self.called(work, output);
        called.refusal as usize == self.refusal && holds(output, called.written, self.answer)
    }

    // Replays the record, if there are the words and bytes that it lends: whether its reply is the one stored.
    pub(crate) fn replay(&self, work: &mut [u32], output: &mut [u8]) -> Option<bool>
        ensures { Replays self.now work.old work.new output.old output.new result }
    {
        if !self.lends(work.len(), output.len()) {
            return None;
        }
        let same = self.agrees(&mut work[..self.words], &mut output[..self.room]);
        Some(same)
    }
}

// Whether so many bytes of the output are the answer.
#[tactic(auto, using(text::proofs::Library::same_is))]
fn holds(output: &[u8], written: usize, answer: &[u8]) -> bool
    ensures { result ≡ nat_le written (length output.now) && same (take written output.now) answer.now }
{
    output.get(..written) == Some(answer)
}
