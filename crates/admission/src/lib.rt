// What is refused before any term is read: 1, 2, 3, 11.
#![tactic(auto)]

ghost use Rattle.admission.specs.Admission.{Admits};

use forms::form::{Form, read_sheet, words_needed};
use rules::Refusal;
use text::screen;

// A sheet that is admitted, as a form, and the words that it needs.
#[derive(Clone, Copy, Debug, PartialEq, Eq)]
pub struct Admitted {
    pub form: Form,
    pub needed: usize,
}

// A sheet against the number of words lent.
#[tactic(auto, using(crate::proofs::Admitting::admits))]
pub fn admit(sheet: &[u8], words: usize) -> Result<Admitted, Refusal>
    ensures { Admits sheet.now words result }
{
    screen(sheet)?;
    let form = read_sheet(sheet)?;
    let needed = words_needed(sheet, form);
    if words < needed {
        return Err(Refusal::ShortWorkArea);
    }
    Ok(Admitted { form, needed })
}
