// The calls for C, as include/yukhtsami.h declares them: those of `yukhtsami`, exported. Each slice is a pointer and a length.
#![tactic(auto)]

ghost use Rattle.yukhtsami.specs.Answering.{Calls, PageCalls};

use yukhtsami::Called;

// A sheet's answer.
#[unsafe(no_mangle)]
pub extern "C" fn yukhtsami_answer(sheet: &[u8], work: &mut [u32], output: &mut [u8]) -> Called
    ensures { Calls sheet.now work.old work.new output.old output.new result.refusal result.written }
{
    yukhtsami::yukhtsami_answer(sheet, work, output)
}

// A sheet's answer laid out in pages.
#[unsafe(no_mangle)]
pub extern "C" fn yukhtsami_page(sheet: &[u8], work: &mut [u32], output: &mut [u8]) -> Called
    ensures { PageCalls sheet.now work.old work.new output.old output.new result.refusal result.written }
{
    yukhtsami::yukhtsami_page(sheet, work, output)
}
