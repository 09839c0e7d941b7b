//! The library for C: a query is checked, and an input that stands in memory is answered, all on the calling
//! thread. `include/jp.h` says for C what each function owes.
#![tactic(auto)]

ghost use Rattle.jp_c.specs.Checked.{IsChecked};
ghost use Rattle.jp_c.specs.Explained.{IsExplained};
ghost use Rattle.jp_c.specs.Options as by;
ghost use Rattle.jp_c.specs.Told.{HasTold};

mod asking;
mod codes;
mod copying;
mod options;
mod refused;
mod report;

use asking::answer;
use codes::{MEMORY, OK, QUERY_TEXT, query_code};
use copying::copy_front;
use jp_check::plan_in;
use jp_explain::{explain, write_mark};
use jp_tree::QueryFault;
pub use options::Options;
use options::numbers_by;
pub use refused::Refused;
pub use report::Report;
use std::alloc::Global;
use std::str;

/// Whether the bytes are a query (RFC 9535, 2.1), whose literals may be every number of JSON (RFC 8259, 6)
/// where `decimals` is not 0, and else whole numbers. Gives 0 for a query, and else why it is refused: 1 to 5
/// for its fault, 6 where the bytes are no UTF-8, 35 where memory was refused. After 1 to 5 `place` is how
/// many characters stand before the place where it goes wrong, and else 0.
#[unsafe(no_mangle)]
pub extern "C" fn jp_check(alloc: Global, query: &[u8], decimals: u32, place: &mut usize) -> u32
    ensures { IsChecked (by.numbers_by decimals) query.now place.new result }
{
    *place = 0;
    let Ok(text) = str::from_utf8(query) else {
        return QUERY_TEXT;
    };
    let numbers = numbers_by(decimals);
    let fault = match plan_in(alloc, text, numbers) {
        Ok(_plan) => return OK,
        Err(QueryFault::Memory) => return MEMORY,
        Err(fault) => fault,
    };
    let Ok(Some(found)) = explain(alloc, text, numbers) else {
        return MEMORY;
    };
    *place = found.mark;
    query_code(fault)
}

/// Why the bytes are no query: the lines for a terminal that show where it goes wrong, and often what was
/// meant. Their front goes into `out`, as much as there is room for, and `needed` is how long they are. Gives
/// what `jp_check` gives. Of a query that is accepted, of bytes that are no UTF-8 and where memory was
/// refused there is nothing to say: `needed` is 0, and `out` is as it was.
#[unsafe(no_mangle)]
pub extern "C" fn jp_explain(
    alloc: Global,
    query: &[u8],
    decimals: u32,
    out: &mut [u8],
    needed: &mut usize,
) -> u32
    ensures { IsExplained (by.numbers_by decimals) query.now out.old out.new needed.new result }
{
    *needed = 0;
    let Ok(text) = str::from_utf8(query) else {
        return QUERY_TEXT;
    };
    let numbers = numbers_by(decimals);
    let fault = match plan_in(alloc, text, numbers) {
        Ok(_plan) => return OK,
        Err(QueryFault::Memory) => return MEMORY,
        Err(fault) => fault,
    };
    let Ok(Some(found)) = explain(alloc, text, numbers) else {
        return MEMORY;
    };
    let Ok(lines) = write_mark(alloc, text, &found) else {
        return MEMORY;
    };
    let bytes = lines.as_bytes();
    copy_front(bytes, out);
    *needed = bytes.len();
    query_code(fault)
}

/// The answer to the documents of the input, to this query, and this filter, by these options: its front goes
/// into `out`, as much as there is room for, and `report` is told how long it is. Gives 0, or 32 where the
/// answer ends at a faulty line; else there is no answer, `out` is as it was, and the status says why.
#[unsafe(no_mangle)]
pub extern "C" fn jp_answer(
    alloc: Global,
    query: &[u8],
    filter: &[u8],
    options: &Options,
    input: &[u8],
    out: &mut [u8],
    report: &mut Report,
) -> u32
    ensures { HasTold options.now query.now filter.now input.now out.old out.new report.new result }
{
    match answer(alloc, query, filter, options, input) {
        Ok(answered) => {
            copy_front(answered.bytes.as_slice(), out);
            let (told, status) = Report::of(&answered);
            *report = told;
            status
        }
        Err(refused) => {
            *report = Report::none();
            refused.code()
        }
    }
}
