// For benchmarks: the check of a page for programs in C, with its answer as numbers.
//
// `page_bench_check` asks nothing of what it is lent: an answer of another length than 2 numbers is answered with 1, and then nothing
// is written. Its contract says nothing: what a check says is stated in crate `btree_check`.
#![tactic(auto)]

use btree_check::{Fault, check};

// What is handed back: C has no enum.
const CHECKED: u32 = 0;

const BAD_LENGTH: u32 = 1;

// Checks an image as a page, and writes what was found: the first rule that fails, from 1 on in their order, or 0; and the offset of the
// field that breaks it, or 0 if it stands nowhere in the page.
#[unsafe(no_mangle)]
pub extern "C" fn page_bench_check(
    image: &[u8],
    number: u32,
    page_size: u32,
    reserved: u8,
    answer: &mut [u64],
) -> u32 {
    let [rule, place] = answer else {
        return BAD_LENGTH;
    };
    (*rule, *place) = match check(image, number, page_size, reserved) {
        Ok(()) => (0, 0),
        Err(fault) => (rule_of(fault), fault.offset().unwrap_or(0) as u64),
    };
    CHECKED
}

// The numbers are those of host/bench/page_check.h, for C.
fn rule_of(fault: Fault) -> u64 {
    match fault {
        Fault::Length => 1,
        Fault::PageSize => 2,
        Fault::UsableSize => 3,
        Fault::Magic(_) => 4,
        Fault::PageType(_) => 5,
        Fault::Freeblocks(_) => 6,
        Fault::CellCount(_) => 7,
        Fault::ContentStart(_) => 8,
        Fault::Fragments(_) => 9,
        Fault::CellPointer(_) => 10,
    }
}
