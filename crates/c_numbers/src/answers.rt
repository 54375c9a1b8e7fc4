// An answer as numbers.
ghost use Rattle.std.specs.Prelude.{◌≡◌, length};
ghost use Rattle.pool.specs.Slots.{entries};
ghost use Rattle.listing.specs.Outcome.{code_of};
ghost use Rattle.c_numbers.specs.Head.{hand_key};
ghost use Rattle.c_numbers.specs.Put.{PutAnswer};

use answer::{Answered, code_of, value_of};
use listing::ListingError;
use page::PageCache;

// No key: one above the largest. C has no Option, and `hand_key` is the definition of the number that it gets.
const NONE: u64 = 1 << 32;

// The key of the hand's page, or none if nothing is held. The hand of sound memory is a slot of it; a hand out of range has no page.
fn hand_key(slots: &[u64], head: PageCache) -> u64
    ensures { result ≡ hand_key (entries slots.now) head }
{
    let hand = head.hand;
    if head.held == 0 {
        return NONE;
    }
    if hand.0 as usize >= slots.len() / 4 {
        return NONE;
    }
    pool::load(slots, hand).key.0 as u64
}

// Writes the answer's numbers, and hands its code back. A slice and no array, since an answer is lent by C with any length: `pc_apply` tests
// it (the edit `apply_writes_past_a_short_answer`).
pub fn put_answer(answer: &mut [u64], slots: &[u64], answered: Answered) -> u32
    requires { length answer.old ≡ 6 }
    ensures { PutAnswer (entries slots.now) answered answer.new result }
{
    let head = answered.head;
    let code = code_of(answered.answer);
    answer.copy_from_slice(&[
        u64::from(code),
        u64::from(value_of(answered.answer)),
        answered.passed,
        u64::from(head.held),
        hand_key(slots, head),
        u64::from(answered.listed),
    ]);
    u32::from(code)
}

// The code of a listing: C has no enum.
pub fn listing_code(listed: Result<u32, ListingError>) -> u32
    ensures { result ≡ code_of listed }
{
    match listed {
        Ok(_) => 0,
        Err(ListingError::NotSound) => 1,
        Err(ListingError::ShortList) => 3,
    }
}
