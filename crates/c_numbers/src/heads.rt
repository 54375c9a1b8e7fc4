// The head of a cache as five numbers of 64 bits: capacity, held, hand, spill switch, estimate.
ghost use Rattle.std.specs.Prelude.{◌≡◌};
ghost use Rattle.c_numbers.specs.Head.{fits, head_of, numbers_of, head_after};
ghost use Rattle.c_numbers.specs.Put.{PutCreated};

use answer::{Answered, code_of};
use creating::CreationError;
use page::{PageCache, Slot};

// The numbers of a head.
pub const HEAD: usize = 5;

// One above the largest number of 32 bits.
const ABOVE: u64 = 1 << 32;

// Whether each number is within the range of its field.
fn fit(head: &[u64; HEAD]) -> bool
    ensures { result ≡ fits head.now }
{
    (head[0] < ABOVE) & (head[1] < ABOVE) & (head[2] < ABOVE) & (head[3] < 256) & (head[4] < ABOVE)
}

// The head that the numbers are. Numbers that are none become one with which no memory is sound (`no_head`), and no None: such a head goes
// through the same tests. By hand, as `put_head` is: the array is C's, and `head_of` and `numbers_of` are its two definitions.
pub fn read_head(head: &[u64; HEAD]) -> PageCache
    ensures { result ≡ head_of head.now }
{
    if !fit(head) {
        return PageCache {
            capacity: 0,
            held: 0,
            hand: Slot(0),
            spill: 2,
            estimate: 0,
        };
    }
    PageCache {
        capacity: head[0] as u32,
        held: head[1] as u32,
        hand: Slot(head[2] as u32),
        spill: head[3] as u8,
        estimate: head[4] as u32,
    }
}

// The numbers of a head.
pub fn put_head(head: &mut [u64; HEAD], new: PageCache)
    ensures { head.new ≡ numbers_of new }
{
    *head = [
        u64::from(new.capacity),
        u64::from(new.held),
        u64::from(new.hand.0),
        u64::from(new.spill),
        u64::from(new.estimate),
    ];
}

// The head after a creation, and the creation's code: C has no enum.
pub fn put_created(head: &mut [u64; HEAD], made: Result<PageCache, CreationError>) -> u32
    ensures { PutCreated made head.old head.new result }
{
    match made {
        Ok(new) => {
            put_head(head, new);
            0
        }
        Err(CreationError::BadLengths) => 16,
        Err(CreationError::TooLarge) => 15,
    }
}

// The head after any record. Numbers that were no head stay, unless a creation was made.
pub fn put_answered(head: &mut [u64; HEAD], answered: Answered)
    ensures { head.new ≡ head_after head.old answered }
{
    let code = code_of(answered.answer);
    if fit(head) | (code == 0) {
        put_head(head, answered.head);
    }
}
