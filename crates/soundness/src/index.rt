// The pass over an index.
ghost use Rattle.pool.specs.Slots.{entries};
ghost use Rattle.pool.specs.Decides.{Decides};
ghost use Rattle.sorted_index.specs.Names.{names};
ghost use Rattle.soundness.specs.Checks.{Orderable, Ordered, Clear, IndexGood};

use page::Slot;
use sorted_index::{By, name};

// Whether the first n places hold slots that are not free, by strictly ascending names.
fn is_ordered(order: &[u32], slots: &[u64], marks: &[u64], by: By, n: usize) -> bool
    requires { Orderable order.now slots.now marks.now n }
    ensures { Decides result (Ordered (names by (entries slots.now)) order.now marks.now n) }
{
    let size = order.len();
    let mut least: u64 = 0;
    for s in &order[..n] {
        if *s as usize >= size {
            return false;
        }
        if free_marks::is_free(marks, Slot(*s)) {
            return false;
        }
        let x = name(slots, Slot(*s), by) as u64;
        if x < least {
            return false;
        }
        least = x + 1;
    }
    true
}

// Whether the places are zero.
fn is_clear(places: &[u32]) -> bool
    ensures { Decides result (Clear places.now 0) }
{
    places.iter().all(|place| *place == 0)
}

// Whether the order is an index of n slots that are not free.
pub fn lists(order: &[u32], slots: &[u64], marks: &[u64], by: By, n: usize) -> bool
    requires { Orderable order.now slots.now marks.now n }
    ensures { Decides result (IndexGood (names by (entries slots.now)) order.now marks.now n) }
{
    is_ordered(order, slots, marks, by, n) && is_clear(&order[n..])
}
