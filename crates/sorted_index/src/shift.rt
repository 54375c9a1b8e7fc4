// A place of an order is opened or closed. Nothing here knows names: the order is a list of numbers, of which the first n
// count.
ghost use Rattle.sorted_index.specs.Index.{CanInsert, Inserted, CanRemove, Removed};

use page::Slot;

// Puts `slot` in at place `at` of the first n, which become n + 1.
pub fn insert_at(order: &mut [u32], n: usize, at: usize, slot: Slot)
    requires { CanInsert order.old n at }
    ensures { Inserted order.old n at slot.0 order.new }
{
    order.copy_within(at..n, at + 1);
    order[at] = slot.0;
}

// Takes place `at` of the first n out, which become n - 1, and zeroes the place that falls free.
pub fn remove_at(order: &mut [u32], n: usize, at: usize)
    requires { CanRemove order.old n at }
    ensures { Removed order.old n at order.new }
{
    order.copy_within(at + 1..n, at);
    order[n - 1] = 0;
}
