// The lent memory, and what it means.
//
// A cache of S slots lives in four slices that the caller lends, and in a head that goes in by value and comes back:
//
//     slots       4 * S words of 64 bits     slot s is the words 4s to 4s + 3, its entry; a free slot is all zero
//
//         bits       63 .. 56  55 .. 48  47 .. 40  39 .. 32  31 .. 24  23 .. 16  15 .. 8   7 .. 0
//                  +---------------------------------------+---------------------------------------+
//         4s       | handle                                | key                                   |
//                  +---------------------------------------+---------------------------------------+
//         4s + 1   | prev: the slot before it in the ring  | next: the slot after it in the ring   |
//                  +-------------------+-------------------+---------+---------+---------+---------+
//         4s + 2   | holders           | pins              | spare 0 | cells   | uses    | flags   |
//                  +-------------------+-------------------+---------+---------+---------+---------+
//         4s + 3   | frame                                                                         |
//                  +-------------------------------------------------------------------------------+
//
//     by_key      S numbers of 32 bits       the held slots by ascending key, then zeros
//     by_handle   S numbers of 32 bits       the held slots by ascending handle, then zeros
//     marks       S / 64 words of 64 bits,   slot s is bit s % 64 of word s / 64: 1 if it is free, 0 if it is held; the bits
//                 rounded up                 beyond the last slot are 0
//     head        by value                   capacity, held, hand, spill switch, estimate (crate page says what each means)
//
// Who writes what:
//
//     the packing            pool alone knows it; the others load and store whole entries
//     next, prev             ring_links
//     a slot's other fields  moves; and a sweep of crate eviction lowers use counts
//     by_key, by_handle      sorted_index, which moves calls
//     marks                  free_marks, which moves calls
//     head                   each call hands back the head after it, and the caller keeps it for the next call
//     all of it              creating, and clearing by creating again
//
// `LentMemory` is the four slices as one value, and `LentView` the same where they are only read (lent.rt). The head stands beside them,
// by value, as document 01 has it: so that the memory is sound, which speaks of both, is asked by a clause and not by a type. Pages are
// slots, named by number, and an index is a list of slots: all is lent and of a fixed size, and nothing is allocated.
//
// The caller may read all of it between calls, and should write none: a public call tests it first, and answers 1 if it is not sound
// (crate soundness).
//
// `Holds memory head cache` says that memory and head hold a cache of the model (crate model), and `Sound memory head` that
// they hold some cache. A memory determines the cache that it holds, and a cache determines its memory: so a contract that gives the
// cache after a call gives every lent word.
//
//     specs/Memory.antt    the lent memory as one value
//     specs/Holds.antt     what it means that memory holds a cache
//     specs/Walk.antt      a walk over the keys, by the index
#![tactic(auto)]

mod lent;

pub use lent::{LentMemory, LentView};
