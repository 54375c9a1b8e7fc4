// The marks of free slots: 1 bits in 64-bit words, lowest slot in the lowest bit. That a slot has its bit is a clause, as in crate pool.
ghost use Rattle.std.specs.Prelude.{◌≡◌, ◌/◌, ◌<◌, ◌≤◌, length};
ghost use Rattle.free_marks.specs.Marks.{Wide, bit_at, MarkedAs, max_words, SomeFree, LowestFree, free_slots};
ghost use Rattle.pool.specs.Decides.{Decides};

use page::Slot;

pub fn is_free(marks: &[u64], s: Slot) -> bool
    requires { s.0 / 64 < length marks.now }
    ensures { Decides result (bit_at marks.now s.0 ≡ 1) }
{
    let w = s.0 as usize / 64;
    (marks[w] >> (s.0 % 64)) % 2 == 1
}

// This and `mark_held` are each one operation on one word. One function for both would choose between them at each call.
pub fn mark_free(marks: &mut [u64], s: Slot)
    requires { s.0 / 64 < length marks.old }
    ensures { MarkedAs 1 marks.old s.0 marks.new }
{
    let w = s.0 as usize / 64;
    let word = marks[w];
    marks[w] = word | (1 << (s.0 % 64));
}

pub fn mark_held(marks: &mut [u64], s: Slot)
    requires { s.0 / 64 < length marks.old }
    ensures { MarkedAs 0 marks.old s.0 marks.new }
{
    let w = s.0 as usize / 64;
    let word = marks[w];
    marks[w] = word & !(1 << (s.0 % 64));
}

// The lowest free slot. A word of 0 has none; in the first other word the trailing zeros are the held slots below it.
pub fn lowest_free(marks: &[u64]) -> Slot
    requires { SomeFree marks.now }
    ensures { LowestFree marks.now result.0 }
{
    for (w, word) in marks.iter().enumerate() {
        let all_held = *word == 0;
        if !all_held {
            return Slot(w as u32 * 64 + word.trailing_zeros());
        }
    }
    unreachable!()
}

// How many slots are free.
pub fn count_free(marks: &[u64]) -> u32
    requires { length marks.now ≤ max_words }
    ensures { result ≡ free_slots marks.now }
{
    let mut free: u32 = 0;
    for word in marks {
        free += word.count_ones();
    }
    free
}

// Does nothing. It tells what the type of a slice says of each of its words, which is not known of one that stands in a struct.
pub fn words_fit(words: &[u64])
    ensures { Wide words.now }
{
    let _ = words;
}
