// The cell pointers of a b-tree page ("Database File Format", 1.6; document 02, item 9).
#![tactic(auto)]

ghost use Rattle.std.specs.Prelude.{ℕ, ◌+◌, ◌*◌, ◌≤◌, ◌↔◌, IsTrue, length};
ghost use Rattle.btree_format.specs.Fields.{half};
ghost use Rattle.btree_format.specs.Rules.{Finds, Inside};

use btree_format::half_at;

// The index of the first of `count` pointers, from place `array` on, that doesn't point from `start` on to below `end`. The place is one of
// the whole page, as in the definitions.
pub fn first_outside(
    image: &[u8],
    array: usize,
    count: usize,
    start: usize,
    end: usize,
) -> Option<usize>
    requires count_in_bounds { array + 2 * count ≤ length image.now }
    requires start_le_end { start ≤ end }
    ensures { Finds (λ (i : ℕ). Inside start end (half image.now (array + 2 * i))) count result }
{
    for i in 0..count {
        if !is_inside(half_at(image, array + 2 * i), start, end) {
            return Some(i);
        }
    }
    None
}

// Whether a pointer points from `start` on to below `end`. One test is enough for both bounds: the difference of a pointer before the
// start wraps, and is then above any room. Tests of one bound after the other are slower (docs/BENCHMARKS.md).
fn is_inside(pointer: usize, start: usize, end: usize) -> bool
    requires { start ≤ end }
    ensures { IsTrue result ↔ Inside start end pointer }
{
    pointer.wrapping_sub(start) < end - start
}
