// The pass over the marks.
ghost use Rattle.pool.specs.Decides.{Decides};
ghost use Rattle.soundness.specs.Checks.{MarksFit, Beyond, Counted};

use free_marks::count_free;

// Whether no mark stands beyond the last slot. Only the last word has bits to spare.
fn clear_beyond(marks: &[u64], size: u32) -> bool
    requires { MarksFit marks.now size }
    ensures { Decides result (Beyond marks.now size) }
{
    let last = size as usize / 64;
    if last >= marks.len() {
        return true;
    }
    (marks[last] >> (size % 64)) == 0
}

// Whether no mark stands beyond the last slot, and the slots that are not free are as many as are held.
pub fn marks_agree(marks: &[u64], size: u32, held: u32) -> bool
    requires { MarksFit marks.now size }
    ensures { Decides result (Counted marks.now size held) }
{
    if !clear_beyond(marks, size) {
        return false;
    }
    size - count_free(marks) == held
}
