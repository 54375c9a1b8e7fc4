// The four slices that a caller lends, as one value. What stands in them is drawn in lib.rt.
ghost use Rattle.std.specs.Prelude.{◌≡◌};
ghost use Rattle.memory.specs.Memory.{memory_in, memory_seen, WordsFit};

// Lent to be written. A function that takes it by `&mut` says two things of it: what the memory in it is afterwards, and that the same
// slices are lent (`SameSlices`), for it could put others in their place.
#[derive(Drop)]
pub struct LentMemory<'a> {
    pub slots: &'a mut [u64],
    pub by_key: &'a mut [u32],
    pub by_handle: &'a mut [u32],
    pub marks: &'a mut [u64],
}

// Lent to be read. One type for both would ask more of whoever lends only to read.
#[derive(Clone, Copy)]
pub struct LentView<'a> {
    pub slots: &'a [u64],
    pub by_key: &'a [u32],
    pub by_handle: &'a [u32],
    pub marks: &'a [u64],
}

impl LentMemory<'_> {
    // The same memory, to be read.
    pub fn view(&self) -> LentView<'_>
        ensures { memory_seen result ≡ memory_in self.now }
    {
        LentView {
            slots: self.slots,
            by_key: self.by_key,
            by_handle: self.by_handle,
            marks: self.marks,
        }
    }

    // Does nothing, and tells that each word is a number of 64 bits (crate free_marks, `words_fit`).
    pub fn words_fit(&self)
        ensures { WordsFit (memory_in self.now) }
    {
        free_marks::words_fit(self.slots);
        free_marks::words_fit(self.marks);
    }
}
