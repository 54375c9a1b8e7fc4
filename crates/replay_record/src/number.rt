// Numbers of several bytes.
ghost use Rattle.replay_record.specs.Fields.{NumberReadable, ReadAt};

// The number of `width` bytes at a place, lowest byte first. It is read from the highest byte down. The library's `from_le_bytes` would
// need another type for each width, and eight bytes named one by one.
pub fn number_at(bytes: &[u8], at: usize, width: usize) -> u64
    requires { NumberReadable bytes.now at width }
    ensures { ReadAt bytes.now at width result }
{
    let mut n: u64 = 0;
    for i in (0..width).rev() {
        n = n * 256 + bytes[at + i] as u64;
    }
    n
}
