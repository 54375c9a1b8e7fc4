// Numbers of 4 bytes.
ghost use Rattle.std.specs.Prelude.{◌≡◌, ◌+◌, ◌≤◌, length};
ghost use Rattle.wal_checksum.specs.Checksum.{big_endian, word};

// The big-endian number at a place. All numbers in the headers are big-endian.
#[tactic(auto, unfolding(crate::specs::Checksum::big_endian))]
pub fn number_at(bytes: &[u8], at: usize) -> u32
    requires { at + 4 ≤ length bytes.now }
    ensures { result ≡ big_endian bytes.now at }
{
    u32::from_be_bytes([bytes[at], bytes[at + 1], bytes[at + 2], bytes[at + 3]])
}

// A word that is summed, in the order that the log's magic number chose.
#[tactic(auto, unfolding(crate::specs::Checksum::big_endian, crate::specs::Checksum::little_endian))]
pub fn word_at(bytes: &[u8], at: usize, big: bool) -> u32
    requires { at + 4 ≤ length bytes.now }
    ensures { result ≡ word big bytes.now at }
{
    let word = [bytes[at], bytes[at + 1], bytes[at + 2], bytes[at + 3]];
    if big {
        u32::from_be_bytes(word)
    } else {
        u32::from_le_bytes(word)
    }
}
