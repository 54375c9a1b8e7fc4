// The string that a database begins with.
ghost use Rattle.std.specs.Prelude.{◌≤◌, length};
ghost use Rattle.btree_format.specs.Rules.{Finds, LikeMagic};

// Its 16 bytes, with the zero byte at the end.
const MAGIC: [u8; 16] = *b"SQLite format 3\0";

// The first of the image's bytes that differs from it.
pub fn first_unlike(image: &[u8]) -> Option<usize>
    requires { 16 ≤ length image.now }
    ensures { Finds (LikeMagic image.now) 16 result }
{
    (0..MAGIC.len()).find(|&i| image[i] != MAGIC[i])
}
