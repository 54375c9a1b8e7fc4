// The freeblock chain of a b-tree page ("Database File Format", 1.6; document 02, item 9).
//
//     | next block 2 | size 2 | .. |      a freeblock: both numbers big-endian; no next block: 0
//
// Callers may rely on `first_bad` for any bytes of the page: a chain is bad at the first link that goes back, or to where no block may
// stand. The walk ends, since each block lies after the end of the one before.
#![tactic(auto)]

ghost use Rattle.btree_format.specs.Rules.{Chain};
ghost use Rattle.freeblocks.specs.Chained.{Linked};

use btree_format::half_at;

// The bytes of a block's link and size: no block is smaller.
const LEAST_BLOCK: usize = 4;

// The place of the first bad link or size of the chain that begins with the link at `link`. Its blocks have to lie from `least` on and
// end by `end`, the usable end. The walk follows the links, and has no count of them.
pub fn first_bad(image: &[u8], end: usize, link: usize, least: usize) -> Option<usize>
    requires { Linked image.now end link }
    ensures { Chain image.now end link least result }
{
    let mut at = link;
    let mut free = least;
    loop {
        let block = half_at(image, at);
        if block == 0 {
            return None;
        }
        if !(free..=end - LEAST_BLOCK).contains(&block) {
            return Some(at);
        }
        let size = half_at(image, block + 2);
        if !(LEAST_BLOCK..=end - block).contains(&size) {
            return Some(block + 2);
        }
        at = block;
        free = block + size;
    }
}
