// Whether an image can be a b-tree page of a database, before it counts as loaded ("Database File Format", 1.2 to 1.6; document 02,
// item 9).
//
//     | file header 100, page 1 only | page header 8 or 12 | cell pointers 2 each | free | cell content | reserved |
//                                                                          content start ^   usable end ^
//
// Callers may rely on `check` for any image of any length, any page number and any sizes: it says yes exactly if all the rules hold
// that specs/Rules.antt of crate btree_format lists, and else which is the first that fails and where.
#![tactic(auto)]

ghost use Rattle.btree_format.specs.Fields.{page};
ghost use Rattle.btree_format.specs.Rules.{Says};
ghost use Rattle.btree_check.specs.Begun.{whole, Begun};

pub use btree_format::Fault;
use btree_format::{
    array_at, content_start, first_unlike, half_at, header_at, is_page_type, is_usable, usable_end,
};
use cell_pointers::first_outside;
use freeblocks::first_bad;
use page_size::is_page_size;

const MOST_FRAGMENTS: u8 = 60;

// Checks an image as the page with that number of a database whose pages have `page_size` bytes, the last `reserved` of them
// reserved.
pub fn check(image: &[u8], number: u32, page_size: u32, reserved: u8) -> Result<(), Fault>
    ensures { Says (page image.now number page_size reserved) result }
{
    if page_size as usize != image.len() {
        return Err(Fault::Length);
    }
    if !is_page_size(page_size) {
        return Err(Fault::PageSize);
    }
    if !is_usable(image.len(), reserved) {
        return Err(Fault::UsableSize);
    }
    if number == 1
        && let Some(at) = first_unlike(image)
    {
        return Err(Fault::Magic(at));
    }
    check_tree(image, number, reserved)
}

// The same of an image whose sizes and first bytes are right.
fn check_tree(image: &[u8], number: u32, reserved: u8) -> Result<(), Fault>
    requires { Begun image.now number reserved }
    ensures { Says (whole image.now number reserved) result }
{
    let end = usable_end(image.len(), reserved);
    let header = header_at(number);
    let kind = image[header];
    if !is_page_type(kind) {
        return Err(Fault::PageType(header));
    }
    let start = content_start(image, header);
    if let Some(at) = first_bad(image, end, header + 1, start) {
        return Err(Fault::Freeblocks(at));
    }
    let array = array_at(header, kind);
    let cells = half_at(image, header + 3);
    if array + 2 * cells > start {
        return Err(Fault::CellCount(header + 3));
    }
    if start > end {
        return Err(Fault::ContentStart(header + 5));
    }
    if image[header + 7] > MOST_FRAGMENTS {
        return Err(Fault::Fragments(header + 7));
    }
    if let Some(i) = first_outside(image, array, cells, start, end) {
        return Err(Fault::CellPointer(array + 2 * i));
    }
    Ok(())
}
