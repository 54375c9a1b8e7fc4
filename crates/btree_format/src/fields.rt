// Where the fields stand, and what they say.
//
// What they need is an image and a place in it, and not a page as one value: a database's header, which is no page, is read with them
// too.
ghost use Rattle.std.specs.Prelude.{◌≡◌, ◌+◌, ◌-◌, ◌≤◌, leb, length};
ghost use Rattle.btree_format.specs.Fields.{half, header_at, is_interior, is_kind, start_at, array_at};

// The least number of bytes of a page without the reserved ones.
const LEAST_USABLE: usize = 480;

// Where the b-tree page header of a page stands.
pub fn header_at(number: u32) -> usize
    ensures value { result ≡ header_at number }
    ensures upper_bound { result ≤ 100 }
{
    if number == 1 { 100 } else { 0 }
}

// Whether at least 480 bytes remain without the reserved ones.
pub fn is_usable(size: usize, reserved: u8) -> bool
    ensures { result ≡ leb (480 + reserved) size }
{
    LEAST_USABLE + usize::from(reserved) <= size
}

// Where the usable part of a page ends, if the last `reserved` bytes are reserved.
pub fn usable_end(length: usize, reserved: u8) -> usize
    requires { reserved ≤ length }
    ensures { result ≡ length - reserved }
{
    length - usize::from(reserved)
}

// The big-endian number of 2 bytes at a place.
#[tactic(auto, unfolding(crate::specs::Fields::half))]
pub fn half_at(image: &[u8], at: usize) -> usize
    requires { at + 2 ≤ length image.now }
    ensures value { result ≡ half image.now at }
    ensures upper_bound { result ≤ 65535 }
{
    usize::from(u16::from_be_bytes([image[at], image[at + 1]]))
}

// Whether a page's first byte is a page type. The type stays that byte, since `array_at` answers for any.
pub fn is_page_type(kind: u8) -> bool
    ensures { result ≡ is_kind kind }
{
    matches!(kind, 2 | 5 | 10 | 13)
}

// Where the cell content area begins, as the page header at `header` says.
#[tactic(auto, unfolding(crate::specs::Fields::start_at))]
pub fn content_start(image: &[u8], header: usize) -> usize
    requires { header + 8 ≤ length image.now }
    ensures value { result ≡ start_at image.now header }
    ensures upper_bound { result ≤ 65536 }
{
    match half_at(image, header + 5) {
        0 => 65536,
        stored => stored,
    }
}

// Where the cell pointer array begins: after the page header at `header`, whose length depends on the page type.
pub fn array_at(header: usize, kind: u8) -> usize
    requires { header ≤ 100 }
    ensures value { result ≡ array_at header kind }
    ensures upper_bound { result ≤ 112 }
{
    if is_interior(kind) {
        header + 12
    } else {
        header + 8
    }
}

fn is_interior(kind: u8) -> bool
    ensures { result ≡ is_interior kind }
{
    matches!(kind, 2 | 5)
}
