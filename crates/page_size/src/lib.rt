// The sizes that a page of a database can have ("Database File Format", 1.2).
//
// A log's header and a database's both store one; each reads it in its own form and asks here.
#![tactic(auto)]

ghost use Rattle.std.specs.Prelude.{◌≡◌};
ghost use Rattle.page_size.specs.PageSize.{is_page_size};

// Whether it is a power of two from 512 to 65,536.
pub fn is_page_size(n: u32) -> bool
    ensures { result ≡ is_page_size n }
{
    matches!(n, 512 | 1024 | 2048 | 4096 | 8192 | 16384 | 32768 | 65536)
}
