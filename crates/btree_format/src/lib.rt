// A page of a database as "Database File Format" has it (1.2 to 1.6): where the fields of a b-tree page's header stand and what they
// say, and what a check by the rules of document 02's item 9 answers.
//
//     answer.rt   Fault: a rule that fails, and where; printed it is the rule's name
//     fields.rt   the header's place, its fields, where the cell pointer array begins
//     magic.rt    first_unlike: the string that a database begins with
//
//     the header    | type 1 | first freeblock 2 | cells 2 | content start 2 | fragmented bytes 1 | right-most pointer 4, interior only |
//
// What the rules are is stated in specs/Rules.antt; crates freeblocks, cell_pointers and btree_check test them.
#![tactic(auto)]

mod answer;
mod fields;
mod magic;

pub use answer::Fault;
pub use fields::{
    array_at, content_start, half_at, header_at, is_page_type, is_usable, usable_end,
};
pub use magic::first_unlike;
