// The deletions that choose their pages (rule 11): by ascending key, up to the first refusal.
//
//     deletions.rt   truncate                             the pages with a key above the limit
//                    delete_clean_pages_after_wal_frame   the clean ones from frames of the log above the limit
//
// Pages are chosen along the index by key. A page that stays is passed. One that goes leaves its place to the next, so that
// the walk stays where it is:
//
//     place     i    i+1  i+2                 place     i    i+1
//     by_key    b    c    d     b goes:       by_key    c    d
//
// Each call asks for sound memory (crate memory), and makes the test of its list itself, before the rule. Callers may rely on
// this: for every cache that the memory holds at entry, a call comes to the outcome of the model's `step` for it. The answer,
// the listed handles and the memory at exit are those of that outcome, and every other place of the list keeps its value. So a
// call with a list that is too short has changed nothing; and where a page refuses to go, the deletions before that stand and
// are listed.
#![tactic(auto)]

mod deletions;

pub use deletions::{delete_clean_pages_after_wal_frame, truncate};
