// The public calls of the cache, under the Rust's names; but the Rust has no `release_page`, since there a clone is dropped. They ask
// nothing of what they are lent: any memory of any lengths, any head and any list get a defined answer.
//
//     plain.rt, forced.rt, upserting.rt   insert, force_insert_page, force_upsert_page
//     getting.rt, deleting.rt             get, delete
//     peeking.rt, releasing.rt            peek, release_page
//     writing.rt                          write_record
//     dirty.rt, spilled.rt, switch.rt     notify_page_dirty, notify_page_spilled, set_spill_enabled
//     capacity.rt, evicting.rt            resize, evict_one
//     selecting.rt                        check_spill
//     emptying.rt, truncating.rt          clear, truncate
//     frames.rt                           delete_clean_pages_after_wal_frame
//     crate creating                      create
//     crate soundness                     is_sound: the test that every call but create begins with
//     crate listing                       list_pages: the listing of the pool, into numbers or into records
//
// Each call tests the memory, refuses with 1 if it is not sound, and otherwise calls the function that stands on sound memory. That is all
// that they have in common, two lines: what they promise differs from one to the next. The three insertions differ in their mode alone, and
// the two notices in their direction: they are names of the Rust's, each with its own word of the model in its contract, and what they do
// is one function of crate insertion and one of caller_updates. `peek`, `release_page` and `write_record` are lent the slices one by one,
// since they write one and read the others. What callers may rely on is `Called`, in crate contract.
#![tactic(auto)]

mod capacity;
mod deleting;
mod dirty;
mod emptying;
mod evicting;
mod forced;
mod frames;
mod getting;
mod peeking;
mod plain;
mod releasing;
mod selecting;
mod spilled;
mod switch;
mod truncating;
mod upserting;
mod writing;

pub use capacity::resize;
pub use creating::create;
pub use deleting::delete;
pub use dirty::notify_page_dirty;
pub use emptying::clear;
pub use evicting::evict_one;
pub use forced::force_insert_page;
pub use frames::delete_clean_pages_after_wal_frame;
pub use getting::get;
pub use listing::list_pages;
pub use peeking::peek;
pub use plain::insert;
pub use releasing::release_page;
pub use selecting::check_spill;
pub use soundness::is_sound;
pub use spilled::notify_page_spilled;
pub use switch::set_spill_enabled;
pub use truncating::truncate;
pub use upserting::force_upsert_page;
pub use writing::write_record;
