// The pool listing: every held page in sweep order, from the hand, each with its key, handle and use count. It is written
// to a lent list in one of two forms:
//
//     in numbers   key  handle  flags  pins  holders  cells  frame  uses  |  key  handle ..
//                  the hand's page, eight numbers                         |  the page after it ..
//     in records   a ListedPage for each page
//
//     listed.rt      ListedPage; page_at: what stands at a slot, fetched by value
//     form.rt        PageForm, the trait of u64 and of ListedPage: how a page is written to a list of such elements
//     testing.rt     the tests that come first: sound memory, then a list that is long enough
//     pages.rt       list_ring, list_pages, for a list in either form
//
// `list_pages` takes any memory: it lists all held pages, or refuses with document 01's answer 1 or 3 and alters nothing.
// `list_ring` is the same without the tests, for callers who know their memory and their list. No function here changes the
// memory, and places of the list past the pages keep their values. What is said of the two forms is said once, of a `Form`
// (specs/Listing.antt). The contract of `list_pages` is deterministic (proofs/Outcomes.antt).
#![tactic(auto)]

mod form;
mod listed;
mod pages;
mod testing;

pub use form::PageForm;
pub use listed::ListedPage;
pub use pages::{list_pages, list_ring};
pub use testing::ListingError;
