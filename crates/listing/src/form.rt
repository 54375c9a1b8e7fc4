// The form in which a list shows pages goes by the type of its elements.
ghost use Rattle.std.specs.Prelude.{◌≡◌, List, [], ◌∷◌, ◌+◌, ◌≤◌, length};
ghost use Rattle.std.proofs.Common.{rules};
ghost use Rattle.std.proofs.lemmas.List.Edits.{sets};
ghost use mathlib.Core.List.{flat_map};
ghost use Rattle.listing.specs.declared.listed.ListedPage.{ListedPage};
ghost use Rattle.listing.specs.Listing.{numbers_of, Form, in_numbers, in_records, Laid, Room};

use crate::listed::ListedPage;

// An element of a list of pages.
pub trait PageForm: Copy {
    // The form of the list.
    ghost form: { Form Self };

    // The elements that stand for a page.
    ghost shown: { ListedPage → List Self };

    // Writes the page to its places, which come after those of `i` other pages.
    fn put_page(list: &mut [Self], i: usize, page: ListedPage)
        requires { form.places (i + 1) ≤ length list.old }
        ensures { list.new ≡ sets list.old (form.places i) (shown page) };

    // How many pages the list has places for.
    fn room(list: &[Self]) -> usize
        ensures { Room form list.now result };

    // The form shows pages one after another, and each takes as many places as any other.
    ghost laid: { Laid form shown };
}

// Eight numbers for each page.
impl PageForm for u64 {
    ghost form = { in_numbers };

    ghost shown = { numbers_of };

    ghost laid = { unfold flat_map in Prim.search rules };

    fn put_page(list: &mut [u64], i: usize, page: ListedPage) {
        let at = i * 8;
        let record = page.page;
        list[at] = page.key.0 as u64;
        list[at + 1] = page.handle.0 as u64;
        list[at + 2] = record.flags as u64;
        list[at + 3] = record.pins as u64;
        list[at + 4] = record.holders as u64;
        list[at + 5] = record.cells as u64;
        list[at + 6] = record.frame;
        list[at + 7] = page.uses as u64;
    }

    fn room(list: &[u64]) -> usize {
        list.len() / 8
    }
}

// A record for each page.
impl PageForm for ListedPage {
    ghost form = { in_records };

    ghost shown = { λ p. p ∷ [] };

    ghost laid = { Prim.search rules };

    fn put_page(list: &mut [ListedPage], i: usize, page: ListedPage) {
        list[i] = page;
    }

    fn room(list: &[ListedPage]) -> usize {
        list.len()
    }
}
