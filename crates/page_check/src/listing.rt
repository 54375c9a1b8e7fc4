// The pages one after another.
use crate::asking::Pages;
use crate::database_file::{DatabaseFile, PIECE};
use crate::failure::Failure;
use crate::lines;
use crate::totals::Totals;
use std::io::{Read, Seek};
use text::Output;

// Checks the pages that are asked for. Each page's line is put as it is read, and the totals at the end.
pub fn check_pages(
    file: &mut DatabaseFile<impl Read + Seek + Drop>,
    output: &mut Output<'_, impl Print>,
    pages: Pages,
) -> Result<(), Failure> {
    file.go_to_page(pages.first)?;
    output.begin_line()?;
    lines::write_sizes(output, file.database)?;
    let mut piece = [0u8; PIECE];
    let mut totals = Totals::none();
    for number in pages.first..=pages.last {
        let Some(checked) = file.check_page(&mut piece, number)? else {
            break;
        };
        output.begin_line()?;
        lines::write_page(output, checked)?;
        totals.count(checked.answer);
    }
    if totals.pages() == 0 {
        return Err(Failure::NoSuchPage(pages.first));
    }
    lines::write_totals(output, totals)?;
    Ok(())
}
