// The list of a log's frames.
ghost use Rattle.wal.specs.Reading.{ListsFrames};

use crate::find::reaches;
use wal_checksum::number_at;
use wal_frames::Summary;
use wal_header::HEADER_LENGTH;

#[derive(Clone, Copy, Debug, PartialEq, Eq)]
pub enum ListError {
    // The summary is of another log: its frames reach past the end of this one.
    OtherLog,
    // One of the lists has too few places.
    Short,
}

// Writes the page number and the commit size of each frame that the summary counts to the first places of the two lists, and says
// how many frames there are. Places past them keep their values, and a refusal alters nothing.
// They are two slices and not one of pairs, since they are a caller's own lists, and lent.
#[tactic(auto, using(crate::proofs::Reach::reach_each), unfolding(crate::specs::Reading::listed, crate::specs::Reading::reaches))]
pub fn list_frames(
    log: &[u8],
    summary: Summary,
    pages: &mut [u32],
    sizes: &mut [u32],
) -> Result<usize, ListError>
    ensures { ListsFrames summary log.now pages.old sizes.old result
        pages.new sizes.new }
{
    let count = summary.frames;
    if !reaches(log, summary.header, count) {
        return Err(ListError::OtherLog);
    }
    if pages.len() < count || sizes.len() < count {
        return Err(ListError::Short);
    }
    let length = wal_frame::length(summary.header);
    for i in 0..count {
        let at = HEADER_LENGTH + i * length;
        pages[i] = number_at(log, at);
        sizes[i] = number_at(log, at + 4);
    }
    Ok(count)
}
