// The newest committed copy of a page (section 4.5).
ghost use Rattle.std.specs.Prelude.{◌≡◌};
ghost use Rattle.wal_frame.specs.Frame.{frame_length};
ghost use Rattle.wal.specs.Reading.{reaches, committed, found};

use wal_checksum::number_at;
use wal_frames::{Commit, Summary};
use wal_header::{HEADER_LENGTH, Header};

#[derive(Clone, Copy, Debug, PartialEq, Eq)]
pub struct FoundFrame {
    // The frame's number, from 1 on.
    pub number: usize,
    // The offset of its first byte.
    pub offset: usize,
}

// The summary is of another log: its frames reach past the end of this one.
#[derive(Clone, Copy, Debug, PartialEq, Eq)]
pub struct OtherLog;

// The newest committed frame that holds a page. If there is none, the page is to be read from the database file. The search goes
// down from the last commit and reads one number of each frame: the scan that gave the summary has looked at the checksums.
#[tactic(auto, using(crate::proofs::Reach::reach_each), unfolding(crate::specs::Reading::found))]
pub fn find_frame(log: &[u8], summary: Summary, page: u32) -> Result<Option<FoundFrame>, OtherLog>
    ensures { result ≡ found page summary log.now }
{
    let committed = committed(summary.last);
    if !reaches(log, summary.header, committed) {
        return Err(OtherLog);
    }
    let length = wal_frame::length(summary.header);
    for earlier in (0..committed).rev() {
        let offset = HEADER_LENGTH + earlier * length;
        if number_at(log, offset) == page {
            return Ok(Some(FoundFrame {
                number: earlier + 1,
                offset,
            }));
        }
    }
    Ok(None)
}

// The number of frames up to and with the last commit.
fn committed(last: Option<Commit>) -> usize
    ensures { result ≡ committed last }
{
    last.map_or(0, |commit| commit.frame)
}

// Whether `count` frames lie within a log. The count may be any number, so their length is not computed: it could wrap.
#[tactic(auto, using(crate::proofs::Reach::reach_divided), unfolding(crate::specs::Reading::reaches))]
pub fn reaches(log: &[u8], header: Header, count: usize) -> bool
    ensures { result ≡ reaches (frame_length header) count log.now }
{
    log.len() >= HEADER_LENGTH && count <= (log.len() - HEADER_LENGTH) / wal_frame::length(header)
}
