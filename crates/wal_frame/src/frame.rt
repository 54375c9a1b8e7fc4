// A frame of a log.
ghost use Rattle.std.specs.Prelude.{◌≡◌, ◌+◌, ◌≤◌, length};
ghost use Rattle.wal_frame.specs.Frame.{frame_length, salted, sums_after, frame_at, next_at};

use wal_checksum::{Sums, checksum, number_at, same, sums_at};
use wal_header::Header;

#[derive(Clone, Copy, Debug, PartialEq, Eq)]
pub struct Frame {
    // The number of the page that it holds.
    pub page: u32,
    // The database's size in pages after this commit; 0 if this frame is no commit, as the log has it.
    pub commit: u32,
    // The running sums up to and with this frame.
    pub sums: Sums,
}

const FRAME_HEADER_LENGTH: usize = 24;

// The frame that some bytes begin with, if it is whole and valid after `sums`: the header's, or those of the frame before. Where
// there is none the log ends. With it a log can be read piece by piece.
pub fn next_frame(bytes: &[u8], header: Header, sums: Sums) -> Option<Frame>
    ensures { result ≡ next_at header bytes.now 0 sums }
{
    next_at(bytes, 0, header, sums)
}

// The same from a place of the log on.
#[tactic(auto, unfolding(crate::specs::Frame::valid))]
pub fn next_at(log: &[u8], at: usize, header: Header, sums: Sums) -> Option<Frame>
    requires { at ≤ length log.now }
    ensures { result ≡ next_at header log.now at sums }
{
    if log.len() - at < length(header) {
        return None;
    }
    if !is_salted(log, at, header) {
        return None;
    }
    let frame = frame_at(log, at);
    if !same(sums_after(log, at, header, sums), frame.sums) {
        return None;
    }
    Some(frame)
}

// The bytes of a frame: its header and a page.
pub fn length(header: Header) -> usize
    ensures { result ≡ frame_length header }
{
    FRAME_HEADER_LENGTH + header.page_size as usize
}

// Whether a frame repeats the log's salts. By `&`: both are there, and reading one alone would save nothing and cost a branch.
#[tactic(auto, unfolding(crate::specs::Frame::salted))]
fn is_salted(log: &[u8], at: usize, header: Header) -> bool
    requires { at + 24 ≤ length log.now }
    ensures { result ≡ salted header log.now at }
{
    (number_at(log, at + 8) == header.salt1) & (number_at(log, at + 12) == header.salt2)
}

// The sums go on over the first 8 bytes of the frame's header and over its page.
#[tactic(auto, unfolding(crate::specs::Frame::sums_after))]
fn sums_after(log: &[u8], at: usize, header: Header, sums: Sums) -> Sums
    requires { at + frame_length header ≤ length log.now }
    ensures { result ≡ sums_after header log.now at sums }
{
    let numbers = checksum(log, at, 1, header.big, sums);
    checksum(
        log,
        at + FRAME_HEADER_LENGTH,
        header.page_size as usize / 8,
        header.big,
        numbers,
    )
}

// What a frame's header says.
#[tactic(auto, unfolding(crate::specs::Frame::frame_at))]
pub fn frame_at(log: &[u8], at: usize) -> Frame
    requires { at + 24 ≤ length log.now }
    ensures { result ≡ frame_at log.now at }
{
    Frame {
        page: number_at(log, at),
        commit: number_at(log, at + 4),
        sums: sums_at(log, at + 16),
    }
}
