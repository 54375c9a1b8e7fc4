// The scan of a log.
ghost use Rattle.std.specs.Prelude.{◌≡◌, ◌≤◌, length};
ghost use Rattle.wal_frames.specs.Scan.{start_of, counted, scan_of, scanned, Countable};

use wal_checksum::Sums;
use wal_frame::{Frame, next_at};
use wal_header::{Fault, HEADER_LENGTH, Header, open};

// A commit.
#[derive(Clone, Copy, Debug, PartialEq, Eq)]
pub struct Commit {
    // The number of its frame, from 1 on.
    pub frame: usize,
    // The database's size after it, in pages.
    pub pages: u32,
}

// What was read of a log, up to its first bad frame. A writer goes on from here.
#[derive(Clone, Copy, Debug, PartialEq, Eq)]
pub struct Summary {
    pub header: Header,
    // The number of valid frames.
    pub frames: usize,
    // How many of them are commits.
    pub commits: usize,
    pub last: Option<Commit>,
    // The offset of the byte after the last valid frame.
    pub end: usize,
    // The running sums up to there.
    pub sums: Sums,
}

// All valid frames of a log, or its header's first fault.
#[tactic(auto, using(wal_header::proofs::Opening::opened_long))]
pub fn scan(log: &[u8]) -> Result<Summary, Fault>
    ensures { result ≡ scanned log.now }
{
    let header = open(log)?;
    Ok(scan_frames(log, header))
}

// The frames after the header.
fn scan_frames(log: &[u8], header: Header) -> Summary
    requires { 32 ≤ length log.now }
    ensures { result ≡ scan_of header log.now }
{
    let mut s = start(header);
    while let Some(frame) = next_at(log, s.end, header, s.sums) {
        s = add_frame(s, frame);
    }
    s
}

// The summary before the first frame.
pub fn start(header: Header) -> Summary
    ensures { result ≡ start_of header }
{
    Summary {
        header,
        frames: 0,
        commits: 0,
        last: None,
        end: HEADER_LENGTH,
        sums: header.sums,
    }
}

// The summary with one valid frame more.
#[tactic(auto, unfolding(crate::specs::Scan::counted))]
pub fn add_frame(summary: Summary, frame: Frame) -> Summary
    requires { Countable summary }
    ensures { result ≡ counted summary frame }
{
    let mut counted = Summary {
        frames: summary.frames + 1,
        end: summary.end + wal_frame::length(summary.header),
        sums: frame.sums,
        ..summary
    };
    if frame.commit != 0 {
        counted.commits += 1;
        counted.last = Some(Commit {
            frame: counted.frames,
            pages: frame.commit,
        });
    }
    counted
}
