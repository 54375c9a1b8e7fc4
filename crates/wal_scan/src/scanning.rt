// The frames one after another.
use crate::failure::Failure;
use crate::lines;
use crate::log_file::{LogFile, PIECE};
use std::io::Read;
use text::Output;

// No file is longer.
const LONGEST: usize = 9223372036854775807;

// Lists the log. Each frame's line is put as it is read, and the summary at the end.
#[tactic(auto, unfolding(wal_frames::specs::Scan::counted))]
pub fn scan(
    log: &mut LogFile<impl Read + Drop>,
    output: &mut Output<'_, impl Print>,
) -> Result<(), Failure> {
    output.begin_line()?;
    lines::write_page_size(output, log.header.page_size)?;
    let mut piece = [0u8; PIECE];
    let mut summary = wal_frames::start(log.header);
    while summary.end < LONGEST {
        let Some(frame) = log.next_frame(&mut piece, summary.sums)? else {
            break;
        };
        output.begin_line()?;
        summary = wal_frames::add_frame(summary, frame);
        lines::write_frame(output, summary.frames, frame.page, frame.commit)?;
    }
    lines::write_summary(output, summary)?;
    Ok(())
}
