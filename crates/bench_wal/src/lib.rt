// For benchmarks: the scan of a log for programs in C, with its answer as numbers.
//
// `wal_bench_scan` asks nothing of what it is lent: a log whose header is refused is answered with the header's fault, 1 to 5, an
// answer of another length than 7 numbers with 6, and then nothing is written. Its contract says nothing: what a scan reads is
// stated in crate `wal`.
#![tactic(auto)]

use wal::{Fault, Summary, scan};

// The numbers of an answer: frames, end, both sums, commits, the last commit's frame and size (0 and 0 if there is none).
const ANSWER: usize = 7;

// What is handed back: C has no enum.
const READ: u32 = 0;

const BAD_LENGTH: u32 = 6;

// Scans a log, and writes what was read.
#[unsafe(no_mangle)]
pub extern "C" fn wal_bench_scan(log: &[u8], answer: &mut [u64]) -> u32 {
    let Ok(answer) = <&mut [u64; ANSWER]>::try_from(answer) else {
        return BAD_LENGTH;
    };
    match scan(log) {
        Ok(summary) => {
            *answer = numbers(summary);
            READ
        }
        Err(fault) => code_of(fault),
    }
}

fn numbers(summary: Summary) -> [u64; ANSWER] {
    let (frame, pages) = summary
        .last
        .map_or((0, 0), |commit| (commit.frame, commit.pages));
    [
        summary.frames as u64,
        summary.end as u64,
        summary.sums.s0 as u64,
        summary.sums.s1 as u64,
        summary.commits as u64,
        frame as u64,
        pages as u64,
    ]
}

// C has numbers for the faults.
fn code_of(fault: Fault) -> u32 {
    match fault {
        Fault::Length => 1,
        Fault::Magic => 2,
        Fault::Version => 3,
        Fault::PageSize => 4,
        Fault::Checksum => 5,
    }
}
