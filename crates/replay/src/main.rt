// Document 01's replay program: records of 32 bytes from standard input, a line for each to standard output, over a pool of
// 256 slots.
//
//     replay            a line for each record
//     replay --state    after each, a line with the pool: capacity, spill switch, estimate, held, and each page in sweep order
//
//     asking.rt   what the arguments ask for
//     cache.rt    the cache that the records are applied to, and its memory
//     block.rt    the records of a block of input, one after another
//     line.rt     the line of a record
//     state.rt    the line of a pool
//
// What a record does is the contract of `apply`. What is here reads and writes. A short last record writes `bad`, and
// nothing follows. The program ends where the input ends, or where no more can be read or written.
#![tactic(auto)]

mod asking;
mod block;
mod cache;
mod line;
mod state;

use asking::Asked;
use cache::Cache;
use std::io::Read;
use text::Output;

fn main(rt: HostRuntime) {
    let mut stdin = rt.stdin();
    match asking::from_arguments(&rt) {
        Asked::Answers => replay(&mut stdin, &rt, false),
        Asked::States => replay(&mut stdin, &rt, true),
        Asked::Other => {
            let _ = rt
                .stderr()
                .write_all(b"usage: replay [--state] < RECORDS\n");
        }
    }
}

// Block after block, up to the last one, or until the output can't be written: there is nobody to tell. No input has as many blocks as
// the range has numbers.
fn replay(stdin: &mut impl Read, stdout: &impl Print, states: bool) {
    let mut cache = Cache::new();
    let mut output = Output::new(stdout);
    for _ in 0..u64::MAX {
        let Ok(true) = block::replay(stdin, &mut output, &mut cache, states) else {
            return;
        };
    }
}
