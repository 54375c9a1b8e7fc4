// The words that a program is run with.
ghost use Rattle.std.specs.Prelude.{◌≤◌};

use std::env::{Env, FillError};

// The number of words, the program's name among them, or `most` if there are as many or more.
pub fn word_count(env: &impl Env, most: usize) -> usize
    ensures { result ≤ most }
{
    (0..most)
        .position(|i| matches!(env.arg(i, &mut [0u8; 1]), Err(FillError::NotPresent)))
        .unwrap_or(most)
}
