// What the arguments ask for. An enum and no closure: what is done for the third is no more than a message.
use std::env::Env;

#[derive(Clone, Copy)]
pub enum Asked {
    // A line for each record.
    Answers,
    // A line for each record, and after each a line with the pool.
    States,
    // Arguments that the program doesn't know.
    Other,
}

pub fn from_arguments(env: &impl Env) -> Asked {
    match input::word_count(env, 3) {
        0 | 1 => Asked::Answers,
        2 if is_state(env) => Asked::States,
        _ => Asked::Other,
    }
}

fn is_state(env: &impl Env) -> bool {
    let mut word = [0u8; 8];
    let length = env.arg(1, &mut word).unwrap_or(0);
    matches!(&word[..length], b"--state")
}
