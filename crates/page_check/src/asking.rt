// Which pages are asked for.
ghost use Rattle.std.specs.Prelude.{◌≤◌, IfSome};

use std::env::Env;

// 'The maximum page number is 4294967294'.
const LAST_PAGE: u32 = 4294967294;

// The longest page number that is read: no argument is longer.
const NUMBER: usize = 131072;

// The pages to check, as far as the file has them.
#[derive(Clone, Copy)]
pub struct Pages {
    pub first: u32,
    pub last: u32,
    ghost from_one: { 1 ≤ first },
    ghost to_last: { last ≤ 4294967294 },
}

// All pages, or the one that the second word names. None if the words are bad, and then a message has been written.
pub fn asked(env: &impl Env, stderr: &impl Print) -> Option<Pages> {
    match input::word_count(env, 4) {
        2 => Some(Pages {
            first: 1,
            last: LAST_PAGE,
        }),
        3 => asked_page(env, stderr),
        _ => {
            let _ = stderr.write_all(b"usage: page_check DATABASE [PAGE]\n");
            None
        }
    }
}

fn asked_page(env: &impl Env, stderr: &impl Print) -> Option<Pages> {
    let mut word = [0u8; NUMBER];
    // One that is too long is no number, and isn't said again.
    let length = env.arg(2, &mut word).unwrap_or(0);
    let word = &word[..length];
    let Some(number) = page_number(word) else {
        // The word need not be text.
        let _ = stderr.print("page_check: bad page number: ");
        let _ = stderr.write_all(word);
        let _ = stderr.print("\n");
        return None;
    };
    Some(Pages {
        first: number,
        last: number,
    })
}

// The page number that a word's decimal digits say. Not `parse`, which takes a sign before them.
fn page_number(word: &[u8]) -> Option<u32>
    ensures { IfSome result (λ n. (1 ≤ n) × (n ≤ 4294967294)) }
{
    let mut number = 0u32;
    for byte in word {
        let digit = char::from(*byte).to_digit(10)?;
        number = number.checked_mul(10)?.checked_add(digit)?;
        if number > LAST_PAGE {
            return None;
        }
    }
    if number == 0 { None } else { Some(number) }
}
