// Messages to standard error.
use std::fmt;
use std::fmt::{Display, Formatter, InlineText};
use std::io::Error;

// The longest reason, with the number that `Error` puts after it.
const LONGEST: usize = 96;

// A line to standard error: the program, what it was given, which need not be text, and the words. There is nobody to tell if it can't
// be written. The stream is handed in alone: nothing else goes with it from call to call.
pub fn say<D: Display + Drop>(stderr: &impl Print, program: &str, given: &[u8], words: D) {
    let _ = print!(stderr; "{program}: ");
    let _ = stderr.write_all(given);
    let _ = println!(stderr; ": {words}");
}

// Why the system refused: the words of its error, without the number that stands after them in brackets.
#[derive(Clone, Copy)]
pub struct Reason(pub Error);

impl Display for Reason {
    fn fmt<W: fmt::Write>(&self, f: &mut Formatter<W>) -> fmt::Result {
        let text = InlineText::<{ LONGEST }>::of(self.0);
        let words = text.as_str();
        match words.split_once(" (os error ") {
            Some((reason, _)) => f.write_str(reason),
            None => f.write_str(words),
        }
    }
}
