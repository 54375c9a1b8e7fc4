// What a call hands back.
ghost use Rattle.std.specs.Prelude.{◌≡◌};
ghost use Rattle.answer.specs.Answer.{plainly};

use crate::answer::Answer;
use page::PageCache;

#[derive(Clone, Copy)]
pub struct Answered {
    pub answer: Answer,
    // Pages passed, over all sweeps of the call.
    pub passed: u64,
    // How many handles stand in the first places of the lent list.
    pub listed: u32,
    pub head: PageCache,
}

impl Answered {
    // An answer with nothing passed and nothing listed.
    pub fn plain(answer: Answer, head: PageCache) -> Self
        ensures { result ≡ plainly answer head }
    {
        Self {
            answer,
            passed: 0,
            listed: 0,
            head,
        }
    }
}
