// How many pages were checked.
ghost use Rattle.std.specs.Prelude.{◌≡◌, ◌+◌, ◌<◌, ◌≤◌};

use btree_check::Fault;

#[derive(Clone, Copy)]
pub struct Totals {
    pub yes: u32,
    pub no: u32,
    // No database has more pages.
    ghost few: { yes + no ≤ 4294967294 },
}

impl Totals {
    pub fn none() -> Totals
        ensures { result.yes + result.no ≡ 0 }
    {
        Totals { yes: 0, no: 0 }
    }

    pub fn pages(self) -> u32
        ensures { result ≡ self.yes + self.no }
    {
        self.yes + self.no
    }

    // With the answer about one page more.
    pub fn count(&mut self, answer: Result<(), Fault>)
        requires { self.old.yes + self.old.no < 4294967294 }
        ensures { self.new.yes + self.new.no ≡ self.old.yes + self.old.no + 1 }
    {
        match answer {
            Ok(()) => self.yes += 1,
            Err(_) => self.no += 1,
        }
    }
}
