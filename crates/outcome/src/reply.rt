// A call's answer with what it counts.
ghost use Rattle.std.specs.Prelude.{◌≡◌, Err};
ghost use Rattle.outcome.specs.Answers.{code_of, value_of};
ghost use Rattle.outcome.specs.Outcome.{reply_by, reply_of};

use crate::answer::{Answer, Refusal};

// The answer, the bytes done, the frames taken, and how many notices the list has by then.
#[derive(Clone, Copy)]
pub struct Reply {
    pub answer: Answer,
    pub done: u64,
    pub taken: u32,
    pub count: usize,
}

impl Reply {
    // A call that counts nothing and sends nothing.
    pub fn of(answer: Answer) -> Self
        ensures { result ≡ reply_of answer }
    {
        Reply {
            answer,
            done: 0,
            taken: 0,
            count: 0,
        }
    }

    pub fn refused(why: Refusal) -> Self
        ensures { result ≡ reply_of (Err why) }
    {
        Reply::of(Err(why))
    }

    // Of the work, or of a refusal before it.
    pub fn of_work(work: Result<Self, Refusal>) -> Self
        ensures { result ≡ reply_by work }
    {
        work.unwrap_or_else(Reply::refused)
    }

    // For the export: 0 for Ok, which is no refusal, so a `match`.
    pub fn code(self) -> u32
        ensures { result ≡ code_of self.answer }
    {
        match self.answer {
            Ok(_) => 0,
            Err(why) => u32::from(why),
        }
    }

    // For the export: of a refused call the bytes done.
    pub fn value(self) -> u64
        ensures { result ≡ value_of self.answer self.done }
    {
        self.answer.unwrap_or(self.done)
    }
}
