ghost use Rattle.std.specs.Prelude.{◌≡◌, ◌<◌, ◌≤◌, ◌++◌, ◌∷◌, [], length, IfOk, IsErr, IsNone, IsTrue, MatchResult, ◌↔◌, replicate};
ghost use Rattle.std.specs.Option.{option_to_list};
ghost use Rattle.bq_host.specs.LastParts.{last_part};

use bq_job::{Answer, NoMemory};
use std::alloc::Global;
use std::collections::VecDeque;
use std::marker::Model;

/// The number of answers that the mail of a seat has room for.
const MAIL_ROOM: usize = 4;

/// The answers that were given to a seat and that it has not taken yet, oldest first.
#[derive(Drop)]
pub struct Mail {
    answers: VecDeque<Answer, Global>,
}

impl Model for Mail {
    ghost use Rattle.std.specs.Prelude.{List, ◌≤◌, length};
    ghost use Rattle.std.specs.VecDeque.{deque_capacity};
    ghost use Rattle.bq_job.specs.declared.answer.Answer.{Answer};

    ghost Value = { List Answer };

    ghost view = { λ m. m.answers.items };

    ghost invariant = { λ m. (length m.answers.items ≤ 4) × (4 ≤ deque_capacity m.answers) };
}

impl Mail {
    /// Returns an empty mail. All of its memory is allocated here.
    pub fn new(alloc: Global) -> Result<Mail, NoMemory>
        ensures { IfOk result (λ mail. mail ≡ []) }
    {
        match VecDeque::with_capacity(alloc, MAIL_ROOM) {
            Ok(answers) => Ok(Mail { answers }),
            Err(_) => Err(NoMemory),
        }
    }

    /// Returns true if there is no answer.
    pub fn is_empty(&self) -> bool
        ensures { IsTrue result ↔ (self.now ≡ []) }
    {
        self.answers.is_empty()
    }

    /// Removes and returns the oldest answer.
    pub fn take_first(&mut self) -> Option<Answer>
        ensures oldest { self.old ≡ option_to_list result ++ self.new }
        ensures empty { IsNone result ↔ (self.old ≡ []) }
    {
        self.answers.pop_front()
    }

    /// Appends an answer, or returns it if there is no room.
    pub fn put(&mut self, answer: Answer) -> Result<(), Answer>
        ensures put { MatchResult result (λ done. self.new ≡ self.old ++ answer ∷ [])
            (λ back. (back ≡ answer) × (self.new ≡ self.old)) }
        ensures full { IsErr result ↔ (4 ≤ length self.old) }
    {
        if self.answers.len() >= MAIL_ROOM {
            return Err(answer);
        }
        self.answers.push_back(answer).unwrap();
        Ok(())
    }

    /// Appends an answer. If there is no room, the oldest answer is dropped.
    pub fn put_newest(&mut self, answer: Answer)
        ensures { self.new ≡ last_part 4 (self.old ++ answer ∷ []) }
    {
        if self.answers.len() == MAIL_ROOM {
            drop(self.take_first());
        }
        self.answers.push_back(answer).unwrap();
    }
}

/// Returns a mail for each seat. All of their memory is allocated here.
pub fn new_mails(alloc: Global, seats: u16) -> Result<Vec<Mail, Global>, NoMemory>
    ensures { IfOk result (λ mails. mails.items ≡ replicate seats []) }
{
    let Ok(mut mails) = Vec::with_capacity(alloc, usize::from(seats)) else {
        return Err(NoMemory);
    };
    for _ in 0..seats {
        let Ok(mail) = Mail::new(alloc) else {
            return Err(NoMemory);
        };
        mails.push_reserved(mail);
    }
    Ok(mails)
}
