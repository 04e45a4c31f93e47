// Answers: what a directive came to, as its caller gets it. Each check of a directive is passed by `?`, and the functions here are the one
// place where a refusal becomes an answer.
#![tactic(auto)]

ghost use Rattle.std.specs.Prelude.{◌≡◌, ◌<◌, cond, [], replicate, Ok, Err};
ghost use Rattle.manager.specs.Record.{tasks, no_notice};
ghost use Rattle.manager.specs.Result.{answer_of, replied};
ghost use Rattle.reply.specs.Notices.{Notices, with_notice};
ghost use Rattle.reply.specs.Outcomes.{concluded, answer_with};

use manager::{Answer, Information, Manager, Notice, Status};

// The manager record, and the notices that serving or a tick leaves: so many, and unused places are zero. No heap: an array and a count.
#[derive(Clone, Copy)]
pub struct Noticed {
    pub manager: Manager,
    pub notices: [Notice; Manager::TASKS],
    pub count: usize,
}

// Why a directive is refused: the status, and the value beside it, which is 0 but for a resize that finds no room.
#[derive(Clone, Copy)]
pub struct Refusal {
    pub status: Status,
    pub value: u32,
}

impl From<Status> for Refusal {
    ghost from_gives = { λ s r. r ≡ record { status = s; value = 0 } };

    fn from(status: Status) -> Refusal {
        Refusal { status, value: 0 }
    }
}

// A check of a directive: its status, where it fails.
pub fn ensure(holds: bool, status: Status) -> Result<(), Status>
    ensures { result ≡ cond holds (Ok tt) (Err status) }
{
    if holds { Ok(()) } else { Err(status) }
}

// The answer over a record of what a directive came to: its value, or the status that refuses it. Not made by `Noticed::answer`: one
// function for both was tried, and a call took 1,400 bytes of stack more.
pub fn answer(d: Manager, done: Result<u32, Status>) -> Answer
    ensures { result ≡ answer_of (concluded [] d done) }
{
    let (status, value) = match done {
        Ok(value) => (Status::Successful, value),
        Err(status) => (status, 0),
    };
    Answer {
        status,
        value,
        information: Information::default(),
        notices: no_notices(),
        manager: d,
    }
}

impl Noticed {
    // A record before anybody is told anything.
    pub fn nobody(d: Manager) -> Noticed
        ensures { Notices d [] result }
    {
        Noticed {
            manager: d,
            notices: no_notices(),
            count: 0,
        }
    }

    // One notice more, behind the others.
    pub fn tell(&mut self, n: Notice)
        requires { self.old.count < tasks }
        ensures { self.new ≡ with_notice self.old n }
    {
        let at = self.count;
        self.notices[at] = n;
        self.count = at + 1;
    }

    // The answer over the record and its notices of what a directive came to.
    pub fn answer(&self, done: Result<u32, Refusal>) -> Answer
        ensures { result ≡ answer_with self.now done }
    {
        let (status, value) = match done {
            Ok(v) => (Status::Successful, v),
            Err(r) => (r.status, r.value),
        };
        Answer {
            status,
            value,
            information: Information::default(),
            notices: self.notices,
            manager: self.manager,
        }
    }
}

// No notices: unused places are zero.
pub fn no_notices() -> [Notice; Manager::TASKS]
    ensures { result ≡ replicate tasks no_notice }
{
    [Notice::default(); Manager::TASKS]
}
