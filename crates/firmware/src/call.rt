// A call over the words that the caller keeps.
ghost use Rattle.std.specs.Prelude.{◌≡◌};
ghost use Rattle.firmware.specs.Exported.{Leaves, called, number};

use crate::answer::put;
use manager::{Call, Status};

// The number of what was answered; that of damaged records where nothing was.
pub(crate) fn number(answered: Option<Status>) -> u32
    ensures { result ≡ number answered }
{
    u32::from(answered.unwrap_or(Status::InternalError))
}

// A call on the record's words: unpacks, performs, packs. None where the words say no record, or the answer is too short.
fn try_call(state: &mut [u32], memory: &mut [u32], answer: &mut [u32], call: Call) -> Option<Status>
    ensures { Leaves (called state.old memory.old answer.old call)
        state.new memory.new answer.new (number result) }
{
    let answer = answer.first_chunk_mut()?;
    let manager = packing::unpack(state)?;
    let given = directives::perform(memory, manager, call);
    packing::pack(given.manager, state);
    put(answer, given);
    Some(given.status)
}

pub(crate) fn run_call(state: &mut [u32], memory: &mut [u32], answer: &mut [u32], call: Call) -> u32
    ensures { Leaves (called state.old memory.old answer.old call)
        state.new memory.new answer.new result }
{
    number(try_call(state, memory, answer, call))
}
