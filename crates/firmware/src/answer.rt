// An answer as words.
ghost use Rattle.std.specs.Prelude.{◌≡◌};
ghost use Rattle.firmware.specs.Exported.{answer_words};

use manager::{Answer, Manager};
use packing::{INFORMATION_WORDS, NOTICE_WORDS, ToWords, write_all};

// The words of an answer: its value, its information, and a notice for each task.
pub(crate) const NOTICES_AT: usize = 1 + INFORMATION_WORDS;

pub(crate) const ANSWER_WORDS: usize = NOTICES_AT + NOTICE_WORDS * Manager::TASKS;

pub(crate) fn put(words: &mut [u32; ANSWER_WORDS], a: Answer)
    ensures { words.new ≡ answer_words a }
{
    words[0] = a.value;
    words[1..NOTICES_AT].copy_from_slice(&a.information.to_words());
    write_all(&a.notices, &mut words[NOTICES_AT..]);
}
