// The whole program on slices: runs the calls of a script over a memory, and puts what it answers into a buffer.
#![tactic(auto)]

mod output;

ghost use Rattle.std.specs.Prelude.{◌≡◌, ◌+◌, ◌==◌, ◌≤◌, count_by, length, take};
ghost use Rattle.manager.specs.Record.{fresh};
ghost use Rattle.script.specs.Reading.{read_all};
ghost use Rattle.run.specs.Output.{line_number, Puts};
ghost use Rattle.run.specs.Run.{most_script, most_answers, most_output, answers, bad_of, run_all, memory_after, memory_all};
ghost use Rattle.run.specs.Writer.{Room, Wrote};

use directives::perform;
use manager::Manager;
use output::Writer;
use script::{BadLine, read_call};

// The most bytes of a script.
pub const SCRIPT: usize = 32768;

// The most bytes of an answer: its status, six values, and a notice for each task.
const ANSWER: usize = 18 + 6 * 17 + Manager::TASKS * 49;

// What any script can write: each call takes 10 bytes or more, and the line that says which line is bad has at most 15.
pub const OUTPUT: usize = (ANSWER / 10 + 1) * SCRIPT + 15;

// How many of the first p bytes are newlines.
fn newlines(src: &[u8], p: usize) -> usize
    ensures { result ≡ count_by (λ b. b == 10) (take p src.now) }
{
    src.iter().take(p).filter(|b| **b == b'\n').count()
}

// The number of the line that starts at p, from 1.
fn line_number(src: &[u8], p: usize) -> u32
    requires { length src.now ≤ most_script }
    ensures { result ≡ line_number src.now p }
{
    newlines(src, p) as u32 + 1
}

// Runs the calls of a script that is not too long, up to the first bad line.
// No plainer as a `for`: each call starts where the one before it ended, and that place in the script is what read_call takes.
fn run_calls(src: &[u8], mem: &mut [u32], out: &mut Writer) -> Result<(), BadLine>
    requires script_fits { length src.now ≤ most_script }
    requires output_fits { Room most_answers out.old }
    ensures wrote { Wrote most_answers (answers mem.old fresh (read_all src.now).calls) out.old out.new }
    ensures stops { bad_of result ≡ (read_all src.now).bad }
    ensures memory { mem.new ≡ memory_after mem.old fresh (read_all src.now).calls }
{
    let mut d = Manager::new();
    let mut at = 0;
    while let Some(read) = read_call(src, at)? {
        let a = perform(mem, d, read.call);
        out.answer(read.six_values, &a);
        d = a.manager;
        at = read.next;
    }
    Ok(())
}

// Runs a script, and answers how many bytes of output it put at the start of out.
pub fn run(src: &[u8], mem: &mut [u32], out: &mut [u8; OUTPUT]) -> usize
    ensures puts { Puts most_output out.old 0 (run_all src.now mem.old) out.new result }
    ensures memory { mem.new ≡ memory_all src.now mem.old }
    ensures within { result ≤ length out.new }
{
    let mut out = Writer::new(out);
    if SCRIPT < src.len() {
        out.bad(0);
    } else if let Err(bad) = run_calls(src, mem, &mut out) {
        out.bad(line_number(src, bad.at));
    }
    out.len
}
