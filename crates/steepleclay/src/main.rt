// Reads a script from standard input, runs it over a zeroed memory of 16,384 words, and writes what it answers.
#![tactic(auto)]

ghost use Rattle.std.specs.Prelude.{◌≤◌, IfOk, length};

use std::io;
use std::io::{Print, Read, Stdin};

// Reads until the buffer is full or the input ends, and answers how far the buffer is filled. The place is counted here: std's methods that
// fill a buffer fail at an early end or take the heap.
fn read_all(mut input: Stdin, buf: &mut [u8]) -> io::Result<usize>
    ensures { IfOk result (λ n. n ≤ length buf.new) }
{
    let mut done = 0;
    while done < buf.len() {
        let got = input.read(&mut buf[done..])?;
        if got == 0 {
            break;
        }
        done += got;
    }
    Ok(done)
}

// One byte more than a script may have is read, so that a longer one is told from one that just fits.
fn main(rt: HostRuntime) {
    let mut src = [0u8; run::SCRIPT + 1];
    let Ok(n) = read_all(rt.stdin(), &mut src) else {
        let _ = rt.stderr().write_all(b"steepleclay: reading failed\n");
        return;
    };
    let mut mem = [0u32; 16384];
    let mut out = [0u8; run::OUTPUT];
    let k = run::run(&src[..n], &mut mem, &mut out);
    if rt.stdout().write_all(&out[..k]).is_err() {
        let _ = rt.stderr().write_all(b"steepleclay: writing failed\n");
    }
}
