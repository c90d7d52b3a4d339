// Reads that go on until the space for them is full.
#![tactic(auto)]

ghost use Rattle.std.specs.Prelude.{◌≤◌, IfOk, length};

use std::io;
use std::io::Read;

// Puts bytes at the start of the space until it is full or the input ends: how many came.
pub fn read_full<R: Read>(input: &mut R, space: &mut [u8]) -> io::Result<usize>
    ensures { IfOk result (λ n. n ≤ length space.new) }
{
    let mut done = 0;
    // A `while`: the library's `read_exact` and `read_to_end` try an interrupted read again, and neither tells how much came before the end.
    while done < space.len() {
        match input.read(&mut space[done..])? {
            0 => break,
            n => done += n,
        }
    }
    Ok(done)
}
