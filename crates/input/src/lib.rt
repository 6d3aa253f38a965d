// Standard input, for the programs that take a whole input of a bounded length.
//
// What can't be read is told apart from the input's end, so that no program answers about a part. What a program says then is in `print`.

#![tactic(auto)]

ghost use Rattle.std.specs.Prelude.{IfOk, ◌≤◌, length};

use std::io;
use std::io::{Read, Stdin};

// Reads until the buffer is full or the input ends, and answers how many bytes that is. What std has for this needs a heap.
pub fn fill(mut input: Stdin, buf: &mut [u8]) -> io::Result<usize>
    ensures { IfOk result (λ n. n ≤ length buf.old) }
{
    let mut n = 0;
    while n < buf.len() {
        let more = input.read(&mut buf[n..])?;
        if more == 0 {
            break;
        }
        n += more;
    }
    Ok(n)
}
