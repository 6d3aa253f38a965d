// Standard input as lines, for the programs: a lent buffer that is filled behind what was kept of an unfinished line.

#![tactic(auto)]

ghost use Rattle.std.specs.Prelude.{◌≤◌, length};

use print::Out;
use std::fmt;
use std::io::{Read, Stdin};

// What stands in the buffer and isn't taken yet lies between `from` and `end`.
#[derive(Drop)]
pub struct Lines<'a> {
    stdin: Stdin,
    text: &'a mut [u8],
    from: usize,
    end: usize,
    ghost within: { (from ≤ end) × (end ≤ length text.now) },
}

impl<'a> Lines<'a> {
    pub fn new(stdin: Stdin, text: &'a mut [u8]) -> Lines<'a> {
        Lines {
            stdin,
            text,
            from: 0,
            end: 0,
        }
    }

    // Hands the next line on, without its end of line. None where what is left of the buffer has no end of line.
    pub fn next_with<R, F>(&mut self, answer: F) -> Option<R>
    where
        F: FnOnce(&mut [u8]) -> R,
        requires { F.IsAlwaysCallable answer }
    {
        let from = self.from;
        let left = &self.text[from..self.end];
        let n = left.iter().position(|letter| *letter == b'\n')?;
        self.from = from + n + 1;
        Some(answer(&mut self.text[from..from + n]))
    }

    // Where no whole line is left: writes what waits in `out`, keeps the unfinished line and reads behind it. Where there is no more, a line
    // that was kept gets its end of line. False where nothing follows: there is no more to read, or it can't be read, which is said.
    pub fn more(&mut self, out: &mut Out<'_>) -> Result<bool, fmt::Error> {
        out.flush()?;
        self.keep();
        let kept = self.end;
        if kept == self.text.len() {
            return Ok(false);
        }
        match self.stdin.read(&mut self.text[kept..]) {
            Ok(0) if kept == 0 => Ok(false),
            Ok(0) => {
                self.text[kept] = b'\n';
                self.end = kept + 1;
                Ok(true)
            }
            Ok(n) => {
                self.end = kept + n;
                Ok(true)
            }
            Err(_) => {
                out.unread();
                Ok(false)
            }
        }
    }

    // Moves an unfinished line to the buffer's start. Of a line that is too long for a request one letter more than the longest request is kept,
    // so that there is room to read on, and that it is too long is still seen.
    fn keep(&mut self) {
        let n = (self.end - self.from).min(asking::LONGEST + 1);
        self.text.copy_within(self.from..self.from + n, 0);
        self.from = 0;
        self.end = n;
    }
}
