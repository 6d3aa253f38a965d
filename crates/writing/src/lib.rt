// Rows of items written into lent bytes (docs/REQUESTS.md): the bytes of a Done write, and how many of those behind them are as they were, as text.
// It takes any memory; what is printed is held against stored output by the programs' tests.

#![tactic(auto)]

ghost use Rattle.std.specs.Prelude.{◌≤◌, length};

use asking::Nothing;
use print::{Hex, Out};
use std::fmt;
use std::fmt::Write;

// The answer to `write`: of a row into the first bytes of a run, as many as are asked for and no more than there are.
pub fn write(
    row: &[u64],
    texts: &[u8],
    room: usize,
    lent: &mut [u8],
    out: &mut Out<'_>,
) -> fmt::Result {
    let Some(lent) = lent.get_mut(..room) else {
        return write!(out, "{}", Nothing::Unknown);
    };
    blank(lent);
    let written = writer::write(row, texts, lent);
    let lent = &*lent;
    match written {
        Ok(n) => {
            let bytes = &lent[..n];
            let kept = kept(lent, n);
            write!(
                out,
                "answer=0 written={n} extra=0 bytes={} kept={kept}",
                Hex(bytes)
            )
        }
        Err(why) => {
            let kept = kept(lent, 0);
            write!(
                out,
                "answer={} written=0 extra={} bytes= kept={kept}",
                why.number(),
                why.extra()
            )
        }
    }
}

// What the lent byte at a place holds before a row is written: near the start no byte of ASCII, no tag and no 0, and not the same at two places
// that are close.
fn blank_at(i: usize) -> u8 {
    (255 - i % 251) as u8
}

// And what the one behind it holds. (By their places, with `%` for each byte, the loops take twice as long.)
fn after(blank: u8) -> u8 {
    if blank <= 5 { 255 } else { blank - 1 }
}

fn blank(lent: &mut [u8]) {
    let mut blank = blank_at(0);
    for byte in lent.iter_mut() {
        *byte = blank;
        blank = after(blank);
    }
}

// How many bytes from a place on hold what they held before. (By `skip`, `filter` and `count` it takes longer still.)
fn kept(lent: &[u8], from: usize) -> usize
    requires { from ≤ length lent.now }
{
    let mut n = 0;
    let mut blank = blank_at(from);
    for byte in &lent[from..] {
        n += usize::from(*byte == blank);
        blank = after(blank);
    }
    n
}
