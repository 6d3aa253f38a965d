// A message, a header and one term, read over the names and with its tape, as text (docs/REQUESTS.md). What lives from line to line is in naming,
// how an answer with its tape is told in taping. It takes any store and runs; what is printed is held against stored output by the programs'
// tests.

#![tactic(auto)]

use naming::Names;
use print::Out;
use std::fmt;

// The answer to `message`, with the first words of a run for the tape, as many as are asked for and no more than there are.
pub fn message(
    b: &[u8],
    limit: usize,
    words: usize,
    names: &mut Names<'_>,
    run: &mut [u32],
    out: &mut Out<'_>,
) -> fmt::Result {
    let read = |run: &mut [u32]| {
        let m = message::read(b, limit, names.cache, names.store, names.noted, run);
        names.cache = m.cache;
        m.answer
    };
    taping::shown_with(words, run, read, out)
}
