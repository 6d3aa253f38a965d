// A record read with its tape, as text (docs/REQUESTS.md): its value by its cells, or the cells themselves. It takes any run for the tape; what is
// printed is held against stored output by the programs' tests.

#![tactic(auto)]

ghost use Rattle.std.specs.Prelude.{◌≤◌, ◌*◌, length};
ghost use Rattle.tape.specs.Cells.{cell_words};

use asking::Nothing;
use items::Item;
use paths::Path;
use print::Out;
use reading::Answer;
use std::fmt;
use std::fmt::Write;
use tape::CELL;

// What each word of the run holds before it is read into. No cell has such a word.
const BLANK: u32 = 4294967295;

// Byte 131, one term, and nothing behind it, with the record's value: an item for each term, in the order of the cells. For that the run has to
// have room for all of them.
pub fn term(b: &[u8], run: &mut [u32], out: &mut Out<'_>) -> fmt::Result {
    let a = tape::read(b, numbers::NESTING, run);
    if let Err(refused) = &a.outcome {
        return write!(
            out,
            "answer={} offset={} extra={} path={}",
            refused.why.number(),
            refused.offset,
            refused.why.extra(),
            Path(refused.path.as_slice())
        );
    }
    write!(out, "answer=0 value=")?;
    for (i, cell) in cells(run, a.begun).iter().enumerate() {
        if i != 0 {
            write!(out, ",")?;
        }
        write!(out, "{}", Item(b, cell[1] as usize))?;
    }
    Ok(())
}

// The first words of a run as cells, as many as were begun. Were they not there, none would be shown, and the comparison would tell.
fn cells(run: &[u32], begun: usize) -> &[[u32; CELL]]
    ensures { cell_words * length result.now ≤ length run.now }
{
    let (cells, _) = run.as_chunks::<CELL>();
    cells.get(..begun).unwrap_or(&[])
}

// The same with the first words of the run, as many as are asked for and no more than there are: the answer, the cells, and how many of the
// words are as they were.
pub fn tape(
    b: &[u8],
    limit: usize,
    words: usize,
    run: &mut [u32],
    out: &mut Out<'_>,
) -> fmt::Result {
    shown_with(words, run, |run| tape::read(b, limit, run), out)
}

// The answer of what reads into the first words of a run, which are blank before; behind it the cells of a Done read, and how many of the words are
// as they were.
pub fn shown_with<F>(words: usize, run: &mut [u32], read: F, out: &mut Out<'_>) -> fmt::Result
where
    F: FnOnce(&mut [u32]) -> Answer,
    requires { F.IsAlwaysCallable read }
{
    let Some(run) = run.get_mut(..words) else {
        return write!(out, "{}", Nothing::Unknown);
    };
    run.fill(BLANK);
    let a = read(run);
    match &a.outcome {
        Ok(done) => {
            write!(
                out,
                "answer=0 offset={} extra=0 begun={} deepest={} path= cells=",
                done.value, a.begun, a.deepest
            )?;
            for (i, cell) in cells(run, a.begun).iter().enumerate() {
                if i != 0 {
                    write!(out, ";")?;
                }
                let [tag, start, end, parent, size] = *cell;
                write!(out, "{tag},{start},{end},{parent},{size}")?;
            }
        }
        Err(refused) => write!(
            out,
            "answer={} offset={} extra={} begun={} deepest={} path={} cells=",
            refused.why.number(),
            refused.offset,
            refused.why.extra(),
            a.begun,
            a.deepest,
            Path(refused.path.as_slice())
        )?,
    }
    write!(out, " kept={}", kept(run))
}

// How many words are as they were. (By `filter` and `count` it takes three times as long.)
fn kept(run: &[u32]) -> usize {
    let mut n = 0;
    for word in run {
        n += usize::from(*word == BLANK);
    }
    n
}
