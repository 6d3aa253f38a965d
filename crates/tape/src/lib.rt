// The tape: a record read whole, with a cell for each of its terms.
//
// It stands over terms, which reads the record and judges it, and over layouts, which says where the children of a good term lie. So the
// tape is written in a second pass, when it is known that the record is good and that there is room for it: nothing is judged twice, and
// a refused read has written nothing.

#![tactic(auto)]

ghost use Rattle.std.specs.Prelude.{◌≡◌, ◌+◌, ◌*◌, ◌≤◌, length};
ghost use Rattle.numbers.specs.Caps as cap;
ghost use Rattle.tape.specs.Cells.{cell_words};
ghost use Rattle.reading.specs.Told.{told_of};
ghost use Rattle.reading.specs.Asked.{allowed_of, limit_of};
ghost use Rattle.tape.specs.Read.{opens, record_before, Promised, Recorded};
ghost use Rattle.tape.specs.Inner.Fill.{words_in, closed, lay, Small, Good, Filled};
ghost use Rattle.tape.specs.Inner.End.{before_by, ended_by, Came, Leaves};

use numbers::Refusal;
use reading::{Answer, Asked};

// "five to a cell": the words of one.
pub const CELL: usize = 5;

// Reads a record, byte 131 and one term to the input's end, nested at most `limit` deep, and writes its tape, five words to a term: tag,
// start, end, the parent's cell, the cells in its subtree. Refused: Limit, Long, then as reading refuses, then Trailing, then Room with the
// cells needed. Only a Done read writes; words behind the last cell stay.
pub fn read(b: &[u8], limit: usize, tape: &mut [u32]) -> Answer
    ensures { Recorded b.now limit (told_of result) tape.old tape.new }
{
    if let Err(why) = version(b, limit) {
        return Answer::refused(why, 0, 0, 0);
    }
    let a = terms::read(b, 1, Asked::plainly(limit));
    let Ok(done) = a.outcome else {
        return a;
    };
    match ends(b, 1, done.end, a.begun, tape) {
        Ok(()) => a,
        Err((why, offset)) => Answer::refused(why, offset, a.begun, a.deepest),
    }
}

// What stands before a record's term: byte 131, where the limit and the input's length are well.
fn version(b: &[u8], limit: usize) -> Result<(), Refusal>
    ensures { before_by result ≡ record_before b.now limit }
{
    reading::starts(limit, b.len())?;
    if b.is_empty() {
        return Err(Refusal::Eof);
    }
    if b[0] != 131 {
        return Err(Refusal::Tag);
    }
    Ok(())
}

// Reads one term from `start` on to the input's end, as it is asked (reading/specs/Asked.antt), and writes its tape; what stands before the term
// was read by the caller. Refused: Limit, Long, then as reading refuses, Trailing, Room. `read` has the same lines again: if the two were one
// function, a record's answer, which is large, would be copied once more.
pub fn behind(b: &[u8], start: usize, asked: Asked, tape: &mut [u32]) -> Answer
    ensures { Promised (opens start (allowed_of asked)) b.now (limit_of asked) (told_of result) tape.old tape.new }
{
    let a = terms::read(b, start, asked);
    let Ok(done) = a.outcome else {
        return a;
    };
    match ends(b, start, done.end, a.begun, tape) {
        Ok(()) => a,
        Err((why, offset)) => Answer::refused(why, offset, a.begun, a.deepest),
    }
}

// The end of a term that was read from `start` to `end`, with so many terms begun: the input should end with it, and the tape have room for its
// cells, which are written then. Or it is refused: why, and where.
fn ends(
    b: &[u8],
    start: usize,
    end: usize,
    begun: usize,
    tape: &mut [u32],
) -> Result<(), (Refusal, usize)>
    requires { Came b.now start end begun }
    ensures answer { result ≡ ended_by (length b.now) end begun (length tape.old) }
    ensures tape { Leaves result b.now start tape.old tape.new }
{
    if end < b.len() {
        return Err((Refusal::Trailing(b.len() - end), end));
    }
    if tape.len() < CELL * begun {
        return Err((Refusal::Room(begun), 0));
    }
    fill(b, start, tape);
    Ok(())
}

// The words of a cell. Of a term that isn't finished, the end and the size are what `fill` keeps there.
#[derive(Clone, Copy)]
struct Cell {
    tag: u8,
    start: usize,
    end: usize,
    parent: usize,
    size: usize,
}

// The tape of a term that is good, where there is room for it: the root's cell, then one term after the other. `cell` is the next cell to
// write, `up` the innermost term that isn't finished, and `left` how many of its children are still to come. Until a term is finished, the
// words of its end and its size hold what goes on behind it: the bytes behind its children, and how many children its parent then has left.
// So no stack is needed, and no iterator goes so: each term tells where the next one stands and whose child it is. The commonest terms have no children and are written at once, small integers first. The first test is known to fail:
// with it no term's shape has to ask for the input's length again.
fn fill(b: &[u8], start: usize, tape: &mut [u32])
    requires { Good b.now start (length tape.old) }
    ensures { Filled b.now start tape.old tape.new }
{
    if numbers::INPUT < b.len() {
        return;
    }
    let root = layouts::shape_at(b, start);
    put(
        tape,
        0,
        Cell {
            tag: b[start],
            start,
            end: root.back,
            parent: 0,
            size: 0,
        },
    );
    let mut at = root.from;
    let mut left = root.kids;
    let mut cell = 1;
    let mut up = 0;
    loop {
        if left == 0 {
            let i = up * CELL;
            let end = at + tape[i + 2] as usize;
            let outer = tape[i + 3] as usize;
            left = tape[i + 4] as usize;
            finish(tape, up, end, cell - up);
            if up == 0 {
                return;
            }
            at = end;
            up = outer;
            continue;
        }
        left -= 1;
        if b[at] == 97 {
            put(tape, cell, leaf(97, at, at + 2, up));
            at += 2;
            cell += 1;
            continue;
        }
        if let Some(end) = layouts::short_at(b, at) {
            put(tape, cell, leaf(b[at], at, end, up));
            at = end;
            cell += 1;
            continue;
        }
        let s = layouts::inner_at(b, at);
        put(
            tape,
            cell,
            Cell {
                tag: b[at],
                start: at,
                end: s.back,
                parent: up,
                size: left,
            },
        );
        at = s.from;
        left = s.kids;
        up = cell;
        cell += 1;
    }
}

// A term without children.
fn leaf(tag: u8, start: usize, end: usize, parent: usize) -> Cell
    ensures { result ≡ record { tag = tag; start = start; end = end; parent = parent; size = 1 } }
{
    Cell {
        tag,
        start,
        end,
        parent,
        size: 1,
    }
}

// Writes the i-th cell, its words in their order: so they take the least time. (Tried, and slower: to copy an array of the five.)
fn put(tape: &mut [u32], i: usize, c: Cell)
    requires room { i * cell_words + cell_words ≤ length tape.old }
    requires small { Small c }
    ensures written { tape.new ≡ lay tape.old i (words_in c) }
    ensures as_long { length tape.new ≡ length tape.old }
{
    let at = i * CELL;
    tape[at] = u32::from(c.tag);
    tape[at + 1] = c.start as u32;
    tape[at + 2] = c.end as u32;
    tape[at + 3] = c.parent as u32;
    tape[at + 4] = c.size as u32;
}

// What is known of a cell when its children are written: its end, and the cells in its subtree.
fn finish(tape: &mut [u32], i: usize, end: usize, size: usize)
    requires { (i * cell_words + cell_words ≤ length tape.old) × ((end ≤ cap.input) × (size ≤ cap.input)) }
    ensures written { tape.new ≡ closed tape.old i end size }
    ensures as_long { length tape.new ≡ length tape.old }
{
    let at = i * CELL;
    tape[at + 2] = end as u32;
    tape[at + 4] = size as u32;
}
