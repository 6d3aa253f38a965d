// showterm: what the reader says of the record on standard input, exactly as document 01 prints it.
//
// At most 65,536 bytes are read, with a nesting limit of 64 and room for 3,276 cells. Longer input is answered as number 10. Input that
// can't be read to its end has no answer: that is said on standard error, as is an output that fails. ./showterm ends with a status then.

#![tactic(auto)]

ghost use Rattle.std.specs.Prelude.{◌≡◌, ◌≤◌, ◌*◌, length};
ghost use Rattle.reading.specs.Told.{told_of};
ghost use Rattle.tape.specs.Cells.{cell_words};

use numbers::Refusal;
use paths::Path;
use print::Out;
use reading::{Answer, Refused};
use std::fmt;
use std::fmt::Write;
use std::process::ExitCode;
use tape::CELL;

// The most bytes of a record.
const RECORD: usize = 65536;

// The most cells of its tape.
const CELLS: usize = 3276;

fn main(rt: HostRuntime) -> ExitCode {
    let mut input = [0u8; RECORD + 1];
    let mut tape = [0u32; CELL * CELLS];
    let mut room = [0u8; 65536];
    let mut out = Out::new(&mut room, rt.stdout(), rt.stderr());
    match input::fill(rt.stdin(), &mut input) {
        // an output that fails says so itself
        Ok(n) => {
            let _ = record(&input[..n], &mut tape, &mut out);
        }
        Err(_) => out.unread(),
    }
    out.status()
}

// What is answered. Of a Done read every cell lies on the tape.
fn read(b: &[u8], tape: &mut [u32]) -> Answer
    ensures { (told_of result).number ≡ 0 → cell_words * result.begun ≤ length tape.new }
{
    if RECORD < b.len() {
        return Answer::refused(Refusal::Long, 0, 0, 0);
    }
    tape::read(b, numbers::NESTING, tape)
}

fn record(b: &[u8], tape: &mut [u32], out: &mut Out<'_>) -> fmt::Result {
    let a = read(b, tape);
    let number = match &a.outcome {
        Ok(_) => numbers::DONE,
        Err(refused) => refused.why.number(),
    };
    writeln!(out, "answer={number}")?;
    writeln!(out, "terms={}", a.begun)?;
    writeln!(out, "deepest={}", a.deepest)?;
    match &a.outcome {
        Ok(_) => cells(a.begun, tape, out),
        Err(refused) => place(refused, out),
    }
}

// An accepted record's cells, a line for each of all that were begun.
fn cells(begun: usize, tape: &[u32], out: &mut Out<'_>) -> fmt::Result
    requires { cell_words * begun ≤ length tape.now }
{
    writeln!(out, "cells={begun}")?;
    let (cells, _) = tape.as_chunks::<CELL>();
    for (i, [kind, start, end, parent, size]) in cells[..begun].iter().enumerate() {
        writeln!(
            out,
            "cell={i} kind={kind} start={start} end={end} parent={parent} size={size}",
        )?;
    }
    out.flush()
}

// A refusal's place, its extra and its path.
fn place(refused: &Refused, out: &mut Out<'_>) -> fmt::Result {
    writeln!(out, "offset={}", refused.offset)?;
    writeln!(out, "extra={}", refused.why.extra())?;
    writeln!(out, "path={}", Path(refused.path.as_slice()))?;
    out.refused()
}
