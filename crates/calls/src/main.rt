// calls: makes our calls from request lines on standard input, and writes one answer line for each (docs/REQUESTS.md).
//
// The oracle answers the same lines from the Rust, so that a comparison is two runs and a diff. Whole lines are taken from what is read,
// each is answered, and what is left of the last one is kept until more is read. Every line has one answer, the last one also where it
// has no end of line. What a line asks is in asking, what is answered in naming, telling, taping, messaging and writing.

#![tactic(auto)]

use asking::Request;
use lines::Lines;
use naming::Names;
use print::Out;
use std::fmt;
use std::fmt::Write;
use std::process::ExitCode;

fn main(rt: HostRuntime) -> ExitCode {
    let mut text = [0u8; 262144];
    let mut store = [0u8; 65536];
    // the positions of the last message's header, which has no references first
    let mut noted = [0u8; 256];
    let mut run = space();
    // a row's numbers, of which a line has hardly room for more, and the bytes that are lent to the writer
    let mut row = [0u64; 65536];
    let mut lent = [0u8; 262144];
    let mut room = [0u8; 65536];
    let mut out = Out::new(&mut room, rt.stdout(), rt.stderr());
    let mut lines = Lines::new(rt.stdin(), &mut text);
    let mut memory = Memory {
        names: Names::new(&mut store, &mut noted),
        run: &mut run,
        row: &mut row,
        lent: &mut lent,
    };
    let _ = serve(&mut lines, &mut memory, &mut out);
    out.status()
}

// The words of a tape: five for each term that a request of 65,536 bytes can have.
fn space() -> [u32; 327680] {
    [0; 327680]
}

// Answers all of standard input, or as much as the output takes. A proved loop has to end, and nothing says that the input does: no run uses
// up so many turns.
fn serve(lines: &mut Lines<'_>, memory: &mut Memory<'_>, out: &mut Out<'_>) -> fmt::Result {
    for _ in 0..u64::MAX {
        match lines.next_with(|line| memory.answer(line, out)) {
            Some(answered) => answered?,
            None if lines.more(out)? => {}
            None => break,
        }
    }
    Ok(())
}

// What the answers are made over: the names, which live from line to line, a run for tapes, one for a row's numbers, and bytes for the writer.
#[derive(Drop)]
struct Memory<'a> {
    names: Names<'a>,
    run: &'a mut [u32],
    row: &'a mut [u64],
    lent: &'a mut [u8],
}

impl<'a> Memory<'a> {
    // The answer to a line, as a line.
    fn answer(&mut self, line: &mut [u8], out: &mut Out<'_>) -> fmt::Result {
        match asking::of(line, self.row) {
            Ok(request) => answer(request, &mut self.names, self.run, self.lent, out)?,
            Err(nothing) => write!(out, "{nothing}")?,
        }
        writeln!(out)
    }
}

fn answer(
    request: Request<'_>,
    names: &mut Names<'_>,
    run: &mut [u32],
    lent: &mut [u8],
    out: &mut Out<'_>,
) -> fmt::Result {
    match request {
        Request::Term(b) => taping::term(b, run, out),
        Request::Tape {
            limit,
            words,
            bytes,
        } => taping::tape(bytes, limit, words, run, out),
        Request::Message {
            limit,
            words,
            bytes,
        } => messaging::message(bytes, limit, words, names, run, out),
        Request::Write { room, row, texts } => writing::write(row, texts, room, lent, out),
        Request::Header(b) => names.header(b, out),
        Request::Get(slot) => names.get(slot, out),
        Request::Position(k) => names.position(k, out),
        Request::Atom { at, bytes } => names.atom(bytes, at, out),
        Request::Names => names.all(out),
        Request::Count => names.count(out),
        Request::Clear => names.clear(out),
        Request::Utf8(b) => telling::utf8(b, out),
        Request::Literal(b) => telling::literal(b, out),
        Request::First(b) => telling::first(b, out),
        Request::Next(b) => telling::next(b, out),
        Request::Head { at, bytes } => telling::head(bytes, at, out),
        Request::Read { limit, at, bytes } => telling::read(bytes, limit, at, out),
        Request::Name {
            limit,
            at,
            name,
            bytes,
        } => telling::name(bytes, limit, at, name, out),
        Request::Number {
            limit,
            at,
            key,
            bytes,
        } => telling::number(bytes, limit, at, key, out),
    }
}
