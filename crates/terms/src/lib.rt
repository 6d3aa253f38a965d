// Terms: where the term at a place ends, or why it is refused and where; how many terms were begun and how deeply they are nested.
//
// It stands over bytes, text and rows and knows only their promises; what it has to answer is defined in `reading`. A reader (readers.rt)
// answers the end of what it read, or nothing: a refusal. What else reading leaves behind is lent to it: `Seen` says how far reading came, and
// `Fault` why it stopped, with the path as it is noted on the way up.
//
// Changed from decode_borrowed and its readers in decoder.rs (michaelklishin/edp-rs, fc07dcb95d),
// Copyright (C) 2025-2026 Michael S. Klishin and Contributors, Apache-2.0: see NOTICE.

#![tactic(auto)]

mod path;
mod readers;
mod steps;

ghost use Rattle.std.specs.Prelude.{◌≡◌};
ghost use Rattle.reading.specs.Told.{told_of};
ghost use Rattle.reading.specs.Answer.{read_by};
ghost use Rattle.reading.specs.Asked.{allowed_of, limit_of};

use numbers::Refusal;
use reading::{Answer, Asked, Done, Kind, Refused};

// What children are of: the loop over them tells by it which segment a child has.
#[derive(Clone, Copy)]
enum Family {
    Tuple,
    List,
    Map,
    Function,
}

// What a row requires of a child: an atom, an integer from 0 to 255, one of 0 or more, a pid.
#[derive(Clone, Copy)]
enum Needed {
    Atom,
    Arity,
    Natural,
    Pid,
}

// What is read, and how it is asked.
#[derive(Clone, Copy)]
struct Reader<'a> {
    b: &'a [u8],
    asked: Asked,
}

// How far reading came: the start of the last term reached, the terms begun and the deepest nesting begun.
#[derive(Clone, Copy)]
struct Seen {
    last: usize,
    begun: usize,
    deepest: usize,
}

// A segment as it is noted, in half the room of a `Segment`: the path is blank before each read, and with whole segments three terms took a
// fifth longer.
#[derive(Clone, Copy)]
struct Noted {
    kind: Kind,
    number: u32,
}

// Why it was refused, and the first `len` segments of the path, innermost first.
#[derive(Drop)]
struct Fault {
    why: Refusal,
    len: usize,
    path: [Noted; numbers::NESTING],
}

// What reading leaves behind; of the fault nothing is told where it goes on.
#[derive(Drop)]
struct Left {
    seen: Seen,
    fault: Fault,
}

// Reads the term at a place of b, any place, as it is asked (reading/specs/Asked.antt): which atoms may be told by positions, and how deep
// it may be nested. Refused before reading: a limit of 0 or over 64 (Limit), more than 16,777,216 bytes (Long).
pub fn read(b: &[u8], at: usize, asked: Asked) -> Answer
    ensures { told_of result ≡ read_by (allowed_of asked) b.now at (limit_of asked) }
{
    if let Err(why) = reading::starts(asked.limit, b.len()) {
        return Answer::refused(why, 0, 0, 0);
    }
    if b.len() < at {
        return Answer::refused(Refusal::Eof, at, 0, 0);
    }
    let mut left = Left {
        seen: Seen {
            last: 0,
            begun: 0,
            deepest: 0,
        },
        fault: Fault {
            why: Refusal::Eof,
            len: 0,
            path: [Noted {
                kind: Kind::Tuple,
                number: 0,
            }; numbers::NESTING],
        },
    };
    let reader = Reader { b, asked };
    let found = reader.term(asked.limit, at, &mut left);
    let outcome = match found {
        Some(end) => Ok(Done { end, value: 0 }),
        None => Err(Refused {
            why: left.fault.why,
            offset: left.seen.last,
            path: left.fault.outwards(),
        }),
    };
    Answer {
        outcome,
        begun: left.seen.begun,
        deepest: left.seen.deepest,
    }
}
