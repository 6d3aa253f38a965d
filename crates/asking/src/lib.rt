// What a request line asks (docs/REQUESTS.md): its first word, its numbers, and the bytes that its last word spells. What is answered is left
// to others, but for the word that answers a line that asks nothing.

#![tactic(auto)]

mod words;

ghost use Rattle.std.specs.Prelude.{IfOk, ◌≤◌, ◌*◌, length};
ghost use Rattle.asking.specs.Inner.Spelt.{spelt};

use std::fmt;

// The most letters that a request of 65,536 bytes has: `number`, two numbers of twenty digits, a key of as many letters, four spaces, and
// two letters for a byte. A row that is to be written has what its texts leave of them.
pub const LONGEST: usize = 131142;

// A request, with what its line says. Bytes are those that a word spells.
#[derive(Clone, Copy)]
pub enum Request<'a> {
    Term(&'a [u8]),
    Utf8(&'a [u8]),
    Literal(&'a [u8]),
    Header(&'a [u8]),
    First(&'a [u8]),
    Next(&'a [u8]),
    Read {
        limit: usize,
        at: usize,
        bytes: &'a [u8],
    },
    Head {
        at: usize,
        bytes: &'a [u8],
    },
    Tape {
        limit: usize,
        words: usize,
        bytes: &'a [u8],
    },
    Message {
        limit: usize,
        words: usize,
        bytes: &'a [u8],
    },
    Name {
        limit: usize,
        at: usize,
        name: &'a [u8],
        bytes: &'a [u8],
    },
    Number {
        limit: usize,
        at: usize,
        key: i64,
        bytes: &'a [u8],
    },
    Write {
        room: usize,
        row: &'a [u64],
        texts: &'a [u8],
    },
    Get(u8),
    Position(u8),
    Atom {
        at: usize,
        bytes: &'a [u8],
    },
    Names,
    Count,
    Clear,
}

// Why a line asks nothing: it has no form of a request's, or a request would be longer than any may be.
#[derive(Clone, Copy, PartialEq, Eq)]
pub enum Nothing {
    Unknown,
    Long,
}

impl fmt::Display for Nothing {
    fn fmt<W: fmt::Write>(&self, f: &mut fmt::Formatter<W>) -> fmt::Result {
        f.write_str(match self {
            Nothing::Unknown => "unknown",
            Nothing::Long => "long",
        })
    }
}

// What a line asks. Its bytes are put where the word that spells them stands, half as many at most as the line has letters, and the
// numbers of a row into `row`.
pub fn of<'a>(line: &'a mut [u8], row: &'a mut [u64]) -> Result<Request<'a>, Nothing>
    ensures { IfOk result (λ r. 2 * length (spelt r) ≤ length line.old) }
{
    if LONGEST < line.len() {
        return Err(Nothing::Long);
    }
    match &*line {
        b"names" => return Ok(Request::Names),
        b"count" => return Ok(Request::Count),
        b"clear" => return Ok(Request::Clear),
        _ => {}
    }
    let (first, rest) = words::word(line)?;
    match first {
        b"term" => Ok(Request::Term(words::bytes(rest)?)),
        b"utf8" => Ok(Request::Utf8(words::bytes(rest)?)),
        b"literal" => Ok(Request::Literal(words::bytes(rest)?)),
        b"header" => Ok(Request::Header(words::bytes(rest)?)),
        b"first" => Ok(Request::First(words::bytes(rest)?)),
        b"next" => Ok(Request::Next(words::bytes(rest)?)),
        b"get" => Ok(Request::Get(words::small(rest)?)),
        b"position" => Ok(Request::Position(words::small(rest)?)),
        b"head" => {
            let (at, rest) = words::number(rest)?;
            let bytes = words::bytes(rest)?;
            Ok(Request::Head { at, bytes })
        }
        b"atom" => {
            let (at, rest) = words::number(rest)?;
            let bytes = words::bytes(rest)?;
            Ok(Request::Atom { at, bytes })
        }
        b"read" => {
            let (limit, rest) = words::number(rest)?;
            let (at, rest) = words::number(rest)?;
            let bytes = words::bytes(rest)?;
            Ok(Request::Read { limit, at, bytes })
        }
        b"tape" => {
            let (limit, rest) = words::number(rest)?;
            let (words, rest) = words::number(rest)?;
            let bytes = words::bytes(rest)?;
            Ok(Request::Tape {
                limit,
                words,
                bytes,
            })
        }
        b"message" => {
            let (limit, rest) = words::number(rest)?;
            let (words, rest) = words::number(rest)?;
            let bytes = words::bytes(rest)?;
            Ok(Request::Message {
                limit,
                words,
                bytes,
            })
        }
        b"name" => {
            let (limit, rest) = words::number(rest)?;
            let (at, rest) = words::number(rest)?;
            let (length, rest) = words::number(rest)?;
            let (name, bytes) = words::bytes(rest)?
                .split_at_checked(length)
                .ok_or(Nothing::Unknown)?;
            Ok(Request::Name {
                limit,
                at,
                name,
                bytes,
            })
        }
        b"number" => {
            let (limit, rest) = words::number(rest)?;
            let (at, rest) = words::number(rest)?;
            let (key, rest) = words::integer(rest)?;
            let bytes = words::bytes(rest)?;
            Ok(Request::Number {
                limit,
                at,
                key,
                bytes,
            })
        }
        b"write" => {
            let (room, rest) = words::number(rest)?;
            let (row, rest) = words::numbers(rest, row)?;
            let texts = words::bytes(rest)?;
            Ok(Request::Write { room, row, texts })
        }
        _ => Err(Nothing::Unknown),
    }
}
