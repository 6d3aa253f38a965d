// Reading, as a definition: what a reader of the term at a place has to answer (specs/), and laws of that. No reader is here; each is
// proved against this one. In code it has the answer that they all give, what puts one together before reading and behind it, and the tests
// of a child that a row requires.
//
// Changed from ParsingContext and the errors of decoder.rs (michaelklishin/edp-rs, fc07dcb95d),
// Copyright (C) 2025-2026 Michael S. Klishin and Contributors, Apache-2.0: see NOTICE.

#![tactic(auto)]

ghost use Rattle.std.specs.Prelude.{◌≡◌, [], take};
ghost use Rattle.numbers.specs.Refusal.{number_of, extra_of};
ghost use Rattle.reading.specs.Terms as terms;
ghost use Rattle.reading.specs.Answer as def;
ghost use Rattle.reading.specs.Told.{told_of, told_by, padded};

use numbers::Refusal;

// What a segment of a path is of.
#[derive(Clone, Copy)]
pub enum Kind {
    Tuple = 0,
    List = 1,
    Tail = 2,
    Key = 3,
    Value = 4,
    Free = 5,
}

// The number of a segment's kind.
impl From<Kind> for u64 {
    ghost from_gives = { λ kind n. n ≡ def.kind_number kind };

    fn from(kind: Kind) -> u64 {
        kind as u64
    }
}

// "A segment holds its kind and one number: the index, the key's offset for a map value, else 0."
#[derive(Clone, Copy)]
pub struct Segment {
    pub kind: Kind,
    pub number: u64,
}

// What reading answers: where the term ends, or why it is refused, and the terms begun and the deepest nesting begun.
#[derive(Clone, Copy)]
pub struct Answer {
    pub outcome: Result<Done, Refused>,
    pub begun: usize,
    pub deepest: usize,
}

// Where the term ends; of a lookup also where the value begins, else 0.
#[derive(Clone, Copy)]
pub struct Done {
    pub end: usize,
    pub value: usize,
}

// Why and where it is refused, and the path that leads there.
#[derive(Clone, Copy)]
pub struct Refused {
    pub why: Refusal,
    pub offset: usize,
    pub path: Path,
}

// The segments of a refusal's path, outermost first; those behind them are blank.
#[derive(Clone, Copy)]
pub struct Path {
    pub len: usize,
    pub segments: [Segment; numbers::NESTING],
}

impl Path {
    // A path with no segment.
    pub fn empty() -> Path
        ensures { result ≡ record { len = 0; segments = padded [] } }
    {
        let blank = Segment {
            kind: Kind::Tuple,
            number: 0,
        };
        Path {
            len: 0,
            segments: [blank; numbers::NESTING],
        }
    }

    // The segments alone.
    pub fn as_slice(&self) -> &[Segment]
        ensures { result.now ≡ take self.now.len self.now.segments }
    {
        &self.segments[..self.len.min(numbers::NESTING)]
    }
}

impl Answer {
    // A refusal with an empty path: before reading, or behind a term that was read. One before reading has no offset or counts.
    pub fn refused(why: Refusal, offset: usize, begun: usize, deepest: usize) -> Answer
        ensures { told_of result ≡ def.refusal (number_of why) offset (extra_of why) begun deepest [] }
    {
        Answer {
            outcome: Err(Refused {
                why,
                offset,
                path: Path::empty(),
            }),
            begun,
            deepest,
        }
    }
}

// An answer number by number, as document 01 tells it.
#[derive(Clone, Copy)]
pub struct Numbers {
    pub number: u64,
    pub end: usize,
    pub offset: usize,
    pub extra: u64,
    pub begun: usize,
    pub deepest: usize,
    pub path: Path,
}

// A refusal told so, with an empty path: of any cause, with any extra. `Answer::refused` has the one that its cause tells.
pub fn refusal(cause: Refusal, offset: usize, extra: u64, begun: usize, deepest: usize) -> Numbers
    ensures { told_by result ≡ def.refusal (number_of cause) offset extra begun deepest [] }
{
    Numbers {
        number: cause.number(),
        end: 0,
        offset,
        extra,
        begun,
        deepest,
        path: Path::empty(),
    }
}

// Whether the term at a place, which was read whole, is an atom; and whether it is an integer from 0 to `most`.
pub fn is_atom(b: &[u8], at: usize) -> bool
    ensures { result ≡ terms.is_atom b.now at }
{
    matches!(fields::u8_at(b, at), 100 | 118 | 119 | 82)
}

pub fn is_natural(b: &[u8], most: u64, at: usize) -> bool
    ensures { result ≡ terms.is_natural most b.now at }
{
    match fields::u8_at(b, at) {
        97 => u64::from(fields::u8_at(b, at + 1)) <= most,
        98 => u64::from(fields::u32_at(b, at + 1)) <= most,
        _ => false,
    }
}

// Whether reading may begin: the limit is 1 to 64 and the input no longer than 16,777,216 bytes.
pub fn starts(limit: usize, len: usize) -> Result<(), Refusal>
    ensures { result ≡ def.starts limit len }
{
    if limit == 0 || numbers::NESTING < limit {
        return Err(Refusal::Limit);
    }
    if numbers::INPUT < len {
        return Err(Refusal::Long);
    }
    Ok(())
}

// What is asked of a reader: the bytes that are known behind tag 82, by the bits of four words, whether 82 is a tag, and the nesting limit.
// Tag 99 is read by all.
#[derive(Clone, Copy)]
pub struct Asked {
    pub known: [usize; 4],
    pub names: bool,
    pub limit: usize,
}

impl Asked {
    ghost use Rattle.reading.specs.Asked.{plainly};

    // Plain reading, so deep.
    pub fn plainly(limit: usize) -> Asked
        ensures { result ≡ plainly limit }
    {
        Asked {
            known: [0; 4],
            names: false,
            limit,
        }
    }
}
