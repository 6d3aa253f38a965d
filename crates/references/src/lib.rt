// What an atom header's bytes say, and nothing of where names are kept: how it begins, and its references one by one.
//
// Whoever reads a header over a cache, of whatever form, asks these functions. What a whole header says is defined in specs/Header.antt.
//
// Changed from parse_dist_header_with_cache in decoder.rs (michaelklishin/edp-rs, fc07dcb95d),
// Copyright (C) 2025-2026 Michael S. Klishin and Contributors, Apache-2.0: see NOTICE.

#![tactic(auto)]

ghost use Rattle.std.specs.Prelude.{◌≡◌, cond};
ghost use Rattle.references.specs.Header as said;

use numbers::Refusal;

// How a header begins: how many references it has, whether a length has two bytes, and where the first reference stands.
#[derive(Clone, Copy, PartialEq, Eq)]
pub struct Opening {
    pub count: usize,
    pub long: bool,
    pub first: usize,
}

// A reference of a header to a name: an old one's slot; a new one's slot, and its name's place in the header and its length.
#[derive(Clone, Copy, PartialEq, Eq)]
pub enum Reference {
    Old(u8),
    New(u8, usize, usize),
}

// Where the flags begin: behind 131, 68 and the count of references. Half byte i of them lies in byte i div 2.
pub const FLAGS: usize = 3;

// Reads what stands before a header's references: 131, 68, their count, and the flags. Refused: Long, then Eof, Tag, Kind with that byte.
pub fn start(b: &[u8]) -> Result<Opening, Refusal>
    ensures { result ≡ said.start_of b.now }
{
    if numbers::INPUT < b.len() {
        return Err(Refusal::Long);
    }
    let version = fields::be_u8(b, 0).ok_or(Refusal::Eof)?;
    if version != 131 {
        return Err(Refusal::Tag);
    }
    let kind = fields::be_u8(b, 1).ok_or(Refusal::Eof)?;
    if kind != 68 {
        return Err(Refusal::Kind(kind));
    }
    let count = fields::be_u8(b, 2).ok_or(Refusal::Eof)?;
    flagged(b, usize::from(count))
}

// References with flags before them where there are any. A length has two bytes where the half byte after the last reference has the bit
// worth 1: the last flag byte's low half for an even count, its high half for an odd one.
fn flagged(b: &[u8], count: usize) -> Result<Opening, Refusal>
    ensures { result ≡ said.flagged b.now count }
{
    if count == 0 {
        return Ok(Opening {
            count,
            long: false,
            first: FLAGS,
        });
    }
    let flags = count / 2 + 1;
    if !fields::has(b, FLAGS, flags) {
        return Err(Refusal::Eof);
    }
    Ok(Opening {
        count,
        long: half(b[FLAGS + count / 2], count) % 2 == 1,
        first: FLAGS + flags,
    })
}

// Whether reference i is new, by the flag byte that has its half byte: the bit worth 8.
pub fn is_new(flag: u8, i: usize) -> bool
    ensures { result ≡ said.new_in flag i }
{
    half(flag, i) / 8 % 2 == 1
}

// Whether the first n references, old ones too, all have segment number 0: the three low bits of each half byte. The half byte after the last
// is not looked at, and a flag byte that isn't there counts as 0.
pub fn one_segment(b: &[u8], n: usize) -> bool
    ensures { result ≡ said.one_segment b.now n }
{
    for i in 0..n {
        let Some(flag) = fields::be_u8(b, FLAGS + i / 2) else {
            return true;
        };
        if half(flag, i) % 8 != 0 {
            return false;
        }
    }
    true
}

// Half byte i of the flags, within its byte: the low half first.
fn half(flag: u8, i: usize) -> u8
    ensures { result ≡ said.half_of flag i }
{
    if i % 2 == 0 { flag % 16 } else { flag / 16 }
}

// The reference at p: its slot, and behind that, where it is new, its name. A length has two bytes where `long`, else one. Refused: Eof, Text.
pub fn reference_at(b: &[u8], new: bool, long: bool, p: usize) -> Result<Reference, Refusal>
    ensures { result ≡ said.reference_at b.now new (cond long 2 1) p }
{
    let slot = fields::be_u8(b, p).ok_or(Refusal::Eof)?;
    if new {
        new_at(b, slot, long, p + 1)
    } else {
        Ok(Reference::Old(slot))
    }
}

// A name behind its length.
fn new_at(b: &[u8], slot: u8, long: bool, p: usize) -> Result<Reference, Refusal>
    ensures { result ≡ said.new_at b.now (cond long 2 1) slot p }
{
    if long {
        let n = fields::be_u16(b, p).ok_or(Refusal::Eof)?;
        named(b, slot, usize::from(n), p + 2)
    } else {
        let n = fields::be_u8(b, p).ok_or(Refusal::Eof)?;
        named(b, slot, usize::from(n), p + 1)
    }
}

// Most names are ASCII, for which there is a short way.
fn named(b: &[u8], slot: u8, n: usize, p: usize) -> Result<Reference, Refusal>
    ensures { result ≡ said.named b.now slot n p }
{
    if !utf8::ascii(b, p, n) {
        rows::name(b, n, p)?;
    }
    Ok(Reference::New(slot, p, n))
}
