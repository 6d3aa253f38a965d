// Fragments: the fixed bytes before each part of a message that comes in parts, the first part's and those of every later one.
//
// Only these bytes are read. The names that the count counts, and what follows, are the rest, which begins at the answered offset.
//
// Changed from decode_fragment_header and decode_fragment_cont in decoder.rs (michaelklishin/edp-rs, fc07dcb95d),
// Copyright (C) 2025-2026 Michael S. Klishin and Contributors, Apache-2.0: see NOTICE.

#![tactic(auto)]

ghost use Rattle.std.specs.Prelude.{◌≡◌};
ghost use Rattle.fragments.specs.Fragment as spec;

use numbers::Refusal;

// The tags of the first fragment and of a later one, which are the format's numbers.
const DIST_FRAG_HEADER: u8 = 69;

const DIST_FRAG_CONT: u8 = 70;

// What the first fragment answers: where the rest begins, the message's sequence number, the fragment's own number, and the count of names in
// its header.
#[derive(Clone, Copy, PartialEq, Eq)]
pub struct FirstFragment {
    pub rest: usize,
    pub sequence: u64,
    pub fragment: u64,
    pub count: u64,
}

// The same of a later fragment, which has no count.
#[derive(Clone, Copy, PartialEq, Eq)]
pub struct NextFragment {
    pub rest: usize,
    pub sequence: u64,
    pub fragment: u64,
}

// What both begin with: the two 8-byte numbers, sequence and fragment.
#[derive(Clone, Copy)]
struct Opening {
    sequence: u64,
    fragment: u64,
}

// Reads a first fragment: 131, 69, two 8-byte numbers, the count. Refused: more than 16,777,216 bytes (Long), then left to right a missing
// byte (Eof), a first byte other than 131 (Version, with that byte), a second other than 69 (Kind, with that byte).
pub fn first(b: &[u8]) -> Result<FirstFragment, Refusal>
    ensures { result ≡ spec.first_at b.now }
{
    let Opening { sequence, fragment } = opened(b, DIST_FRAG_HEADER)?;
    let count = fields::be_u8(b, 18).ok_or(Refusal::Eof)?;
    Ok(FirstFragment {
        rest: 19,
        sequence,
        fragment,
        count: u64::from(count),
    })
}

// Reads a later fragment: 131, 70, two 8-byte numbers. Refused as the first is, with 70 for 69.
pub fn next(b: &[u8]) -> Result<NextFragment, Refusal>
    ensures { result ≡ spec.next_at b.now }
{
    let Opening { sequence, fragment } = opened(b, DIST_FRAG_CONT)?;
    Ok(NextFragment {
        rest: 18,
        sequence,
        fragment,
    })
}

// What both begin with: 131, the tag, two 8-byte numbers.
fn opened(b: &[u8], tag: u8) -> Result<Opening, Refusal>
    ensures { result ≡ spec.opened tag b.now }
{
    if numbers::INPUT < b.len() {
        return Err(Refusal::Long);
    }
    let version = fields::be_u8(b, 0).ok_or(Refusal::Eof)?;
    if version != 131 {
        return Err(Refusal::Version(version));
    }
    let kind = fields::be_u8(b, 1).ok_or(Refusal::Eof)?;
    if kind != tag {
        return Err(Refusal::Kind(kind));
    }
    let sequence = fields::be_u64(b, 2).ok_or(Refusal::Eof)?;
    let fragment = fields::be_u64(b, 10).ok_or(Refusal::Eof)?;
    Ok(Opening { sequence, fragment })
}
