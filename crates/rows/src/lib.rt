// The rows of the term layouts that have no children: where each ends, or why it is refused.
//
// Changed from the leaf readers of decoder.rs (parse_integer_borrowed to parse_large_big_borrowed; michaelklishin/edp-rs, fc07dcb95d),
// Copyright (C) 2025-2026 Michael S. Klishin and Contributors, Apache-2.0: see NOTICE.

#![tactic(auto)]

ghost use Rattle.std.specs.Prelude.{◌≡◌};
ghost use Rattle.numbers.specs.Caps as cap;
ghost use Rattle.rows.specs.Row as row;
ghost use Rattle.rows.specs.Layout as layout;

use numbers::Refusal;
use numbers::Refusal::{Bits, Eof, Literal, Size, Tag, Text};

// A row without children, by its tag, from the place behind the tag on: the place behind it. Any other tag is refused.
pub fn row_at(b: &[u8], tag: u8, at: usize) -> Result<usize, Refusal>
    ensures { result ≡ layout.row_at b.now tag at }
{
    match tag {
        97 => bytes(b, 1, at),
        98 => bytes(b, 4, at),
        99 => number_text(b, at),
        70 => bytes(b, 8, at),
        100 | 118 => name(b, fields::be_u16(b, at).ok_or(Eof)? as usize, at + 2),
        119 => name(b, fields::be_u8(b, at).ok_or(Eof)? as usize, at + 1),
        106 => Ok(at),
        107 => bytes(b, fields::be_u16(b, at).ok_or(Eof)? as usize, at + 2),
        109 => bytes(b, count(b, numbers::BINARY, at)? as usize, at + 4),
        77 => bits(b, count(b, numbers::BINARY, at)? as usize, at + 4),
        110 => digits(b, fields::be_u8(b, at).ok_or(Eof)? as usize, at + 1),
        111 => digits(b, fields::be_u32(b, at).ok_or(Eof)? as usize, at + 4),
        _ => Err(Tag),
    }
}

// A count of four bytes, which may be `most` at most.
pub fn count(b: &[u8], most: u64, at: usize) -> Result<u64, Refusal>
    ensures { result ≡ row.count_at most b.now at }
{
    let n = u64::from(fields::be_u32(b, at).ok_or(Eof)?);
    if n <= most { Ok(n) } else { Err(Size) }
}

// n bytes of text.
pub fn name(b: &[u8], n: usize, at: usize) -> Result<usize, Refusal>
    ensures { result ≡ row.name b.now n at }
{
    let end = bytes(b, n, at)?;
    if utf8::good(&b[at..end]) == n {
        Ok(end)
    } else {
        Err(Text)
    }
}

// n bytes, whatever they are.
fn bytes(b: &[u8], n: usize, at: usize) -> Result<usize, Refusal>
    ensures { result ≡ row.bytes b.now n at }
{
    if fields::has(b, at, n) {
        Ok(at + n)
    } else {
        Err(Eof)
    }
}

// Tag 99: 31 bytes, judged as text and then as a number text.
fn number_text(b: &[u8], at: usize) -> Result<usize, Refusal>
    ensures { result ≡ layout.number_text b.now at }
{
    let end = name(b, 31, at)?;
    let text = &b[at..end];
    let n = literal::trim(text);
    if literal::literal(&text[..n]) {
        Ok(end)
    } else {
        Err(Literal)
    }
}

// Tag 77, behind the length: the bits byte, and n bytes.
fn bits(b: &[u8], n: usize, at: usize) -> Result<usize, Refusal>
    ensures { result ≡ layout.bits_then b.now n at }
{
    let k = fields::be_u8(b, at).ok_or(Eof)?;
    if bits_byte(n, k) {
        bytes(b, n, at + 1)
    } else {
        Err(Bits)
    }
}

fn bits_byte(n: usize, k: u8) -> bool
    ensures { result ≡ cap.bits_byte n k }
{
    if n == 0 { k == 8 } else { matches!(k, 1..=8) }
}

// Tags 110 and 111, behind the length: the sign byte, and n digit bytes.
fn digits(b: &[u8], n: usize, at: usize) -> Result<usize, Refusal>
    ensures { result ≡ layout.digits b.now n at }
{
    let digits = bytes(b, 1, at)?;
    bytes(b, n, digits)
}
