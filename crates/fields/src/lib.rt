// Numbers in the input: big-endian, of 1, 2, 4 and 8 bytes, and two's complement of 4.
//
// Each public function answers for every slice and every place in it or past it: the number, or None where its bytes are not all there, which
// the reader above refuses as it means to. Where they are known to be there, the readers named `_at` give the number alone. What a number means
// is the reader's matter.
//
// Changed from the uses of nom's be_u8, be_u16, be_u32, be_u64, be_i32 and take in decoder.rs (michaelklishin/edp-rs, fc07dcb95d),
// Copyright (C) 2025-2026 Michael S. Klishin and Contributors, Apache-2.0: see NOTICE.
#![tactic(auto)]

ghost use Rattle.std.specs.Prelude.{◌≡◌, take, drop, true, false, MatchOption};
ghost use Rattle.fields.specs.Be.{signed};
ghost use Rattle.fields.specs.Field.{holds, field_at, integer_at, number_at};

// Whether the n bytes from `at` on are all there.
pub fn has(b: &[u8], at: usize, n: usize) -> bool
    ensures { result ≡ holds n b.now at }
{
    at <= b.len() && n <= b.len() - at
}

// The N bytes from `at` on.
fn bytes<const N: usize>(b: &[u8], at: usize) -> Option<&[u8; N]>
    ensures { MatchOption result (holds N b.now at ≡ false) (λ s. (holds N b.now at ≡ true) × (s.now ≡ take N (drop at b.now))) }
{
    b.get(at..)?.first_chunk()
}

pub fn be_u8(b: &[u8], at: usize) -> Option<u8>
    ensures { result ≡ field_at 1 b.now at }
{
    b.get(at).copied()
}

pub fn be_u16(b: &[u8], at: usize) -> Option<u16>
    ensures { result ≡ field_at 2 b.now at }
{
    Some(u16::from_be_bytes(*bytes(b, at)?))
}

pub fn be_u32(b: &[u8], at: usize) -> Option<u32>
    ensures { result ≡ field_at 4 b.now at }
{
    Some(u32::from_be_bytes(*bytes(b, at)?))
}

pub fn be_u64(b: &[u8], at: usize) -> Option<u64>
    ensures { result ≡ field_at 8 b.now at }
{
    Some(u64::from_be_bytes(*bytes(b, at)?))
}

pub fn be_i32(b: &[u8], at: usize) -> Option<i32>
    ensures { result ≡ integer_at b.now at }
{
    Some(i32::from_be_bytes(*bytes(b, at)?))
}

// The number alone, 0 where its bytes are not all there.
pub fn u8_at(b: &[u8], at: usize) -> u8
    ensures { result ≡ number_at 1 b.now at }
{
    be_u8(b, at).unwrap_or(0)
}

pub fn u16_at(b: &[u8], at: usize) -> u16
    ensures { result ≡ number_at 2 b.now at }
{
    be_u16(b, at).unwrap_or(0)
}

pub fn u32_at(b: &[u8], at: usize) -> u32
    ensures { result ≡ number_at 4 b.now at }
{
    be_u32(b, at).unwrap_or(0)
}

pub fn u64_at(b: &[u8], at: usize) -> u64
    ensures { result ≡ number_at 8 b.now at }
{
    be_u64(b, at).unwrap_or(0)
}

pub fn i32_at(b: &[u8], at: usize) -> i32
    ensures { result ≡ signed (number_at 4 b.now at) }
{
    be_i32(b, at).unwrap_or(0)
}
