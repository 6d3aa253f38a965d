// The text of a tag 99 term: how much of it is left without its trailing zero bytes, and whether that is a number text.
// The contracts cite definitions that compute; proofs/Trims.antt and proofs/Meaning.antt show what they mean, `Trimmed` and `Literal`.
// It rests on nothing; whether the text is UTF-8, and what number it says, is for others.
// Changed from `parse_old_float_borrowed` of decoder.rs (michaelklishin/edp-rs, fc07dcb95d).
// Copyright (C) 2025-2026 Michael S. Klishin and Contributors, Apache-2.0, see NOTICE.

#![tactic(auto)]

ghost use Rattle.std.specs.Prelude.{◌≡◌};
ghost use Rattle.literal.specs.Inner.Trim.{trimmed};
ghost use Rattle.literal.specs.Inner.Parse.{after_sign, after_digits, is_ending, is_number, is_literal};

// How many bytes are left of s without its trailing zero bytes.
pub fn trim(s: &[u8]) -> usize
    ensures { result ≡ trimmed s.now }
{
    match s.iter().rposition(|b| *b != 0) {
        Some(last) => last + 1,
        None => 0,
    }
}

// Whether s is a number text.
pub fn literal(s: &[u8]) -> bool
    ensures { result ≡ is_literal s.now }
{
    let t = after_sign(s);
    t.eq_ignore_ascii_case(b"inf")
        || t.eq_ignore_ascii_case(b"infinity")
        || t.eq_ignore_ascii_case(b"nan")
        || number(t)
}

// Whether s is a number with no sign: digits with at most one point and at least one digit, then an exponent or nothing.
fn number(s: &[u8]) -> bool
    ensures { result ≡ is_number s.now }
{
    let t = after_digits(s);
    match t {
        [b'.', rest @ ..] => {
            let u = after_digits(rest);
            u.len() + 1 < s.len() && ending(u)
        }
        _ => t.len() < s.len() && ending(t),
    }
}

// Whether s is an exponent, or empty.
fn ending(s: &[u8]) -> bool
    ensures { result ≡ is_ending s.now }
{
    match s {
        [] => true,
        [b'e' | b'E', rest @ ..] => {
            let t = after_sign(rest);
            after_digits(t).is_empty() && !t.is_empty()
        }
        _ => false,
    }
}

// What stands after the sign of s, if it has one.
fn after_sign(s: &[u8]) -> &[u8]
    ensures { result.now ≡ after_sign s.now }
{
    match s {
        [b'+' | b'-', rest @ ..] => rest,
        _ => s,
    }
}

// What stands after the digits that s begins with.
fn after_digits(s: &[u8]) -> &[u8]
    ensures { result.now ≡ after_digits s.now }
{
    match s.iter().position(|b| !b.is_ascii_digit()) {
        Some(n) => &s[n..],
        None => &[],
    }
}
