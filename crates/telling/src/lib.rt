// What our calls answer on bytes alone (docs/REQUESTS.md), as text: terms, heads, keys, fragments and text. What is printed is held against stored
// output by the programs' tests.

#![tactic(auto)]

use items::Head;
use numbers::Refusal;
use paths::Path;
use print::Out;
use reading::{Answer, Asked};
use std::fmt;
use std::fmt::Write;

// How many leading bytes form whole good characters.
pub fn utf8(b: &[u8], out: &mut Out<'_>) -> fmt::Result {
    write!(out, "good={}", utf8::good(b))
}

// 1 where a text without its trailing zero bytes is a number text, and 0.
pub fn literal(b: &[u8], out: &mut Out<'_>) -> fmt::Result {
    let n = literal::trim(b);
    write!(out, "literal={}", u8::from(literal::literal(&b[..n])))
}

// The header of a fragment that begins a message.
pub fn first(b: &[u8], out: &mut Out<'_>) -> fmt::Result {
    match fragments::first(b) {
        Ok(f) => write!(
            out,
            "answer=0 rest={} sequence={} fragment={} count={}",
            f.rest, f.sequence, f.fragment, f.count
        ),
        Err(why) => refused(why, out),
    }
}

// The header of one that goes on with a message.
pub fn next(b: &[u8], out: &mut Out<'_>) -> fmt::Result {
    match fragments::next(b) {
        Ok(f) => write!(
            out,
            "answer=0 rest={} sequence={} fragment={}",
            f.rest, f.sequence, f.fragment
        ),
        Err(why) => refused(why, out),
    }
}

fn refused(why: Refusal, out: &mut Out<'_>) -> fmt::Result {
    write!(out, "answer={} rest=0 extra={}", why.number(), why.extra())
}

// The head of the term at a place.
pub fn head(b: &[u8], at: usize, out: &mut Out<'_>) -> fmt::Result {
    write!(out, "{}", Head(b, at))
}

// The term at a place, with all that reading answers.
pub fn read(b: &[u8], limit: usize, at: usize, out: &mut Out<'_>) -> fmt::Result {
    told(&terms::read(b, at, Asked::plainly(limit)), out)
}

// The value of an integer in the map at a place.
pub fn number(b: &[u8], limit: usize, at: usize, key: i64, out: &mut Out<'_>) -> fmt::Result {
    told(&lookup::find_number(b, at, limit, key), out)
}

// The same of a name.
pub fn name(b: &[u8], limit: usize, at: usize, name: &[u8], out: &mut Out<'_>) -> fmt::Result {
    told(&lookup::find_name(b, at, limit, name), out)
}

// All of an answer.
fn told(a: &Answer, out: &mut Out<'_>) -> fmt::Result {
    match &a.outcome {
        Ok(done) => write!(
            out,
            "answer=0 end={} offset={} extra=0 begun={} deepest={} path=",
            done.end, done.value, a.begun, a.deepest
        ),
        Err(refused) => write!(
            out,
            "answer={} end=0 offset={} extra={} begun={} deepest={} path={}",
            refused.why.number(),
            refused.offset,
            refused.why.extra(),
            a.begun,
            a.deepest,
            Path(refused.path.as_slice())
        ),
    }
}
