// Lookup: where the value of a key stands in a map.
//
// It stands over terms, which reads the map whole and judges it, and over layouts, which says where the parts of a good term lie. So the
// walk over the entries judges nothing: it passes each term once, and compares each key.

#![tactic(auto)]

ghost use Rattle.reading.specs.Told.{told_of};
ghost use Rattle.lookup.specs.Lookup.{Looked};
ghost use Rattle.lookup.specs.Lookup as key;
ghost use Rattle.lookup.specs.Inner.Walk.{key_of, OneTerm, SomeTerms, Ends, Judges, Finds};

use numbers::Refusal;
use reading::{Answer, Asked, Done};

// What is looked for: an atom's name, or an integer.
#[derive(Clone, Copy)]
enum Key<'a> {
    Name(&'a [u8]),
    Number(i64),
}

// Looks an atom up by its name in the map at a place of b, any place, nested at most `limit` deep.
// Answers what reading the map answers, with the offset of the last equal key's value.
// Refused: as reading refuses, then Kind with the tag of what isn't a map, then Absent, both at the map's offset.
pub fn find_name(b: &[u8], at: usize, limit: usize, name: &[u8]) -> Answer
    ensures { Looked b.now at limit (key.name name.now) (told_of result) }
{
    find(b, at, limit, Key::Name(name))
}

// Looks an integer up in the map at a place of b, any place, nested at most `limit` deep. Only keys of tags 97 and 98 are compared.
// Answers what reading the map answers, with the offset of the last equal key's value.
// Refused: as reading refuses, then Kind with the tag of what isn't a map, then Absent, both at the map's offset.
pub fn find_number(b: &[u8], at: usize, limit: usize, number: i64) -> Answer
    ensures { Looked b.now at limit (key.number number) (told_of result) }
{
    find(b, at, limit, Key::Number(number))
}

fn find(b: &[u8], at: usize, limit: usize, key: Key) -> Answer
    ensures { Looked b.now at limit (key_of key.entry) (told_of result) }
{
    let a = terms::read(b, at, Asked::plainly(limit));
    let Ok(map) = a.outcome else {
        return a;
    };
    let tag = b[at];
    if tag != 116 {
        return Answer::refused(Refusal::Kind(tag), at, a.begun, a.deepest);
    }
    let s = layouts::shape_at(b, at);
    let Some(value) = last(b, s.from, s.kids, key) else {
        return Answer::refused(Refusal::Absent, at, a.begun, a.deepest);
    };
    Answer {
        outcome: Ok(Done {
            end: map.end,
            value,
        }),
        begun: a.begun,
        deepest: a.deepest,
    }
}

// The value of the last equal key, among n keys and values from a place on.
fn last(b: &[u8], from: usize, n: usize, key: Key) -> Option<usize>
    requires { SomeTerms b.now from n }
    ensures { Finds b.now from n (key_of key.entry) result }
{
    let mut found = None;
    let mut at = from;
    for _ in 0..n / 2 {
        let value = end_of(b, at);
        if equal(b, at, value, key) {
            found = Some(value);
        }
        at = end_of(b, value);
    }
    found
}

// Whether the key from `at` to `end` is equal.
fn equal(b: &[u8], at: usize, end: usize, key: Key) -> bool
    requires { OneTerm b.now at × Ends b.now at end }
    ensures { Judges b.now at (key_of key.entry) result }
{
    let tag = b[at];
    match key {
        Key::Name(name) => match tag {
            119 => &b[at + 2..end] == name,
            100 | 118 => &b[at + 3..end] == name,
            _ => false,
        },
        Key::Number(z) => match tag {
            97 => i64::from(b[at + 1]) == z,
            98 => i64::from(fields::i32_at(b, at + 1)) == z,
            _ => false,
        },
    }
}

// The end of the term at `start`, which is known to be one: most keys and values have no children.
fn end_of(b: &[u8], start: usize) -> usize
    requires { OneTerm b.now start }
    ensures { Ends b.now start result }
{
    let s = layouts::shape_at(b, start);
    if s.kids == 0 {
        return s.from;
    }
    skip(b, start)
}

// The same of any term. `owed` terms from `at` on are still to be passed: a term's place among them is
// taken by its children. Bytes behind children stand only behind one atom, which is passed with them. No iterator goes so: the term that is passed tells
// where the next one stands and how many are owed.
fn skip(b: &[u8], start: usize) -> usize
    requires { OneTerm b.now start }
    ensures { Ends b.now start result }
{
    let mut at = start;
    let mut owed: usize = 1;
    while 0 < owed {
        let s = layouts::shape_at(b, at);
        if s.back != 0 {
            let atom = layouts::shape_at(b, s.from);
            at = atom.from + s.back;
            owed -= 1;
        } else {
            at = s.from;
            owed = owed - 1 + s.kids;
        }
    }
    at
}
