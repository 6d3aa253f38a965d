// What heads say, as text: an item for each term of a record's value, and a single head (docs/REQUESTS.md).

#![tactic(auto)]

use heads::{Run, Value};
use print::{Hex, Word};
use std::fmt;

// The item of the term at a place of an input. What its children are, their own items say.
#[derive(Clone, Copy)]
pub struct Item<'a>(pub &'a [u8], pub usize);

impl<'a> fmt::Display for Item<'a> {
    fn fmt<W: fmt::Write>(&self, f: &mut fmt::Formatter<W>) -> fmt::Result {
        let b = self.0;
        let value = match heads::head(b, self.1).value {
            Ok(value) => value,
            Err(refused) => return write!(f, "refused:{}", refused.why.number()),
        };
        match value {
            Value::Integer(z) => write!(f, "i:{z}"),
            Value::NumberText(text) => write!(f, "t:{}", part(b, text)),
            Value::Double(_, bits) => write!(f, "f:{bits:016x}"),
            Value::Atom(name) => write!(f, "a:{}", part(b, name)),
            Value::Tuple(arity) => write!(f, "tuple:{arity}"),
            Value::Nil => write!(f, "nil"),
            Value::String(bytes) => write!(f, "s:{}", part(b, bytes)),
            Value::List(n) => write!(f, "list:{n}"),
            Value::Binary(bytes) => write!(f, "b:{}", part(b, bytes)),
            Value::BitString { bytes, bits } => write!(f, "bits:{bits}:{}", part(b, bytes)),
            Value::Big {
                digits,
                negative,
                ..
            } => {
                let sign = if negative { '-' } else { '+' };
                write!(f, "n:{sign}:{}", part(b, digits))
            }
            Value::Map(arity) => write!(f, "map:{arity}"),
            Value::Pid {
                id,
                serial,
                creation,
                ..
            } => write!(f, "pid:{id}:{serial}:{creation}"),
            Value::Reference {
                count,
                creation,
                ids,
                ..
            } => write!(f, "ref:{creation}{}", Ids(from(b, ids), count)),
            Value::Port { id, creation, .. } => write!(f, "port:{id}:{creation}"),
            Value::Export => write!(f, "fun"),
            Value::Function {
                arity,
                unique,
                index,
                free,
                ..
            } => {
                let unique = part(
                    b,
                    Run {
                        at: unique,
                        len: 16,
                    },
                );
                write!(f, "fn:{arity}:{unique}:{index}:{free}")
            }
        }
    }
}

// So many ids of four bytes, at the front of what is lent.
#[derive(Clone, Copy)]
struct Ids<'a>(&'a [u8], u16);

impl<'a> fmt::Display for Ids<'a> {
    fn fmt<W: fmt::Write>(&self, f: &mut fmt::Formatter<W>) -> fmt::Result {
        let (ids, _) = self.0.as_chunks::<4>();
        for id in ids.iter().take(usize::from(self.1)) {
            write!(f, ":{}", u32::from_be_bytes(*id))?;
        }
        Ok(())
    }
}

// A run's bytes. Were they not there, none would be shown, and the comparison would tell.
fn part(b: &[u8], run: Run) -> Hex<'_> {
    Hex(from(b, run.at).get(..run.len).unwrap_or(b""))
}

fn from(b: &[u8], at: usize) -> &[u8] {
    b.get(at..).unwrap_or(b"")
}

// All that the head at a place of an input answers, and the part that belongs to it.
#[derive(Clone, Copy)]
pub struct Head<'a>(pub &'a [u8], pub usize);

impl<'a> fmt::Display for Head<'a> {
    fn fmt<W: fmt::Write>(&self, f: &mut fmt::Formatter<W>) -> fmt::Result {
        let h = heads::head(self.0, self.1);
        let words = headwords::words(h);
        match h.value {
            Ok(value) => {
                let part = Word(heads::part(self.0, self.1));
                let fields = Fields(value, &words[4..]);
                write!(f, "answer=0 tag={} fields={fields} part={part}", words[1])
            }
            Err(_) => write!(
                f,
                "answer={} tag={} offset={} extra={}",
                words[0], words[1], words[2], words[3]
            ),
        }
    }
}

// The fields that a head has, as headwords has them in order: number, tag, offset and extra stand before them.
#[derive(Clone, Copy)]
struct Fields<'a>(Value, &'a [u64]);

impl<'a> fmt::Display for Fields<'a> {
    fn fmt<W: fmt::Write>(&self, f: &mut fmt::Formatter<W>) -> fmt::Result {
        let n = match self.0 {
            // the one that has a sign
            Value::Integer(z) => return write!(f, "{z}"),
            Value::Nil | Value::Export => 0,
            Value::Double(..) | Value::Tuple(_) | Value::List(_) | Value::Map(_) => 1,
            Value::NumberText(_) | Value::Atom(_) | Value::String(_) | Value::Binary(_) => 2,
            Value::BitString { .. } | Value::Big { .. } => 3,
            Value::Port { .. } => 4,
            Value::Pid { .. } | Value::Reference { .. } | Value::Function { .. } => 5,
        };
        for (i, word) in self.1.iter().take(n).enumerate() {
            if i != 0 {
                f.write_str(",")?;
            }
            write!(f, "{word}")?;
        }
        Ok(())
    }
}
