// A head told as numbers, in the order that a program in another language gets them.

#![tactic(auto)]

ghost use Rattle.std.specs.Prelude.{◌≡◌};
ghost use Rattle.heads.specs.Inner.Run.{run_of, placed};
ghost use Rattle.headwords.specs.Words.{head_words, value_words, part_words};

use heads::{Headed, Value};

// A head: its fields behind number, tag, offset and extra, and 0 where there are fewer than five.
pub fn words(h: Headed) -> [u64; 9]
    ensures { result ≡ head_words h }
{
    let tag = u64::from(h.tag);
    match h.value {
        Ok(value) => value_words(tag, value),
        Err(e) => [
            e.why.number(),
            tag,
            e.offset as u64,
            e.why.extra(),
            0,
            0,
            0,
            0,
            0,
        ],
    }
}

fn value_words(tag: u64, value: Value) -> [u64; 9]
    ensures { result ≡ value_words tag value }
{
    match value {
        Value::Integer(z) => [0, tag, 0, 0, z.cast_unsigned(), 0, 0, 0, 0],
        Value::Double(_, bits) => [0, tag, 0, 0, bits, 0, 0, 0, 0],
        Value::NumberText(r) | Value::Atom(r) | Value::String(r) | Value::Binary(r) => {
            [0, tag, 0, 0, r.at as u64, r.len as u64, 0, 0, 0]
        }
        Value::Tuple(n) | Value::List(n) | Value::Map(n) => [0, tag, 0, 0, n, 0, 0, 0, 0],
        Value::Nil | Value::Export => [0, tag, 0, 0, 0, 0, 0, 0, 0],
        Value::BitString { bytes, bits } => {
            [
                0,
                tag,
                0,
                0,
                bytes.at as u64,
                bytes.len as u64,
                u64::from(bits),
                0,
                0,
            ]
        }
        Value::Big {
            digits,
            sign,
            negative,
        } => [
            0,
            tag,
            0,
            0,
            digits.at as u64,
            digits.len as u64,
            u64::from(sign),
            u64::from(negative),
            0,
        ],
        Value::Pid {
            node,
            id,
            serial,
            creation,
        } => [
            0,
            tag,
            0,
            0,
            node.at as u64,
            node.len as u64,
            u64::from(id),
            u64::from(serial),
            u64::from(creation),
        ],
        Value::Reference {
            count,
            node,
            creation,
            ids,
        } => [
            0,
            tag,
            0,
            0,
            u64::from(count),
            node.at as u64,
            node.len as u64,
            u64::from(creation),
            ids as u64,
        ],
        Value::Port { node, id, creation } => {
            [
                0,
                tag,
                0,
                0,
                node.at as u64,
                node.len as u64,
                id,
                u64::from(creation),
                0,
            ]
        }
        Value::Function {
            size,
            arity,
            unique,
            index,
            free,
        } => [
            0,
            tag,
            0,
            0,
            u64::from(size),
            u64::from(arity),
            unique as u64,
            u64::from(index),
            u64::from(free),
        ],
    }
}

// Where the bytes of an atom's name or of a binary stand and how many they are; 0 and 0 for any other head.
pub fn place(h: Headed) -> [u64; 2]
    ensures { result ≡ part_words (placed (run_of h.value)) }
{
    match h.run() {
        Some(run) => [run.at as u64, run.len as u64],
        None => [0, 0],
    }
}
