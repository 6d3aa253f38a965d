// Heads: what the fixed fields of one term say, the tag and all that its row names but children, with byte runs and ids by place.
//
// The fields of a row are refused as reading refuses them, at the same offset. No child is read but the atom of a pid, a reference and a
// port, and that differs from reading: where the child's tag is no atom's, it is Tag at once, at the child's start, and isn't read whole.
// Where a row without children ends, and why it is refused, is the matter of `rows`.
//
// Changed from the readers of decoder.rs (parse_term_borrowed to parse_new_fun_ext_borrowed; michaelklishin/edp-rs, fc07dcb95d),
// Copyright (C) 2025-2026 Michael S. Klishin and Contributors, Apache-2.0: see NOTICE.

#![tactic(auto)]

ghost use Rattle.std.specs.Prelude.{◌≡◌, ◌+◌, ◌<◌, ◌≤◌, length, take, drop};
ghost use Rattle.std.specs.Float.{binary64};
ghost use Rattle.std.specs.Float.Ieee.{of_bits};
ghost use Rattle.heads.specs.Inner.Run.{run_of, inside};
ghost use Rattle.heads.specs.Inner.Head as spec;

use numbers::Refusal;

// The tag of a term and what its row says, or why that is refused. The tag is 0 where no term was reached.
#[derive(Clone, Copy)]
pub struct Headed {
    pub tag: u8,
    pub value: Result<Value, Refused>,
}

// Why, and where.
#[derive(Clone, Copy)]
pub struct Refused {
    pub why: Refusal,
    pub offset: usize,
}

// Bytes of the input, by their place and their number.
#[derive(Clone, Copy)]
pub struct Run {
    pub at: usize,
    pub len: usize,
}

// What a row says, by the row. A place is an offset into the input, and a length counts bytes.
#[derive(Clone, Copy)]
pub enum Value {
    // tags 97 and 98
    Integer(i64),
    // 99: the text without its trailing zero bytes
    NumberText(Run),
    // 70: the float and its bits
    Double(f64, u64),
    // 100, 118 and 119: the name
    Atom(Run),
    // 104 and 105: arity
    Tuple(u64),
    // 106
    Nil,
    // 107
    String(Run),
    // 108: length
    List(u64),
    // 109
    Binary(Run),
    // 77
    BitString {
        bytes: Run,
        bits: u8,
    },
    // 110 and 111: the digits, the sign byte, whether that is negative
    Big {
        digits: Run,
        sign: u8,
        negative: bool,
    },
    // 116: arity
    Map(u64),
    // 88: the node's name
    Pid {
        node: Run,
        id: u32,
        serial: u32,
        creation: u32,
    },
    // 90: the place of the ids
    Reference {
        count: u16,
        node: Run,
        creation: u32,
        ids: usize,
    },
    // 120
    Port {
        node: Run,
        id: u64,
        creation: u32,
    },
    // 113
    Export,
    // 112: the place of the 16 bytes, the free count
    Function {
        size: u32,
        arity: u8,
        unique: usize,
        index: u32,
        free: u32,
    },
}

// The head of the term that starts at `at`, for any input and any offset. An input of over 16,777,216 bytes is refused as Long, an
// offset at the end or past it as Eof, and a row as reading it would be: at the term's start, or at its atom's once that is reached.
pub fn head(b: &[u8], at: usize) -> Headed
    ensures { result ≡ spec.head_at b.now at }
{
    if numbers::INPUT < b.len() {
        return Headed {
            tag: 0,
            value: Err(Refused {
                why: Refusal::Long,
                offset: 0,
            }),
        };
    }
    if b.len() <= at {
        return Headed {
            tag: 0,
            value: Err(eof(at)),
        };
    }
    let tag = b[at];
    let value = term(b, tag, at);
    Headed { tag, value }
}

// The bytes of the atom's name or of the binary (tag 109) whose head is at `at`, as a part of the input. For any other head, a
// refused one too, the part is empty.
pub fn part(b: &[u8], at: usize) -> &[u8]
    ensures { result.now ≡ spec.part_at b.now at }
{
    match head(b, at).run() {
        Some(run) => run.of(b),
        None => b"",
    }
}

impl Headed {
    // The bytes of an atom's name or of a binary; no other head has any.
    pub fn run(self) -> Option<Run>
        ensures { result ≡ run_of self.value }
    {
        match self.value {
            Ok(Value::Atom(run)) => Some(run),
            Ok(Value::Binary(run)) => Some(run),
            _ => None,
        }
    }
}

impl Run {
    // Its bytes.
    fn of(self, b: &[u8]) -> &[u8]
        requires { self.at + self.len ≤ length b.now }
        ensures { result.now ≡ take self.len (drop self.at b.now) }
    {
        let end = self.at + self.len;
        &b[self.at..end]
    }
}

// Bytes that are missing.
fn eof(offset: usize) -> Refused
    ensures { result ≡ spec.refused Refusal.Eof offset }
{
    Refused {
        why: Refusal::Eof,
        offset,
    }
}

// By the tag: the rows with children, and all others.
fn term(b: &[u8], tag: u8, at: usize) -> Result<Value, Refused>
    requires { at < length b.now }
    ensures { result ≡ spec.term b.now tag at }
{
    match tag {
        104 => small_tuple(b, at),
        105 => Ok(Value::Tuple(count(b, numbers::ELEMENTS, at)?)),
        108 => Ok(Value::List(count(b, numbers::ELEMENTS, at)?)),
        116 => Ok(Value::Map(count(b, numbers::PAIRS, at)?)),
        88 => pid(b, at),
        90 => reference(b, at),
        120 => port(b, at),
        113 => Ok(Value::Export),
        112 => function(b, at + 1).ok_or(eof(at)),
        _ => row_value(b, tag, at),
    }
}

// A row without children: `rows` says whether it is there.
fn row_value(b: &[u8], tag: u8, at: usize) -> Result<Value, Refused>
    requires { at < length b.now }
    ensures { result ≡ spec.row_value b.now tag at }
{
    match rows::row_at(b, tag, at + 1) {
        Ok(_) => Ok(fixed(b, tag, at + 1)),
        Err(why) => Err(Refused { why, offset: at }),
    }
}

// The fields of a row without children, which are there, from the place behind the tag on. The last of these tags is 111.
fn fixed(b: &[u8], tag: u8, p: usize) -> Value
    requires { (p ≤ length b.now) × (tag ≡ 99 → p + 31 ≤ length b.now) }
    ensures { result ≡ spec.fixed b.now tag p }
{
    match tag {
        97 => Value::Integer(i64::from(fields::u8_at(b, p))),
        98 => Value::Integer(i64::from(fields::i32_at(b, p))),
        99 => number_text(b, p),
        70 => double(b, p),
        100 | 118 => Value::Atom(long(b, p)),
        119 => Value::Atom(short(b, p)),
        106 => Value::Nil,
        107 => Value::String(long(b, p)),
        109 => Value::Binary(Run {
            at: p + 4,
            len: fields::u32_at(b, p) as usize,
        }),
        77 => Value::BitString {
            bytes: Run {
                at: p + 5,
                len: fields::u32_at(b, p) as usize,
            },
            bits: fields::u8_at(b, p + 4),
        },
        110 => big(b, p + 1, usize::from(fields::u8_at(b, p))),
        _ => big(b, p + 4, fields::u32_at(b, p) as usize),
    }
}

// The bytes behind their number, which has one byte, or two. (As one function, over a trait of the two widths, they would be longer.)
fn short(b: &[u8], p: usize) -> Run
    requires { p ≤ length b.now }
    ensures { result ≡ spec.behind 1 b.now p }
{
    Run {
        at: p + 1,
        len: usize::from(fields::u8_at(b, p)),
    }
}

fn long(b: &[u8], p: usize) -> Run
    requires { p ≤ length b.now }
    ensures { result ≡ spec.behind 2 b.now p }
{
    Run {
        at: p + 2,
        len: usize::from(fields::u16_at(b, p)),
    }
}

fn number_text(b: &[u8], p: usize) -> Value
    requires { p + 31 ≤ length b.now }
    ensures { result ≡ spec.number_text b.now p }
{
    let end = p + 31;
    let len = literal::trim(&b[p..end]);
    Value::NumberText(Run { at: p, len })
}

fn double(b: &[u8], p: usize) -> Value
    ensures { result ≡ spec.double b.now p }
{
    let bits = fields::u64_at(b, p);
    Value::Double(float(bits), bits)
}

// The float that the bits spell. The pattern of a NaN has its exponent's bits all set and some bit below them.
fn float(bits: u64) -> f64
    ensures { result ≡ of_bits binary64 bits }
{
    if 0x7ff0000000000000 < bits % 0x8000000000000000 {
        return f64::NAN;
    }
    f64::from_bits(bits)
}

// n digits behind the sign byte at q.
fn big(b: &[u8], q: usize, n: usize) -> Value
    requires { q ≤ length b.now + 4 }
    ensures { result ≡ spec.big b.now q n }
{
    let sign = fields::u8_at(b, q);
    Value::Big {
        digits: Run { at: q + 1, len: n },
        sign,
        negative: sign != 0,
    }
}

// The count of four bytes behind the tag, which may be `most` at most.
fn count(b: &[u8], most: u64, at: usize) -> Result<u64, Refused>
    requires { at < length b.now }
    ensures { result ≡ spec.count most b.now at }
{
    match rows::count(b, most, at + 1) {
        Ok(n) => Ok(n),
        Err(why) => Err(Refused { why, offset: at }),
    }
}

fn small_tuple(b: &[u8], at: usize) -> Result<Value, Refused>
    requires { at < length b.now }
    ensures { result ≡ spec.small_tuple b.now at }
{
    match fields::be_u8(b, at + 1) {
        Some(arity) => Ok(Value::Tuple(u64::from(arity))),
        None => Err(eof(at)),
    }
}

// The name of the atom child at c.
fn node(b: &[u8], c: usize) -> Result<Run, Refused>
    ensures { result ≡ spec.node b.now c }
{
    if b.len() <= c {
        return Err(eof(c));
    }
    let tag = b[c];
    let name = match tag {
        100 | 118 => long(b, c + 1),
        119 => short(b, c + 1),
        _ => {
            return Err(Refused {
                why: Refusal::Tag,
                offset: c,
            });
        }
    };
    match rows::row_at(b, tag, c + 1) {
        Ok(_) => Ok(name),
        Err(why) => Err(Refused { why, offset: c }),
    }
}

// (A pid and a port begin alike, in two lines. The functions that begin with a term's tag take the input and its place, and no struct of both: most ask at
// other places too.)
fn pid(b: &[u8], at: usize) -> Result<Value, Refused>
    requires { at < length b.now }
    ensures { result ≡ spec.pid b.now at }
{
    let c = at + 1;
    let node = node(b, c)?;
    pid_numbers(b, node).ok_or(eof(c))
}

// What stands behind the atom child, whose name this is.
fn pid_numbers(b: &[u8], node: Run) -> Option<Value>
    requires { inside node b.now }
    ensures { result ≡ spec.pid_numbers b.now node }
{
    let q = node.at + node.len;
    let id = fields::be_u32(b, q)?;
    let serial = fields::be_u32(b, q + 4)?;
    let creation = fields::be_u32(b, q + 8)?;
    Some(Value::Pid {
        node,
        id,
        serial,
        creation,
    })
}

fn reference(b: &[u8], at: usize) -> Result<Value, Refused>
    requires { at < length b.now }
    ensures { result ≡ spec.reference b.now at }
{
    let Some(count) = fields::be_u16(b, at + 1) else {
        return Err(eof(at));
    };
    let c = at + 3;
    let node = node(b, c)?;
    reference_numbers(b, count, node).ok_or(eof(c))
}

fn reference_numbers(b: &[u8], count: u16, node: Run) -> Option<Value>
    requires { inside node b.now }
    ensures { result ≡ spec.reference_numbers b.now count node }
{
    let q = node.at + node.len;
    let creation = fields::be_u32(b, q)?;
    let ids = q + 4;
    if fields::has(b, ids, usize::from(count) * 4) {
        return Some(Value::Reference {
            count,
            node,
            creation,
            ids,
        });
    }
    None
}

fn port(b: &[u8], at: usize) -> Result<Value, Refused>
    requires { at < length b.now }
    ensures { result ≡ spec.port b.now at }
{
    let c = at + 1;
    let node = node(b, c)?;
    port_numbers(b, node).ok_or(eof(c))
}

fn port_numbers(b: &[u8], node: Run) -> Option<Value>
    requires { inside node b.now }
    ensures { result ≡ spec.port_numbers b.now node }
{
    let q = node.at + node.len;
    let id = fields::be_u64(b, q)?;
    let creation = fields::be_u32(b, q + 8)?;
    Some(Value::Port { node, id, creation })
}

// From the place behind the tag on.
fn function(b: &[u8], p: usize) -> Option<Value>
    requires { p ≤ length b.now }
    ensures { result ≡ spec.function b.now p }
{
    let size = fields::be_u32(b, p)?;
    let arity = fields::be_u8(b, p + 4)?;
    let index = fields::be_u32(b, p + 21)?;
    let free = fields::be_u32(b, p + 25)?;
    Some(Value::Function {
        size,
        arity,
        unique: p + 5,
        index,
        free,
    })
}
