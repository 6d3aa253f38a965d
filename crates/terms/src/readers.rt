// The readers, one for each family of terms. They call each other through `term`, or through `child` from the one loop over children, and
// the nesting that is left falls at each call. Levels, place and what is left behind stay three parameters: each call has another level and another place, and
// what is left behind is lent to all of them.
//
// Changed from decode_borrowed and its readers in decoder.rs (michaelklishin/edp-rs, fc07dcb95d),
// Copyright (C) 2025-2026 Michael S. Klishin and Contributors, Apache-2.0: see NOTICE.
ghost use Rattle.std.specs.Prelude.{◌+◌, ◌<◌, ◌≤◌, length};
ghost use Rattle.reading.specs.Terms as def;
ghost use Rattle.terms.specs.Inner.Kids.{most, segment_of, fits, named, kids_of};
ghost use Rattle.terms.specs.Inner.Lent.{place, term_of, Shows, Ready, Enters, Reads};
ghost use Rattle.reading.specs.Asked.{allowed_of};

use crate::path::segment_of;
use crate::steps::short;
use crate::{Family, Left, Needed, Reader};
use numbers::Refusal;

impl<'a> Reader<'a> {
    // A term: the readers below call each other through it.
    #[cycle(readers)]
    pub(crate) fn term(&self, rem: usize, at: usize, left: &mut Left) -> Option<usize>
        requires { Ready self.now rem at left.old }
        ensures { Shows result left.new (length self.now.b.now) rem (term_of self.now rem (place at left.old.seen)) }
    {
        if self.b.len() <= at {
            left.seen.last = at;
            return left.fault.refuse(Refusal::Eof);
        }
        if rem == 0 {
            left.seen.last = at;
            return left.fault.refuse(Refusal::Deep);
        }
        let rest = rem - 1;
        let level = self.asked.limit - rest;
        left.seen.begin(at, level);
        self.body(rest, self.b[at], at + 1, left)
    }

    // What stands behind a tag.
    #[cycle(readers)]
    fn body(&self, rem: usize, tag: u8, at: usize, left: &mut Left) -> Option<usize>
        requires { Enters self.now rem at left.old }
        ensures { Reads (λ read b. def.body (allowed_of self.now.asked) read b tag) self.now rem at left.old result left.new }
    {
        match tag {
            104 => self.small_tuple(rem, at, left),
            105 => self.large_tuple(rem, at, left),
            108 => self.list(rem, at, left),
            116 => self.map(rem, at, left),
            88 => self.named(rem, 12, at, left),
            120 => self.named(rem, 12, at, left),
            90 => self.reference(rem, at, left),
            113 => self.export(rem, at, left),
            112 => self.function(rem, at, left),
            82 => self.position(at, left),
            _ => self.row(tag, at, left),
        }
    }

    // A tuple whose arity has one byte.
    #[cycle(readers)]
    fn small_tuple(&self, rem: usize, at: usize, left: &mut Left) -> Option<usize>
        requires { Enters self.now rem at left.old }
        ensures { Reads def.small_tuple self.now rem at left.old result left.new }
    {
        let Some(n) = fields::be_u8(self.b, at) else {
            return left.fault.refuse(Refusal::Eof);
        };
        self.kids(rem, Family::Tuple, usize::from(n), at + 1, left)
    }

    // A tuple whose arity has four bytes. It and the two behind it stay three: each meets a definition of its own, and one function of the family
    // would be no plainer: it would have to be told the cap, the number of children and the definition.
    #[cycle(readers)]
    fn large_tuple(&self, rem: usize, at: usize, left: &mut Left) -> Option<usize>
        requires { Enters self.now rem at left.old }
        ensures { Reads def.large_tuple self.now rem at left.old result left.new }
    {
        let arity = left.fault.told(rows::count(self.b, numbers::ELEMENTS, at))?;
        self.kids(rem, Family::Tuple, arity as usize, at + 4, left)
    }

    // A list: its elements and its tail.
    #[cycle(readers)]
    fn list(&self, rem: usize, at: usize, left: &mut Left) -> Option<usize>
        requires { Enters self.now rem at left.old }
        ensures { Reads def.list self.now rem at left.old result left.new }
    {
        let elements = left.fault.told(rows::count(self.b, numbers::ELEMENTS, at))?;
        self.kids(rem, Family::List, elements as usize + 1, at + 4, left)
    }

    // A map: a key and a value for each.
    #[cycle(readers)]
    fn map(&self, rem: usize, at: usize, left: &mut Left) -> Option<usize>
        requires { Enters self.now rem at left.old }
        ensures { Reads def.map self.now rem at left.old result left.new }
    {
        let pairs = left.fault.told(rows::count(self.b, numbers::PAIRS, at))?;
        self.kids(rem, Family::Map, 2 * (pairs as usize), at + 4, left)
    }

    // A child of a kind that is required: it is read whole, then judged.
    #[cycle(readers)]
    fn required(&self, rem: usize, needed: Needed, at: usize, left: &mut Left) -> Option<usize>
        requires { Enters self.now rem at left.old }
        ensures { Reads (λ read b. def.required read (fits needed b)) self.now rem at left.old result left.new }
    {
        let end = self.term(rem, at, left)?;
        if self.is(needed, at) {
            return Some(end);
        }
        left.fault.refuse(Refusal::Tag)
    }

    // An atom, and n bytes: all of a pid and of a port, and the end of a reference.
    #[cycle(readers)]
    fn named(&self, rem: usize, n: usize, at: usize, left: &mut Left) -> Option<usize>
        requires { Enters self.now rem at left.old }
        ensures { Reads (λ read b. named read b n) self.now rem at left.old result left.new }
    {
        let end = self.required(rem, Needed::Atom, at, left)?;
        self.skip(n, end, left)
    }

    // A reference: a count, its atom, the creation and so many ids.
    #[cycle(readers)]
    fn reference(&self, rem: usize, at: usize, left: &mut Left) -> Option<usize>
        requires { Enters self.now rem at left.old }
        ensures { Reads def.reference self.now rem at left.old result left.new }
    {
        let Some(n) = fields::be_u16(self.b, at) else {
            return left.fault.refuse(Refusal::Eof);
        };
        self.named(rem, 4 + 4 * usize::from(n), at + 2, left)
    }

    // A function of a module: two atoms and an arity.
    #[cycle(readers)]
    fn export(&self, rem: usize, at: usize, left: &mut Left) -> Option<usize>
        requires { Enters self.now rem at left.old }
        ensures { Reads def.export self.now rem at left.old result left.new }
    {
        let module = self.required(rem, Needed::Atom, at, left)?;
        let name = self.required(rem, Needed::Atom, module, left)?;
        self.required(rem, Needed::Arity, name, left)
    }

    // A function with its free terms.
    #[cycle(readers)]
    fn function(&self, rem: usize, at: usize, left: &mut Left) -> Option<usize>
        requires { Enters self.now rem at left.old }
        ensures { Reads def.function self.now rem at left.old result left.new }
    {
        let Some(n) = fields::be_u32(self.b, at + 25) else {
            return left.fault.refuse(Refusal::Eof);
        };
        self.captured(rem, n as usize, at + 29, left)
    }

    // Its module, two numbers, its pid and its free terms, of which there are n.
    #[cycle(readers)]
    fn captured(&self, rem: usize, n: usize, at: usize, left: &mut Left) -> Option<usize>
        requires { Enters self.now rem at left.old × (n < 4294967296) }
        ensures { Reads (λ read b. def.captured read b n) self.now rem at left.old result left.new }
    {
        let module = self.required(rem, Needed::Atom, at, left)?;
        let index = self.required(rem, Needed::Natural, module, left)?;
        let uniq = self.required(rem, Needed::Natural, index, left)?;
        let process = self.required(rem, Needed::Pid, uniq, left)?;
        self.kids(rem, Family::Function, n, process, left)
    }

    // n children. Most are short leaves, which are read here, with what was seen in a local. So are the bytes: with `self.b` read anew behind
    // each child, records took a tenth longer.
    #[cycle(readers)]
    fn kids(
        &self,
        rem: usize,
        family: Family,
        n: usize,
        from: usize,
        left: &mut Left,
    ) -> Option<usize>
        requires { Enters self.now rem from left.old × (n ≤ most family) }
        ensures { Reads (λ read b. kids_of read (segment_of family n) 0 n from) self.now rem from left.old result left.new }
    {
        let b = self.b;
        let mut at = from;
        let mut prev = from;
        let mut seen = left.seen;
        seen.deepest = self.deepen(rem, n, from, seen.deepest);
        for i in 0..n {
            if let Some(end) = short(b, rem, at) {
                seen.last = at;
                seen.begun += 1;
                prev = at;
                at = end;
                continue;
            }
            left.seen = seen;
            let Some(end) = self.child(rem, at, left) else {
                left.fault.note(segment_of(family, n, i, prev));
                return None;
            };
            prev = at;
            at = end;
            seen = left.seen;
        }
        left.seen = seen;
        Some(at)
    }

    // A child in the loop of `kids`, as `term` reads it; the commonest that have children go straight to their readers. It has one caller, so
    // that it becomes part of the loop, and a container within another costs one call, not two.
    #[cycle(readers)]
    fn child(&self, rem: usize, at: usize, left: &mut Left) -> Option<usize>
        requires { Ready self.now rem at left.old }
        ensures { Shows result left.new (length self.now.b.now) rem (term_of self.now rem (place at left.old.seen)) }
    {
        if rem == 0 || self.b.len() <= at {
            return self.term(rem, at, left);
        }
        let rest = rem - 1;
        match self.b[at] {
            104 => {
                left.seen.begin(at, self.asked.limit - rest);
                self.small_tuple(rest, at + 1, left)
            }
            108 => {
                left.seen.begin(at, self.asked.limit - rest);
                self.list(rest, at + 1, left)
            }
            116 => {
                left.seen.begin(at, self.asked.limit - rest);
                self.map(rest, at + 1, left)
            }
            _ => self.term(rem, at, left),
        }
    }
}
