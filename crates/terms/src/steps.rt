// What the readers of the families have in common: a term begun, rows without children, the short way to some of them,
// bytes passed, and the test of a child that a row requires. None of these calls a reader.
ghost use Rattle.std.specs.Prelude.{◌≡◌, ℕ, ◌+◌, ◌-◌, ◌<◌, ◌≤◌, length, max, MatchOption};
ghost use Rattle.numbers.specs.Caps as cap;
ghost use Rattle.rows.specs.Layout as layout;
ghost use Rattle.reading.specs.declared.Segment.{Segment};
ghost use Rattle.reading.specs.Reading.{fields, pass};
ghost use Rattle.reading.specs.Asked.{allowed_of, limit_of};
ghost use Rattle.terms.specs.Inner.Kids.{fits, kids_of};
ghost use Rattle.terms.specs.Inner.Lent.{place, term_of, Behind, Shows, Short};

use crate::{Left, Needed, Reader, Seen};
use numbers::Refusal;

impl Seen {
    // A term is begun at nesting `level`.
    pub(crate) fn begin(&mut self, at: usize, level: usize)
        requires { (at < cap.input) × (self.old.begun ≤ at) }
        ensures { self.new ≡ record { last = at; begun = self.old.begun + 1; deepest = max self.old.deepest level } }
    {
        self.last = at;
        self.begun += 1;
        self.deepest = self.deepest.max(level);
    }
}

impl<'a> Reader<'a> {
    // A term without children.
    pub(crate) fn row(&self, tag: u8, at: usize, left: &mut Left) -> Option<usize>
        requires { Behind self.now at left.old }
        ensures { (room : ℕ) → Shows result left.new (length self.now.b.now) room (fields (layout.row_at self.now.b.now tag at) (place at left.old.seen)) }
    {
        match rows::row_at(self.b, tag, at) {
            Ok(end) => Some(end),
            Err(why) => left.fault.refuse(why),
        }
    }

    // An atom by its position: one byte, whose bit says whether it is known, where 82 is a tag.
    pub(crate) fn position(&self, at: usize, left: &mut Left) -> Option<usize>
        requires { Behind self.now at left.old }
        ensures { (room : ℕ) → Shows result left.new (length self.now.b.now) room (fields (layout.position_at (allowed_of self.now.asked) self.now.b.now at) (place at left.old.seen)) }
    {
        if !self.asked.names {
            return left.fault.refuse(Refusal::Tag);
        }
        let Some(byte) = fields::be_u8(self.b, at) else {
            return left.fault.refuse(Refusal::Eof);
        };
        let k = usize::from(byte);
        if (self.asked.known[k / 64] >> (k % 64)) % 2 == 1 {
            return Some(at + 1);
        }
        left.fault.refuse(Refusal::Tag)
    }

    // n bytes.
    pub(crate) fn skip(&self, n: usize, at: usize, left: &mut Left) -> Option<usize>
        requires { Behind self.now at left.old }
        ensures { (room : ℕ) → Shows result left.new (length self.now.b.now) room (pass self.now.b.now n (place at left.old.seen)) }
    {
        if fields::has(self.b, at, n) {
            Some(at + n)
        } else {
            left.fault.refuse(Refusal::Eof)
        }
    }

    // Whether a child that was read whole is what is required.
    #[tactic(auto, unfolding(reading::specs::Terms::is_pid))]
    pub(crate) fn is(&self, needed: Needed, at: usize) -> bool
        requires { at < length self.now.b.now }
        ensures { result ≡ fits needed self.now.b.now at }
    {
        match needed {
            Needed::Atom => reading::is_atom(self.b, at),
            Needed::Arity => reading::is_natural(self.b, 255, at),
            Needed::Natural => reading::is_natural(self.b, 2147483647, at),
            Needed::Pid => self.b[at] == 88,
        }
    }

    // The deepest nesting begun, raised to that of the first of n children where it is begun: then leaves among them change it no more.
    pub(crate) fn deepen(&self, rem: usize, n: usize, from: usize, deep: usize) -> usize
        requires { (limit_of self.now.asked ≤ cap.nesting) × (rem ≤ limit_of self.now.asked) }
        ensures same { (seg : ℕ → ℕ → Segment) (prev last count : ℕ) → kids_of (term_of self.now rem) seg 0 n prev (record { at = from; last = last; begun = count; deepest = deep }) ≡ kids_of (term_of self.now rem) seg 0 n prev (record { at = from; last = last; begun = count; deepest = result }) }
        ensures deep { ¬ (rem ≡ 0) → from < length self.now.b.now → ¬ (n ≡ 0) → limit_of self.now.asked + 1 - rem ≤ result }
    {
        if n == 0 || rem == 0 || self.b.len() <= from {
            return deep;
        }
        deep.max(self.asked.limit + 1 - rem)
    }
}

// The end of a child that `shortcut` finds, where there is nesting left for it; None says nothing.
pub(crate) fn short(b: &[u8], rem: usize, at: usize) -> Option<usize>
    requires { length b.now ≤ cap.input }
    ensures { MatchOption result Unit (λ end. Short b.now rem at end) }
{
    if rem == 0 {
        return None;
    }
    shortcut::end_at(b, at)
}
