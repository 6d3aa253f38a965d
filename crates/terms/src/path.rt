// The path of a refusal: a refusal that is told, a segment noted as it travels up, and the path put together in the end.
ghost use Rattle.std.specs.Prelude.{◌≡◌, ◌+◌, ◌<◌, ◌≤◌, length, slice_set, None, [], MatchOption};
ghost use Rattle.numbers.specs.Caps as cap;
ghost use Rattle.numbers.specs.declared.Refusal.{Refusal};
ghost use Rattle.reading.specs.Told.{padded};
ghost use Rattle.terms.specs.Inner.Kids.{most, segment_of};
ghost use Rattle.terms.specs.Inner.Lent.{whole, path_of};

use crate::{Family, Fault, Noted};
use numbers::Refusal;
use reading::{Kind, Path, Segment};

impl Fault {
    // A refusal, with no segment yet.
    pub(crate) fn refuse<T>(&mut self, why: Refusal) -> Option<T>
        ensures none { result ≡ None }
        ensures told { self.new ≡ record self.old { why = why; len = 0 } }
    {
        self.why = why;
        self.len = 0;
        None
    }

    // What a row says, or its refusal.
    pub(crate) fn told<T>(&mut self, row: Result<T, Refusal>) -> Option<T>
        ensures { MatchOption result ((why : Refusal) × ((row ≡ Err why) × (self.new ≡ record self.old { why = why; len = 0 }))) (λ x. (row ≡ Ok x) × (self.new ≡ self.old)) }
    {
        match row {
            Ok(x) => Some(x),
            Err(why) => self.refuse(why),
        }
    }

    // A refusal in a child: its segment goes behind those that are there.
    pub(crate) fn note(&mut self, noted: Noted)
        requires { self.old.len < cap.nesting }
        ensures noted { self.new ≡ record self.old { len = self.old.len + 1; path = slice_set self.old.path self.old.len noted } }
        ensures long { length self.new.path ≡ cap.nesting }
    {
        self.path[self.len] = noted;
        self.len += 1;
    }

    // The path of a refusal, outermost first.
    pub(crate) fn outwards(&self) -> Path
        requires { self.now.len ≤ cap.nesting }
        ensures path { result ≡ record { len = self.now.len; segments = padded (path_of self.now) } }
        ensures len { length (path_of self.now) ≡ self.now.len }
    {
        let mut path = Path::empty();
        path.len = self.len;
        for i in 0..self.len {
            let noted = self.path[self.len - 1 - i];
            path.segments[i] = Segment {
                kind: noted.kind,
                number: u64::from(noted.number),
            };
        }
        path
    }
}

// The segment of child i of n, where the one before starts at prev.
#[tactic(auto, unfolding(crate::specs::Inner::Kids::segment_of))]
pub(crate) fn segment_of(family: Family, n: usize, i: usize, prev: usize) -> Noted
    requires { (i < n) × ((n ≤ most family) × (prev < 4294967296)) }
    ensures { whole result ≡ segment_of family n i prev }
{
    match family {
        Family::Tuple => noted(Kind::Tuple, i),
        Family::List if i + 1 == n => noted(Kind::Tail, 0),
        Family::List => noted(Kind::List, i),
        Family::Map if i % 2 == 0 => noted(Kind::Key, 0),
        Family::Map => noted(Kind::Value, prev),
        Family::Function => noted(Kind::Free, i),
    }
}

fn noted(kind: Kind, number: usize) -> Noted
    requires { number < 4294967296 }
    ensures { result ≡ record { kind = kind; number = number } }
{
    Noted {
        kind,
        number: number as u32,
    }
}
