// The numbers the jig shows, the caps of the format, and the two limits of ours: each by name, once in code and once in definitions
// (specs/), under the same name. It knows no other crate, and every other may know it.

#![tactic(auto)]

ghost use Rattle.std.specs.Prelude.{◌≡◌};
ghost use Rattle.numbers.specs.Refusal.{number_of, extra_of};

// Why a call is refused (document 01, "Numbers the jig shows", and document 02), with what its extra tells: the bytes left, the need, the
// byte found.
#[derive(Clone, Copy, PartialEq, Eq)]
pub enum Refusal {
    Eof,
    Tag,
    Text,
    Literal,
    Bits,
    Size,
    Trailing(usize),
    Deep,
    Room(usize),
    Long,
    Name,
    Version(u8),
    Kind(u8),
    Limit,
    Store,
    Absent,
    // document 02's, from here on
    Items,
    Segment,
}

impl Refusal {
    // The number that the jig shows. Done, which is no refusal, is 0.
    pub fn number(self) -> u64
        ensures { result ≡ number_of self }
    {
        match self {
            Refusal::Eof => 1,
            Refusal::Tag => 2,
            Refusal::Text => 3,
            Refusal::Literal => 4,
            Refusal::Bits => 5,
            Refusal::Size => 6,
            Refusal::Trailing(_) => 7,
            Refusal::Deep => 8,
            Refusal::Room(_) => 9,
            Refusal::Long => 10,
            Refusal::Name => 11,
            Refusal::Version(_) => 12,
            Refusal::Kind(_) => 13,
            Refusal::Limit => 14,
            Refusal::Store => 15,
            Refusal::Absent => 16,
            Refusal::Items => 17,
            Refusal::Segment => 18,
        }
    }

    // The extra, 0 where the table names none.
    pub fn extra(self) -> u64
        ensures { result ≡ extra_of self }
    {
        match self {
            Refusal::Trailing(n) | Refusal::Room(n) => n as u64,
            Refusal::Version(n) | Refusal::Kind(n) => u64::from(n),
            _ => 0,
        }
    }
}

// The number of what is no refusal (document 01, "Numbers the jig shows").
pub const DONE: u64 = 0;

// The caps: the elements of a tuple of tag 105 and of a list, the pairs of a map, the bytes of a binary and of a bit string.
pub const ELEMENTS: u64 = 10000000;

pub const PAIRS: u64 = 1000000;

pub const BINARY: u64 = 100000000;

// The limits: the levels of nesting that a caller may ask for, and the bytes of an input.
pub const NESTING: usize = 64;

pub const INPUT: usize = 16777216;
