// A refusal's path as text, for the programs that show answers. What is printed is held against stored output by the programs' tests.

#![tactic(auto)]

use reading::{Kind, Segment};
use std::fmt;

// A path: its segments, joined by /.
#[derive(Clone, Copy)]
pub struct Path<'a>(pub &'a [Segment]);

impl<'a> fmt::Display for Path<'a> {
    fn fmt<W: fmt::Write>(&self, f: &mut fmt::Formatter<W>) -> fmt::Result {
        for (i, segment) in self.0.iter().enumerate() {
            if i != 0 {
                f.write_str("/")?;
            }
            write!(f, "{}:{}", name(segment.kind), segment.number)?;
        }
        Ok(())
    }
}

fn name(kind: Kind) -> &'static str {
    match kind {
        Kind::Tuple => "tuple",
        Kind::List => "list",
        Kind::Tail => "tail",
        Kind::Key => "key",
        Kind::Value => "value",
        Kind::Free => "free",
    }
}
