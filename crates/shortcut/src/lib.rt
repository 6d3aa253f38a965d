// The short way to the end of the commonest rows without children, where they are well: what is found so is what `rows` says.

#![tactic(auto)]

ghost use Rattle.std.specs.Prelude.{◌≡◌, ◌+◌, ◌≤◌, length};
ghost use Rattle.shortcut.specs.Inner.Short as short;

// The end of one of the commonest rows, whose tag stands at a place, found the short way: it is well, and ten bytes are in reach from its
// tag on. None says nothing. It is for a loop over children, most of which are such. The tests of ranges keep the compiler from making a table
// of jumps of it, which takes longer.
pub fn end_at(b: &[u8], at: usize) -> Option<usize>
    ensures { result ≡ short.short_end b.now at }
{
    // a loop asks this once; by checked_sub the compiler loses that ten bytes are in reach, and the code is a third longer
    if b.len() < 10 || b.len() - 10 < at {
        return None;
    }
    let tag = b[at];
    if tag < 98 {
        match tag {
            97 => Some(at + 2),
            70 => Some(at + 9),
            _ => None,
        }
    } else if 118 < tag {
        if tag == 119 { name(b, at) } else { None }
    } else {
        match tag {
            98 => Some(at + 5),
            106 => Some(at + 1),
            109 => binary(b, at),
            _ => None,
        }
    }
}

// A name in ASCII.
fn name(b: &[u8], at: usize) -> Option<usize>
    requires { at + 10 ≤ length b.now }
    ensures { result ≡ short.short_name b.now at }
{
    let n = usize::from(b[at + 1]);
    if utf8::ascii(b, at + 2, n) {
        Some(at + 2 + n)
    } else {
        None
    }
}

fn binary(b: &[u8], at: usize) -> Option<usize>
    requires { at + 10 ≤ length b.now }
    ensures { result ≡ short.short_binary b.now at }
{
    let n = fields::u32_at(b, at + 1) as usize;
    if fields::has(b, at + 5, n) {
        Some(at + 5 + n)
    } else {
        None
    }
}
