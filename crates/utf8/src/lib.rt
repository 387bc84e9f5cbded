// UTF-8 by the grammar of RFC 3629: what `str::from_utf8` accepts.
#![tactic(auto)]

ghost use Rattle.std.specs.Prelude.{◌≡◌, ◌<◌, ◌≤◌, IfSome, length};
ghost use Rattle.utf8.specs.Grammar.{one as is_one, two as is_two, three as is_three, four as is_four, tail as is_tail, span as in_span};
ghost use Rattle.utf8.specs.Utf8.{valid as is_valid, width as width_of};

// The tests are the grammar's lines, one function each.

fn span(lo: u8, hi: u8, x: u8) -> bool
    ensures { result ≡ in_span lo hi x }
{
    (lo <= x) & (x <= hi)
}

fn tail(x: u8) -> bool
    ensures { result ≡ is_tail x }
{
    span(0x80, 0xbf, x)
}

fn one(a: u8) -> bool
    ensures { result ≡ is_one a }
{
    span(0, 0x7f, a)
}

fn two(a: u8, b: u8) -> bool
    ensures { result ≡ is_two a b }
{
    span(0xc2, 0xdf, a) & tail(b)
}

fn three(a: u8, b: u8, c: u8) -> bool
    ensures { result ≡ is_three a b c }
{
    (span(0xe0, 0xe0, a) & span(0xa0, 0xbf, b)
        | span(0xe1, 0xec, a) & tail(b)
        | span(0xed, 0xed, a) & span(0x80, 0x9f, b)
        | span(0xee, 0xef, a) & tail(b))
        & tail(c)
}

fn four(a: u8, b: u8, c: u8, d: u8) -> bool
    ensures { result ≡ is_four a b c d }
{
    (span(0xf0, 0xf0, a) & span(0x90, 0xbf, b)
        | span(0xf1, 0xf3, a) & tail(b)
        | span(0xf4, 0xf4, a) & span(0x80, 0x8f, b))
        & tail(c)
        & tail(d)
}

// The length of the character that s starts with.
#[tactic(auto, using(crate::proofs::Chars::by_index))]
fn width(s: &[u8]) -> Option<usize>
    ensures value { result ≡ width_of s.now }
    ensures within { IfSome result (λ n. (0 < n) × (n ≤ length s.now)) }
{
    match s {
        [a, ..] if one(*a) => Some(1),
        [a, b, ..] if two(*a, *b) => Some(2),
        [a, b, c, ..] if three(*a, *b, *c) => Some(3),
        [a, b, c, d, ..] if four(*a, *b, *c, *d) => Some(4),
        _ => None,
    }
}

// Whether s is UTF-8. A part of a slice is lent as such.
pub fn valid(s: &[u8]) -> bool
    ensures { result ≡ is_valid s.now }
{
    let mut rest = s;
    while !rest.is_empty() {
        let Some(n) = width(rest) else {
            return false;
        };
        rest = &rest[n..];
    }
    true
}
