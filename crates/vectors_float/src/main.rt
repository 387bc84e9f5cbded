// For each pattern of an f64 on standard input, eight bytes each, a line: the pattern, the root's, the order key (`-`
// for a NaN), and the patterns of the floor at 0 and of the hold in 0..2, in 16 hexadecimal digits. A NaN among the
// results is `nan`.
#![tactic(auto)]

use std::fmt;
use std::io::{BufWriter, Result, Write};

// The most that is read of the input.
const INPUT_BYTES: usize = 65536;

// The pattern of a result.
#[derive(Drop)]
struct Pattern(f64);

impl fmt::Display for Pattern {
    fn fmt<W: fmt::Write>(&self, f: &mut fmt::Formatter<W>) -> fmt::Result {
        if self.0.is_nan() {
            f.write_str("nan")
        } else {
            write!(f, "{:016x}", self.0.to_bits())
        }
    }
}

// The order key of a number.
#[derive(Drop)]
struct Key(f64);

impl fmt::Display for Key {
    fn fmt<W: fmt::Write>(&self, f: &mut fmt::Formatter<W>) -> fmt::Result {
        if self.0.is_nan() {
            f.write_str("-")
        } else {
            write!(f, "{:016x}", float::key(self.0))
        }
    }
}

fn line<W: Write>(out: &mut W, bits: u64) -> Result<()> {
    let x = float::Pattern::value(bits);
    writeln!(
        out,
        "{bits:016x} {} {} {} {}",
        Pattern(root::sqrt(x)),
        Key(x),
        Pattern(float::max_zero(x)),
        Pattern(float::hold(x))
    )
}

fn run<W: Write>(out: &mut W, patterns: &[u8]) -> Result<()> {
    for bits in patterns.chunks_exact(8) {
        line(out, le::u64_at(bits, 0))?;
    }
    out.flush()
}

fn main(rt: HostRuntime) -> Result<()> {
    let mut patterns = vec![in rt.alloc(); 0; INPUT_BYTES]?;
    let n = replay::fill(&mut rt.stdin(), &mut patterns);
    let mut out = BufWriter::new(rt.alloc(), rt.stdout())?;
    replay::end(run(&mut out, &patterns[..n]))
}
