// Vectors of CRC-32 and UTF-8. The input is a row of cases: a kind (0 CRC-32, 1 UTF-8), a length (u32) and that many bytes.
#![tactic(auto)]

ghost use Rattle.std.specs.Prelude.{◌≤◌, length};

use crc32::{Table, Tables};
use std::io::{BufWriter, Result, Write};

// The most that is read of the input.
const INPUT_BYTES: usize = 131072;

fn line<W: Write>(out: &mut W, c: u32) -> Result<()> {
    writeln!(out, "{c:08x}")
}

// The checksum in two parts, cut at a place.
fn cut<W: Write>(out: &mut W, t: &Tables, s: &[u8], at: usize) -> Result<()>
    requires { at ≤ length s.now }
{
    let first = t.update(crc32::START, &s[..at]);
    line(out, crc32::finish(t.update(first, &s[at..])))
}

// The checksum by eight bytes, by one, with tables of its own, and cut at every place up to 17.
fn sums<W: Write>(out: &mut W, t: &Tables, one: &Table, s: &[u8]) -> Result<()> {
    line(out, t.crc32(s))?;
    line(out, crc32::finish(one.update(crc32::START, s)))?;
    line(out, crc32::crc32(s))?;
    for at in 0..=s.len().min(17) {
        cut(out, t, s, at)?;
    }
    Ok(())
}

fn text<W: Write>(out: &mut W, s: &[u8]) -> Result<()> {
    if utf8::valid(s) {
        writeln!(out, "valid")
    } else {
        writeln!(out, "not valid")
    }
}

fn cases<W: Write>(out: &mut W, t: &Tables, one: &Table, input: &[u8]) -> Result<()> {
    let mut rest = input;
    while let [kind, a, b, c, d, data @ ..] = rest {
        let size = u32::from_le_bytes([*a, *b, *c, *d]);
        let Some((s, next)) = data.split_at_checked(size as usize) else {
            break;
        };
        if *kind == 0 {
            sums(out, t, one, s)?;
        } else {
            text(out, s)?;
        }
        rest = next;
    }
    Ok(())
}

fn run<W: Write>(out: &mut W, input: &[u8]) -> Result<()> {
    let t = Tables::new();
    let one = Table::new();
    cases(out, &t, &one, input)?;
    out.flush()
}

fn main(rt: HostRuntime) -> Result<()> {
    let mut input = vec![in rt.alloc(); 0; INPUT_BYTES]?;
    let n = replay::fill(&mut rt.stdin(), &mut input);
    let mut out = BufWriter::new(rt.alloc(), rt.stdout())?;
    replay::end(run(&mut out, &input[..n]))
}
