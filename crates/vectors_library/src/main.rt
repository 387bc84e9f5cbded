// The library check, replayed on good and changed libraries. The input is a row of cases: expected CRC-32, length of the scratch, and
// the lengths of name, manifest and segments (u32 each), then these three. make/cases.py says what is printed of each.
#![tactic(auto)]

ghost use Rattle.std.specs.Prelude.{◌≤◌};

use config::Refused;
use format::Head;
use std::alloc::Global;
use std::fmt;
use std::io::{BufReader, BufWriter, Read, Result, Write};

// What is lent as scratch: 1, 2, 3 ..
fn fill(s: &mut [u64]) {
    for (i, x) in s.iter_mut().enumerate() {
        *x = i as u64 + 1;
    }
}

// What has become of it.
fn state(s: &[u64]) -> &'static str {
    if s.iter().enumerate().all(|(i, x)| *x == i as u64 + 1) {
        "kept"
    } else if s.iter().all(|x| *x == 0) {
        "zero"
    } else {
        "changed"
    }
}

// The bytes of a model up to its length, with a + behind them where another is not 0.
fn print_model<W: Write>(out: &mut W, h: &Head) -> Result<()> {
    let (model, rest) = h.model.split_at(h.model_length.min(512));
    for b in model {
        write!(out, "{b:02x}")?;
    }
    if rest.iter().all(|b| *b == 0) {
        write!(out, " ")
    } else {
        write!(out, "+ ")
    }
}

fn print_head<W: Write>(out: &mut W, h: Head) -> Result<()> {
    let c = h.config;
    let metric = c.metric;
    write!(
        out,
        "{} {} {} {} {} {} {} {} {} ",
        h.length,
        h.generation,
        h.sequence,
        c.dimensions,
        c.m,
        c.ef_construction,
        c.seed,
        metric.byte(),
        h.model_length
    )?;
    print_model(out, &h)?;
    write!(out, "{} {} ", h.segments, h.rows)
}

// Number and place, 0 and 0 where nothing is refused, then the head, or `-` on a refusal.
fn print_answer<W: Write>(
    out: &mut W,
    answer: std::result::Result<Head, Refused>,
    scratch: &[u64],
) -> Result<()> {
    match answer {
        Ok(head) => {
            write!(out, "0 0 ")?;
            print_head(out, head)?;
        }
        Err(refused) => write!(out, "{} {} - ", refused.number.number(), refused.place)?,
    }
    write!(out, "{} ", state(scratch))
}

// The most that a case has of scratch, of a name, and of a manifest's or its segments' bytes.
const SCRATCH: usize = 4096;

const NAME_BYTES: usize = 100;

const FILE_BYTES: usize = 65536;

// A number of the case's head.
fn number(head: &[u8; 20], at: usize) -> usize
    requires { at ≤ 16 }
{
    le::u32_at(head, at) as usize
}

// Reads and runs a case; whether there was one that fits.
fn case<R: Read, W: Write>(input: &mut R, out: &mut W, alloc: Global, place: u32) -> Result<bool> {
    let mut head = [0u8; 20];
    if replay::fill(input, &mut head) < 20 {
        return Ok(false);
    }
    let expected_crc = le::u32_at(&head, 0);
    let room = number(&head, 4);
    let n = number(&head, 8);
    let m = number(&head, 12);
    let s = number(&head, 16);
    if SCRATCH < room || NAME_BYTES < n || FILE_BYTES < m || FILE_BYTES < s {
        return Ok(false);
    }
    let mut scratch = vec![in alloc; 0; room]?;
    let name = replay::bytes(input, alloc, n)?;
    let manifest = replay::bytes(input, alloc, m)?;
    let segments = replay::bytes(input, alloc, s)?;
    write!(out, "{place} ")?;
    fill(&mut scratch);
    let r = manifest::check(&manifest, expected_crc, &mut scratch);
    print_answer(out, r, &scratch)?;
    fill(&mut scratch);
    let r = segment::check(&manifest, expected_crc, &mut scratch, &segments);
    print_answer(out, r, &scratch)?;
    out.write_all(&name)?;
    writeln!(out)?;
    Ok(true)
}

fn run<R: Read, W: Write>(input: &mut R, out: &mut W, alloc: Global) -> Result<()> {
    for place in 0..10000 {
        if !case(input, out, alloc, place)? {
            break;
        }
        // a case is answered before the next is waited for
        out.flush()?;
    }
    Ok(())
}

fn main(rt: HostRuntime) -> Result<()> {
    let alloc = rt.alloc();
    let mut input = BufReader::new(alloc, rt.stdin())?;
    let mut out = BufWriter::new(alloc, rt.stdout())?;
    replay::end(run(&mut input, &mut out, alloc))
}
