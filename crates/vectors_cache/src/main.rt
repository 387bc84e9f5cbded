// Sizing, preparing, opening and building, replayed on good and changed libraries and caches. The input is a row of cases: the two
// options (u64 each), 14 numbers (u32 each), then the name, manifest, segments, platform, root and cache. make/cases.py says what the
// numbers are and what is printed of each case.
#![tactic(auto)]

ghost use Rattle.std.specs.Prelude.{◌≤◌};

use cache_format::{Location, Options};
use config::Refused;
use format::Head;
use prepare::Info;
use std::alloc::Global;
use std::io::{BufReader, BufWriter, Read, Result, Write};

// The CRC-32 of s.
fn print_sum<W: Write>(out: &mut W, s: &[u8]) -> Result<()> {
    write!(out, "{:08x} ", crc32::crc32(s))
}

fn print_kept<W: Write>(out: &mut W, kept: bool) -> Result<()> {
    if kept {
        write!(out, "kept ")
    } else {
        write!(out, "changed ")
    }
}

// Number and place; 0 and 0 where nothing is refused.
fn print_refusal<T, W: Write>(out: &mut W, answer: &std::result::Result<T, Refused>) -> Result<()> {
    match answer {
        Ok(_) => write!(out, "0 0 "),
        Err(refused) => write!(out, "{} {} ", refused.number.number(), refused.place),
    }
}

// ---- What is lent, and whether it is still so from an element on.

// The scratch: 1, 2, 3 ..
fn fill(s: &mut [u64]) {
    for (i, x) in s.iter_mut().enumerate() {
        *x = i as u64 + 1;
    }
}

fn print_scratch<W: Write>(out: &mut W, s: &[u64]) -> Result<()> {
    if s.iter().enumerate().all(|(i, x)| *x == i as u64 + 1) {
        writeln!(out, "kept")
    } else if s.iter().all(|x| *x == 0) {
        writeln!(out, "zero")
    } else {
        writeln!(out, "changed")
    }
}

// A byte of the cache, by its place.
fn pattern(i: usize) -> u8 {
    (i % 251) as u8
}

// An element of the resident rows.
trait Element: Copy + PartialEq {
    // What no encoder makes: what is lent is filled with it.
    const UNWRITTEN: Self;

    // Adds the element's bytes, which are summed.
    fn put(self, bytes: &mut Vec<u8>) -> Result<()>;
}

// A code, as it stands in a cache.
impl Element for i8 {
    const UNWRITTEN: i8 = -128;

    fn put(self, bytes: &mut Vec<u8>) -> Result<()> {
        bytes.extend_from_slice(&self.to_le_bytes())?;
        Ok(())
    }
}

// A scale; all ones for a NaN, which no scale is.
impl Element for f64 {
    const UNWRITTEN: f64 = -1.5;

    fn put(self, bytes: &mut Vec<u8>) -> Result<()> {
        let bits = if self.is_nan() {
            u64::MAX
        } else {
            self.to_bits()
        };
        bytes.extend_from_slice(&bits.to_le_bytes())?;
        Ok(())
    }
}

// A norm.
impl Element for i64 {
    const UNWRITTEN: i64 = -7;

    fn put(self, bytes: &mut Vec<u8>) -> Result<()> {
        bytes.extend_from_slice(&self.to_le_bytes())?;
        Ok(())
    }
}

// ---- The head of a state; `-` on a refusal.

fn print_head<W: Write>(out: &mut W, head: Option<Head>) -> Result<()> {
    let Some(h) = head else {
        return write!(out, "- ");
    };
    let c = h.config;
    let metric = c.metric;
    write!(
        out,
        "{} {} {} {} {} {} {} {} {} ",
        h.length,
        h.generation,
        h.sequence,
        c.dimensions,
        c.m,
        c.ef_construction,
        c.seed,
        metric.byte(),
        h.model_length
    )?;
    print_sum(out, &h.model)?;
    write!(out, "{} {} ", h.segments, h.rows)
}

// ---- A case: its name, and what it lends to be read.

#[derive(Drop)]
struct Case {
    name: Vec<u8>,
    options: Options,
    expected_crc: u32,
    manifest: Vec<u8>,
    segments: Vec<u8>,
    platform: Vec<u8>,
    root: Vec<u8>,
    cache: Vec<u8>,
}

fn location(c: &Case) -> Location<'_> {
    Location {
        platform: &c.platform,
        root: &c.root,
    }
}

fn size<W: Write>(out: &mut W, c: &Case, scratch: &mut [u64]) -> Result<()> {
    write!(out, "size ")?;
    fill(scratch);
    let r = quantized_cache::size(&c.manifest, c.expected_crc, scratch, location(c), c.options);
    print_refusal(out, &r)?;
    write!(out, "{} ", r.unwrap_or(0))?;
    print_scratch(out, scratch)
}

fn open<W: Write>(out: &mut W, c: &Case, scratch: &mut [u64], cache: &[u8]) -> Result<()> {
    write!(out, "open ")?;
    fill(scratch);
    let r = quantized_cache::open(
        &c.manifest,
        c.expected_crc,
        scratch,
        cache,
        location(c),
        c.options,
    );
    print_refusal(out, &r)?;
    match r {
        Ok(state) => {
            write!(out, "{} ", state.cache)?;
            print_head(out, Some(state.head))?;
        }
        Err(_) => {
            write!(out, "0 ")?;
            print_head(out, None)?;
        }
    }
    print_scratch(out, scratch)
}

// The first n bytes are the cache. Its own CRC-32 is summed apart: the sum of a whole sealed cache is one number for all.
fn print_cache<W: Write>(out: &mut W, s: &[u8], n: usize) -> Result<()> {
    let end = n.min(s.len());
    let (body, sum) = s[..end].split_at(end.saturating_sub(4));
    print_sum(out, body)?;
    print_sum(out, sum)?;
    print_kept(
        out,
        s.iter()
            .enumerate()
            .skip(end)
            .all(|(i, b)| *b == pattern(i)),
    )
}

fn print_info<W: Write>(out: &mut W, info: Info, cache: &[u8]) -> Result<()> {
    write!(
        out,
        "{} {} {} {} {} ",
        info.generation, info.sequence, info.cache_bytes, info.code_bytes, info.parameter_bytes
    )?;
    print_cache(out, cache, info.cache_bytes)
}

// Prepares a cache; the length that is returned.
fn prepare<W: Write>(
    out: &mut W,
    c: &Case,
    scratch: &mut [u64],
    cache: &mut [u8],
) -> Result<usize> {
    write!(out, "prepare ")?;
    fill(scratch);
    for (i, b) in cache.iter_mut().enumerate() {
        *b = pattern(i);
    }
    let r = prepare::prepare(
        &c.manifest,
        c.expected_crc,
        scratch,
        &c.segments,
        location(c),
        c.options,
        cache,
    );
    print_refusal(out, &r)?;
    let info = r.unwrap_or(Info {
        generation: 0,
        sequence: 0,
        cache_bytes: 0,
        code_bytes: 0,
        parameter_bytes: 0,
    });
    print_info(out, info, cache)?;
    print_scratch(out, scratch)?;
    Ok(info.cache_bytes)
}

// The whole of a small cache.
fn print_bytes<W: Write>(out: &mut W, s: &[u8]) -> Result<()> {
    if 256 < s.len() {
        return Ok(());
    }
    for b in s {
        write!(out, "{b:02x}")?;
    }
    writeln!(out)
}

// What building wrote in the first n elements, and whether it left the others.
fn print_part<T: Element, W: Write>(out: &mut W, alloc: Global, s: &[T], n: usize) -> Result<()> {
    let (written, rest) = s.split_at(n.min(s.len()));
    let mut bytes = Vec::new(alloc);
    for x in written {
        x.put(&mut bytes)?;
    }
    print_sum(out, &bytes)?;
    print_kept(out, rest.iter().all(|x| *x == T::UNWRITTEN))
}

fn build<W: Write>(
    out: &mut W,
    alloc: Global,
    c: &Case,
    scratch: &mut [u64],
    codes: &mut [i8],
    scales: &mut [f64],
    norms: &mut [i64],
) -> Result<()> {
    write!(out, "build ")?;
    fill(scratch);
    let r = resident::build(
        &c.manifest,
        c.expected_crc,
        scratch,
        &c.segments,
        codes,
        scales,
        norms,
    );
    print_refusal(out, &r)?;
    let (rows, dimensions) = match r {
        Ok(state) => {
            let head = state.head;
            write!(out, "{} {} {} ", state.codes, state.scales, state.norms)?;
            print_head(out, Some(head))?;
            (head.rows, head.config.dimensions)
        }
        Err(_) => {
            write!(out, "0 0 0 ")?;
            print_head(out, None)?;
            (0, 0)
        }
    };
    print_part(out, alloc, codes, rows.saturating_mul(dimensions))?;
    print_part(out, alloc, scales, rows)?;
    print_part(out, alloc, norms, rows)?;
    print_scratch(out, scratch)
}

// ---- Reading.

// The most that a case has of scratch, rows, names, and bytes and codes of each kind.
const SCRATCH: usize = 4096;

const ROWS: usize = 4096;

const CODES: usize = 65536;

const NAME_BYTES: usize = 100;

const MANIFEST_BYTES: usize = 65536;

const SEGMENT_BYTES: usize = 131072;

const ROOT_BYTES: usize = 1048577;

const CACHE_BYTES: usize = 65536;

// And of room for a cache that is prepared.
const ROOM: usize = 1114112;

// A number of the case's head, or the most that it may be.
fn number(head: &[u8; 72], at: usize, most: usize) -> usize
    requires { at ≤ 68 }
{
    most.min(le::u32_at(head, at) as usize)
}

fn read<R: Read>(input: &mut R, alloc: Global, head: &[u8; 72]) -> Result<Case> {
    let name = replay::bytes(input, alloc, number(head, 28, NAME_BYTES))?;
    let manifest = replay::bytes(input, alloc, number(head, 32, MANIFEST_BYTES))?;
    let segments = replay::bytes(input, alloc, number(head, 36, SEGMENT_BYTES))?;
    let platform = replay::bytes(input, alloc, number(head, 40, NAME_BYTES))?;
    let mut root = replay::bytes(input, alloc, number(head, 44, ROOT_BYTES))?;
    let cache = replay::bytes(input, alloc, number(head, 52, CACHE_BYTES))?;

    // The root is what was read of it and then zeros.
    root.resize(number(head, 48, ROOT_BYTES), 0)?;
    let options = Options {
        max_cache_bytes: le::u64_at(head, 0) as usize,
        buffer_bytes: le::u64_at(head, 8) as usize,
    };
    let expected_crc = le::u32_at(head, 16);
    Ok(Case {
        name,
        options,
        expected_crc,
        manifest,
        segments,
        platform,
        root,
        cache,
    })
}

// Runs a case: lends as much to be written as its head says.
fn replay<W: Write>(out: &mut W, alloc: Global, head: &[u8; 72], c: &Case) -> Result<()> {
    let mut scratch = vec![in alloc; 0; number(head, 20, SCRATCH)]?;
    let mut opening_scratch = vec![in alloc; 0; number(head, 24, SCRATCH)]?;
    let mut room = vec![in alloc; 0; number(head, 56, ROOM)]?;
    let mut codes = vec![in alloc; i8::UNWRITTEN; number(head, 60, CODES)]?;
    let mut scales = vec![in alloc; f64::UNWRITTEN; number(head, 64, ROWS)]?;
    let mut norms = vec![in alloc; i64::UNWRITTEN; number(head, 68, ROWS)]?;

    out.write_all(&c.name)?;
    writeln!(out)?;
    size(out, c, &mut scratch)?;
    let prepared = prepare(out, c, &mut scratch, &mut room)?;
    room.truncate(prepared);
    if !room.is_empty() {
        print_bytes(out, &room)?;
        open(out, c, &mut opening_scratch, &room)?;
    }
    open(out, c, &mut opening_scratch, &c.cache)?;
    build(
        out,
        alloc,
        c,
        &mut scratch,
        &mut codes,
        &mut scales,
        &mut norms,
    )
}

fn run<R: Read, W: Write>(input: &mut R, out: &mut W, alloc: Global) -> Result<()> {
    for place in 0..10000 {
        let mut head = [0u8; 72];
        if replay::fill(input, &mut head) < 72 {
            break;
        }
        let c = read(input, alloc, &head)?;
        write!(out, "{place} ")?;
        replay(out, alloc, &head, &c)?;
        // a case is answered before the next is waited for
        out.flush()?;
    }
    Ok(())
}

fn main(rt: HostRuntime) -> Result<()> {
    let alloc = rt.alloc();
    let mut input = BufReader::new(alloc, rt.stdin())?;
    let mut out = BufWriter::new(alloc, rt.stdout())?;
    replay::end(run(&mut input, &mut out, alloc))
}
