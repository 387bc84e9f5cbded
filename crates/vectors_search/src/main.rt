// Searches and refusals, replayed on libraries of the Rust's. The input is a row of libraries, each with the commands that follow it:
// changes of what is lent, and calls. make/cases.py says how they are laid out and what is printed of each.
#![tactic(auto)]

ghost use Rattle.std.specs.Prelude.{◌≡◌, ◌+◌, ◌≤◌, IfOk, vec_len};

use cache_format::{Location, Options};
use config::Refused;
use kept::{Cached, Kept, Resident};
use quantized_cache::CacheState;
use resident::ResidentState;
use search_spec::{Answers, Call, Place, Report, Work};
use std::alloc::Global;
use std::io::{BufReader, BufWriter, Read, Result, Write};
use std::num::f32_from_bits_with_nan;

// What a check, an opening, a building or a call refuses; 0 at 0 is nothing.
fn print_refusal<W: Write, T>(out: &mut W, answer: &std::result::Result<T, Refused>) -> Result<()> {
    match answer {
        Ok(_) => write!(out, "0 0 "),
        Err(refused) => write!(out, "{} {} ", refused.number.number(), refused.place),
    }
}

// The most bytes of the name of a library or a call.
const NAME_BYTES: usize = 100;

fn print_name<R: Read, W: Write>(
    input: &mut R,
    out: &mut W,
    alloc: Global,
    n: usize,
) -> Result<()> {
    let name = replay::bytes(input, alloc, n)?;
    out.write_all(&name)?;
    write!(out, ": ")
}

// ---- What is lent to be written, each slice filled with one value, and what has become of it: k where it is as it was lent, z where it
// is all zero, x otherwise, and - where it is empty.

const KEYS: u64 = 9223372036854775807;

const CANDIDATES: u64 = 9223372036854775806;

const WORK: u64 = 9223372036854775805;

const IDS: u64 = 9223372036854775804;

// No case has this distance.
const DISTANCES: f64 = -1.0e100;

const ROWS: u64 = 9223372036854775803;

const STARTS: u64 = 9223372036854775802;

const LENGTHS: u32 = 4294967294;

// The most elements of the slice of ids that are sorted, and of each other.
const WORK_ROOM: usize = 1024;

const ROOM: usize = 512;

#[derive(Drop)]
struct Written {
    keys: Vec<u64>,
    candidates: Vec<u64>,
    work: Vec<u64>,
    ids: Vec<u64>,
    distances: Vec<f64>,
    rows: Vec<u64>,
    starts: Vec<u64>,
    lengths: Vec<u32>,
}

// What a command lends.
fn lent(alloc: Global, head: &[u8; 112]) -> Result<Written> {
    Ok(Written {
        keys: vec![in alloc; KEYS; number(head, 48, ROOM)]?,
        candidates: vec![in alloc; CANDIDATES; number(head, 52, ROOM)]?,
        work: vec![in alloc; WORK; number(head, 56, WORK_ROOM)]?,
        ids: vec![in alloc; IDS; number(head, 60, ROOM)]?,
        distances: vec![in alloc; DISTANCES; number(head, 64, ROOM)]?,
        rows: vec![in alloc; ROWS; number(head, 68, ROOM)]?,
        starts: vec![in alloc; STARTS; number(head, 72, ROOM)]?,
        lengths: vec![in alloc; LENGTHS; number(head, 76, ROOM)]?,
    })
}

// Of an answer slice, from the count on.
fn rest<T: Copy + PartialEq>(s: &[T], value: T, count: usize) -> char {
    if s.iter().skip(count).all(|x| *x == value) {
        'k'
    } else {
        'x'
    }
}

// Of a working slice.
fn work(s: &[u64], value: u64) -> char {
    if s.is_empty() {
        '-'
    } else if s.iter().all(|x| *x == 0) {
        'z'
    } else {
        rest(s, value, 0)
    }
}

impl Written {
    fn place(&self, i: usize) -> Option<Place> {
        Some(Place {
            id: *self.ids.get(i)?,
            distance: *self.distances.get(i)?,
            row: *self.rows.get(i)?,
            start: *self.starts.get(i)?,
            length: *self.lengths.get(i)?,
        })
    }

    // The slices, and so many places: the first 16 as they are, and where there are more, the CRC-32 of all.
    fn print<W: Write>(&self, out: &mut W, alloc: Global, count: usize) -> Result<()> {
        writeln!(
            out,
            "{}{}{}{}{} {}{}{}",
            rest(&self.ids, IDS, count),
            rest(&self.distances, DISTANCES, count),
            rest(&self.rows, ROWS, count),
            rest(&self.starts, STARTS, count),
            rest(&self.lengths, LENGTHS, count),
            work(&self.keys, KEYS),
            work(&self.candidates, CANDIDATES),
            work(&self.work, WORK)
        )?;
        let mut sum = Vec::new(alloc);
        for i in 0..count {
            let Some(place) = self.place(i) else {
                break;
            };
            put_place(&mut sum, place)?;
            if i < 16 {
                print_place(out, place)?;
            }
        }
        if 16 * 36 < sum.len() {
            writeln!(out, "  sum {:08x}", crc32::crc32(&sum))?;
        }
        Ok(())
    }
}

// The bits of a distance; all ones for a NaN, which no distance is.
fn bits(x: f64) -> u64 {
    if x.is_nan() { u64::MAX } else { x.to_bits() }
}

fn print_place<W: Write>(out: &mut W, p: Place) -> Result<()> {
    writeln!(
        out,
        "  {} {:016x} {} {} {}",
        p.id,
        bits(p.distance),
        p.row,
        p.start,
        p.length
    )
}

// A place as 36 bytes.
fn put_place(bytes: &mut Vec<u8>, p: Place) -> Result<()>
    ensures { IfOk result (λ _. vec_len bytes.new ≡ vec_len bytes.old + 36) }
{
    bytes.extend_from_slice(&p.id.to_le_bytes())?;
    bytes.extend_from_slice(&bits(p.distance).to_le_bytes())?;
    bytes.extend_from_slice(&p.row.to_le_bytes())?;
    bytes.extend_from_slice(&p.start.to_le_bytes())?;
    bytes.extend_from_slice(&p.length.to_le_bytes())?;
    Ok(())
}

// ---- A library: what is lent of it to be read. Each slice has zeros behind what was read or built, which a call may lend too.

// The lengths of these slices, and so the most that is read or built.
const MANIFEST_BYTES: usize = 32768;

const SEGMENT_BYTES: usize = 49152;

const CACHE_BYTES: usize = 32768;

const CODES: usize = 12288;

const PARAMETERS: usize = 512;

// The most bytes of platform and root.
const PLATFORM_BYTES: usize = 64;

const ROOT_BYTES: usize = 256;

#[derive(Drop)]
struct Library {
    manifest: Vec<u8>,
    segments: Vec<u8>,
    cache: Vec<u8>,
    codes: Vec<i8>,
    scales: Vec<f64>,
    norms: Vec<i64>,
    opened: CacheState,
    built: ResidentState,
}

// ---- A call.

fn print_report<W: Write>(out: &mut W, r: Report) -> Result<()> {
    write!(
        out,
        "{} {} {} {} {} {} {} ",
        r.generation,
        r.sequence,
        r.eligible,
        r.measured,
        u8::from(r.complete),
        u8::from(r.approximate),
        r.count
    )
}

// Runs and prints a search, or an agreement count where one is asked for; returns how many places are looked at. A count does not
// return that of places: the command says it.
fn run<K: Kept, W: Write>(
    out: &mut W,
    kept: K,
    call: &Call<'_>,
    places: Option<usize>,
    w: &mut Written,
) -> Result<usize> {
    let n = if call.wanted.is_some() {
        w.work.len()
    } else {
        0
    };
    let mut work = Work {
        keys: &mut w.keys,
        candidates: &mut w.candidates,
        ids: &mut w.work[..n],
    };
    let mut answers = Answers {
        ids: &mut w.ids,
        distances: &mut w.distances,
        rows: &mut w.rows,
        starts: &mut w.starts,
        lengths: &mut w.lengths,
    };
    if let Some(count) = places {
        let r = search::agreement(kept, call, &mut work, &mut answers);
        print_refusal(out, &r)?;
        write!(out, "{} ", r.unwrap_or(0))?;
        return Ok(count);
    }
    let r = search::search(kept, call, &mut work, &mut answers);
    print_refusal(out, &r)?;
    let report = r.unwrap_or(Report {
        generation: 0,
        sequence: 0,
        eligible: 0,
        measured: 0,
        complete: false,
        approximate: false,
        count: 0,
    });
    print_report(out, report)?;
    Ok(report.count)
}

// The most numbers of a query, and ids that are read, or lent without.
const QUERY: usize = 256;

const WANTED: usize = 1024;

const MANY: usize = 1000001;

// A number of a command, as it is, or at most so much.
fn length_at(head: &[u8; 112], at: usize) -> usize
    requires { at ≤ 108 }
{
    le::u32_at(head, at) as usize
}

fn number(head: &[u8; 112], at: usize, most: usize) -> usize
    requires { at ≤ 108 }
{
    length_at(head, at).min(most)
}

// As many of s as a command says, or all.
fn part<T>(s: &[T], n: usize) -> &[T] {
    &s[..n.min(s.len())]
}

// The length that a state is made to hold: 0 says as returned.
fn other_than(x: usize, other: usize) -> usize {
    if other == 0 { x } else { other }
}

fn load_query(alloc: Global, bytes: &[u8]) -> Result<Vec<f32>> {
    let mut query = Vec::new(alloc);
    for b in bytes.chunks_exact(4) {
        query.push(f32_from_bits_with_nan(le::u32_at(b, 0)))?;
    }
    Ok(query)
}

fn load_ids(alloc: Global, bytes: &[u8]) -> Result<Vec<u64>> {
    let mut ids = Vec::new(alloc);
    for b in bytes.chunks_exact(8) {
        ids.push(le::u64_at(b, 0))?;
    }
    Ok(ids)
}

// Of all ids, or of those handed in.
fn call_of<'a>(
    library: &'a Library,
    wanted: Option<&'a [u64]>,
    query: &'a [f32],
    head: &[u8; 112],
) -> Call<'a> {
    Call {
        manifest: part(&library.manifest, number(head, 24, MANIFEST_BYTES)),
        segments: part(&library.segments, number(head, 28, SEGMENT_BYTES)),
        wanted,
        query,
        k: le::u64_at(head, 8) as usize,
        limit: le::u64_at(head, 16) as usize,
    }
}

// Reads and runs a call.
fn replay<R: Read, W: Write>(
    input: &mut R,
    out: &mut W,
    alloc: Global,
    library: &Library,
    head: &[u8; 112],
) -> Result<()> {
    print_name(input, out, alloc, number(head, 92, NAME_BYTES))?;
    let n = number(head, 80, QUERY);
    let query = load_query(alloc, &replay::bytes(input, alloc, n.saturating_mul(4))?)?;
    let wanted = if le::u32_at(head, 0) == 3 {
        vec![in alloc; 7; number(head, 84, MANY)]?
    } else {
        let n = number(head, 84, WANTED);
        load_ids(alloc, &replay::bytes(input, alloc, n.saturating_mul(8))?)?
    };
    let kind = le::u32_at(head, 4);
    let wanted = if kind & 1 == 0 {
        None
    } else {
        Some(wanted.as_slice())
    };
    let call = call_of(library, wanted, &query, head);
    let places = if kind & 4 == 0 {
        None
    } else {
        Some(number(head, 88, ROOM))
    };
    let mut written = lent(alloc, head)?;
    let count = if kind & 2 == 0 {
        let cached = Cached {
            state: CacheState {
                head: library.opened.head,
                cache: other_than(library.opened.cache, length_at(head, 96)),
            },
            cache: part(&library.cache, number(head, 32, CACHE_BYTES)),
        };
        run(out, cached, &call, places, &mut written)?
    } else {
        let resident = Resident {
            state: ResidentState {
                head: library.built.head,
                codes: other_than(library.built.codes, length_at(head, 100)),
                scales: other_than(library.built.scales, length_at(head, 104)),
                norms: other_than(library.built.norms, length_at(head, 108)),
            },
            codes: part(&library.codes, number(head, 36, CODES)),
            scales: part(&library.scales, number(head, 40, PARAMETERS)),
            norms: part(&library.norms, number(head, 44, PARAMETERS)),
        };
        run(out, resident, &call, places, &mut written)?
    };
    written.print(out, alloc, count)
}

// ---- A change of what is lent: some bytes, or an element.

fn change_bytes<R: Read>(input: &mut R, s: &mut [u8], at: usize, n: usize) {
    let start = at.min(s.len());
    let stop = start + n.min(s.len() - start);
    replay::fill(input, &mut s[start..stop]);
}

fn change_element<T: Copy>(s: &mut [T], at: usize, x: T) {
    if let Some(element) = s.get_mut(at) {
        *element = x;
    }
}

fn change<R: Read>(input: &mut R, library: &mut Library, head: &[u8; 112]) {
    let at = length_at(head, 24);
    let n = length_at(head, 28);
    let bits = le::u64_at(head, 8);
    match le::u32_at(head, 4) {
        0 => change_bytes(input, &mut library.manifest, at, n),
        1 => change_bytes(input, &mut library.segments, at, n),
        2 => change_bytes(input, &mut library.cache, at, n),
        3 => change_element(&mut library.codes, at, i8::from_le_bytes([head[8]])),
        4 => change_element(&mut library.scales, at, float::Pattern::value(bits)),
        _ => change_element(&mut library.norms, at, le::signed(bits)),
    }
}

// ---- A library and its commands.

fn commands<R: Read, W: Write>(
    input: &mut R,
    out: &mut W,
    alloc: Global,
    library: &mut Library,
) -> Result<()> {
    for _ in 0..10000 {
        let mut head = [0u8; 112];
        if replay::fill(input, &mut head) < 112 {
            break;
        }
        match le::u32_at(&head, 0) {
            0 => break,
            2 => change(input, library, &head),
            _ => replay(input, out, alloc, library, &head)?,
        }
        // a command is answered before the next is waited for
        out.flush()?;
    }
    Ok(())
}

fn default_options() -> Options {
    Options {
        max_cache_bytes: 1073741824,
        buffer_bytes: 1048576,
    }
}

// A number of a library, or the most that it may be.
fn length(head: &[u8; 40], at: usize, most: usize) -> usize
    requires { at ≤ 36 }
{
    most.min(le::u32_at(head, at) as usize)
}

// Reads, checks, opens and builds a library.
fn read_library<R: Read, W: Write>(
    input: &mut R,
    out: &mut W,
    alloc: Global,
    head: &[u8; 40],
) -> Result<Library> {
    print_name(input, out, alloc, length(head, 36, NAME_BYTES))?;
    let mut manifest = replay::bytes(input, alloc, length(head, 0, MANIFEST_BYTES))?;
    let mut segments = replay::bytes(input, alloc, length(head, 4, SEGMENT_BYTES))?;
    let mut cache = replay::bytes(input, alloc, length(head, 8, CACHE_BYTES))?;
    let platform = replay::bytes(input, alloc, length(head, 12, PLATFORM_BYTES))?;
    let root = replay::bytes(input, alloc, length(head, 16, ROOT_BYTES))?;
    let expected_crc = le::u32_at(head, 20);
    let mut codes = vec![in alloc; 0; length(head, 24, CODES)]?;
    let mut scales = vec![in alloc; 0.0; length(head, 28, PARAMETERS)]?;
    let mut norms = vec![in alloc; 0; length(head, 32, PARAMETERS)]?;
    let mut scratch = vec![in alloc; 0; 512]?;

    let r = segment::check(&manifest, expected_crc, &mut scratch, &segments);
    print_refusal(out, &r)?;
    let location = Location {
        platform: &platform,
        root: &root,
    };
    let opened = quantized_cache::open(
        &manifest,
        expected_crc,
        &mut scratch,
        &cache,
        location,
        default_options(),
    );
    print_refusal(out, &opened)?;
    let built = resident::build(
        &manifest,
        expected_crc,
        &mut scratch,
        &segments,
        &mut codes,
        &mut scales,
        &mut norms,
    );
    print_refusal(out, &built)?;
    writeln!(out)?;
    out.flush()?;
    manifest.resize(MANIFEST_BYTES, 0)?;
    segments.resize(SEGMENT_BYTES, 0)?;
    cache.resize(CACHE_BYTES, 0)?;
    codes.resize(CODES, 0)?;
    scales.resize(PARAMETERS, 0.0)?;
    norms.resize(PARAMETERS, 0)?;
    Ok(Library {
        manifest,
        segments,
        cache,
        codes,
        scales,
        norms,
        opened: opened.unwrap_or(CacheState {
            head: format::zero_head(),
            cache: 0,
        }),
        built: built.unwrap_or(ResidentState {
            head: format::zero_head(),
            codes: 0,
            scales: 0,
            norms: 0,
        }),
    })
}

fn libraries<R: Read, W: Write>(input: &mut R, out: &mut W, alloc: Global) -> Result<()> {
    for _ in 0..10000 {
        let mut head = [0u8; 40];
        if replay::fill(input, &mut head) < 40 {
            break;
        }
        let mut library = read_library(input, out, alloc, &head)?;
        commands(input, out, alloc, &mut library)?;
    }
    Ok(())
}

fn main(rt: HostRuntime) -> Result<()> {
    let alloc = rt.alloc();
    let mut input = BufReader::new(alloc, rt.stdin())?;
    let mut out = BufWriter::new(alloc, rt.stdout())?;
    replay::end(libraries(&mut input, &mut out, alloc))
}
