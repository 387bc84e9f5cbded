// The list program's output, from the bytes of its files.
#![tactic(auto)]

ghost use Rattle.std.specs.Prelude.{◌≡◌, ◌≤◌, length};
ghost use Rattle.io.specs.Counts.{IsPrefixLen};
ghost use Rattle.text.specs.Put.{Put};
ghost use Rattle.format.specs.Fields.{stored_crc};
ghost use Rattle.quantized_cache.specs.Open.{open_outcome};
ghost use Rattle.search_spec.specs.Lent.{call_of, wanted_of};
ghost use Rattle.search_spec.specs.Kept.{cached};
ghost use Rattle.listing_text.specs.Listing.{most_places, listing_bytes};
ghost use Rattle.listing_input.specs.Files.{files_of, all_of};
ghost use Rattle.listing_input.specs.Parts.{max_file_bytes};
ghost use Rattle.listing.specs.Output.{admitted, lent_answers, lent_work, call_on, answer_text, list_answer as answer_of, output};

use cache_format::{Location, Options};
use config::Refused;
use kept::Cached;
use listing_input::{Input, InputError, Whole};
use listing_text::{LISTING_BYTES, MOST_PLACES};
use quantized_cache::CacheState;
use search_spec::{Answers, Call, Work};
use text::Writer;

// The f32s of a QUERY of 65,536 bytes.
const MOST_VALUES: usize = 16_384;

// The CRC-32 that a manifest ends in; one that is too short for it is refused whatever is expected.
fn own_crc(m: &[u8]) -> u32
    ensures { 4 ≤ length m.now → result ≡ stored_crc m.now }
{
    if m.len() < 4 {
        return 0;
    }
    le::u32_at(m, m.len() - 4)
}

// The manifest's check, the segments' check and the opening, up to the first that refuses.
fn admit(
    manifest: &[u8],
    segments: &[u8],
    cache: &[u8],
    location: Location<'_>,
) -> Result<CacheState, Refused>
    ensures { open_outcome result ≡ admitted manifest.now segments.now cache.now location.entry.platform.now location.entry.root.now }
{
    let crc = own_crc(manifest);
    let mut scratch: [u64; MOST_PLACES] = text::zeros();
    manifest::check(manifest, crc, &mut scratch)?;
    segment::check(manifest, crc, &mut scratch, segments)?;
    quantized_cache::open(
        manifest,
        crc,
        &mut scratch,
        cache,
        location,
        Options::default(),
    )
}

// A search, and what is printed of it.
fn search(
    state: CacheState,
    manifest: &[u8],
    segments: &[u8],
    cache: &[u8],
    wanted: Option<&[u64]>,
    query: &[f32],
    k: usize,
    limit: usize,
    out: &mut [u8],
) -> usize
    requires { (length manifest.now ≤ max_file_bytes) × (listing_bytes ≤ length out.old) }
    ensures fact { let c = call_of manifest.now segments.now (wanted_of wanted.entry) query.now k limit lent_answers lent_work in
        let o = cached state cache.now c in
        Put out.old out.new 0 (answer_text o.refusal o.report o.list) result }
    ensures prefix_len { IsPrefixLen result out.new }
{
    let kept = Cached { state, cache };
    let call = Call {
        manifest,
        segments,
        wanted,
        query,
        k,
        limit,
    };
    let mut keys: [u64; MOST_PLACES] = text::zeros();
    let mut candidates: [u64; MOST_PLACES] = text::zeros();
    let mut work = Work {
        keys: &mut keys,
        candidates: &mut candidates,
        ids: &mut [],
    };
    let mut ids: [u64; MOST_PLACES] = text::zeros();
    let mut distances: [f64; MOST_PLACES] = text::zeros();
    let mut rows: [u64; MOST_PLACES] = text::zeros();
    let mut starts: [u64; MOST_PLACES] = text::zeros();
    let mut lengths: [u32; MOST_PLACES] = text::zeros();
    let mut answers = Answers {
        ids: &mut ids,
        distances: &mut distances,
        rows: &mut rows,
        starts: &mut starts,
        lengths: &mut lengths,
    };
    match search::search(kept, &call, &mut work, &mut answers) {
        Ok(report) => listing_text::write_listing(out, report, &ids, &distances, &rows),
        Err(refused) => listing_text::write_refusal(out, refused),
    }
}

// That of all ids, with QUERY and CALL as they are read.
fn find(state: CacheState, files: &Whole, out: &mut [u8]) -> usize
    requires { listing_bytes ≤ length out.old }
    ensures fact { let f = files.now in
        let o = cached state f.cache.now (call_on f.manifest.now f.segments.now f.query.now f.call.now) in
        Put out.old out.new 0 (answer_text o.refusal o.report o.list) result }
    ensures prefix_len { IsPrefixLen result out.new }
{
    let mut values: [f32; MOST_VALUES] = text::zeros();
    listing_input::read_query(files.query, &mut values);
    let n = files.query.len() / 4;
    let k = le::u32_at(files.call, 0);
    let limit = le::u32_at(files.call, 4);
    search(
        state,
        files.manifest,
        files.segments,
        files.cache,
        None,
        &values[..n],
        k as usize,
        limit as usize,
        out,
    )
}

// Of whole files: the admission, and the search if nothing is refused.
fn answer(files: &Whole, out: &mut [u8]) -> usize
    requires { listing_bytes ≤ length out.old }
    ensures put { Put out.old out.new 0 (answer_of (all_of files.now)) result }
    ensures prefix_len { IsPrefixLen result out.new }
{
    let n = files.newline;
    let from = n + 1;
    let location = Location {
        platform: &files.place[..n],
        root: &files.place[from..],
    };
    match admit(files.manifest, files.segments, files.cache, location) {
        Ok(state) => find(state, files, out),
        Err(refused) => listing_text::write_refusal(out, refused),
    }
}

// A line that is printed alone.
fn alone(out: &mut [u8], line: &[u8]) -> usize
    requires { length line.now ≤ length out.old }
    ensures put { Put out.old out.new 0 line.now result }
    ensures prefix_len { IsPrefixLen result out.new }
{
    let mut w = Writer::new(out);
    w.put_bytes(line);
    w.len()
}

// All that the list program prints; its length is returned.
pub fn list(files: &Input, out: &mut [u8; LISTING_BYTES]) -> usize
    ensures put { Put out.old out.new 0 (output (files_of files.now)) result }
    ensures prefix_len { IsPrefixLen result out.new }
{
    match listing_input::check_input(files) {
        Err(InputError::TooLong) => alone(out, b"too long\n"),
        Err(InputError::BadInput) => alone(out, b"bad input\n"),
        Ok(whole) => answer(&whole, out),
    }
}
