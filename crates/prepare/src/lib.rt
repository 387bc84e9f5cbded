// Preparing a cache: quantized_cache.rs's `prepare`, over lent slices. Every test goes before the first store.
#![tactic(auto)]

ghost use Rattle.std.specs.Prelude.{◌≡◌, true, ◌++◌, ◌+◌, ◌*◌, ◌≤◌, length, take, drop};
ghost use Rattle.config.specs.Told.{told};
ghost use Rattle.quantization.specs.Encoder.{base_levels, midpoints};
ghost use Rattle.format.specs.Fields.{rows_of, dimensions_of};
ghost use Rattle.crc32.specs.Crc.{crc32};
ghost use Rattle.le.specs.Le.{bytes, paste};
ghost use Rattle.manifest.specs.Scratch.{row_keys};
ghost use Rattle.manifest.specs.Check.{scratch_left};
ghost use Rattle.cache_format.specs.Cache.{row_length};
ghost use Rattle.quantized_cache.specs.Size.{size_of};
ghost use Rattle.encoded_rows.specs.Rows.{rows_bytes, lowest_bad};
ghost use Rattle.prepare.specs.Prepare.{store_refusal, cache_of, cache_after, info_of, outcome, prepared_accepted, prepared};

use cache_format::{Identity, Location, Options};
use config::{Number, Refused};
use format::Manifest;
use manifest::Accepted;
use quantization::Encoder;
use segment::Library;

// What was prepared: the Rust's `QuantizedCacheInfo`.
#[derive(Clone, Copy, Debug, PartialEq, Eq)]
pub struct Info {
    pub generation: u64,
    pub sequence: u64,
    pub cache_bytes: usize,
    pub code_bytes: usize,
    pub parameter_bytes: usize,
}

// The refusals after sizing's: the cache's room, then the lowest bad record.
#[tactic(auto, unfolding(crate::specs::Prepare::store_refusal))]
fn check_store(library: &Library<'_>, keys: &[u64], size: usize, room: usize) -> Result<(), Refused>
    requires { (keys.now ≡ row_keys library.now.manifest.bytes.now) }
    ensures { told result ≡ store_refusal library.now.manifest.bytes.now library.now.segments.now size room }
{
    if room < size {
        return Err(Refused {
            number: Number::Room,
            place: 0,
        });
    }
    encoded_rows::check_records(library, keys)
}

// The cache's CRC-32, behind all else.
pub fn put_crc(cache: &mut [u8], end: usize)
    requires { end + 4 ≤ length cache.old }
    ensures { cache.new ≡ paste cache.old end (bytes 4 (crc32 (take end cache.old))) }
{
    let crc = crc32::crc32(&cache[..end]);
    le::put_u32(cache, end, crc);
}

fn store_rows(library: &Library<'_>, cache: &mut [u8], at: usize)
    requires { (lowest_bad library.now.manifest.bytes.now library.now.segments.now ≡ rows_of library.now.manifest.bytes.now)
        × (at + rows_of library.now.manifest.bytes.now * row_length (dimensions_of library.now.manifest.bytes.now) ≤ length cache.old) }
    ensures { cache.new ≡ paste cache.old at (rows_bytes base_levels midpoints library.now.manifest.bytes.now library.now.segments.now (rows_of library.now.manifest.bytes.now)) }
{
    let table = quantization::midpoints_table();
    let encoder = Encoder::new(&table, quantization::BASE_LEVELS);
    let row = cache_format::row_length(library.manifest.layout.dimensions);
    encoded_rows::put_rows(library, &encoder, cache, at, row);
}

// Head, rows, CRC-32.
fn store(library: &Library<'_>, identity: Identity<'_>, cache: &mut [u8], size: usize)
    requires same { identity.manifest.now ≡ library.now.manifest.bytes.now }
    requires rows { (lowest_bad library.now.manifest.bytes.now library.now.segments.now ≡ rows_of library.now.manifest.bytes.now) }
    requires size { (size ≡ size_of library.now.manifest.bytes.now identity.location.platform.now identity.location.root.now) × (size ≤ length cache.old) }
    ensures { cache.new ≡ cache_of library.now.manifest.bytes.now library.now.segments.now identity.entry.location.platform.now identity.entry.location.root.now ++ drop size cache.old }
{
    let at = 16 + identity.len();
    identity.put_head(cache);
    store_rows(library, cache, at);
    put_crc(cache, size - 4);
}

fn info_of(m: Manifest<'_>, size: usize) -> Info
    ensures { result ≡ info_of m.entry.bytes.now size }
{
    Info {
        generation: m.generation(),
        sequence: m.sequence(),
        cache_bytes: size,
        code_bytes: m.layout.rows * m.layout.dimensions,
        parameter_bytes: m.layout.rows * 16,
    }
}

// After the manifest and sizing: 11 and 5, and then the stores.
#[tactic(auto, using(entries::proofs::Entries::lengths_of, crate::proofs::Stored::may_store, crate::proofs::Stored::cache_stays), unfolding(crate::specs::Prepare::cache_after))]
fn fill(
    accepted: Accepted<'_>,
    segments: &[u8],
    identity: Identity<'_>,
    cache: &mut [u8],
    size: usize,
) -> Result<(), Refused>
    requires same { identity.manifest.now ≡ accepted.manifest.bytes.now }
    requires size { size ≡ size_of accepted.manifest.bytes.now identity.location.platform.now identity.location.root.now }
    ensures told { told result ≡ store_refusal accepted.entry.manifest.bytes.now segments.now size (length cache.old) }
    ensures cache_after { cache.new ≡ cache_after accepted.entry.manifest.bytes.now segments.now identity.entry.location.platform.now identity.entry.location.root.now (told result) cache.old }
{
    let starts = segment::starts(accepted.manifest);
    let library = Library {
        manifest: accepted.manifest,
        metric: accepted.manifest.metric(),
        starts: &starts,
        segments,
    };
    check_store(&library, accepted.keys, size, cache.len())?;
    store(&library, identity, cache, size);
    Ok(())
}

// After the manifest.
#[tactic(auto, using(crate::proofs::Stored::cache_stays))]
fn prepare_accepted(
    accepted: Accepted<'_>,
    segments: &[u8],
    location: Location<'_>,
    options: Options,
    cache: &mut [u8],
) -> Result<Info, Refused>
    ensures answer { outcome result ≡ prepared_accepted accepted.entry.manifest.bytes.now segments.now location.entry.platform.now location.entry.root.now options (length cache.old) }
    ensures cache_after { cache.new ≡ cache_after accepted.entry.manifest.bytes.now segments.now location.entry.platform.now location.entry.root.now (told result) cache.old }
{
    let size = quantized_cache::sizing(accepted.manifest, location, options)?;
    let identity = Identity {
        location,
        manifest: accepted.manifest.bytes,
    };
    fill(accepted, segments, identity, cache, size)?;
    Ok(info_of(accepted.manifest, size))
}

#[tactic(auto, using(manifest::proofs::Passed::accepted))]
pub fn prepare(
    manifest: &[u8],
    expected_crc: u32,
    scratch: &mut [u64],
    segments: &[u8],
    location: Location<'_>,
    options: Options,
    cache: &mut [u8],
) -> Result<Info, Refused>
    ensures { (outcome result ≡ prepared manifest.now expected_crc (length scratch.old) segments.now location.entry.platform.now location.entry.root.now options (length cache.old))
        × (cache.new ≡ cache_after manifest.now segments.now location.entry.platform.now location.entry.root.now (told result) cache.old)
        × (scratch.new ≡ scratch_left manifest.now expected_crc scratch.old) }
{
    let m = manifest::accept(manifest, expected_crc, scratch)?;
    let rows = m.layout.rows;
    let accepted = Accepted {
        manifest: m,
        keys: &scratch[..rows],
    };
    let prepared = prepare_accepted(accepted, segments, location, options, cache);
    le::clear(scratch);
    prepared
}
