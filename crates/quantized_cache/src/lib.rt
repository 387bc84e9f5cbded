// A cache of quantized rows: quantized_cache.rs's sizing and `CachedQuantizedSnapshot::open`, over lent slices.
#![tactic(auto)]

ghost use Rattle.std.specs.Prelude.{◌≡◌, ◌≤◌, ◌<◌, length, IfOk};
ghost use Rattle.config.specs.Told.{told, numbered, found};
ghost use Rattle.quantization.specs.Encoder.{Levels, base_levels};
ghost use Rattle.format.specs.Fields.{dimensions_of, rows_of, metric_at};
ghost use Rattle.manifest.specs.Check.{scratch_left};
ghost use Rattle.quantized_cache.specs.Size.{sizing_of, size_of, size_number, size_outcome, sized};
ghost use Rattle.codes.specs.Codes.{codes};
ghost use Rattle.row.specs.Read.{read_of};
ghost use Rattle.quantized_cache.specs.Open.{row_start, RoomFor, cached_at, bad_row, content_refusal, open_number, cache_length_ok, open_outcome, opened};

use cache_format::{Identity, Location, Options};
use config::{Metric, Number, Refused};
use format::{Head, Manifest};
use quantization::Row;

// What opening hands to a search: the manifest's head and the cache's length.
#[derive(Clone, Copy)]
pub struct CacheState {
    pub head: Head,
    pub cache: usize,
}

// ---- Sizing.

// Sizing's tests of a manifest, and the size of its cache.
#[tactic(auto, unfolding(crate::specs::Size::sizing_of))]
pub fn sizing(m: Manifest<'_>, location: Location<'_>, options: Options) -> Result<usize, Number>
    ensures told { numbered result ≡ sizing_of m.entry.bytes.now location.entry.platform.now location.entry.root.now options }
    ensures size { IfOk result (λ size. size ≡ size_of m.entry.bytes.now location.entry.platform.now location.entry.root.now) }
{
    let rows = m.layout.rows;
    let dimensions = m.layout.dimensions;
    location.check_sizing(options, m.bytes.len(), rows, dimensions)?;
    let identity = Identity {
        location,
        manifest: m.bytes,
    };
    Ok(cache_format::cache_size(identity.len(), 0, rows, dimensions))
}

// The manifest anew, then sizing.
fn accept<'a>(
    m: &'a [u8],
    expected: u32,
    scratch: &mut [u64],
    location: Location<'_>,
    options: Options,
) -> Result<(Manifest<'a>, usize), Number>
    ensures told { numbered result ≡ size_number m.now expected (length scratch.old) location.entry.platform.now location.entry.root.now options }
    ensures value { IfOk result (λ a. (a.0.bytes.now ≡ m.now) × (a.1 ≡ size_of m.now location.entry.platform.now location.entry.root.now)) }
    ensures scratch_after { scratch.new ≡ scratch_left m.now expected scratch.old }
{
    let manifest = manifest::accept(m, expected, scratch)?;
    le::clear(scratch);
    let size = sizing(manifest, location, options)?;
    Ok((manifest, size))
}

pub fn size(
    manifest: &[u8],
    expected_crc: u32,
    scratch: &mut [u64],
    location: Location<'_>,
    options: Options,
) -> Result<usize, Refused>
    ensures { (size_outcome result ≡ sized manifest.now expected_crc (length scratch.old) location.entry.platform.now location.entry.root.now options)
        × (scratch.new ≡ scratch_left manifest.now expected_crc scratch.old) }
{
    let (_, size) = accept(manifest, expected_crc, scratch, location, options)?;
    Ok(size)
}

// ---- Opening.

// The rows of a cache, which end before its CRC-32.
#[derive(Clone, Copy)]
pub struct CachedRows<'a> {
    pub cache: &'a [u8],
    pub rows: usize,
    pub dimensions: usize,
    pub ghost few: { rows ≤ 1000000 },
    pub ghost narrow: { dimensions ≤ 4096 },
    pub ghost room: { RoomFor (length cache.now) rows dimensions },
}

impl<'a> CachedRows<'a> {
    // Where a row begins.
    pub fn start(self, row: usize) -> usize
        requires { row ≤ self.rows }
        ensures { result ≡ row_start (length self.entry.cache.now) self.entry.rows self.entry.dimensions row }
    {
        self.cache.len() - 4 - (self.rows - row) * cache_format::row_length(self.dimensions)
    }

    // A row's scale and norm, where its scale passes.
    #[tactic(auto, unfolding(quantization::specs::View::row_at))]
    pub fn read(&self, row: usize) -> Option<Row>
        requires { row < self.now.rows }
        ensures { let r = cached_at self.now.rows self.now.dimensions self.now.cache.now row in result ≡ read_of r.scale r.norm }
    {
        row::read_row(self.cache, self.start(row))
    }

    // And its codes.
    #[tactic(auto, using(codes::proofs::Rows::cut_bytes), unfolding(quantization::specs::View::row_at))]
    pub fn codes(&self, row: usize) -> &[u8]
        requires { row < self.now.rows }
        ensures values { codes result.now ≡ (cached_at self.now.rows self.now.dimensions self.now.cache.now row).codes }
        ensures as_many { length result.now ≡ self.now.dimensions }
    {
        let from = self.start(row) + 16;
        let end = from + self.dimensions;
        &self.cache[from..end]
    }

    // The lowest invalid row.
    fn bad_row(self, levels: u32, metric: Metric) -> Option<usize>
        requires { Levels levels }
        ensures { result ≡ found self.entry.rows (bad_row levels metric self.entry.rows self.entry.dimensions self.entry.cache.now) }
    {
        for row in 0..self.rows {
            if !row::holds(levels, metric, self.read(row), self.codes(row)) {
                return Some(row);
            }
        }
        None
    }

    // Opening's 14, then 15.
    fn check(self, levels: u32, metric: Metric) -> Result<(), Refused>
        requires { Levels levels }
        ensures { told result ≡ content_refusal levels metric self.entry.rows self.entry.dimensions self.entry.cache.now }
    {
        if let Some(bad) = self.bad_row(levels, metric) {
            return Err(Refused {
                number: Number::Row,
                place: bad as u64,
            });
        }
        if !crc32::ends_in_crc(self.cache) {
            return Err(Refused {
                number: Number::CacheCrc,
                place: 0,
            });
        }
        Ok(())
    }
}

// All that opening tests before the rows.
fn open_head<'a>(
    m: &'a [u8],
    expected: u32,
    scratch: &mut [u64],
    cache: &[u8],
    location: Location<'_>,
    options: Options,
) -> Result<Manifest<'a>, Number>
    ensures told { numbered result ≡ open_number m.now expected (length scratch.old) cache.now location.entry.platform.now location.entry.root.now options }
    ensures bytes { IfOk result (λ a. a.bytes.now ≡ m.now) }
    ensures scratch_after { scratch.new ≡ scratch_left m.now expected scratch.old }
{
    let (manifest, size) = accept(m, expected, scratch, location, options)?;
    let identity = Identity {
        location,
        manifest: m,
    };
    identity.check_head(cache, size)?;
    Ok(manifest)
}

// The rows and the CRC-32 of a cache whose head is the library's.
fn check_rows(m: Manifest<'_>, cache: &[u8]) -> Result<(), Refused>
    requires { RoomFor (length cache.now) (rows_of m.bytes.now) (dimensions_of m.bytes.now) }
    ensures { told result ≡ content_refusal base_levels (metric_at m.entry.bytes.now) (rows_of m.entry.bytes.now) (dimensions_of m.entry.bytes.now) cache.now }
{
    let rows = CachedRows {
        cache,
        rows: m.layout.rows,
        dimensions: m.layout.dimensions,
    };
    rows.check(quantization::BASE_LEVELS, m.metric())
}

pub fn open(
    manifest: &[u8],
    expected_crc: u32,
    scratch: &mut [u64],
    cache: &[u8],
    location: Location<'_>,
    options: Options,
) -> Result<CacheState, Refused>
    ensures { (open_outcome result ≡ opened manifest.now expected_crc (length scratch.old) cache.now location.entry.platform.now location.entry.root.now options)
        × (scratch.new ≡ scratch_left manifest.now expected_crc scratch.old) }
{
    let m = open_head(manifest, expected_crc, scratch, cache, location, options)?;
    check_rows(m, cache)?;
    Ok(CacheState {
        head: m.head(),
        cache: cache.len(),
    })
}

// What a search tests of a cache's length, against the state that opening returned.
#[tactic(auto, using(cache_format::proofs::Sizes::rows_in), unfolding(crate::specs::Open::cache_length_ok))]
pub fn length_holds(state: CacheState, rows: usize, dimensions: usize, cache: &[u8]) -> bool
    requires { (rows ≤ 1000000) × (dimensions ≤ 4096) }
    ensures { result ≡ cache_length_ok state rows dimensions (length cache.now) }
{
    let length = cache.len();
    (length == state.cache) & (rows * cache_format::row_length(dimensions) + 4 <= length)
}
