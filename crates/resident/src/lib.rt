// Building a resident index: quantization.rs's `QuantizedSnapshot::build`, into lent slices.
#![tactic(auto)]

ghost use Rattle.std.specs.Prelude.{◌≡◌, true, ◌*◌, ◌≤◌, length};
ghost use Rattle.config.specs.Told.{told, numbered};
ghost use Rattle.format.specs.Fields.{dimensions_of, rows_of};
ghost use Rattle.manifest.specs.Scratch.{row_keys};
ghost use Rattle.manifest.specs.Check.{scratch_left};
ghost use Rattle.quantization.specs.Encoder.{midpoints_of, base_levels, midpoints};
ghost use Rattle.encoded_rows.specs.Rows.{lowest_bad};
ghost use Rattle.resident.specs.Build.{resident_room_ok, resident_room_number, resident_lengths_ok, planned_refusal, outcome, built_accepted, built, codes_upto, scales_upto, norms_upto, codes_after, scales_after, norms_after};

use config::{Number, Refused};
use format::Head;
use manifest::Accepted;
use quantization::Encoder;
use segment::Library;

// The lengths of the three slices that hold the rows.
#[derive(Clone, Copy, Debug, PartialEq, Eq)]
pub struct Lengths {
    pub codes: usize,
    pub scales: usize,
    pub norms: usize,
}

// What was accepted, and the lengths of the slices as lent.
#[derive(Clone, Copy)]
pub struct ResidentState {
    pub head: Head,
    pub codes: usize,
    pub scales: usize,
    pub norms: usize,
}

// Resident rows, as a search sees them: slices that hold at least as many.
#[derive(Clone, Copy)]
pub struct ResidentRows<'a> {
    pub codes: &'a [i8],
    pub scales: &'a [f64],
    pub norms: &'a [i64],
    pub rows: usize,
    pub dimensions: usize,
    pub ghost codes_fit: { rows * dimensions ≤ length codes.now },
    pub ghost scales_fit: { rows ≤ length scales.now },
    pub ghost norms_fit: { rows ≤ length norms.now },
}

// ---- The tests.

impl Lengths {
    // Building's 11, of the three slices.
    fn hold(self, rows: usize, dimensions: usize) -> bool
        requires { (rows ≤ 1000000) × (dimensions ≤ 4096) }
        ensures { result ≡ resident_room_ok rows dimensions self.codes self.scales self.norms }
    {
        (rows * dimensions <= self.codes) & (rows <= self.scales) & (rows <= self.norms)
    }

    // The tests of the sizes.
    #[tactic(auto, unfolding(crate::specs::Build::resident_room_number))]
    fn check(self, rows: usize, dimensions: usize) -> Result<(), Number>
        requires { (rows ≤ 1000000) × (dimensions ≤ 4096) }
        ensures { numbered result ≡ resident_room_number rows dimensions self.codes self.scales self.norms }
    {
        if !cache_format::codes_hold(rows, dimensions) {
            return Err(Number::CodeBytes);
        }
        if !self.hold(rows, dimensions) {
            return Err(Number::Room);
        }
        Ok(())
    }
}

// Of an accepted manifest, its rows in the order of their records, and the lengths of the slices.
fn check_build(library: &Library<'_>, keys: &[u64], lengths: Lengths) -> Result<(), Refused>
    requires { (keys.now ≡ row_keys library.now.manifest.bytes.now) }
    ensures { told result ≡ planned_refusal library.now.manifest.bytes.now library.now.segments.now lengths.codes lengths.scales lengths.norms }
{
    let layout = library.manifest.layout;
    lengths.check(layout.rows, layout.dimensions)?;
    encoded_rows::check_records(library, keys)
}

// The lengths that a search compares, against those of the state and what the rows need.
#[tactic(auto, unfolding(crate::specs::Build::resident_lengths_ok))]
pub fn lengths_hold(
    state: ResidentState,
    rows: usize,
    dimensions: usize,
    codes: usize,
    scales: usize,
    norms: usize,
) -> bool
    requires { (rows ≤ 1000000) × (dimensions ≤ 4096) }
    ensures { result ≡ resident_lengths_ok state rows dimensions codes scales norms }
{
    let lengths = Lengths {
        codes,
        scales,
        norms,
    };
    (codes == state.codes)
        & (scales == state.scales)
        & (norms == state.norms)
        & lengths.hold(rows, dimensions)
}

// ---- The rows.

// All rows, of good records.
fn fill(
    library: &Library<'_>,
    encoder: &Encoder<'_>,
    codes: &mut [i8],
    scales: &mut [f64],
    norms: &mut [i64],
)
    requires good { (lowest_bad library.now.manifest.bytes.now library.now.segments.now ≡ rows_of library.now.manifest.bytes.now) }
    requires room { (rows_of library.now.manifest.bytes.now * dimensions_of library.now.manifest.bytes.now ≤ length codes.old)
        × (rows_of library.now.manifest.bytes.now ≤ length scales.old) × (rows_of library.now.manifest.bytes.now ≤ length norms.old) }
    ensures { let m = library.now.manifest.bytes.now in
        let s = library.now.segments.now in
        let levels = encoder.now.levels in
        (codes.new ≡ codes_upto levels (midpoints_of levels) m s (rows_of m) codes.old)
        × (scales.new ≡ scales_upto levels (midpoints_of levels) m s (rows_of m) scales.old)
        × (norms.new ≡ norms_upto levels (midpoints_of levels) m s (rows_of m) norms.old) }
{
    let records = library.records();
    let dimensions = library.manifest.layout.dimensions;
    for row in 0..library.manifest.layout.rows {
        let from = records.record_at(row) + 12;
        let at = row * dimensions;
        let end = at + dimensions;
        let encoded = encoder.encode_resident(library.segments, from, &mut codes[at..end]);
        scales[row] = encoded.scale;
        norms[row] = encoded.norm;
    }
}

// ---- Building.

// After the manifest.
#[tactic(auto, using(entries::proofs::Entries::lengths_of, crate::proofs::Answers::may_fill))]
fn build_accepted(
    accepted: Accepted<'_>,
    segments: &[u8],
    codes: &mut [i8],
    scales: &mut [f64],
    norms: &mut [i64],
) -> Result<ResidentState, Refused>
    ensures { let m = accepted.entry.manifest.bytes.now in
        let s = segments.now in
        (outcome result ≡ built_accepted m s (length codes.old) (length scales.old) (length norms.old))
        × (codes.new ≡ codes_after base_levels midpoints m s (told result) codes.old)
        × (scales.new ≡ scales_after base_levels midpoints m s (told result) scales.old)
        × (norms.new ≡ norms_after base_levels midpoints m s (told result) norms.old) }
{
    let starts = segment::starts(accepted.manifest);
    let library = Library {
        manifest: accepted.manifest,
        metric: accepted.manifest.metric(),
        starts: &starts,
        segments,
    };
    let lengths = Lengths {
        codes: codes.len(),
        scales: scales.len(),
        norms: norms.len(),
    };
    check_build(&library, accepted.keys, lengths)?;
    let table = quantization::midpoints_table();
    let encoder = Encoder::new(&table, quantization::BASE_LEVELS);
    fill(&library, &encoder, codes, scales, norms);
    Ok(ResidentState {
        head: accepted.manifest.head(),
        codes: lengths.codes,
        scales: lengths.scales,
        norms: lengths.norms,
    })
}

#[tactic(auto, using(manifest::proofs::Passed::accepted))]
pub fn build(
    manifest: &[u8],
    expected_crc: u32,
    scratch: &mut [u64],
    segments: &[u8],
    codes: &mut [i8],
    scales: &mut [f64],
    norms: &mut [i64],
) -> Result<ResidentState, Refused>
    ensures { (outcome result ≡ built manifest.now expected_crc (length scratch.old) segments.now (length codes.old) (length scales.old) (length norms.old))
        × (scratch.new ≡ scratch_left manifest.now expected_crc scratch.old)
        × (codes.new ≡ codes_after base_levels midpoints manifest.now segments.now (told result) codes.old)
        × (scales.new ≡ scales_after base_levels midpoints manifest.now segments.now (told result) scales.old)
        × (norms.new ≡ norms_after base_levels midpoints manifest.now segments.now (told result) norms.old) }
{
    let m = manifest::accept(manifest, expected_crc, scratch)?;
    let rows = m.layout.rows;
    let accepted = Accepted {
        manifest: m,
        keys: &scratch[..rows],
    };
    let built = build_accepted(accepted, segments, codes, scales, norms);
    le::clear(scratch);
    built
}
