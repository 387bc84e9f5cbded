// The manifest's head and segments: format.rs's `read_manifest` up to the rows' entries.
#![tactic(auto)]

ghost use Rattle.std.specs.Prelude.{◌≡◌, cond, not, ◌++◌, ◌+◌, ◌-◌, ◌≤◌, ◌<◌, eqb, length, take, drop, replicate, IfOk};
ghost use Rattle.le.specs.Le.{le_at};
ghost use Rattle.utf8.specs.Grammar.{span as inside};
ghost use Rattle.config.specs.Limits.{max_segment_bytes};
ghost use Rattle.config.specs.Told.{numbered};
ghost use Rattle.config.specs.Metric.{metric_of};
ghost use Rattle.format.specs.Fields.{length_of_model, metric_in, metric_at, length_of, crc_of, generation_of, sequence_of};
ghost use Rattle.format.specs.Head.{opens_ok, kind_ok, identity_ok, counts_ok, head_number, lengths_ok, config_at, head_at, zero_head};
ghost use Rattle.format.specs.Layout.{LaidOut};
ghost use Rattle.format.specs.Same.{same_bytes, same_fields, is_same_head};

use config::{Config, Metric, Number};

// "VECGEN01"
const MAGIC: u64 = 0x3130_4e45_4743_4556;

// The manifest's length and every field before its segment table: what a search compares.
#[derive(Clone, Copy, Debug, PartialEq, Eq)]
pub struct Head {
    pub length: usize,
    pub generation: u64,
    pub sequence: u64,
    pub config: Config,
    pub model_length: usize,
    pub model: [u8; 512],
    pub segments: usize,
    pub rows: usize,
}

// Where the parts of a manifest lie.
#[derive(Clone, Copy)]
pub struct Layout {
    pub dimensions: usize,
    pub segments: usize,
    pub rows: usize,
    pub table: usize,
    pub entries: usize,
}

fn count_at(m: &[u8], at: usize) -> usize
    requires { at + 4 ≤ length m.now }
    ensures { (result ≡ le_at 4 m.now at) × (result < 4294967296) }
{
    le::u32_at(m, at) as usize
}

fn span(low: usize, high: usize, x: usize) -> bool
    ensures { result ≡ inside low high x }
{
    (low <= x) & (x <= high)
}

// ---- The head.

// The metric of a byte that names one.
pub fn metric_of(b: u8) -> Metric
    ensures { result ≡ metric_in (metric_of b) }
{
    Metric::try_from(b).unwrap_or(Metric::SquaredL2)
}

pub fn metric(m: &[u8]) -> Metric
    requires { 66 ≤ length m.now }
    ensures { result ≡ metric_at m.now }
{
    metric_of(m[44])
}

fn read_config(m: &[u8]) -> Config
    requires { 66 ≤ length m.now }
    ensures { result ≡ config_at m.now }
{
    Config {
        dimensions: count_at(m, 24),
        m: count_at(m, 28),
        ef_construction: count_at(m, 32),
        seed: le::u64_at(m, 36),
        metric: metric(m),
    }
}

fn identity_holds(m: &[u8], model: usize) -> bool
    requires { (66 ≤ length m.now) × (53 + model ≤ length m.now) × (model ≡ length_of_model m.now) }
    ensures { result ≡ identity_ok m.now }
{
    let config = read_config(m);
    let end = 49 + model;
    config.validate() & config::validate_space(&m[49..end], config.dimensions)
}

// Whether two counts are 0 together.
fn both_or_none(rows: u64, segments: usize) -> bool
    ensures { result ≡ cond (eqb rows 0) (eqb segments 0) (not (eqb segments 0)) }
{
    if rows == 0 {
        return segments == 0;
    }
    segments != 0
}

fn counts_hold(m: &[u8], model: usize) -> bool
    requires { (length m.now ≤ 67108864) × (model ≤ 512) × (model ≡ length_of_model m.now) }
    ensures { result ≡ counts_ok m.now }
{
    if m.len() < 65 + model {
        return false;
    }
    let segments = count_at(m, 49 + model);
    if config::MAX_SEGMENTS < segments {
        return false;
    }
    let rows = le::u64_at(m, 53 + model);
    if (config::MAX_RECORDS as u64) < rows {
        return false;
    }
    (le::u64_at(m, 8) != 0)
        & both_or_none(rows, segments)
        & (m.len() == 65 + model + 12 * segments + 20 * (rows as usize))
}

fn opens(m: &[u8]) -> bool
    ensures { result ≡ opens_ok m.now }
{
    if span(66, config::MAX_MANIFEST_BYTES, m.len()) {
        return le::u64_at(m, 0) == MAGIC;
    }
    false
}

fn kind_holds(m: &[u8]) -> bool
    requires { 66 ≤ length m.now }
    ensures { result ≡ kind_ok m.now }
{
    (m[44] <= 2) & span(1, 512, count_at(m, 45))
}

// 1 and 2: the head's tests, in their order.
pub fn check_head(m: &[u8]) -> Result<(), Number>
    ensures { numbered result ≡ head_number m.now }
{
    if !opens(m) {
        return Err(Number::Layout);
    }
    if !kind_holds(m) {
        return Err(Number::Configuration);
    }
    let model = count_at(m, 45);
    if m.len() < 53 + model {
        return Err(Number::Layout);
    }
    if !identity_holds(m, model) {
        return Err(Number::Configuration);
    }
    if !counts_hold(m, model) {
        return Err(Number::Layout);
    }
    Ok(())
}

// The n bytes at a place, with zeros after them.
pub fn read_model(b: &[u8], at: usize, n: usize) -> [u8; 512]
    requires { (at + n ≤ length b.now) × (n ≤ 512) }
    ensures { result ≡ take n (drop at b.now) ++ replicate (512 - n) 0 }
{
    let mut model = [0u8; 512];
    let end = at + n;
    model[..n].copy_from_slice(&b[at..end]);
    model
}

// The head of a manifest whose head passes its tests; and that of a refusal.
#[tactic(auto, using(crate::proofs::Heads::bounds), unfolding(crate::specs::Fields::length_of_model))]
pub fn read_head(m: &[u8]) -> Head
    requires { head_number m.now ≡ 0 }
    ensures { result ≡ head_at m.now }
{
    let n = count_at(m, 45);
    Head {
        length: m.len(),
        generation: le::u64_at(m, 8),
        sequence: le::u64_at(m, 16),
        config: read_config(m),
        model_length: n,
        model: read_model(m, 49, n),
        segments: count_at(m, 49 + n),
        rows: le::u64_at(m, 53 + n) as usize,
    }
}

pub fn zero_head() -> Head
    ensures { result ≡ zero_head }
{
    Head {
        length: 0,
        generation: 0,
        sequence: 0,
        config: Config {
            dimensions: 0,
            m: 0,
            ef_construction: 0,
            seed: 0,
            metric: Metric::SquaredL2,
        },
        model_length: 0,
        model: [0; 512],
        segments: 0,
        rows: 0,
    }
}

// ---- Segments.

#[tactic(auto, using(crate::proofs::Heads::bounds), unfolding(crate::specs::Fields::length_of_model))]
pub fn read_layout(m: &[u8]) -> Layout
    requires { head_number m.now ≡ 0 }
    ensures { LaidOut m.now result }
{
    let model = count_at(m, 45);
    let segments = count_at(m, 49 + model);
    Layout {
        dimensions: count_at(m, 24),
        segments: segments,
        rows: le::u64_at(m, 53 + model) as usize,
        table: 61 + model,
        entries: 61 + model + 12 * segments,
    }
}

// A manifest whose head passes its tests: its bytes, and where its parts lie.
#[derive(Clone, Copy)]
pub struct Manifest<'a> {
    pub bytes: &'a [u8],
    pub layout: Layout,
    pub ghost laid_out: { LaidOut bytes.now layout },
}

impl<'a> Manifest<'a> {
    pub fn read(bytes: &'a [u8]) -> Result<Manifest<'a>, Number>
        ensures told { numbered result ≡ head_number bytes.now }
        ensures bytes { IfOk result (λ m. m.bytes.now ≡ bytes.now) }
    {
        check_head(bytes)?;
        Ok(Manifest {
            bytes,
            layout: read_layout(bytes),
        })
    }

    pub fn metric(self) -> Metric
        ensures { result ≡ metric_at self.entry.bytes.now }
    {
        metric(self.bytes)
    }

    // What a search compares later.
    pub fn head(self) -> Head
        requires { head_number self.bytes.now ≡ 0 }
        ensures { result ≡ head_at self.entry.bytes.now }
    {
        read_head(self.bytes)
    }

    pub fn generation(self) -> u64
        ensures { result ≡ generation_of self.entry.bytes.now }
    {
        le::u64_at(self.bytes, 8)
    }

    pub fn sequence(self) -> u64
        ensures { result ≡ sequence_of self.entry.bytes.now }
    {
        le::u64_at(self.bytes, 16)
    }

    pub fn segment_length(self, n: usize) -> u64
        requires { n < self.layout.segments }
        ensures { result ≡ length_of self.entry.bytes.now n }
    {
        le::u64_at(self.bytes, self.layout.table + 12 * n)
    }

    pub fn segment_crc(self, n: usize) -> u32
        requires { n < self.layout.segments }
        ensures { result ≡ crc_of self.entry.bytes.now n }
    {
        le::u32_at(self.bytes, self.layout.table + 12 * n + 8)
    }

    // Whether a segment's length is in its bounds.
    fn length_holds(self, n: usize) -> bool
        requires { n < self.layout.segments }
        ensures { result ≡ inside 4 max_segment_bytes (length_of self.entry.bytes.now n) }
    {
        let length = self.segment_length(n);
        (4 <= length) & (length <= config::MAX_SEGMENT_BYTES as u64)
    }

    // Whether those of all segments are.
    pub fn lengths_hold(self) -> bool
        ensures { result ≡ lengths_ok self.entry.bytes.now }
    {
        for n in 0..self.layout.segments {
            if !self.length_holds(n) {
                return false;
            }
        }
        true
    }
}

// ---- What a search compares.

// Whether the bytes at a place are these.
pub fn same_bytes_at(c: &[u8], at: usize, s: &[u8]) -> bool
    requires { at + length s.now ≤ length c.now }
    ensures { result ≡ same_bytes (take (length s.now) (drop at c.now)) s.now }
{
    &c[at..at + s.len()] == s
}

fn same_fields(a: Head, b: Head) -> bool
    ensures { result ≡ same_fields a b }
{
    a == b
}

// Whether the head passes its tests anew and is the accepted one, and the segment lengths are in their bounds.
pub fn same_head(m: &[u8], head: Head) -> bool
    ensures { result ≡ is_same_head m.now head }
{
    match Manifest::read(m) {
        Ok(manifest) => same_fields(manifest.head(), head) & manifest.lengths_hold(),
        Err(_) => false,
    }
}
