// What a library's records are: format.rs's `validate_segment` and generation.rs's `read_record`, over one slice of all segments.
#![tactic(auto)]

ghost use Rattle.std.specs.Prelude.{◌≡◌, true, map, ◌+◌, ◌*◌, ◌≤◌, ◌<◌, length};
ghost use Rattle.config.specs.Told.{told, found};
ghost use Rattle.format.specs.Fields.{segments_of, metric_at};
ghost use Rattle.format.specs.Head.{lengths_ok};
ghost use Rattle.entries.specs.Plan.{rows_ok, entry_ok};
ghost use Rattle.manifest.specs.Scratch.{key_row, Below, row_keys};
ghost use Rattle.manifest.specs.Check.{outcome, scratch_left};
ghost use Rattle.segment.specs.Record.{start_of, record_at, metadata_start, parts_ok, record_ok, starts_of};
ghost use Rattle.segment.specs.Check.{bad_record, segment_crc_ok, segment_records_refusal, in_order, segments_refusal, checked_library};

use config::{Metric, Number, Refused};
use crc32::Tables;
use entries::Table;
use format::{Head, Manifest};
use manifest::Accepted;

// A manifest, the slice of all segments, and where each of them begins in it: what a record is read by.
#[derive(Clone, Copy)]
pub struct Records<'a> {
    pub manifest: Manifest<'a>,
    pub metric: Metric,
    pub starts: &'a [u64; 1025],
    pub segments: &'a [u8],
    pub ghost lengths: { lengths_ok manifest.bytes.now ≡ true },
    pub ghost measured: { metric ≡ metric_at manifest.bytes.now },
    pub ghost placed: { starts.now ≡ starts_of manifest.bytes.now },
}

// The same of a manifest whose entries all keep their rules.
#[derive(Clone, Copy)]
pub struct Library<'a> {
    pub manifest: Manifest<'a>,
    pub metric: Metric,
    pub starts: &'a [u64; 1025],
    pub segments: &'a [u8],
    pub ghost rows: { rows_ok manifest.bytes.now ≡ true },
    pub ghost measured: { metric ≡ metric_at manifest.bytes.now },
    pub ghost placed: { starts.now ≡ starts_of manifest.bytes.now },
}

// ---- Where segments and records begin.

// And where the last segment ends; zeros after it.
pub fn starts(m: Manifest<'_>) -> [u64; 1025]
    requires { lengths_ok m.bytes.now ≡ true }
    ensures { result ≡ starts_of m.entry.bytes.now }
{
    let mut starts = [0u64; 1025];
    let mut sum = 0;
    for n in 0..m.layout.segments {
        sum += m.segment_length(n);
        starts[n + 1] = sum;
    }
    starts
}

// ---- Records.

// Whether the record at a place is of this id and metadata length, and is valid.
fn parts_hold(
    metric: Metric,
    dimensions: usize,
    id: u64,
    metadata: usize,
    s: &[u8],
    at: usize,
) -> bool
    requires { at + (12 + 4 * dimensions + metadata) ≤ length s.now }
    ensures { result ≡ parts_ok metric dimensions id metadata s.now at }
{
    let from = at + 12 + 4 * dimensions;
    let end = from + metadata;
    (le::u64_at(s, at) == id)
        & (le::u32_at(s, at + 8) as usize == metadata)
        & config::validate_record(metric, s, at + 12, dimensions)
        & utf8::valid(&s[from..end])
}

impl<'a> Records<'a> {
    pub fn record_at(&self, row: usize) -> usize
        requires { (row < self.now.manifest.layout.rows) × (entry_ok self.now.manifest.bytes.now row ≡ true) }
        ensures { result ≡ record_at self.now.manifest.bytes.now row }
    {
        let e = entries::read_entry(self.manifest, row);
        self.starts[e.segment as usize] as usize + e.offset as usize
    }

    // Where the metadata of a row's record begin.
    pub fn metadata_start(&self, row: usize) -> usize
        requires { (row < self.now.manifest.layout.rows) × (entry_ok self.now.manifest.bytes.now row ≡ true) }
        ensures { result ≡ metadata_start self.now.manifest.bytes.now row }
    {
        self.record_at(row) + 12 + 4 * self.manifest.layout.dimensions
    }

    // Whether the record of a row is where and what its entry says.
    pub fn record_holds(&self, row: usize) -> bool
        requires { (row < self.now.manifest.layout.rows) × (entry_ok self.now.manifest.bytes.now row ≡ true) }
        ensures { result ≡ record_ok self.now.manifest.bytes.now self.now.segments.now row }
    {
        let dimensions = self.manifest.layout.dimensions;
        let e = entries::read_entry(self.manifest, row);
        let at = self.record_at(row);
        let metadata = e.metadata as usize;
        if self.segments.len() < at + (12 + 4 * dimensions + metadata) {
            return false;
        }
        parts_hold(self.metric, dimensions, e.id, metadata, self.segments, at)
    }
}

impl<'a> Library<'a> {
    pub fn records(&self) -> Records<'a>
        ensures { (result.manifest.bytes.now ≡ self.now.manifest.bytes.now) × (result.manifest.layout ≡ self.now.manifest.layout)
            × (result.segments.now ≡ self.now.segments.now) }
    {
        Records {
            manifest: self.manifest,
            metric: self.metric,
            starts: self.starts,
            segments: self.segments,
        }
    }

    pub fn table(&self) -> Table<'a>
        ensures { (result.manifest.bytes.now ≡ self.now.manifest.bytes.now) × (result.manifest.layout ≡ self.now.manifest.layout) }
    {
        Table {
            manifest: self.manifest,
        }
    }

    // The place of the first of these keys whose row's record fails.
    pub fn bad_record(&self, keys: &[u64]) -> Option<usize>
        requires { Below self.now.manifest.layout.rows keys.now }
        ensures { result ≡ found (length keys.now) (bad_record self.now.manifest.bytes.now self.now.segments.now (map key_row keys.now)) }
    {
        let records = self.records();
        for (i, key) in keys.iter().enumerate() {
            if !records.record_holds(manifest::key_row(*key)) {
                return Some(i);
            }
        }
        None
    }

    // ---- Segments.

    fn crc_holds(&self, tables: &Tables, n: usize) -> bool
        requires { (n < self.now.manifest.layout.segments)
            × (length self.now.segments.now ≡ start_of self.now.manifest.bytes.now (segments_of self.now.manifest.bytes.now)) }
        ensures { result ≡ segment_crc_ok self.now.manifest.bytes.now self.now.segments.now n }
    {
        let s = self.segments;
        let from = self.starts[n] as usize;
        let end = from + (self.manifest.segment_length(n) as usize - 4);
        let crc = tables.crc32(&s[from..end]);
        (crc == le::u32_at(s, end)) & (crc == self.manifest.segment_crc(n))
    }

    // A segment's records, by the keys of its rows, then its CRC-32.
    fn check_segment(&self, tables: &Tables, keys: &[u64], n: usize) -> Result<(), Refused>
        requires { Below self.now.manifest.layout.rows keys.now
            × (n < self.now.manifest.layout.segments)
            × (length self.now.segments.now ≡ start_of self.now.manifest.bytes.now (segments_of self.now.manifest.bytes.now)) }
        ensures { told result ≡ segment_records_refusal self.now.manifest.bytes.now self.now.segments.now n (map key_row keys.now) }
    {
        if let Some(bad) = self.bad_record(keys) {
            return Err(Refused {
                number: Number::Record,
                place: manifest::key_row(keys[bad]) as u64,
            });
        }
        if !self.crc_holds(tables, n) {
            return Err(Refused {
                number: Number::SegmentCrc,
                place: n as u64,
            });
        }
        Ok(())
    }

    // All segments, by their number.
    fn check_in_order(&self, keys: &[u64]) -> Result<(), Refused>
        requires { (keys.now ≡ row_keys self.now.manifest.bytes.now)
            × (length self.now.segments.now ≡ start_of self.now.manifest.bytes.now (segments_of self.now.manifest.bytes.now)) }
        ensures { told result ≡ in_order self.now.manifest.bytes.now self.now.segments.now }
    {
        let tables = Tables::new();
        let mut i = 0;
        for n in 0..self.manifest.layout.segments {
            let j = i + manifest::run(&keys[i..], n);
            self.check_segment(&tables, &keys[i..j], n)?;
            i = j;
        }
        Ok(())
    }
}

fn check_segments(accepted: Accepted<'_>, segments: &[u8]) -> Result<(), Refused>
    ensures { told result ≡ segments_refusal accepted.entry.manifest.bytes.now segments.now }
{
    let manifest = accepted.manifest;
    let starts = starts(manifest);
    let last = manifest.layout.segments;
    if segments.len() as u64 != starts[last] {
        return Err(Refused {
            number: Number::Record,
            place: 0,
        });
    }
    let library = Library {
        manifest,
        metric: manifest.metric(),
        starts: &starts,
        segments,
    };
    library.check_in_order(accepted.keys)
}

// ---- The check.

pub fn check(
    manifest: &[u8],
    expected_crc: u32,
    scratch: &mut [u64],
    segments: &[u8],
) -> Result<Head, Refused>
    ensures { (outcome result ≡ checked_library manifest.now expected_crc (length scratch.old) segments.now)
        × (scratch.new ≡ scratch_left manifest.now expected_crc scratch.old) }
{
    let m = manifest::accept(manifest, expected_crc, scratch)?;
    let rows = m.layout.rows;
    let accepted = Accepted {
        manifest: m,
        keys: &scratch[..rows],
    };
    let checked = check_segments(accepted, segments);
    le::clear(scratch);
    checked?;
    Ok(m.head())
}
