// The rows' entries in the manifest: their reading and rules, and format.rs's `read_manifest` up to the tiling.
#![tactic(auto)]

ghost use Rattle.std.specs.Prelude.{◌≡◌, true, ◌+◌, ◌*◌, ◌≤◌, ◌<◌, length, IfOk};
ghost use Rattle.config.specs.Told.{numbered, found};
ghost use Rattle.format.specs.Fields.{rows_of};
ghost use Rattle.entries.specs.Entry.{entry_at};
ghost use Rattle.entries.specs.Plan.{rises as rising, entry_ok, bad_entry, bad_entry_from, row_from, rows_ok, crc_ok, plan_number};

use config::Number;
use format::Manifest;

#[derive(Clone, Copy, Debug, PartialEq, Eq)]
pub struct Entry {
    pub id: u64,
    pub segment: u32,
    pub offset: u32,
    pub metadata: u32,
}

// A manifest whose segment lengths and entries all keep their rules.
#[derive(Clone, Copy)]
pub struct Table<'a> {
    pub manifest: Manifest<'a>,
    pub ghost rules: { rows_ok manifest.bytes.now ≡ true },
}

impl Entry {
    // Where the record ends in its segment.
    pub fn end(self, dimensions: usize) -> usize
        requires { dimensions ≤ 4096 }
        ensures { (result ≡ self.offset + (12 + 4 * dimensions + self.metadata)) × (result < 8589967360) }
    {
        self.offset as usize + (12 + 4 * dimensions + self.metadata as usize)
    }
}

#[tactic(auto, using(format::proofs::Heads::entry_in))]
pub fn read_entry(m: Manifest<'_>, row: usize) -> Entry
    requires { row < m.layout.rows }
    ensures { result ≡ entry_at m.entry.bytes.now row }
{
    let at = m.layout.entries + 20 * row;
    Entry {
        id: le::u64_at(m.bytes, at),
        segment: le::u32_at(m.bytes, at + 8),
        offset: le::u32_at(m.bytes, at + 12),
        metadata: le::u32_at(m.bytes, at + 16),
    }
}

fn rises(m: Manifest<'_>, row: usize) -> bool
    requires { row < m.layout.rows }
    ensures { result ≡ rising m.entry.bytes.now row }
{
    row == 0 || read_entry(m, row - 1).id < read_entry(m, row).id
}

pub fn entry_holds(m: Manifest<'_>, row: usize) -> bool
    requires { row < m.layout.rows }
    ensures { result ≡ entry_ok m.entry.bytes.now row }
{
    let e = read_entry(m, row);
    let segment = e.segment as usize;
    if m.layout.segments <= segment {
        return false;
    }
    let end = e.end(m.layout.dimensions) + 4;
    rises(m, row)
        & (e.metadata as usize <= config::MAX_METADATA)
        & (end as u64 <= m.segment_length(segment))
}

// The first row from a given one on whose entry breaks a rule.
pub fn bad_entry_from(m: Manifest<'_>, first: usize) -> Option<usize>
    requires { first ≤ m.layout.rows }
    ensures { result ≡ found (rows_of m.entry.bytes.now) (bad_entry_from m.entry.bytes.now first) }
{
    for row in first..m.layout.rows {
        if !entry_holds(m, row) {
            return Some(row);
        }
    }
    None
}

// The first of all.
pub fn bad_entry(m: Manifest<'_>) -> Option<usize>
    ensures { result ≡ found (rows_of m.entry.bytes.now) (bad_entry m.entry.bytes.now) }
{
    bad_entry_from(m, 0)
}

// The first row from a given one on whose id is not below this one.
pub fn seek(m: Manifest<'_>, from: usize, id: u64) -> Option<usize>
    requires { from ≤ m.layout.rows }
    ensures { result ≡ found (rows_of m.entry.bytes.now) (row_from m.entry.bytes.now from id) }
{
    for row in from..m.layout.rows {
        if id <= read_entry(m, row).id {
            return Some(row);
        }
    }
    None
}

fn rows_hold(m: Manifest<'_>) -> bool
    ensures { result ≡ rows_ok m.entry.bytes.now }
{
    m.lengths_hold() & bad_entry(m).is_none()
}

// ---- All that goes before the tiling.

fn crc_holds(m: Manifest<'_>, expected: u32) -> bool
    ensures { result ≡ crc_ok m.entry.bytes.now expected }
{
    let end = m.bytes.len() - 4;
    crc32::ends_in_crc(m.bytes) & (le::u32_at(m.bytes, end) == expected)
}

// The tests before the tiling, in their order; `room` is the length of the scratch.
pub fn plan(m: &[u8], expected: u32, room: usize) -> Result<Manifest<'_>, Number>
    ensures told { numbered result ≡ plan_number m.now expected room }
    ensures bytes { IfOk result (λ a. a.bytes.now ≡ m.now) }
{
    let manifest = Manifest::read(m)?;
    if !rows_hold(manifest) {
        return Err(Number::Layout);
    }
    if !crc_holds(manifest, expected) {
        return Err(Number::ManifestCrc);
    }
    if room < manifest.layout.rows {
        return Err(Number::Room);
    }
    Ok(manifest)
}
