// What a manifest is: format.rs's `read_manifest`, whole. The rows are ordered by segment and offset in a lent scratch.
#![tactic(auto)]

ghost use Rattle.std.specs.Prelude.{◌≡◌, true, ◌++◌, map, ◌≤◌, ◌<◌, length, drop, IfOk};
ghost use Rattle.rank.specs.Rows.{passing};
ghost use Rattle.config.specs.Told.{numbered};
ghost use Rattle.format.specs.Fields.{rows_of};
ghost use Rattle.format.specs.Head.{head_number};
ghost use Rattle.entries.specs.Plan.{rows_ok};
ghost use Rattle.manifest.specs.Tiling.{covers as covered, tiled};
ghost use Rattle.manifest.specs.Scratch.{key, key_row, row_keys, ordered, run as run_of, Below, Filled};
ghost use Rattle.manifest.specs.Check.{manifest_number, outcome, checked, scratch_left, scratch_held};

use config::{Number, Refused};
use format::{Head, Manifest};

// An accepted manifest, and its rows in the order of their records, as keys of the scratch.
#[derive(Clone, Copy)]
pub struct Accepted<'a> {
    pub manifest: Manifest<'a>,
    pub keys: &'a [u64],
    pub ghost head: { head_number manifest.bytes.now ≡ 0 },
    pub ghost rows: { rows_ok manifest.bytes.now ≡ true },
    pub ghost order: { keys.now ≡ row_keys manifest.bytes.now },
}

// ---- The rows in order.

fn key_of(m: Manifest<'_>, row: usize) -> u64
    requires { (row < m.layout.rows) × (rows_ok m.bytes.now ≡ true) }
    ensures { result ≡ key m.entry.bytes.now row }
{
    let e = entries::read_entry(m, row);
    (e.segment as u64 * 67108864 + e.offset as u64) * 1048576 + row as u64
}

pub fn key_row(key: u64) -> usize
    ensures { result ≡ key_row key }
{
    (key % 1048576) as usize
}

fn fill(m: Manifest<'_>, scratch: &mut [u64])
    requires { (m.layout.rows ≤ length scratch.old) × (rows_ok m.bytes.now ≡ true) }
    ensures { scratch.new ≡ map (key m.entry.bytes.now) (passing (λ r. true) (rows_of m.entry.bytes.now)) ++ drop (rows_of m.entry.bytes.now) scratch.old }
{
    for row in 0..m.layout.rows {
        scratch[row] = key_of(m, row);
    }
}

fn order(m: Manifest<'_>, scratch: &mut [u64])
    requires { (m.layout.rows ≤ length scratch.old) × (rows_ok m.bytes.now ≡ true) }
    ensures { scratch.new ≡ ordered m.entry.bytes.now scratch.old }
{
    fill(m, scratch);
    let rows = m.layout.rows;
    rank::sort_numbers(&mut scratch[..rows]);
}

// How many of the keys, from the first on, are of segment n.
pub fn run(keys: &[u64], n: usize) -> usize
    ensures { result ≡ run_of n keys.now }
{
    for (i, key) in keys.iter().enumerate() {
        if key / 70368744177664 != n as u64 {
            return i;
        }
    }
    keys.len()
}

// ---- The tiling.

// Whether the rows of these keys follow each other through a segment of this length.
fn covers(m: Manifest<'_>, keys: &[u64], length: u64) -> bool
    requires { Below m.layout.rows keys.now }
    ensures { result ≡ covered m.entry.bytes.now length (map key_row keys.now) }
{
    if keys.is_empty() {
        return false;
    }
    let mut at = 0;
    for key in keys {
        let e = entries::read_entry(m, key_row(*key));
        if e.offset as usize != at {
            return false;
        }
        at = e.end(m.layout.dimensions);
    }
    (at + 4) as u64 == length
}

fn tiles(m: Manifest<'_>, keys: &[u64]) -> bool
    requires { (rows_ok m.bytes.now ≡ true) × (keys.now ≡ row_keys m.bytes.now) }
    ensures { result ≡ tiled m.entry.bytes.now }
{
    let mut i = 0;
    for n in 0..m.layout.segments {
        let j = i + run(&keys[i..], n);
        if !covers(m, &keys[i..j], m.segment_length(n)) {
            return false;
        }
        i = j;
    }
    true
}

// ---- The check.

// All tests, in their order. Where none fails the scratch then holds the rows in order.
pub fn accept<'a>(m: &'a [u8], expected: u32, scratch: &mut [u64]) -> Result<Manifest<'a>, Number>
    ensures told { numbered result ≡ manifest_number m.now expected (length scratch.old) }
    ensures bytes { IfOk result (λ a. a.bytes.now ≡ m.now) }
    ensures scratch_after { scratch.new ≡ scratch_held m.now expected scratch.old }
    ensures filled { IfOk result (λ a. Filled a.bytes.now scratch.new) }
{
    let manifest = entries::plan(m, expected, scratch.len())?;
    order(manifest, scratch);
    let rows = manifest.layout.rows;
    if tiles(manifest, &scratch[..rows]) {
        return Ok(manifest);
    }
    le::clear(scratch);
    Err(Number::Tiling)
}

pub fn check(manifest: &[u8], expected_crc: u32, scratch: &mut [u64]) -> Result<Head, Refused>
    ensures { (outcome result ≡ checked manifest.now expected_crc (length scratch.old))
        × (scratch.new ≡ scratch_left manifest.now expected_crc scratch.old) }
{
    let accepted = accept(manifest, expected_crc, scratch)?;
    le::clear(scratch);
    Ok(accepted.head())
}
