// The rows of a library: the lowest bad record, and each record's row, written into its own part of a lent cache.
#![tactic(auto)]

ghost use Rattle.std.specs.Prelude.{◌≡◌, true, ◌+◌, ◌*◌, ◌≤◌, ◌<◌, length};
ghost use Rattle.le.specs.Le.{paste};
ghost use Rattle.config.specs.Told.{told, found};
ghost use Rattle.format.specs.Fields.{rows_of, dimensions_of};
ghost use Rattle.entries.specs.Plan.{entry_ok};
ghost use Rattle.quantization.specs.View.{row_bytes};
ghost use Rattle.quantization.specs.Encoder.{midpoints_of};
ghost use Rattle.manifest.specs.Scratch.{row_keys};
ghost use Rattle.segment.specs.Record.{record_ok};
ghost use Rattle.encoded_rows.specs.Rows.{row_of, rows_bytes, lowest_bad, bad_record_refusal};

use config::{Number, Refused};
use quantization::Encoder;
use segment::{Library, Records};

// The lowest row whose record fails.
fn bad_row(library: &Library<'_>) -> Option<usize>
    ensures { result ≡ found (rows_of library.now.manifest.bytes.now) (lowest_bad library.now.manifest.bytes.now library.now.segments.now) }
{
    let records = library.records();
    for row in 0..library.manifest.layout.rows {
        if !records.record_holds(row) {
            return Some(row);
        }
    }
    None
}

// The same, with the records read in their own order first: reading them by row misses the processor's caches where ids are random.
fn lowest_bad(library: &Library<'_>, keys: &[u64]) -> Option<usize>
    requires { (keys.now ≡ row_keys library.now.manifest.bytes.now) }
    ensures { result ≡ found (rows_of library.now.manifest.bytes.now) (lowest_bad library.now.manifest.bytes.now library.now.segments.now) }
{
    library.bad_record(keys)?;
    bad_row(library)
}

// 5 for the lowest bad row; `keys` are the rows in the order of their records.
pub fn check_records(library: &Library<'_>, keys: &[u64]) -> Result<(), Refused>
    requires { (keys.now ≡ row_keys library.now.manifest.bytes.now) }
    ensures { told result ≡ bad_record_refusal library.now.manifest.bytes.now library.now.segments.now }
{
    match lowest_bad(library, keys) {
        Some(bad) => Err(Refused {
            number: Number::Record,
            place: bad as u64,
        }),
        None => Ok(()),
    }
}

// The row of a record that passes, into its own part of the cache. Of the entries only the row's own is asked to keep its rules.
pub fn put_row(records: &Records<'_>, encoder: &Encoder<'_>, part: &mut [u8], row: usize)
    requires { (row < records.now.manifest.layout.rows) × (entry_ok records.now.manifest.bytes.now row ≡ true)
        × (record_ok records.now.manifest.bytes.now records.now.segments.now row ≡ true)
        × (length part.old ≡ dimensions_of records.now.manifest.bytes.now + 16) }
    ensures { part.new ≡ row_bytes (row_of encoder.now.levels (midpoints_of encoder.now.levels) records.now.manifest.bytes.now records.now.segments.now row) }
{
    let at = records.record_at(row);
    encoder.encode_row(records.segments, at + 12, part);
}

// The rows of a library whose records all pass, one after the other, each of `size` bytes, from a place of the cache on.
pub fn put_rows(
    library: &Library<'_>,
    encoder: &Encoder<'_>,
    cache: &mut [u8],
    at: usize,
    size: usize,
)
    requires { (lowest_bad library.now.manifest.bytes.now library.now.segments.now ≡ rows_of library.now.manifest.bytes.now)
        × (size ≡ dimensions_of library.now.manifest.bytes.now + 16)
        × (at + rows_of library.now.manifest.bytes.now * size ≤ length cache.old) }
    ensures { cache.new ≡ paste cache.old at (rows_bytes encoder.now.levels (midpoints_of encoder.now.levels) library.now.manifest.bytes.now
        library.now.segments.now (rows_of library.now.manifest.bytes.now)) }
{
    let records = library.records();
    let mut from = at;
    for row in 0..library.manifest.layout.rows {
        let end = from + size;
        put_row(&records, encoder, &mut cache[from..end], row);
        from = end;
    }
}
