// What the list program prints of a refusal or of a search's answer, written into a lent slice.
#![tactic(auto)]

ghost use Rattle.std.specs.Prelude.{◌≡◌, ◌≤◌, length};
ghost use Rattle.io.specs.Counts.{IsPrefixLen};
ghost use Rattle.text.specs.Put.{Put};
ghost use Rattle.text.specs.Wrote.{HasRoom, Wrote};
ghost use Rattle.config.specs.Told.{told_by};
ghost use Rattle.listing_text.specs.Listing.{refusal_text, report_line, place_line, lines, listing, lines_of, Numbers, most_places, listing_bytes};

use config::Refused;
use search_spec::Report;
use text::Writer;

// The most places that the list program lists, and the most bytes that it prints of them.
pub const MOST_PLACES: usize = 3_272;

pub const LISTING_BYTES: usize = 209_555;

pub fn buffer() -> [u8; LISTING_BYTES]
    ensures { listing_bytes ≡ length result }
{
    text::zeros()
}

// Two numbers of 20 digits, and 13 bytes of words.
pub fn write_refusal(out: &mut [u8], refused: Refused) -> usize
    requires { 53 ≤ length out.old }
    ensures put { Put out.old out.new 0 (refusal_text (told_by refused)) result }
    ensures prefix_len { IsPrefixLen result out.new }
{
    let mut w = Writer::new(out);
    w.put_field(b"refused ", refused.number.number() as u64);
    w.put_field(b" at ", refused.place);
    w.put_bytes(b"\n");
    w.len()
}

fn put_report(w: &mut Writer, report: Report)
    requires { HasRoom w.old (report_line report) }
    ensures same_reference { w.new.out.ghost_name ≡ w.old.out.ghost_name }
    ensures wrote { Wrote w.old w.new (report_line report) }
{
    w.put_field(b"generation ", report.generation);
    w.put_field(b" sequence ", report.sequence);
    w.put_field(b" eligible ", report.eligible as u64);
    w.put_field(b" measured ", report.measured as u64);
    w.put_field(b" complete ", u64::from(report.complete));
    w.put_field(b" approximate ", u64::from(report.approximate));
    w.put_bytes(b"\n");
}

fn put_place(w: &mut Writer, place: u64, id: u64, bits: u64, row: u64)
    requires { HasRoom w.old (place_line place (record { id = id; bits = bits; row = row })) }
    ensures same_reference { w.new.out.ghost_name ≡ w.old.out.ghost_name }
    ensures wrote { Wrote w.old w.new (place_line place (record { id = id; bits = bits; row = row })) }
{
    w.put_decimal(place);
    w.put_field(b" ", id);
    w.put_bytes(b" ");
    w.put_hex16(bits);
    w.put_field(b" ", row);
    w.put_bytes(b"\n");
}

// The lines of the first `count` places.
fn put_places(w: &mut Writer, count: usize, ids: &[u64], distances: &[f64], rows: &[u64])
    requires count_in_bounds { (count ≤ length ids.now) × (count ≤ length distances.now) × (count ≤ length rows.now) }
    requires numbers { Numbers distances.now count }
    requires room { HasRoom w.old (lines 1 (lines_of ids.now distances.now rows.now count)) }
    ensures same_reference { w.new.out.ghost_name ≡ w.old.out.ghost_name }
    ensures wrote { Wrote w.old w.new (lines 1 (lines_of ids.now distances.now rows.now count)) }
{
    for i in 0..count {
        put_place(w, (i + 1) as u64, ids[i], distances[i].to_bits(), rows[i]);
    }
}

// The report, and the places that it counts in the answer slices: three, as a search is lent them.
pub fn write_listing(
    out: &mut [u8],
    report: Report,
    ids: &[u64],
    distances: &[f64],
    rows: &[u64],
) -> usize
    requires count_le_most_places { (report.count ≤ most_places) × (listing_bytes ≤ length out.old) }
    requires count_in_bounds { (report.count ≤ length ids.now) × (report.count ≤ length distances.now) × (report.count ≤ length rows.now) }
    requires numbers { Numbers distances.now report.count }
    ensures put { Put out.old out.new 0 (listing report (lines_of ids.now distances.now rows.now report.count)) result }
    ensures prefix_len { IsPrefixLen result out.new }
{
    let mut w = Writer::new(out);
    put_report(&mut w, report);
    put_places(&mut w, report.count, ids, distances, rows);
    w.len()
}
