// Kept rows as a slice of records, after a search.
#![tactic(auto)]

ghost use Rattle.std.specs.Prelude.{◌≡◌, ◌<◌, length};
ghost use Rattle.config.specs.Refusal.{refused};
ghost use Rattle.config.specs.Told.{numbered};
ghost use Rattle.records.specs.Records.{records_room_ok, place_record, hand_out_refusal, handed_out};

use config::Number;

#[repr(C)]
#[derive(Clone, Copy)]
pub struct Record {
    pub distance: f64,
    pub id: u64,
    pub row: u64,
}

fn room_holds(count: usize, ids: usize, distances: usize, rows: usize, out: usize) -> bool
    ensures { result ≡ records_room_ok count ids distances rows out }
{
    (count <= ids) & (count <= distances) & (count <= rows) & (count <= out)
}

// The record of one place of an answer.
fn record_at(ids: &[u64], distances: &[f64], rows: &[u64], i: usize) -> Record
    requires { (i < length ids.now) × (i < length distances.now) × (i < length rows.now) }
    ensures { result ≡ place_record ids.now distances.now rows.now i }
{
    Record {
        distance: distances[i],
        id: ids[i],
        row: rows[i],
    }
}

// The first `count` places of an answer, copied into `out`; 20 where a slice has not so many. C lends the answer as three slices.
pub fn records(
    ids: &[u64],
    distances: &[f64],
    rows: &[u64],
    count: usize,
    out: &mut [Record],
) -> Result<(), Number>
    ensures { (refused (numbered result) 0 ≡ hand_out_refusal ids.now distances.now rows.now count (length out.old))
        × (out.new ≡ handed_out ids.now distances.now rows.now count out.old) }
{
    if !room_holds(count, ids.len(), distances.len(), rows.len(), out.len()) {
        return Err(Number::AnswerRoom);
    }
    for i in 0..count {
        out[i] = record_at(ids, distances, rows, i);
    }
    Ok(())
}
