// What a search does before it looks at a row: generation.rs's tests of a call, the entries, and the query as it is kept.
#![tactic(auto)]

ghost use Rattle.std.specs.Prelude.{◌≡◌, true, ◌≤◌, min, length, OnOk, IfOk};
ghost use Rattle.config.specs.Refusal.{none};
ghost use Rattle.config.specs.Told.{numbered, told};
ghost use Rattle.config.specs.Vector.{finites};
ghost use Rattle.quantization.specs.Encoder.{Levels};
ghost use Rattle.format.specs.Head.{lengths_ok};
ghost use Rattle.search_spec.specs.Lent.{wanted_of, handed};
ghost use Rattle.search_spec.specs.Tests.{answers_ok, candidates_ok, room_ok, open_by, query_by, front_by, entries_refusal};
ghost use Rattle.front.specs.Query.{Read};

use config::{Number, Refused};
use entries::Table;
use format::{Head, Manifest};
use quantization::Encoder;
use row::Query;
use search_spec::Room;

// ---- The tests up to 20.

// 19 and 21, for the count of ids handed in and the head.
#[tactic(auto, unfolding(search_spec::specs::Tests::open_by))]
pub fn check_open(head: Head, m: &[u8], ids: usize) -> Result<(), Number>
    ensures { numbered result ≡ open_by head m.now ids }
{
    if config::MAX_RECORDS < ids {
        return Err(Number::Ids);
    }
    if !format::same_head(m, head) {
        return Err(Number::Changed);
    }
    Ok(())
}

fn answers_hold(n: usize, room: Room) -> bool
    ensures { result ≡ answers_ok n room }
{
    (n <= room.ids)
        & (n <= room.distances)
        & (n <= room.rows)
        & (n <= room.starts)
        & (n <= room.lengths)
}

fn candidates_hold(n: usize, room: Room) -> bool
    ensures { result ≡ candidates_ok n room }
{
    (n <= room.keys) & (n <= room.candidates)
}

fn room_holds(rows: usize, k: usize, limit: usize, ids: usize, room: Room) -> bool
    ensures { result ≡ room_ok rows k limit ids room }
{
    answers_hold(k.min(rows), room) & candidates_hold(limit.min(rows), room) & (ids <= room.wanted)
}

// 16, 17, 18 and 20: what a single query is refused for, under a head that passes.
#[tactic(auto, unfolding(search_spec::specs::Tests::query_by))]
pub fn check_query(
    m: Manifest<'_>,
    ids: usize,
    query: &[f32],
    k: usize,
    limit: usize,
    room: Room,
) -> Result<(), Number>
    ensures { numbered result ≡ query_by m.entry.bytes.now ids query.now k limit room }
{
    if !config::validate_vector(m.metric(), m.layout.dimensions, query) {
        return Err(Number::Query);
    }
    if !config::results_hold(k) {
        return Err(Number::Results);
    }
    if !config::limit_holds(k, limit) {
        return Err(Number::Candidates);
    }
    if !room_holds(m.layout.rows, k, limit, ids, room) {
        return Err(Number::AnswerRoom);
    }
    Ok(())
}

// How many ids are handed in; none where all are wanted.
pub fn handed_in(wanted: Option<&[u64]>) -> usize
    ensures { result ≡ handed (wanted_of wanted.entry) }
{
    match wanted {
        Some(ids) => ids.len(),
        None => 0,
    }
}

// All of them.
#[tactic(auto, using(config::proofs::Numbers::some_number, crate::proofs::Opens::opens_head), unfolding(search_spec::specs::Tests::front_by))]
pub fn front<'a>(
    head: Head,
    m: &'a [u8],
    ids: usize,
    query: &[f32],
    k: usize,
    limit: usize,
    room: Room,
) -> Result<Manifest<'a>, Number>
    ensures told { numbered result ≡ front_by head m.now ids query.now k limit room }
    ensures bytes { IfOk result (λ a. a.bytes.now ≡ m.now) }
{
    check_open(head, m, ids)?;
    let manifest = Manifest::read(m)?;
    check_query(manifest, ids, query, k, limit, room)?;
    Ok(manifest)
}

// ---- The entries.

// 21 at the first bad one.
pub fn entries(m: Manifest<'_>) -> Result<(), Refused>
    ensures { told result ≡ entries_refusal m.entry.bytes.now none }
{
    match entries::bad_entry(m) {
        Some(bad) => Err(Refused {
            number: Number::Changed,
            place: bad as u64,
        }),
        None => Ok(()),
    }
}

// The same, and the table of rows, where the lengths of the segments hold.
pub fn check_entries(m: Manifest<'_>) -> Result<Table<'_>, Refused>
    requires { lengths_ok m.bytes.now ≡ true }
    ensures told { told result ≡ entries_refusal m.entry.bytes.now none }
    ensures same { IfOk result (λ t. (t.manifest.bytes.now ≡ m.entry.bytes.now) × (t.manifest.layout ≡ m.entry.layout)) }
{
    entries(m)?;
    Ok(Table { manifest: m })
}

// ---- The query.

// What is kept of a query beside its codes and its coordinates: its row, and its inverse norm.
#[derive(Clone, Copy)]
pub struct ReadQuery {
    pub query: Query,
    pub inverse: f64,
}

// Its codes and its coordinates, at the front of two lent slices: a search makes them once.
pub fn read_query(levels: u32, query: &[f32], codes: &mut [i16], wide: &mut [f64]) -> ReadQuery
    requires query { Levels levels × (length query.now ≤ 4096) × (finites query.now ≡ true) }
    requires query_in_bounds { (length query.now ≤ length codes.old) × (length query.now ≤ length wide.old) }
    ensures { Read levels query.now codes.new wide.new result }
{
    let table = quantization::midpoints_table();
    let row = Encoder::new(&table, levels).encode_query(query, codes);
    math::widen(query, wide);
    let n = query.len();
    ReadQuery {
        query: Query::new(row),
        inverse: math::inverse_norm(&wide[..n]),
    }
}
