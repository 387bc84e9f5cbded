// The candidates by original distance: generation.rs's `rerank`. Their records are tested and measured by rising row, four a call where
// four in a row hold, and then ordered.
#![tactic(auto)]

ghost use Rattle.std.specs.Prelude.{◌≡◌, true, List, ℕ, ◌+◌, ◌≤◌, ◌<◌, leb, length, IfOk};
ghost use Rattle.config.specs.Told.{told};
ghost use Rattle.rank.specs.Sort.{sort};
ghost use Rattle.rank.specs.Rows.{RowsBelow};
ghost use Rattle.format.specs.Fields.{dimensions_of};
ghost use Rattle.segment.specs.Record.{record_at, record_ok};
ghost use Rattle.search_spec.specs.Scan.{record_refusal};
ghost use Rattle.rerank.specs.Rerank.{all_four, all_finite, keys_set, key_at, originals, FourIs, MeasureIs, RerankIs, reranked};

use config::{Number, Refused};
use math::Query;
use segment::Library;

// A library and a query, by which records are measured.
#[derive(Clone, Copy)]
pub struct Original<'a> {
    pub library: Library<'a>,
    pub query: Query<'a>,
    pub ghost same_metric: { query.metric ≡ library.metric },
    pub ghost as_wide: { length query.coordinates.now ≡ dimensions_of library.manifest.bytes.now },
}

// Whether four distances are finite.
fn four_finite(x: [f64; 4]) -> bool
    ensures { result ≡ all_finite x }
{
    float::is_finite(x[0])
        & float::is_finite(x[1])
        & float::is_finite(x[2])
        & float::is_finite(x[3])
}

// Their keys, from place i on.
#[tactic(auto, using(crate::proofs::Records::number_in))]
fn put_keys(ks: &mut [u64], i: usize, x: [f64; 4])
    requires { (i + 4 ≤ length ks.old) × (all_finite x ≡ true) }
    ensures { ks.new ≡ keys_set ks.old i x }
{
    ks[i] = float::key(x[0]);
    ks[i + 1] = float::key(x[1]);
    ks[i + 2] = float::key(x[2]);
    ks[i + 3] = float::key(x[3]);
}

impl<'a> Original<'a> {
    // ---- One record.

    // Where the coordinates of a row's record begin.
    #[tactic(auto, using(entries::proofs::Entries::entry_keeps, crate::proofs::Records::record_low))]
    fn coordinates_at(&self, row: usize) -> usize
        requires { row < self.now.library.manifest.layout.rows }
        ensures { result ≡ record_at self.now.library.manifest.bytes.now row + 12 }
    {
        self.library.records().record_at(row) + 12
    }

    // 23, then 24, then the order key of its distance.
    #[tactic(auto, using(entries::proofs::Entries::entry_keeps, crate::proofs::Records::number, crate::proofs::Records::distance_is), unfolding(search_spec::specs::Scan::record_refusal, crate::specs::Rerank::key_at))]
    pub fn measure_one(&self, row: usize) -> Result<u64, Refused>
        requires { row < self.now.library.manifest.layout.rows }
        ensures refused { told result ≡ record_refusal self.now.library.manifest.bytes.now self.now.library.segments.now self.now.query.coordinates.now row }
        ensures key { IfOk result (λ key. key ≡ key_at self.now.library.manifest.bytes.now self.now.library.segments.now self.now.query.coordinates.now row) }
    {
        if !self.library.records().record_holds(row) {
            return Err(Refused {
                number: Number::RecordChanged,
                place: row as u64,
            });
        }
        let x = self
            .query
            .distance(self.library.segments, self.coordinates_at(row));
        if !float::is_finite(x) {
            return Err(Refused {
                number: Number::Original,
                place: row as u64,
            });
        }
        Ok(float::key(x))
    }

    // ---- Four records.

    // Whether the records of the four rows from place i on hold.
    #[tactic(auto, using(entries::proofs::Entries::entry_keeps))]
    fn four_hold(&self, rs: &[u64], i: usize) -> bool
        requires { RowsBelow self.now.library.manifest.layout.rows rs.now × (i + 4 ≤ length rs.now) }
        ensures { result ≡ all_four (record_ok self.now.library.manifest.bytes.now self.now.library.segments.now) rs.now i }
    {
        let records = self.library.records();
        records.record_holds(rs[i] as usize)
            & records.record_holds(rs[i + 1] as usize)
            & records.record_holds(rs[i + 2] as usize)
            & records.record_holds(rs[i + 3] as usize)
    }

    // Their distances.
    #[tactic(auto, using(crate::proofs::Records::distance_is))]
    fn distances_four(&self, rs: &[u64], i: usize) -> [f64; 4]
        requires { RowsBelow self.now.library.manifest.layout.rows rs.now × (i + 4 ≤ length rs.now)
            × (all_four (record_ok self.now.library.manifest.bytes.now self.now.library.segments.now) rs.now i ≡ true) }
        ensures { result ≡ originals self.now.library.manifest.bytes.now self.now.library.segments.now self.now.query.coordinates.now rs.now i }
    {
        let a = self.coordinates_at(rs[i] as usize);
        let b = self.coordinates_at(rs[i + 1] as usize);
        let c = self.coordinates_at(rs[i + 2] as usize);
        let d = self.coordinates_at(rs[i + 3] as usize);
        self.query.distance_four(self.library.segments, a, b, c, d)
    }

    // The distances of four records in one call, where four are left, hold, and have finite distances; else they go one by one.
    fn measure_four(&self, rs: &[u64], i: usize) -> Option<[f64; 4]>
        requires { RowsBelow self.now.library.manifest.layout.rows rs.now × (i ≤ length rs.now) }
        ensures { FourIs self.now.library.manifest.bytes.now self.now.library.segments.now self.now.query.coordinates.now rs.now i result }
    {
        if rs.len() - i < 4 {
            return None;
        }
        if !self.four_hold(rs, i) {
            return None;
        }
        let x = self.distances_four(rs, i);
        if four_finite(x) { Some(x) } else { None }
    }

    // ---- All candidates.

    // The records of these rows, in their order: each one's key beside its row. They are counted as they are measured.
    #[tactic(auto, using(crate::proofs::Measured::keys_four))]
    fn measure_rows(&self, ks: &mut [u64], rs: &[u64]) -> Result<usize, Refused>
        requires { RowsBelow self.now.library.manifest.layout.rows rs.now × (length ks.old ≡ length rs.now) }
        ensures { MeasureIs self.now.library.manifest.bytes.now self.now.library.segments.now self.now.query.coordinates.now rs.now (reranked result) ks.new }
    {
        let mut measured = 0;
        let mut i = 0;
        while i < rs.len() {
            match self.measure_four(rs, i) {
                Some(x) => {
                    put_keys(ks, i, x);
                    measured += 4;
                    i += 4;
                }
                None => {
                    ks[i] = self.measure_one(rs[i] as usize)?;
                    measured += 1;
                    i += 1;
                }
            }
        }
        Ok(measured)
    }

    // The candidates, whose rows come in any order: their rows and keys by original order, and how many were measured.
    pub fn rerank(&self, ks: &mut [u64], rs: &mut [u64]) -> Result<usize, Refused>
        requires { RowsBelow self.now.library.manifest.layout.rows rs.old × (length ks.old ≡ length rs.old) }
        ensures { (candidates : List ℕ) → sort leb rs.old ≡ sort leb candidates → RerankIs self.now.library.manifest.bytes.now self.now.library.segments.now self.now.query.coordinates.now candidates (reranked result) ks.new rs.new }
    {
        rank::sort_numbers(rs);
        let measured = self.measure_rows(ks, rs)?;
        rank::heap_sort_pairs(ks, rs);
        Ok(measured)
    }
}
