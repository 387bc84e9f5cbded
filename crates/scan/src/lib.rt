// The scan of a search: the Rust's `search_selected` (generation/quantization.rs, generation/quantized_cache.rs) up to its candidates. Every
// row is tested, and of the eligible ones the least by approximate distance are kept in two lent slices, the keys and the rows; the slices'
// length is the limit.
#![tactic(auto)]

ghost use Rattle.std.specs.Prelude.{◌≡◌, ℕ, true, not, ◌&&◌, ◌≤◌, ◌<◌, T, length};
ghost use Rattle.std.specs.Float.{binary64};
ghost use Rattle.std.specs.Float.Ieee.{is_nan, to_bits};
ghost use Rattle.float.specs.Order.{key_of};
ghost use Rattle.rank.specs.Heap.{HeapFrom};
ghost use Rattle.rank.specs.Pairs.{pack, pairs};
ghost use Rattle.codes.specs.Codes.{RowSums, Small};
ghost use Rattle.quantization.specs.Encoder.{Levels};
ghost use Rattle.quantization.specs.View.{View, row_test, valid_row};
ghost use Rattle.row.specs.Read.{scale_test, sums_test, read_of};
ghost use Rattle.row.specs.Answer.{answer, view_of};
ghost use Rattle.row.specs.Distance.{distance_of};
ghost use Rattle.format.specs.Fields.{metric_at};
ghost use Rattle.quantized_cache.specs.Open.{cached_at};
ghost use Rattle.resident.specs.Build.{resident_at};
ghost use Rattle.search_spec.specs.Lent.{wanted_of, everyone};
ghost use Rattle.search_spec.specs.Lists.{is_eligible};
ghost use Rattle.eligible.specs.Walk.{Sorted};
ghost use Rattle.scan.specs.Bar.{Bar, Keeps};
ghost use Rattle.scan.specs.Far.{Limits, TurnedAway};
ghost use Rattle.scan.specs.Ahead.{AheadIs, NextIs};
ghost use Rattle.scan.specs.Scan.{ScanIs, reach, scanned};

use codes::{Code, Sums};
use config::{Metric, Refused};
use entries::Table;
use quantization::Row;
use quantized_cache::CachedRows;
use resident::ResidentRows;
use row::{Query, RowAnswer};

// How many candidates are kept, of how many eligible rows.
#[derive(Clone, Copy)]
pub struct Scanned {
    pub count: usize,
    pub eligible: usize,
}

// How many are kept, and the key over which none is any more.
#[derive(Clone, Copy)]
pub struct Held {
    pub count: usize,
    pub top: u64,
}

// The key over which none is kept: the heap's top, once the slices are full.
pub fn bar(ks: &[u64], count: usize) -> u64
    requires { count ≤ length ks.now }
    ensures { Bar ks.now count result }
{
    if count < ks.len() {
        return u64::MAX;
    }
    match ks.first() {
        Some(top) => *top,
        None => 0,
    }
}

// A row with its distance: most are turned away by one comparison with a number at hand.
pub fn keep(ks: &mut [u64], rs: &mut [u64], count: usize, top: u64, x: f64, row: usize) -> Held
    requires count_in_bounds { (count ≤ length ks.old) × (length ks.old ≡ length rs.old) × Bar ks.old count top × T (not (is_nan x)) }
    requires heap_from { count ≡ length ks.old → HeapFrom 0 (pairs ks.old rs.old) }
    ensures { Keeps ks.old rs.old count (pack (key_of (to_bits binary64 x)) row) ks.new rs.new result }
{
    let key = float::key(x);
    if top < key {
        return Held { count, top };
    }
    let n = rank::keep_best(ks, rs, count, key, row as u64);
    let t = bar(ks, n);
    Held { count: n, top: t }
}

// ---- The rows, one kind or the other.

// Rows that are scanned: of a cache, or resident.
pub trait Rows: Copy {
    type Code: Code;

    // how many they are
    ghost count: { Self → ℕ };

    // how many codes each has
    ghost width: { Self → ℕ };

    // a row, as a search sees it
    ghost at: { Self → ℕ → View };

    // A row's scale and norm, where its scale passes.
    fn read(&self, row: usize) -> Option<Row>
        requires { row < count self.now }
        ensures { result ≡ read_of (at self.now row).scale (at self.now row).norm };

    // And its codes.
    fn codes(&self, row: usize) -> &[Self::Code]
        requires { row < count self.now }
        ensures values { Self.Code.codes_of result.now ≡ (at self.now row).codes }
        ensures as_many { length result.now ≡ width self.now };

    // The row test.
    fn holds(&self, levels: u32, metric: Metric, row: usize) -> bool
        requires { (row < count self.now) × (width self.now ≤ 4096) × Levels levels }
        ensures { result ≡ valid_row levels metric (at self.now row) };
}

impl<'a> Rows for CachedRows<'a> {
    type Code = u8;

    ghost count = { λ s. s.rows };

    ghost width = { λ s. s.dimensions };

    ghost at = { λ s row. cached_at s.rows s.dimensions s.cache.now row };

    fn read(&self, row: usize) -> Option<Row> {
        CachedRows::read(self, row)
    }

    fn codes(&self, row: usize) -> &[u8] {
        CachedRows::codes(self, row)
    }

    fn holds(&self, levels: u32, metric: Metric, row: usize) -> bool {
        row::holds(
            levels,
            metric,
            CachedRows::read(self, row),
            CachedRows::codes(self, row),
        )
    }
}

// A resident row's scale and norm.
#[inline(always)]
fn scale_and_norm(rows: &ResidentRows<'_>, row: usize) -> Row
    requires { row < rows.now.rows }
    ensures { let v = resident_at rows.now.dimensions rows.now.codes.now rows.now.scales.now rows.now.norms.now row in
        (result.scale ≡ v.scale) × (result.norm ≡ v.norm) }
{
    Row {
        scale: rows.scales[row],
        norm: rows.norms[row],
    }
}

// Its codes.
#[inline(always)]
fn resident_codes<'a>(rows: &ResidentRows<'a>, row: usize) -> &'a [i8]
    requires { row < rows.now.rows }
    ensures values { result.now ≡ (resident_at rows.now.dimensions rows.now.codes.now rows.now.scales.now rows.now.norms.now row).codes }
    ensures as_many { length result.now ≡ rows.now.dimensions }
{
    let from = row * rows.dimensions;
    let end = from + rows.dimensions;
    &rows.codes[from..end]
}

impl<'a> Rows for ResidentRows<'a> {
    type Code = i8;

    ghost count = { λ s. s.rows };

    ghost width = { λ s. s.dimensions };

    ghost at = { λ s row. resident_at s.dimensions s.codes.now s.scales.now s.norms.now row };

    #[tactic(auto, unfolding(row::specs::Read::read_of))]
    fn read(&self, row: usize) -> Option<Row> {
        let r = scale_and_norm(self, row);
        if row::scale_holds(r.scale) {
            Some(r)
        } else {
            None
        }
    }

    fn codes(&self, row: usize) -> &[i8] {
        resident_codes(self, row)
    }

    fn holds(&self, levels: u32, metric: Metric, row: usize) -> bool {
        let codes = codes::row_check(levels as u8, resident_codes(self, row));
        row::valid(levels, metric, scale_and_norm(self, row), codes)
    }
}

// ---- The query, as rows are held against it.

#[derive(Clone, Copy)]
pub struct Against<'a> {
    pub levels: u32,
    pub metric: Metric,
    pub query: Query,
    pub codes: &'a [i16],
    pub ghost counted: { Levels levels },
    pub ghost short: { length codes.now ≤ 4096 },
    pub ghost small: { Small codes.now },
}

// The last row that was gone over, and what is said of it.
#[derive(Clone, Copy)]
pub struct Next {
    pub row: usize,
    pub answer: RowAnswer,
}

// A row that may not be turned away, and its sums.
#[derive(Clone, Copy)]
pub struct Ahead {
    pub row: usize,
    pub sums: Sums,
}

impl<'a> Against<'a> {
    // The limit for the key over which none is kept; 0, by which no row is too far, but under cosine.
    #[tactic(auto, using(cosine::proofs::Far::never))]
    fn far_bound(self, top: u64) -> u32
        ensures { Limits self.entry.metric self.entry.query.row.norm top result }
    {
        if self.metric.is_cosine() {
            return cosine::far_limit(top, self.query.row.norm);
        }
        0
    }

    // Whether a row is turned away: it is valid, with a finite distance whose key is over that of every row that is kept, so that it changes
    // nothing; by the number with the key that none may be over, under cosine by the limit `far`, without a root. Nearly all rows are.
    #[inline(always)]
    fn turns_away(self, row: Option<Row>, sums: Sums, bound: f64, far: u32) -> bool
        ensures { (scale : _) (norm : _) → row ≡ read_of scale norm
            → TurnedAway self.entry.query.row.norm bound far (scale_test scale && sums_test self.entry.metric norm sums.check.squares sums.check.whole) (distance_of self.entry.metric scale norm self.entry.query.row.scale self.entry.query.row.norm sums.dot) result }
    {
        let Some(row) = row else {
            return false;
        };
        if self.metric.is_cosine() {
            return row::sums_hold(self.metric, row, sums.check)
                && cosine::is_far(sums.check.squares, sums.dot, far);
        }
        row::sums_hold(self.metric, row, sums.check)
            && row::is_over(self.metric, row, self.query.row, sums.dot, bound)
    }

    // Of eligible rows, from this one on and before `to`, the first that may not be turned away.
    #[inline(always)]
    fn ahead<R: Rows>(self, rows: R, row: usize, to: usize, top: u64, far: u32) -> Option<Ahead>
        requires bounds { (row ≤ to) × (to ≤ R.count rows) × (R.width rows ≡ length self.codes.now) }
        requires limits { Limits self.metric self.query.row.norm top far }
        ensures { AheadIs self.entry.levels self.entry.metric (R.at rows) (view_of self.entry.query.row.scale self.entry.query.row.norm self.entry.codes.now) row to top result }
    {
        let bound = float::value_of_key(top);
        let levels = self.levels as u8;
        for i in row..to {
            let sums = codes::row_sums(levels, rows.codes(i), self.codes);
            if !self.turns_away(rows.read(i), sums, bound, far) {
                return Some(Ahead { row: i, sums });
            }
        }
        None
    }

    // What an eligible row yields, from its sums.
    fn answer(self, read: Option<Row>, row: usize, sums: Sums) -> RowAnswer
        ensures { (scale : _) (norm : _) → read ≡ read_of scale norm
            → result ≡ answer (row_test self.entry.levels self.entry.metric scale norm sums.check.squares sums.check.whole) true row (distance_of self.entry.metric scale norm self.entry.query.row.scale self.entry.query.row.norm sums.dot) }
    {
        match read {
            Some(r) => row::summed_row(self.levels, self.metric, r, sums, self.query, row as u64),
            None => row::passed_over(false, row as u64),
        }
    }

    // The row; where it is eligible, the first from it on that may not be turned away, or the last before `to`. Inlined, as what it calls
    // is: the query stays in registers, and the level count is known where the codes are tested.
    #[inline(always)]
    fn next<R: Rows>(
        self,
        rows: R,
        eligible: bool,
        row: usize,
        to: usize,
        top: u64,
        far: u32,
    ) -> Next
        requires bounds { (row < to) × (to ≤ R.count rows) × (R.width rows ≡ length self.codes.now) }
        requires limits { Limits self.metric self.query.row.norm top far }
        ensures { NextIs self.entry.levels self.entry.metric (R.at rows) (view_of self.entry.query.row.scale self.entry.query.row.norm self.entry.codes.now) eligible row to top result }
    {
        if !eligible {
            let valid = rows.holds(self.levels, self.metric, row);
            return Next {
                row,
                answer: row::passed_over(valid, row as u64),
            };
        }
        match self.ahead(rows, row, to, top, far) {
            Some(a) => Next {
                row: a.row,
                answer: self.answer(rows.read(a.row), a.row, a.sums),
            },
            None => Next {
                row: to - 1,
                answer: RowAnswer::PassedOver,
            },
        }
    }
}

// ---- The scan.

// Up to where the rows from this one on are eligible, if it is: to the end where every id is wanted.
fn reach(wanted: Option<&[u64]>, row: usize, rows: usize) -> usize
    requires { row < rows }
    ensures { result ≡ reach (wanted_of wanted.entry) row rows }
{
    if wanted.is_none() { rows } else { row + 1 }
}

// Inlined, as `shortlist` and `kept::find` are, in which the level count is known.
#[inline(always)]
pub fn scan<R: Rows>(
    against: Against<'_>,
    rows: R,
    table: Table<'_>,
    wanted: Option<&[u64]>,
    ks: &mut [u64],
    rs: &mut [u64],
) -> Result<Scanned, Refused>
    requires sorted { Sorted (wanted_of wanted) }
    requires rows { (R.count rows ≡ table.manifest.layout.rows) × (R.width rows ≡ table.manifest.layout.dimensions)
        × (length against.codes.now ≡ table.manifest.layout.dimensions) }
    requires slices { (against.metric ≡ metric_at table.manifest.bytes.now) × (length ks.old ≡ length rs.old) }
    ensures { ScanIs against.entry.levels table.entry.manifest.bytes.now (is_eligible (wanted_of wanted.entry) everyone table.entry.manifest.bytes.now) (R.at rows) (view_of against.entry.query.row.scale against.entry.query.row.norm against.entry.codes.now) (length ks.old) (scanned result) ks.new rs.new }
{
    let end = table.manifest.layout.rows;
    let mut row = 0;
    let mut cursor = 0;
    let mut eligible = 0;
    let mut count = 0;
    let mut top = bar(ks, 0);
    let mut far = 0;
    // not a `for`: a turn goes over as many rows as `next` does
    while row < end {
        let e = eligible::row_step(table, wanted, cursor, row);
        cursor = e.cursor;
        let to = reach(wanted, row, end);
        let a = against.next(rows, e.eligible, row, to, top, far);
        eligible += a.row - row + e.eligible as usize;
        row = a.row;
        match a.answer {
            RowAnswer::Distance(x) => {
                let h = keep(ks, rs, count, top, x, row);
                count = h.count;
                top = h.top;
                far = against.far_bound(h.top);
            }
            RowAnswer::PassedOver => {}
            RowAnswer::Refused(refused) => {
                return Err(refused);
            }
        }
        row += 1;
    }
    Ok(Scanned { count, eligible })
}
