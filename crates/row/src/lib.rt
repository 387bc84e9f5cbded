// One row against a query: the row test of quantized_cache.rs (`validate_row`) and quantization.rs's `approximate_distance`.
#![tactic(auto)]

ghost use Rattle.std.specs.Prelude.{◌≡◌, true, false, ◌+◌, ◌≤◌, nat_abs, length};
ghost use Rattle.std.specs.Float.{nan, binary64};
ghost use Rattle.std.specs.Float.Ieee.{of_int, of_bits};
ghost use Rattle.std.specs.Int.{w64};
ghost use Rattle.std.proofs.Common.{to_z};
ghost use Rattle.le.specs.Le.{le_at};
ghost use Rattle.root.specs.SquareRoot.{sqrt_of};
ghost use Rattle.row.specs.Distance.{squared_l2, inner_product, cosine_by, distance_of};
ghost use Rattle.row.specs.Read.{read_of, scale_test, sums_test};
ghost use Rattle.row.specs.Over.{is_over};
ghost use Rattle.row.specs.Answer.{measured as measured_of, answer, view_of};
ghost use Rattle.codes.specs.Codes.{part};
ghost use Rattle.quantization.specs.View.{row_at, row_test, valid_row};
ghost use Rattle.quantization.specs.Encoder.{Levels};

use codes::{Check, Code, Sums};
use config::{Metric, Number, Refused};
use quantization::Row;

// A query: its scale and norm, and the root of the norm, which is taken once a search.
#[derive(Clone, Copy)]
pub struct Query {
    pub row: Row,
    pub root: f64,
    pub ghost exact: { nat_abs row.norm ≤ 9007199254740992 },
    pub ghost rooted: { root ≡ sqrt_of (of_int binary64 row.norm) },
}

impl Query {
    pub fn new(row: Row) -> Query
        requires { nat_abs row.norm ≤ 9007199254740992 }
        ensures { result.row ≡ row }
    {
        Query {
            row,
            root: norm_root(row.norm),
        }
    }
}

#[derive(Clone, Copy)]
pub enum RowAnswer {
    Distance(f64),
    PassedOver,
    Refused(Refused),
}

// A whole number that a float holds exactly. Not `n as f64` at each use: here alone it is proved that the cast is exact.
fn of_integer(n: i64) -> f64
    requires { nat_abs n ≤ 9007199254740992 }
    ensures { result ≡ of_int binary64 n }
{
    n as f64
}

// The root of a norm.
pub fn norm_root(norm: i64) -> f64
    requires { nat_abs norm ≤ 9007199254740992 }
    ensures { result ≡ sqrt_of (of_int binary64 norm) }
{
    root::sqrt(of_integer(norm))
}

fn squared_l2(s: f64, n: i64, qs: f64, qn: i64, d: i64) -> f64
    requires { (nat_abs n ≤ 9007199254740992) × (nat_abs qn ≤ 9007199254740992) × (nat_abs d ≤ 9007199254740992) }
    ensures { result ≡ squared_l2 s n qs qn d }
{
    float::max_zero(s * s * of_integer(n) + qs * qs * of_integer(qn) - 2.0 * s * qs * of_integer(d))
}

fn inner_product(s: f64, qs: f64, d: i64) -> f64
    requires { nat_abs d ≤ 9007199254740992 }
    ensures { result ≡ inner_product s qs d }
{
    -s * qs * of_integer(d)
}

// With the root of the query's norm.
fn cosine_of(n: i64, root: f64, d: i64) -> f64
    requires { (nat_abs n ≤ 9007199254740992) × (nat_abs d ≤ 9007199254740992) }
    ensures { result ≡ cosine_by n root d }
{
    float::hold(1.0 - of_integer(d) / (root::sqrt(of_integer(n)) * root))
}

pub fn approximate_distance(metric: Metric, row: Row, query: Query, dot: i32) -> f64
    requires { nat_abs row.norm ≤ 9007199254740992 }
    ensures { result ≡ distance_of metric row.scale row.norm query.row.scale query.row.norm dot }
{
    let q = query.row;
    let d = dot as i64;
    match metric {
        Metric::SquaredL2 => squared_l2(row.scale, row.norm, q.scale, q.norm, d),
        Metric::Cosine => cosine_of(row.norm, query.root, d),
        Metric::InnerProduct => inner_product(row.scale, q.scale, d),
    }
}

// Whether the distance is finite and above a bound. Under cosine it is not looked at, for want of the root.
pub fn is_over(metric: Metric, row: Row, query: Row, dot: i32, bound: f64) -> bool
    requires { (nat_abs row.norm ≤ 9007199254740992) × (nat_abs query.norm ≤ 9007199254740992) }
    ensures { result ≡ is_over metric bound (distance_of metric row.scale row.norm query.scale query.norm dot) }
{
    let d = dot as i64;
    match metric {
        Metric::SquaredL2 => float::is_over(
            bound,
            squared_l2(row.scale, row.norm, query.scale, query.norm, d),
        ),
        Metric::Cosine => false,
        Metric::InnerProduct => float::is_over(bound, inner_product(row.scale, query.scale, d)),
    }
}

// The row test but for the scale: codes within the levels, and a norm that is their sum of squares and not 0 under cosine.
pub fn sums_hold(metric: Metric, row: Row, codes: Check) -> bool
    ensures { result ≡ sums_test metric row.norm codes.squares codes.whole }
{
    let norm = row.norm;
    codes.whole & (norm == codes.squares as i64) & !(metric.is_cosine() & (norm == 0))
}

// An infinity is told by its bits: of two comparisons as numbers LLVM would make five operations on the bits.
pub fn scale_holds(scale: f64) -> bool
    ensures { result ≡ scale_test scale }
{
    if 0.0 < scale {
        return f64::to_bits(scale) < 9218868437227405312;
    }
    false
}

// The row test, from what was summed of the codes.
pub fn valid(levels: u32, metric: Metric, row: Row, codes: Check) -> bool
    ensures { result ≡ row_test levels metric row.scale row.norm codes.squares codes.whole }
{
    scale_holds(row.scale) & sums_hold(metric, row, codes)
}

// Scale and norm at a place of a cache, where the scale is finite and above 0. The scale is tested by its bits, which is quicker, and only then read as a number.
pub fn read_row(cache: &[u8], at: usize) -> Option<Row>
    requires { at + 16 ≤ length cache.now }
    ensures { result ≡ read_of (of_bits binary64 (le_at 8 cache.now at)) (to_z w64 (le_at 8 cache.now (at + 8))) }
{
    let bits = le::u64_at(cache, at);
    if (0 < bits) & (bits < 9218868437227405312) {
        return Some(Row {
            scale: float::Pattern::value(bits),
            norm: le::i64_at(cache, at + 8),
        });
    }
    None
}

// The row test, of what was read of a row, and its codes. Inlined, so that the level count is known where the codes are tested.
#[inline(always)]
pub fn holds<C: Code>(levels: u32, metric: Metric, read: Option<Row>, codes: &[C]) -> bool
    requires { (length codes.now ≤ 4096) × Levels levels }
    ensures { (scale : _) (norm : _) → read ≡ read_of scale norm → result ≡ valid_row levels metric (view_of scale norm (C.codes_of codes.now)) }
{
    match read {
        Some(row) => sums_hold(metric, row, codes::row_check(levels as u8, codes)),
        None => false,
    }
}

// ---- What a row yields.
fn refused(number: Number, place: u64) -> RowAnswer
    ensures { result ≡ RowAnswer.Refused (record { number = number; place = place }) }
{
    RowAnswer::Refused(Refused { number, place })
}

fn measured(x: f64, place: u64) -> RowAnswer
    ensures { result ≡ measured_of place x }
{
    if float::is_finite(x) {
        return RowAnswer::Distance(x);
    }
    refused(Number::Approximate, place)
}

// A row that is not eligible: its distance is not looked at.
pub fn passed_over(valid: bool, place: u64) -> RowAnswer
    ensures { result ≡ answer valid false place nan }
{
    if valid {
        return RowAnswer::PassedOver;
    }
    refused(Number::Changed, place)
}

// An eligible row whose scale has passed, from its sums: the rest of the row test, then the distance.
fn scaled_row(metric: Metric, row: Row, sums: Sums, query: Query, place: u64) -> RowAnswer
    ensures { result ≡ answer (sums_test metric row.norm sums.check.squares sums.check.whole) true place (distance_of metric row.scale row.norm query.row.scale query.row.norm sums.dot) }
{
    if sums_hold(metric, row, sums.check) {
        return measured(approximate_distance(metric, row, query, sums.dot), place);
    }
    refused(Number::Changed, place)
}

// An eligible row from its sums.
pub fn summed_row(
    levels: u32,
    metric: Metric,
    row: Row,
    sums: Sums,
    query: Query,
    place: u64,
) -> RowAnswer
    ensures { result ≡ answer (row_test levels metric row.scale row.norm sums.check.squares sums.check.whole) true place (distance_of metric row.scale row.norm query.row.scale query.row.norm sums.dot) }
{
    if scale_holds(row.scale) {
        return scaled_row(metric, row, sums, query, place);
    }
    refused(Number::Changed, place)
}
