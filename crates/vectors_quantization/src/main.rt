// The Rust's answers on the encoder and the distances, replayed. The input is a row of cases: a metric byte and five vectors of 43 f32
// (a part of 32 codes and a rest): the query, the record and three more. make/main.rs says what is printed of each.
#![tactic(auto)]

ghost use Rattle.std.specs.Prelude.{◌≡◌, true, ◌≤◌, length, nat_abs};
ghost use Rattle.config.specs.Vector.{finites, floats_at};
ghost use Rattle.codes.specs.Codes.{Small};

use config::Metric;
use quantization::{Encoder, Row};
use row::{Query, RowAnswer};
use std::fmt;
use std::io::{BufReader, BufWriter, Read, Result, Write};
use std::num::f32_from_bits_with_nan;

// The bits of a distance, or `nan`.
#[derive(Drop)]
struct Bits(f64);

impl fmt::Display for Bits {
    fn fmt<W: fmt::Write>(&self, f: &mut fmt::Formatter<W>) -> fmt::Result {
        if self.0.is_nan() {
            f.write_str("nan")
        } else {
            write!(f, "{:016x}", self.0.to_bits())
        }
    }
}

// The f32 of a pattern, or 0 where it is no number.
fn number(b: u32) -> f32 {
    let x = f32_from_bits_with_nan(b);
    if x.is_finite() { x } else { 0.0 }
}

fn vector(s: &[u8]) -> [f32; 43]
    requires { 172 ≤ length s.now }
{
    let mut v = [0.0; 43];
    for (i, x) in v.iter_mut().enumerate() {
        *x = number(le::u32_at(s, 4 * i));
    }
    v
}

// The scale, the norm and the codes of a row as it stands in a cache.
fn print_row<W: Write>(w: &mut W, s: &[u8; 59]) -> Result<()> {
    write!(w, "{:016x} {} ", le::u64_at(s, 0), le::u64_at(s, 8))?;
    for b in &s[16..] {
        write!(w, "{b:02x}")?;
    }
    writeln!(w)
}

// Encodes a record; whether it is one.
fn encoder_line(encoder: &Encoder<'_>, s: &[u8; 172], out: &mut [u8; 59]) -> bool {
    if config::validate_record(Metric::SquaredL2, s, 0, 43) {
        encoder.encode_row(s, 0, out);
        return true;
    }
    false
}

// The row's answer to a query's codes.
fn answer(metric: Metric, row: &[u8; 59], codes: &[i16; 43], query: Row) -> RowAnswer
    requires { (nat_abs query.norm ≤ 9007199254740992) × Small codes.now }
{
    let sums = codes::row_sums(quantization::BASE_LEVELS as u8, &row[16..], codes);
    let r = Row {
        scale: float::Pattern::value(le::u64_at(row, 0)),
        norm: le::i64_at(row, 8),
    };
    row::summed_row(
        quantization::BASE_LEVELS,
        metric,
        r,
        sums,
        Query::new(query),
        0,
    )
}

fn print_answer<W: Write>(w: &mut W, r: RowAnswer) -> Result<()> {
    match r {
        RowAnswer::Distance(x) => writeln!(w, "{}", Bits(x)),
        RowAnswer::PassedOver => writeln!(w, "passed over"),
        RowAnswer::Refused(e) => writeln!(w, "{}", e.number.number()),
    }
}

// The answer to a query, where it is one.
fn approximate_line(
    metric: Metric,
    encoder: &Encoder<'_>,
    q: &[f32; 43],
    row: &[u8; 59],
    codes: &mut [i16; 43],
) -> Option<RowAnswer> {
    if config::validate_vector(metric, 43, q) {
        let query = encoder.encode_query(q, codes);
        return Some(answer(metric, row, codes, query));
    }
    None
}

fn measure(metric: Metric, q: &[f64; 43], s: &[u8; 172]) -> f64
    requires { finites (floats_at 43 s.now 0) ≡ true }
{
    let query = math::Query {
        metric,
        coordinates: q,
        inverse: math::inverse_norm(q),
    };
    query.distance(s, 0)
}

// The original distance of a record, where it is one, to a query that is widened first.
fn original_line(
    metric: Metric,
    q: &[f32; 43],
    wide: &mut [f64; 43],
    s: &[u8; 172],
) -> Option<f64> {
    if config::validate_record(metric, s, 0, 43) {
        math::widen(q, wide);
        return Some(measure(metric, wide, s));
    }
    None
}

fn distances<W: Write>(
    w: &mut W,
    metric: Metric,
    encoder: &Encoder<'_>,
    query: &[u8; 172],
    record: &[u8; 172],
    row: &[u8; 59],
    rest: &[u8; 516],
) -> Result<()> {
    let mut codes = [0i16; 43];
    let mut wide = [0f64; 43];
    let q = vector(query);
    let a = vector(record);
    let b = vector(&rest[..172]);
    let c = vector(&rest[172..344]);
    let d = vector(&rest[344..]);
    if let Some(r) = approximate_line(metric, encoder, &q, row, &mut codes) {
        print_answer(w, r)?;
    }
    if let Some(x) = original_line(metric, &q, &mut wide, record) {
        writeln!(w, "{}", Bits(x))?;
    }
    let four = math::distance_four(metric, &q, &a, &b, &c, &d);
    let [a, b, c, d] = four.unwrap_or([0.0; 4]);
    writeln!(w, "{} {} {} {}", Bits(a), Bits(b), Bits(c), Bits(d))
}

fn case<W: Write>(
    w: &mut W,
    metric: Metric,
    encoder: &Encoder<'_>,
    query: &[u8; 172],
    record: &[u8; 172],
    rest: &[u8; 516],
) -> Result<()> {
    let mut row = [0u8; 59];
    let mut other = [0u8; 59];
    if encoder_line(encoder, record, &mut row) {
        print_row(w, &row)?;
    }
    if encoder_line(encoder, query, &mut other) {
        print_row(w, &other)?;
    }
    distances(w, metric, encoder, query, record, &row, rest)
}

// Reads and runs a case; whether there was one.
fn next<R: Read, W: Write>(r: &mut R, w: &mut W, encoder: &Encoder<'_>) -> Result<bool> {
    let mut head = [0u8; 1];
    let mut query = [0u8; 172];
    let mut record = [0u8; 172];
    let mut rest = [0u8; 516];
    replay::fill(r, &mut head);
    replay::fill(r, &mut query);
    replay::fill(r, &mut record);
    if replay::fill(r, &mut rest) < 516 {
        return Ok(false);
    }
    if let Ok(metric) = Metric::try_from(head[0]) {
        case(w, metric, encoder, &query, &record, &rest)?;
    }
    Ok(true)
}

fn run<R: Read, W: Write>(r: &mut R, w: &mut W, encoder: &Encoder<'_>) -> Result<()> {
    for _ in 0..10000 {
        if !next(r, w, encoder)? {
            break;
        }
        // a case is answered before the next is waited for
        w.flush()?;
    }
    Ok(())
}

fn main(rt: HostRuntime) -> Result<()> {
    let t = quantization::midpoints_table();
    let mut r = BufReader::new(rt.alloc(), rt.stdin())?;
    let mut w = BufWriter::new(rt.alloc(), rt.stdout())?;
    replay::end(run(&mut r, &mut w, &Encoder::new(&t, quantization::BASE_LEVELS)))
}
