// Inner functions for the benchmarks, callable from Rust: each is another crate's, under that one's contract. The entries stand in `exports`, apart
// from them: LLVM inlines a function that has one caller in an archive.
#![tactic(auto)]

ghost use Rattle.std.specs.Prelude.{◌≡◌, true, cond, List, ◌++◌, Float, ℕ, ◌+◌, ◌-◌, ◌*◌, ◌≤◌, length, get_or, drop};
ghost use Rattle.crc32.specs.Crc.{crc32 as checksum};
ghost use Rattle.root.specs.SquareRoot.{sqrt_of};
ghost use Rattle.config.specs.Vector.{finites, floats_at};
ghost use Rattle.config.specs.declared.Metric.TheVariants as M;
ghost use Rattle.codes.specs.Codes.{codes, part, dot, squares, within, Small};
ghost use Rattle.quantization.specs.View.{row_bytes};
ghost use Rattle.quantization.specs.Encoder.{base_levels, encode, midpoints};
ghost use Rattle.math.specs.Distance.{Readable, inverse_norm, original};
ghost use Rattle.math.specs.Four.{original_four};

use config::Metric;
use crc32::Table;
use math::Query;
use quantization::Encoder;

// ---- CRC-32 and the square root.

// A byte at a time.
#[tactic(auto, unfolding(crc32::specs::Crc::crc32))]
#[unsafe(no_mangle)]
pub extern "C" fn pv_crc32_bytes(s: &[u8]) -> u32
    ensures { result ≡ checksum s.now }
{
    crc32::finish(Table::new().update(crc32::START, s))
}

// Eight bytes at a time.
#[unsafe(no_mangle)]
pub extern "C" fn pv_crc32(s: &[u8]) -> u32
    ensures { result ≡ checksum s.now }
{
    crc32::crc32(s)
}

#[unsafe(no_mangle)]
pub extern "C" fn pv_sqrt(x: f64) -> f64
    ensures { result ≡ sqrt_of x }
{
    root::sqrt(x)
}

// ---- Sums over codes. The caller lends room for two numbers: the sum of the squared codes, and 1 where every code is within base_levels.

#[unsafe(no_mangle)]
pub extern "C" fn pv_row_sums(c: &[u8], at: usize, q: &[i16], out: &mut [u32]) -> i32
    requires q_in_bounds { (at + length q.now ≤ length c.now) × (length q.now ≤ 65536) × (length out.old ≡ 2) }
    requires small { Small q.now }
    ensures value { result ≡ dot (part (length q.now) (codes c.now) at) q.now }
    ensures out_after { get_or out.new 0 0 ≡ squares (part (length q.now) (codes c.now) at) }
    ensures out_after_2 { get_or out.new 1 0 ≡ cond (within base_levels (part (length q.now) (codes c.now) at)) 1 0 }
{
    let t = codes::row_sums(quantization::BASE_LEVELS as u8, &c[at..at + q.len()], q);
    out[0] = t.check.squares;
    out[1] = t.check.whole as u32;
    t.dot
}

#[unsafe(no_mangle)]
pub extern "C" fn pv_row_sums_resident(c: &[i8], at: usize, q: &[i16], out: &mut [u32]) -> i32
    requires q_in_bounds { (at + length q.now ≤ length c.now) × (length q.now ≤ 65536) × (length out.old ≡ 2) }
    requires small { Small q.now }
    ensures value { result ≡ dot (part (length q.now) c.now at) q.now }
    ensures out_after { get_or out.new 0 0 ≡ squares (part (length q.now) c.now at) }
    ensures out_after_2 { get_or out.new 1 0 ≡ cond (within base_levels (part (length q.now) c.now at)) 1 0 }
{
    let t = codes::row_sums(quantization::BASE_LEVELS as u8, &c[at..at + q.len()], q);
    out[0] = t.check.squares;
    out[1] = t.check.whole as u32;
    t.dot
}

#[unsafe(no_mangle)]
pub extern "C" fn pv_row_check(c: &[u8], at: usize, n: usize, out: &mut [u32])
    requires { (at + n ≤ length c.now) × (n ≤ 65536) × (length out.old ≡ 2) }
    ensures out_after { get_or out.new 0 0 ≡ squares (part n (codes c.now) at) }
    ensures out_after_2 { get_or out.new 1 0 ≡ cond (within base_levels (part n (codes c.now) at)) 1 0 }
{
    let t = codes::row_check(quantization::BASE_LEVELS as u8, &c[at..at + n]);
    out[0] = t.squares;
    out[1] = t.whole as u32;
}

#[unsafe(no_mangle)]
pub extern "C" fn pv_row_check_resident(c: &[i8], at: usize, n: usize, out: &mut [u32])
    requires { (at + n ≤ length c.now) × (n ≤ 65536) × (length out.old ≡ 2) }
    ensures out_after { get_or out.new 0 0 ≡ squares (part n c.now at) }
    ensures out_after_2 { get_or out.new 1 0 ≡ cond (within base_levels (part n c.now at)) 1 0 }
{
    let t = codes::row_check(quantization::BASE_LEVELS as u8, &c[at..at + n]);
    out[0] = t.squares;
    out[1] = t.whole as u32;
}

// ---- The encoders.

#[unsafe(no_mangle)]
pub extern "C" fn pv_midpoints(out: &mut [f64; 127])
    ensures { out.new ≡ midpoints }
{
    *out = quantization::midpoints_table();
}

#[unsafe(no_mangle)]
pub extern "C" fn pv_encode_row(
    t: &[f64; 127],
    s: &[u8],
    at: usize,
    out: &mut [u8],
    norm: &mut i64,
) -> f64
    requires t_value { t.now ≡ midpoints }
    requires in_bounds { (16 ≤ length out.old) × (length out.old ≤ 4112) × (at + 4 * (length out.old - 16) ≤ length s.now) }
    requires at_value { finites (floats_at (length out.old - 16) s.now at) ≡ true }
    ensures { let e = encode base_levels midpoints (floats_at (length out.old - 16) s.now at) in (out.new ≡ row_bytes e)
        × (result ≡ e.scale) × (norm.new ≡ e.norm) }
{
    let r = Encoder::new(t, quantization::BASE_LEVELS).encode_row(s, at, out);
    *norm = r.norm;
    r.scale
}

#[unsafe(no_mangle)]
pub extern "C" fn pv_encode_resident(
    t: &[f64; 127],
    s: &[u8],
    at: usize,
    out: &mut [i8],
    norm: &mut i64,
) -> f64
    requires t_value { t.now ≡ midpoints }
    requires out_len_bound { (length out.old ≤ 4096) × (at + 4 * length out.old ≤ length s.now) }
    requires at_value { finites (floats_at (length out.old) s.now at) ≡ true }
    ensures { let e = encode base_levels midpoints (floats_at (length out.old) s.now at) in (out.new ≡ e.codes)
        × (result ≡ e.scale) × (norm.new ≡ e.norm) }
{
    let r = Encoder::new(t, quantization::BASE_LEVELS).encode_resident(s, at, out);
    *norm = r.norm;
    r.scale
}

#[unsafe(no_mangle)]
pub extern "C" fn pv_encode_query(t: &[f64; 127], v: &[f32], out: &mut [i16], norm: &mut i64) -> f64
    requires t_value { t.now ≡ midpoints }
    requires v_len_bound { (length v.now ≤ 4096) × (length v.now ≤ length out.old) }
    requires v_value { finites v.now ≡ true }
    ensures { let e = encode base_levels midpoints v.now in (out.new ≡ e.codes ++ drop (length v.now) out.old)
        × (result ≡ e.scale) × (norm.new ≡ e.norm) }
{
    let r = Encoder::new(t, quantization::BASE_LEVELS).encode_query(v, out);
    *norm = r.norm;
    r.scale
}

// ---- Original distances.

// A query whose inverse norm the caller lends with it.
fn query(metric: Metric, coordinates: &[f64], inverse: f64) -> Query<'_>
    requires { inverse ≡ inverse_norm coordinates.now }
    ensures { (result.metric ≡ metric) × (result.coordinates.now ≡ coordinates.now) }
{
    Query {
        metric,
        coordinates,
        inverse,
    }
}

#[unsafe(no_mangle)]
pub extern "C" fn pv_squared_l2(q: &[f64], inverse: f64, s: &[u8], at: usize) -> f64
    requires { Readable (length q.now) s.now at × (inverse ≡ inverse_norm q.now) }
    ensures { result ≡ original M.SquaredL2 q.now (floats_at (length q.now) s.now at) }
{
    query(Metric::SquaredL2, q, inverse).distance(s, at)
}

#[unsafe(no_mangle)]
pub extern "C" fn pv_cosine(q: &[f64], inverse: f64, s: &[u8], at: usize) -> f64
    requires { Readable (length q.now) s.now at × (inverse ≡ inverse_norm q.now) }
    ensures { result ≡ original M.Cosine q.now (floats_at (length q.now) s.now at) }
{
    query(Metric::Cosine, q, inverse).distance(s, at)
}

#[unsafe(no_mangle)]
pub extern "C" fn pv_inner_product(q: &[f64], inverse: f64, s: &[u8], at: usize) -> f64
    requires { Readable (length q.now) s.now at × (inverse ≡ inverse_norm q.now) }
    ensures { result ≡ original M.InnerProduct q.now (floats_at (length q.now) s.now at) }
{
    query(Metric::InnerProduct, q, inverse).distance(s, at)
}

#[unsafe(no_mangle)]
pub extern "C" fn pv_inverse_norm(q: &[f64]) -> f64
    ensures { result ≡ inverse_norm q.now }
{
    math::inverse_norm(q)
}

#[unsafe(no_mangle)]
pub extern "C" fn pv_squared_l2_four(
    q: &[f64],
    inverse: f64,
    s: &[u8],
    a: usize,
    b: usize,
    c: usize,
    d: usize,
    out: &mut [f64; 4],
)
    requires { (inverse ≡ inverse_norm q.now) × Readable (length q.now) s.now a × Readable (length q.now) s.now b
        × Readable (length q.now) s.now c × Readable (length q.now) s.now d }
    ensures { (let at : ℕ → List Float = λ p. floats_at (length q.now) s.now p in out.new ≡ original_four M.SquaredL2 q.now (at a) (at b) (at c) (at d)) }
{
    *out = query(Metric::SquaredL2, q, inverse).distance_four(s, a, b, c, d);
}

#[unsafe(no_mangle)]
pub extern "C" fn pv_cosine_four(
    q: &[f64],
    inverse: f64,
    s: &[u8],
    a: usize,
    b: usize,
    c: usize,
    d: usize,
    out: &mut [f64; 4],
)
    requires { (inverse ≡ inverse_norm q.now) × Readable (length q.now) s.now a × Readable (length q.now) s.now b
        × Readable (length q.now) s.now c × Readable (length q.now) s.now d }
    ensures { (let at : ℕ → List Float = λ p. floats_at (length q.now) s.now p in out.new ≡ original_four M.Cosine q.now (at a) (at b) (at c) (at d)) }
{
    *out = query(Metric::Cosine, q, inverse).distance_four(s, a, b, c, d);
}

#[unsafe(no_mangle)]
pub extern "C" fn pv_inner_product_four(
    q: &[f64],
    inverse: f64,
    s: &[u8],
    a: usize,
    b: usize,
    c: usize,
    d: usize,
    out: &mut [f64; 4],
)
    requires { (inverse ≡ inverse_norm q.now) × Readable (length q.now) s.now a × Readable (length q.now) s.now b
        × Readable (length q.now) s.now c × Readable (length q.now) s.now d }
    ensures { (let at : ℕ → List Float = λ p. floats_at (length q.now) s.now p in out.new ≡ original_four M.InnerProduct q.now (at a) (at b) (at c) (at d)) }
{
    *out = query(Metric::InnerProduct, q, inverse).distance_four(s, a, b, c, d);
}
