// Original distances: math.rs, and `original_distance` of generation.rs.
#![tactic(auto)]

ghost use Rattle.std.specs.Prelude.{◌≡◌, ◌+◌, ◌<◌, ◌≤◌, ℕ, List, Float, true, ◌++◌, length, drop, if◌then◌else◌, slice_index_or};
ghost use Rattle.std.specs.Float.{nan, binary64};
ghost use Rattle.std.specs.Float.Ieee.{sub};
ghost use Rattle.float.specs.Values.{quad};
ghost use Rattle.root.specs.SquareRoot.{sqrt_of};
ghost use Rattle.config.specs.Metric.{is_cosine};
ghost use Rattle.config.specs.declared.Metric.TheVariants.{Cosine};
ghost use Rattle.config.specs.Vector.{floats_at, finites};
ghost use Rattle.math.specs.Sums.{dot_step, step_of};
ghost use Rattle.math.specs.Distance.{Readable, inverse, inverse_norm, finished, original};
ghost use Rattle.math.specs.Four.{original_four, valid_five, distance_four, four_outcome};

use config::{Metric, Number};

// ---- Coordinates as f64.

// A query's, once for a whole search.
pub fn widen(v: &[f32], out: &mut [f64])
    requires { length v.now ≤ length out.old }
    ensures { out.new ≡ v.now ++ drop (length v.now) out.old }
{
    for (i, x) in v.iter().enumerate() {
        out[i] = std::num::f32_to_f64_with_nan(*x);
    }
}

// The coordinates of a query, of an f32 vector of finite ones, or of a record.
trait Coordinates {
    ghost floats: { Self → List Float };

    ghost readable: { Self → Type 0 };

    fn at(&self, i: usize) -> f64
        requires in_bounds { i < length (floats self.now) }
        requires can { readable self.now }
        ensures { result ≡ slice_index_or (floats self.now) i nan };
}

impl<'a> Coordinates for &'a [f64] {
    ghost floats = { λ v. v.now };

    ghost readable = { λ v. Unit {0} };

    fn at(&self, i: usize) -> f64 {
        self[i]
    }
}

impl<'a> Coordinates for &'a [f32] {
    ghost floats = { λ v. v.now };

    ghost readable = { λ v. finites v.now ≡ true };

    fn at(&self, i: usize) -> f64 {
        let v = *self;
        v[i] as f64
    }
}

// The n coordinates at a place of a segment.
#[derive(Clone, Copy)]
struct Record<'a> {
    bytes: &'a [u8],
    at: usize,
    n: usize,
    ghost readable: { Readable n bytes.now at },
}

impl<'a> Coordinates for Record<'a> {
    ghost floats = { λ r. floats_at r.n r.bytes.now r.at };

    ghost readable = { λ r. Unit {0} };

    fn at(&self, i: usize) -> f64 {
        let s = self.bytes;
        let x = f32::from_bits(le::u32_at(s, self.at + 4 * i));
        x as f64
    }
}

// ---- Inverse norms.

// 1 / root, or 0 where the root is 0.
fn inverse_of(root: f64) -> f64
    ensures { result ≡ inverse root }
{
    if root == 0.0 { 0.0 } else { 1.0 / root }
}

fn inverse_root(x: f64) -> f64
    ensures { result ≡ inverse (sqrt_of x) }
{
    inverse_of(root::sqrt(x))
}

pub fn inverse_norm(q: &[f64]) -> f64
    ensures { result ≡ inverse_norm q.now }
{
    let mut norm: f64 = -0.0;
    for x in q {
        norm += *x * *x;
    }
    inverse_root(norm)
}

// ---- One distance.

// One coordinate more in the metric's sum; and in the record's sum of squares, which cosine alone has.
fn step(metric: Metric, sum: f64, x: f64, y: f64) -> f64
    ensures { result ≡ step_of metric sum x y }
{
    match metric {
        Metric::SquaredL2 => sum + (x - y) * (x - y),
        Metric::Cosine | Metric::InnerProduct => sum + x * y,
    }
}

fn norm_step(metric: Metric, norm: f64, y: f64) -> f64
    ensures { result ≡ (if is_cosine metric then dot_step norm y y else norm) }
{
    if metric.is_cosine() {
        norm + y * y
    } else {
        norm
    }
}

// Cosine, from the dot product, the query's inverse norm and the root of the record's sum of squares.
fn cosine(sum: f64, q_inverse: f64, root: f64) -> f64
    ensures { result ≡ finished Cosine sum q_inverse (inverse root) }
{
    float::hold(1.0 - sum * q_inverse * inverse_of(root))
}

// The distance, from the metric's sum and, under cosine, from the query's inverse norm and the record's sum of squares.
fn finish(metric: Metric, sum: f64, q_inverse: f64, norm: f64) -> f64
    ensures { result ≡ finished metric sum q_inverse (inverse (sqrt_of norm)) }
{
    match metric {
        Metric::SquaredL2 => sum,
        Metric::Cosine => cosine(sum, q_inverse, root::sqrt(norm)),
        Metric::InnerProduct => -sum,
    }
}

// A query: the metric, its coordinates as f64, and the inverse of its norm, which cosine alone looks at.
#[derive(Clone, Copy)]
pub struct Query<'a> {
    pub metric: Metric,
    pub coordinates: &'a [f64],
    pub inverse: f64,
    pub ghost inverse_is: { is_cosine metric ≡ true → inverse ≡ inverse_norm coordinates.now },
}

impl<'a> Query<'a> {
    // To the record whose coordinates, all finite, begin at a place.
    pub fn distance(&self, s: &[u8], at: usize) -> f64
        requires { Readable (length self.now.coordinates.now) s.now at }
        ensures { result ≡ original self.now.metric self.now.coordinates.now (floats_at (length self.now.coordinates.now) s.now at) }
    {
        let mut sum: f64 = -0.0;
        let mut norm: f64 = -0.0;
        let record = Record {
            bytes: s,
            at,
            n: self.coordinates.len(),
        };
        for (i, x) in self.coordinates.iter().enumerate() {
            let y = record.at(i);
            sum = step(self.metric, sum, *x, y);
            norm = norm_step(self.metric, norm, y);
        }
        finish(self.metric, sum, self.inverse, norm)
    }

    // To four records of one slice, by their places. Inlined, as `measure_four` is: where the metric is a constant, the loop is for that one.
    #[inline(always)]
    #[tactic(auto, using(config::proofs::Vectors::length_floats))]
    pub fn distance_four(&self, s: &[u8], a: usize, b: usize, c: usize, d: usize) -> [f64; 4]
        requires { Readable (length self.now.coordinates.now) s.now a × Readable (length self.now.coordinates.now) s.now b
            × Readable (length self.now.coordinates.now) s.now c × Readable (length self.now.coordinates.now) s.now d }
        ensures { (let at : ℕ → List Float = λ p. floats_at (length self.now.coordinates.now) s.now p in
            result ≡ original_four self.now.metric self.now.coordinates.now (at a) (at b) (at c) (at d)) }
    {
        let n = self.coordinates.len();
        let a = Record { bytes: s, at: a, n };
        let b = Record { bytes: s, at: b, n };
        let c = Record { bytes: s, at: c, n };
        let d = Record { bytes: s, at: d, n };
        measure_four(
            self.metric,
            n,
            &self.coordinates,
            Some(self.inverse),
            &a,
            &b,
            &c,
            &d,
        )
    }
}

// ---- Four distances: four records' sums and norms at once, each in its own order.

// The four that f makes.
fn each<F: Fn(usize) -> f64>(f: F) -> [f64; 4]
    requires { (k : ℕ) → k < 4 → F.pre f k }
    ensures { (g : ℕ → Float) → ((k : ℕ) (y : Float) → k < 4 → F.post f k y → y ≡ g k) → result ≡ quad g }
{
    [f(0), f(1), f(2), f(3)]
}

// As `step`, `norm_step` and `finish`.
fn step_four(metric: Metric, sums: [f64; 4], x: f64, y: [f64; 4]) -> [f64; 4]
    ensures { result ≡ quad (λ k. step_of metric (slice_index_or sums k nan) x (slice_index_or y k nan)) }
{
    each(|k| step(metric, sums[k], x, y[k]))
}

// One test for the four: with a test a lane, cosine takes 1.9 times as long.
fn norm_step_four(metric: Metric, norms: [f64; 4], y: [f64; 4]) -> [f64; 4]
    ensures { result ≡ (if is_cosine metric then quad (λ k. dot_step (slice_index_or norms k nan) (slice_index_or y k nan) (slice_index_or y k nan)) else norms) }
{
    if metric.is_cosine() {
        each(|k| norms[k] + y[k] * y[k])
    } else {
        norms
    }
}

fn finish_four(metric: Metric, sums: [f64; 4], q_inverse: f64, norms: [f64; 4]) -> [f64; 4]
    ensures { result ≡ quad (λ k. finished metric (slice_index_or sums k nan) q_inverse (inverse (sqrt_of (slice_index_or norms k nan)))) }
{
    match metric {
        Metric::SquaredL2 => each(|k| sums[k]),
        Metric::Cosine => {
            let roots = root::sqrt_four(norms);
            each(|k| cosine(sums[k], q_inverse, roots[k]))
        }
        Metric::InnerProduct => each(|k| -sums[k]),
    }
}

// A query of n coordinates, its inverse norm if that is known, and four vectors (by name: a proof cannot read an array of a type parameter without a
// default of that type).
#[inline(always)]
fn measure_four<X: Coordinates, Y: Coordinates>(
    metric: Metric,
    n: usize,
    q: &X,
    known: Option<f64>,
    a: &Y,
    b: &Y,
    c: &Y,
    d: &Y,
) -> [f64; 4]
    requires known_value { (x : Float) → known ≡ Some x → is_cosine metric ≡ true → x ≡ inverse_norm (X.floats q.now) }
    requires q_length { (length (X.floats q.now) ≡ n) × X.readable q.now }
    requires a_length { (length (Y.floats a.now) ≡ n) × Y.readable a.now }
    requires b_length { (length (Y.floats b.now) ≡ n) × Y.readable b.now }
    requires c_length { (length (Y.floats c.now) ≡ n) × Y.readable c.now }
    requires d_length { (length (Y.floats d.now) ≡ n) × Y.readable d.now }
    ensures { result ≡ original_four metric (X.floats q.now) (Y.floats a.now) (Y.floats b.now) (Y.floats c.now) (Y.floats d.now) }
{
    let mut sums: [f64; 4] = [-0.0, -0.0, -0.0, -0.0];
    let mut norms: [f64; 4] = [-0.0, -0.0, -0.0, -0.0];
    let mut q_norm: f64 = -0.0;
    for i in 0..n {
        let x = q.at(i);
        let y = [a.at(i), b.at(i), c.at(i), d.at(i)];
        // An array that a call makes goes through a local of its own: the borrow checker's proof covers no other form.
        let next = step_four(metric, sums, x, y);
        sums = next;
        let more = norm_step_four(metric, norms, y);
        norms = more;
        q_norm = norm_step(metric, q_norm, x);
    }
    let q_inverse = match known {
        Some(x) => x,
        None => inverse_root(q_norm),
    };
    finish_four(metric, sums, q_inverse, norms)
}

// Whether all five vectors have one length of 1 to 4096 and pass the vector test. (Five calls: with `all` over an array of them the proof does not close.)
fn valid_five(metric: Metric, query: &[f32], a: &[f32], b: &[f32], c: &[f32], d: &[f32]) -> bool
    ensures { result ≡ valid_five metric query.now a.now b.now c.now d.now }
{
    let n = query.len();
    (1 <= n)
        & (n <= config::MAX_DIMENSIONS)
        & config::validate_vector(metric, n, query)
        & config::validate_vector(metric, n, a)
        & config::validate_vector(metric, n, b)
        & config::validate_vector(metric, n, c)
        & config::validate_vector(metric, n, d)
}

// Four distances; 16 where a vector is refused.
#[tactic(auto, using(crate::proofs::Fours::valid_five_lem), unfolding(crate::specs::Four::distance_four))]
pub fn distance_four(
    metric: Metric,
    query: &[f32],
    a: &[f32],
    b: &[f32],
    c: &[f32],
    d: &[f32],
) -> Result<[f64; 4], Number>
    ensures { four_outcome result ≡ distance_four metric query.now a.now b.now c.now d.now }
{
    if !valid_five(metric, query, a, b, c, d) {
        return Err(Number::Query);
    }
    let n = query.len();
    Ok(measure_four(metric, n, &query, None, &a, &b, &c, &d))
}
