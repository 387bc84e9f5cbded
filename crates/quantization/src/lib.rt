// The row encoder: quantization.rs's `encode`. From a record's bytes or from f32s to a scale, a norm and codes, which are stored as
// a row of a cache, as i8s, or as i16s.
#![tactic(auto)]

ghost use Rattle.std.specs.Prelude.{◌≡◌, true, false, not, List, map, ◌++◌, ℕ, ℤ, ◌+◌, ◌-◌, ◌*◌, ◌≤◌, ◌<◌, ◌^◌, T, leb, length, slice_index, drop};
ghost use Rattle.std.specs.Float.{binary32, binary64};
ghost use Rattle.std.specs.Float.Ieee.{of_bits, to_bits, div, is_nan};
ghost use Rattle.std.specs.Float.Ieee.Scale.{finite};
ghost use Rattle.std.specs.Float.Ieee.Positive.{positive};
ghost use Rattle.std.specs.Int.{w8};
ghost use Rattle.std.proofs.Common.{of_z};
ghost use Rattle.float.specs.Values.{abs};
ghost use Rattle.float.specs.Order.{negative};
ghost use Rattle.config.specs.Vector.{finites, floats_at, patterns_at, largest_bits};
ghost use Rattle.quantization.specs.View.{row_bytes};
ghost use Rattle.quantization.specs.Encoder.{Levels, scale_by, not_above, signed_by, encode, midpoints_of, midpoints};
ghost use Rattle.quantization.specs.Walk.{held as held_of, Walked};

// A row's scale and norm, as one value.
#[derive(Clone, Copy)]
pub struct Row {
    pub scale: f64,
    pub norm: i64,
}

// The level count of the base: magnitudes of codes from 0 to 127.
pub const BASE_LEVELS: u32 = 127;

// The midpoints between the magnitudes of codes, of 127 levels; fewer levels use the first of them.
const MIDPOINTS: [f64; 127] = [
    0.5, 1.5, 2.5, 3.5, 4.5, 5.5, 6.5, 7.5, 8.5, 9.5, 10.5, 11.5, 12.5, 13.5, 14.5, 15.5, 16.5,
    17.5, 18.5, 19.5, 20.5, 21.5, 22.5, 23.5, 24.5, 25.5, 26.5, 27.5, 28.5, 29.5, 30.5, 31.5, 32.5,
    33.5, 34.5, 35.5, 36.5, 37.5, 38.5, 39.5, 40.5, 41.5, 42.5, 43.5, 44.5, 45.5, 46.5, 47.5, 48.5,
    49.5, 50.5, 51.5, 52.5, 53.5, 54.5, 55.5, 56.5, 57.5, 58.5, 59.5, 60.5, 61.5, 62.5, 63.5, 64.5,
    65.5, 66.5, 67.5, 68.5, 69.5, 70.5, 71.5, 72.5, 73.5, 74.5, 75.5, 76.5, 77.5, 78.5, 79.5, 80.5,
    81.5, 82.5, 83.5, 84.5, 85.5, 86.5, 87.5, 88.5, 89.5, 90.5, 91.5, 92.5, 93.5, 94.5, 95.5, 96.5,
    97.5, 98.5, 99.5, 100.5, 101.5, 102.5, 103.5, 104.5, 105.5, 106.5, 107.5, 108.5, 109.5, 110.5,
    111.5, 112.5, 113.5, 114.5, 115.5, 116.5, 117.5, 118.5, 119.5, 120.5, 121.5, 122.5, 123.5,
    124.5, 125.5, 126.5,
];

// The table to lend: a constant array is built anew wherever it is used, so a caller makes it once. (As a static, whose address LLVM knows, the encoder
// takes 1.25 times as long.)
pub fn midpoints_table() -> [f64; 127]
    ensures { result ≡ midpoints }
{
    MIDPOINTS
}

// ---- What is encoded, and what a code is stored as.

// The coordinates of a vector, by their patterns.
trait Source {
    ghost patterns: { Self → List ℕ };

    fn len(&self) -> usize
        ensures { result ≡ length (patterns self.now) };

    fn pattern(&self, i: usize) -> u32
        requires in_bounds { i < length (patterns self.now) }
        requires finite { finites (map (of_bits binary32) (patterns self.now)) ≡ true }
        ensures { result ≡ slice_index (patterns self.now) i };
}

// The n coordinates at a place of a record.
#[derive(Clone, Copy)]
struct Record<'a> {
    bytes: &'a [u8],
    at: usize,
    n: usize,
    ghost in_bounds: { at + 4 * n ≤ length bytes.now },
}

impl<'a> Source for Record<'a> {
    ghost patterns = { λ r. patterns_at r.n r.bytes.now r.at };

    fn len(&self) -> usize {
        self.n
    }

    fn pattern(&self, i: usize) -> u32 {
        let s = self.bytes;
        le::u32_at(s, self.at + 4 * i)
    }
}

impl<'a> Source for &'a [f32] {
    ghost patterns = { λ v. map (to_bits binary32) v.now };

    fn len(&self) -> usize {
        (*self).len()
    }

    fn pattern(&self, i: usize) -> u32 {
        f32::to_bits(self[i])
    }
}

// What a code is stored as: its byte in two's complement, itself, or an i16.
trait Stored: Copy {
    ghost stored: { ℤ → Self };

    fn of(code: i8) -> Self
        ensures { result ≡ stored code };
}

impl Stored for u8 {
    ghost stored = { of_z w8 };

    fn of(code: i8) -> u8 {
        code.cast_unsigned()
    }
}

impl Stored for i8 {
    ghost stored = { λ z. z };

    fn of(code: i8) -> i8 {
        code
    }
}

impl Stored for i16 {
    ghost stored = { λ z. z };

    fn of(code: i8) -> i16 {
        i16::from(code)
    }
}

// The largest pattern without its sign.
fn largest_bits<S: Source>(source: &S) -> u32
    requires { finites (map (of_bits binary32) (S.patterns source.now)) ≡ true }
    ensures { result ≡ largest_bits (S.patterns source.now) }
{
    let mut most: u32 = 0;
    for i in 0..source.len() {
        most = most.max(source.pattern(i) % 2147483648);
    }
    most
}

// The lesser of x and top: one instruction, where `f64::min` also looks for NaN.
fn held(top: f64, x: f64) -> f64
    ensures { result ≡ held_of top x }
{
    if x < top { x } else { top }
}

// The code of magnitude m with the sign of the pattern b, which is the quotient's (`code_sign`).
fn code(b: u32, m: u32) -> i8
    requires { m ≤ 127 }
    ensures { result ≡ signed_by (leb (2 ^ 31) b) m }
{
    let c = m as i8;
    if 2147483648 <= b { -c } else { c }
}

// ---- The encoder.

// The encoder of a level count, over the lent table.
#[derive(Clone, Copy)]
pub struct Encoder<'a> {
    table: &'a [f64; 127],
    pub levels: u32,
    ghost midpoints: { table.now ≡ midpoints },
    ghost counted: { Levels levels },
}

impl<'a> Encoder<'a> {
    pub fn new(table: &'a [f64; 127], levels: u32) -> Encoder<'a>
        requires { (table.now ≡ midpoints) × Levels levels }
        ensures { result.levels ≡ levels }
    {
        Encoder { table, levels }
    }

    // The scale, from the largest pattern without its sign.
    fn scale(&self, most: u32) -> f64
        ensures { result ≡ scale_by self.now.levels (of_bits binary32 most) }
    {
        let x = float::Pattern::value(most);
        if x == 0.0 {
            return 1.0;
        }
        x / self.levels as f64
    }

    // Where the walk starts: a whole number nearest to x, held at the last level but one; no midpoint before it is above x. A sum with 2^52 keeps
    // no digit below 1, so its pattern counts.
    fn start(&self, x: f64) -> usize
        requires { T (not (is_nan x)) × (negative x ≡ false) }
        ensures { (result < self.now.levels) × Walked (midpoints_of self.now.levels) x result }
    {
        (f64::to_bits(held((self.levels - 1) as f64, x) + 4503599627370496.0)
            - 4841369599423283200) as usize
    }

    // The number of midpoints not above x, of the first `levels`: they rise, so the walk ends at the first that is above x. It goes by z, which is below
    // the last midpoint, and that one is compared with x apart: so a row's largest coordinate takes the same branches as the others.
    fn walk(&self, x: f64) -> u32
        requires { T (not (is_nan x)) × (negative x ≡ false) }
        ensures { (result ≡ not_above (midpoints_of self.now.levels) x) × (result ≤ 127) }
    {
        let t = self.table;
        let last = self.levels - 1;
        let z = held(last as f64, x);
        // A `for` over start..levels tests the start too, and the encoder takes 1.08 times as long.
        let mut k = self.start(x);
        while t[k] <= z {
            k += 1;
            if k == self.levels as usize {
                return self.levels;
            }
        }
        k as u32 + (t[last as usize] <= x) as u32
    }

    // The magnitude of the code of the coordinate of pattern b: the quotient's magnitude is the magnitude's quotient (`code-abs`).
    fn magnitude(&self, b: u32, scale: f64) -> u32
        requires { T (finite (of_bits binary32 b)) × T (positive scale) }
        ensures { (result ≡ not_above (midpoints_of self.now.levels) (abs (div binary64 (of_bits binary32 b) scale))) × (result ≤ 127) }
    {
        let x = f32::from_bits(b % 2147483648) as f64;
        self.walk(x / scale)
    }

    // The scale, the norm and, into a slice of its length, the codes of a vector.
    fn encode<S: Source, C: Stored>(&self, source: &S, out: &mut [C]) -> Row
        requires lengths { (length out.old ≡ length (S.patterns source.now)) × (length out.old ≤ 4096) }
        requires finite { finites (map (of_bits binary32) (S.patterns source.now)) ≡ true }
        ensures { let e = encode self.now.levels (midpoints_of self.now.levels) (map (of_bits binary32) (S.patterns source.now)) in
            (out.new ≡ map C.stored e.codes) × (result.scale ≡ e.scale) × (result.norm ≡ e.norm) }
    {
        let scale = self.scale(largest_bits(source));
        let mut norm: u32 = 0;
        for (i, slot) in out.iter_mut().enumerate() {
            let b = source.pattern(i);
            let m = self.magnitude(b, scale);
            norm += m * m;
            *slot = C::of(code(b, m));
        }
        Row {
            scale,
            norm: i64::from(norm),
        }
    }

    // The row of the n coordinates at a place of a record, into its own part of a cache, which is 16 + n bytes long.
    pub fn encode_row(&self, s: &[u8], at: usize, out: &mut [u8]) -> Row
        requires in_bounds { (16 ≤ length out.old) × (length out.old ≤ 4112) × (at + 4 * (length out.old - 16) ≤ length s.now) }
        requires at_value { finites (floats_at (length out.old - 16) s.now at) ≡ true }
        ensures { let e = encode self.now.levels (midpoints_of self.now.levels) (floats_at (length out.old - 16) s.now at) in (out.new ≡ row_bytes e)
            × (result.scale ≡ e.scale) × (result.norm ≡ e.norm) }
    {
        let n = out.len() - 16;
        let row = self.encode(&Record { bytes: s, at, n }, &mut out[16..]);
        le::put_u64(out, 0, f64::to_bits(row.scale));
        le::put_i64(out, 8, row.norm);
        row
    }

    // The same with the codes alone stored, as i8s.
    pub fn encode_resident(&self, s: &[u8], at: usize, out: &mut [i8]) -> Row
        requires out_len_bound { (length out.old ≤ 4096) × (at + 4 * length out.old ≤ length s.now) }
        requires at_value { finites (floats_at (length out.old) s.now at) ≡ true }
        ensures { let e = encode self.now.levels (midpoints_of self.now.levels) (floats_at (length out.old) s.now at) in (out.new ≡ e.codes)
            × (result.scale ≡ e.scale) × (result.norm ≡ e.norm) }
    {
        let n = out.len();
        self.encode(&Record { bytes: s, at, n }, out)
    }

    // The codes of f32s, widened, at the front of out.
    pub fn encode_query(&self, v: &[f32], out: &mut [i16]) -> Row
        requires v_len_bound { (length v.now ≤ 4096) × (length v.now ≤ length out.old) }
        requires v_value { finites v.now ≡ true }
        ensures { let e = encode self.now.levels (midpoints_of self.now.levels) v.now in (out.new ≡ e.codes ++ drop (length v.now) out.old)
            × (result.scale ≡ e.scale) × (result.norm ≡ e.norm) }
    {
        let n = v.len();
        self.encode(&v, &mut out[..n])
    }
}
