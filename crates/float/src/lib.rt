// IEEE 754 numbers: the finite test, floats from bits and bytes, the floor at 0 and the hold in 0..2, and a key with
// totalOrder's order. These are the Rust's `is_finite`, `from_le_bytes`, `max`, `clamp` and `total_cmp`.
#![tactic(auto)]

ghost use Rattle.std.specs.Prelude.{◌≡◌, ℕ, not, ◌&&◌, ◌+◌, ◌≤◌, T, length};
ghost use Rattle.std.specs.Float.{Format, binary32, binary64};
ghost use Rattle.std.specs.Float.Ieee.{of_bits, to_bits, is_nan, lt};
ghost use Rattle.std.specs.Float.Ieee.Scale.{finite};
ghost use Rattle.le.specs.Le.{le_at};
ghost use Rattle.float.specs.Values.{number, plus_zero, two};
ghost use Rattle.float.specs.Hold.{max_zero, clamp};
ghost use Rattle.float.specs.Order.{key_of, bits_of};

// The pattern of a float of 32 or 64 bits, as it stands in bytes.
pub trait Pattern: Copy {
    // the float's format
    ghost format: { Format };

    // how many bytes it takes
    ghost width: { ℕ };

    // the pattern as a number
    ghost bits: { Self → ℕ };

    // The pattern that stands at a place of a lent slice.
    fn at(s: &[u8], at: usize) -> Self
        requires { at + width ≤ length s.now }
        ensures { bits result ≡ le_at width s.now at };

    // Whether it is a finite number's: the exponent's field is not all ones.
    fn is_finite(self) -> bool
        ensures { result ≡ finite (of_bits format (bits self)) };

    // Its value, a NaN for every NaN's.
    fn value(self) -> f64
        ensures { result ≡ of_bits format (bits self) };
}

// The two impls differ in their format's numbers alone, and a table of those would be no shorter.
impl Pattern for u32 {
    ghost format = { binary32 };

    ghost width = { 4 };

    ghost bits = { λ b. b };

    fn at(s: &[u8], at: usize) -> u32 {
        le::u32_at(s, at)
    }

    fn is_finite(self) -> bool {
        self % 2147483648 / 8388608 != 255
    }

    fn value(self) -> f64 {
        if 2139095040 < self % 2147483648 {
            return f64::NAN;
        }
        f64::from(f32::from_bits(self))
    }
}

impl Pattern for u64 {
    ghost format = { binary64 };

    ghost width = { 8 };

    ghost bits = { λ b. b };

    fn at(s: &[u8], at: usize) -> u64 {
        le::u64_at(s, at)
    }

    fn is_finite(self) -> bool {
        self % 9223372036854775808 / 4503599627370496 != 2047
    }

    fn value(self) -> f64 {
        if 9218868437227405312 < self % 9223372036854775808 {
            return f64::NAN;
        }
        f64::from_bits(self)
    }
}

// A float that was read: a finite number, or none for an infinity or a NaN.
pub fn number<P: Pattern>(pattern: P) -> Option<f64>
    ensures { result ≡ number (of_bits P.format (P.bits pattern)) }
{
    if pattern.is_finite() {
        Some(pattern.value())
    } else {
        None
    }
}

pub fn number_at<P: Pattern>(s: &[u8], at: usize) -> Option<f64>
    requires { at + P.width ≤ length s.now }
    ensures { result ≡ number (of_bits P.format (le_at P.width s.now at)) }
{
    number(P::at(s, at))
}

// Whether a value is a finite number.
pub fn is_finite(x: f64) -> bool
    ensures { result ≡ finite x }
{
    x.is_finite()
}

// Whether a value is finite and above a bound.
pub fn is_over(bound: f64, x: f64) -> bool
    ensures { result ≡ (lt bound x && finite x) }
{
    (bound < x) & (x < f64::INFINITY)
}

// At least 0, a NaN becoming +0. Worked out, as document 01 asks: std's `max` leaves the sign of a zero open.
#[tactic(auto, unfolding(crate::specs::Hold::max_zero))]
pub fn max_zero(x: f64) -> f64
    ensures { result ≡ max_zero x }
{
    if 0.0 < x {
        return x;
    }
    0.0
}

// Held in 0..2. Worked out, as document 01 asks of `clamp`.
pub fn hold(x: f64) -> f64
    ensures { result ≡ clamp plus_zero two x }
{
    if x < 0.0 {
        return 0.0;
    }
    if 2.0 < x {
        return 2.0;
    }
    x
}

// A key whose order is totalOrder's.
#[tactic(auto, unfolding(crate::specs::Order::key_of))]
pub fn key_of_bits(bits: u64) -> u64
    ensures { result ≡ key_of bits }
{
    if bits < 9223372036854775808 {
        return bits + 9223372036854775808;
    }
    18446744073709551615 - bits
}

pub fn key(x: f64) -> u64
    requires { T (not (is_nan x)) }
    ensures { result ≡ key_of (to_bits binary64 x) }
{
    key_of_bits(x.to_bits())
}

// Back from a key.
#[tactic(auto, unfolding(crate::specs::Order::bits_of))]
pub fn bits_of_key(key: u64) -> u64
    ensures { result ≡ bits_of key }
{
    if key < 9223372036854775808 {
        return 18446744073709551615 - key;
    }
    key - 9223372036854775808
}

pub fn value_of_key(key: u64) -> f64
    ensures { result ≡ of_bits binary64 (bits_of key) }
{
    bits_of_key(key).value()
}
