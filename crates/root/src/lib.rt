// The square root of every f64, the Rust's `sqrt`.
#![tactic(auto)]

ghost use Rattle.std.specs.Prelude.{◌≡◌, true, ℕ, ◌+◌, ◌*◌, ◌-◌, ◌%◌, ◌^◌, ◌≤◌, ◌<◌, Float, IfSome, get_or};
ghost use Rattle.std.specs.Float.{nan, binary64};
ghost use Rattle.std.specs.Float.Ieee.{of_bits};
ghost use Rattle.float.specs.Values.{quad};
ghost use Rattle.root.specs.SquareRoot.{Near, Root, IsRoot, Scale, Ordinary, sqrt_of};

// A significand: 53 binary digits, the first of them 1.
#[derive(Clone, Copy)]
struct Digits {
    value: u64,
    ghost full: { 2 ^ 52 ≤ value },
    ghost short: { value < 2 ^ 53 },
}

// m * m, exactly.
fn square(m: u64) -> u128
    ensures { result ≡ m * m }
{
    u128::from(m) * u128::from(m)
}

// Added to V - m * m, which may be below 0.
const SHIFT: u64 = 3 << 54;

// V, whose root is taken: 105 or 106 binary digits.
#[derive(Clone, Copy)]
struct Radicand {
    value: u128,
    ghost low: { 2 ^ 104 ≤ value },
    ghost high: { value ≤ 2 ^ 106 - 2 ^ 53 },
}

impl Radicand {
    // The whole part of the root, by halving.
    fn floor_root(self) -> u64
        ensures low { result * result ≤ self.value }
        ensures high { self.value < (result + 1) * (result + 1) }
        ensures bound { result < 2 ^ 53 }
    {
        let mut lo: u64 = 0;
        let mut hi: u64 = 9007199254740992;
        while lo + 1 < hi {
            let mid = lo + (hi - lo) / 2;
            if square(mid) <= self.value {
                lo = mid;
            } else {
                hi = mid;
            }
        }
        lo
    }

    // Whether m is the whole number nearest to the root: m * m < V + m and V <= m * m + m.
    fn is_nearest(self, m: u64) -> bool
        ensures { result ≡ true → Near self.value m }
    {
        let q = square(m);
        let m = u128::from(m);
        (q < self.value + m) & (self.value <= q + m)
    }

    // The nearest, from the whole part.
    fn slow_nearest(self) -> u64
        ensures { Near self.value result }
    {
        let m = self.floor_root();
        if self.value <= square(m) + u128::from(m) {
            m
        } else {
            m + 1
        }
    }

    // The nearest, by a guess that is tried first, with its two neighbours.
    fn nearest(self, guess: Digits) -> u64
        ensures { Near self.value result }
    {
        for m in [guess.value, guess.value - 1, guess.value + 1] {
            if self.is_nearest(m) {
                return m;
            }
        }
        self.slow_nearest()
    }

    // V - m * m + SHIFT, or none where m is far from the root.
    fn remainder(self, m: Digits) -> Option<u64>
        ensures { IfSome result (λ z. self.value + 3 * 2 ^ 54 ≡ z + m.value * m.value) }
    {
        u64::try_from((self.value + u128::from(SHIFT)).checked_sub(square(m.value))?).ok()
    }
}

// digits * 2^exponent, in units of 2^-2148
#[derive(Clone, Copy)]
struct Scaled {
    digits: Digits,
    exponent: u64,
    ghost low: { 1022 ≤ exponent },
    ghost high: { exponent ≤ 3119 },
}

impl Scaled {
    // V is digits * 2^52 or, for an odd exponent, digits * 2^53.
    fn radicand(self) -> Radicand
        ensures { result.value ≡ self.digits.value * 2 ^ (self.exponent % 2 + 52) }
    {
        Radicand {
            value: u128::from(self.digits.value) << (self.exponent % 2 + 52),
        }
    }

    // The pattern of the root, from its digits.
    fn root_bits(self, m: u64) -> u64
        requires { Near (self.digits.value * 2 ^ (self.exponent % 2 + 52)) m }
        ensures root { (x : Float) → Scale x self.digits.value self.exponent → Root x (of_bits binary64 result) }
        ensures bound { result < 2047 * 2 ^ 52 }
    {
        (self.exponent - 52) / 2 * 4503599627370496 + m
    }
}

// A subnormal's digits, moved up until there are 53.
fn raised(tail: u64) -> Scaled
    requires { (0 < tail) × (tail < 2 ^ 52) }
    ensures { result.digits.value * 2 ^ result.exponent ≡ tail * 2 ^ 1074 }
{
    let mut d = tail;
    let mut e: u64 = 1074;
    while d < 4503599627370496 {
        d = d + d;
        e -= 1;
    }
    Scaled {
        digits: Digits { value: d },
        exponent: e,
    }
}

// A positive normal number's digits and exponent.
fn scale_of_normal(bits: u64) -> Scaled
    requires { (2 ^ 52 ≤ bits) × (bits < 2047 * 2 ^ 52) }
    ensures { Scale (of_bits binary64 bits) result.digits.value result.exponent }
{
    Scaled {
        digits: Digits {
            value: bits % 4503599627370496 + 4503599627370496,
        },
        exponent: 1073 + bits / 4503599627370496,
    }
}

// A positive finite number's digits and exponent.
fn scale_of(bits: u64) -> Scaled
    requires { (0 < bits) × (bits < 2047 * 2 ^ 52) }
    ensures { Scale (of_bits binary64 bits) result.digits.value result.exponent }
{
    if bits < 4503599627370496 {
        raised(bits)
    } else {
        scale_of_normal(bits)
    }
}

// A positive normal number.
#[derive(Clone, Copy)]
struct Normal {
    value: f64,
    ghost ordinary: { Ordinary value },
}

impl Normal {
    // 53 digits near those of the root, by a step of Newton's and one of the third order for 1 / √x. That they are near
    // is not claimed: what is made of them is tested.
    fn guess(self) -> Digits {
        let x = self.value;
        let y0 = f64::from_bits(6910469410427058089 - x.to_bits() / 2);
        let y1 = y0 * (1.5008909 - 0.5 * x * y0 * y0);
        let w = x * y1 * y1;
        let y2 = y1 * (1.875 - w * (1.25 - 0.375 * w));
        let g0 = x * y2;
        let g = g0 + 0.5 * y2 * (x - g0 * g0);
        if g < 9007199254740992.0 {
            return Digits {
                value: g.to_bits() % 4503599627370496 + 4503599627370496,
            };
        }
        Digits {
            value: 4503599627370496,
        }
    }

    // The root, by a guess at its digits.
    fn root(self, guess: Digits) -> f64
        ensures { result ≡ sqrt_of self.value }
    {
        match quick_root_bits(self.value.to_bits(), guess) {
            Some(r) => f64::from_bits(r),
            None => general_sqrt(self.value),
        }
    }
}

// The pattern of the root of a positive finite number.
fn root_bits(bits: u64) -> u64
    requires { (0 < bits) × (bits < 2047 * 2 ^ 52) }
    ensures { Root (of_bits binary64 bits) (of_bits binary64 result) × (result < 2047 * 2 ^ 52) }
{
    let z = scale_of(bits);
    // a number with the same digits, whose root is from 2^26 to below 2^27
    let x = f64::from_bits(
        4841369599423283200
            + z.exponent % 2 * 4503599627370496
            + (z.digits.value - 4503599627370496),
    );
    z.root_bits(z.radicand().nearest(Normal { value: x }.guess()))
}

// The root of any f64, by tests of whole numbers alone.
fn general_sqrt(x: f64) -> f64
    ensures { IsRoot x result }
{
    if x.is_nan() {
        return x;
    }
    let bits = x.to_bits();
    if bits % 9223372036854775808 == 0 {
        return x;
    }
    if 9223372036854775808 < bits {
        return f64::NAN;
    }
    if 9218868437227405312 <= bits {
        return x;
    }
    f64::from_bits(root_bits(bits))
}

// ---- A quicker way, without branches that go either way: the remainder of one square tells how far m is from the root.

// The nearest of m - 1, m and m + 1 to the root of v, where z is v - m * m + SHIFT.
fn mended(m: Digits, z: u64) -> u64
    requires { (z ≤ 3 * 2 ^ 54 + 3 * m.value) × (3 * 2 ^ 54 + 2 < z + 3 * m.value) }
    ensures { (v : ℕ) → v + 3 * 2 ^ 54 ≡ z + m.value * m.value → Near v result }
{
    let m = m.value;
    let up = u64::from(SHIFT + m < z);
    let down = u64::from(z + m <= SHIFT);
    m + up - down
}

// The pattern of the root of a normal number, by a guess at its digits; none where the guess is not near enough.
fn quick_root_bits(bits: u64, guess: Digits) -> Option<u64>
    requires { (2 ^ 52 ≤ bits) × (bits < 2047 * 2 ^ 52) }
    ensures { IfSome result (λ r. Root (of_bits binary64 bits) (of_bits binary64 r) × (r < 2047 * 2 ^ 52)) }
{
    let x = scale_of_normal(bits);
    let z = x.radicand().remainder(guess)?;
    if SHIFT + 3 * guess.value < z {
        return None;
    }
    if z + 3 * guess.value <= SHIFT + 2 {
        return None;
    }
    Some(x.root_bits(mended(guess, z)))
}

// Whether x is a normal number above 0 and below 2^53.
fn is_ordinary(x: f64) -> bool
    ensures { result ≡ true → Ordinary x }
{
    if x < 9007199254740992.0 {
        let bits = x.to_bits();
        return (4503599627370496 <= bits) & (bits < 9218868437227405312);
    }
    false
}

// The square root, of any f64.
pub fn sqrt(x: f64) -> f64
    ensures { result ≡ sqrt_of x }
{
    if is_ordinary(x) {
        let x = Normal { value: x };
        return x.root(x.guess());
    }
    general_sqrt(x)
}

// Four square roots, whose guesses are made side by side.
pub fn sqrt_four(x: [f64; 4]) -> [f64; 4]
    ensures { result ≡ quad (λ k. sqrt_of (get_or x k nan)) }
{
    let [a, b, c, d] = x;
    if is_ordinary(a) & is_ordinary(b) & is_ordinary(c) & is_ordinary(d) {
        let a = Normal { value: a };
        let b = Normal { value: b };
        let c = Normal { value: c };
        let d = Normal { value: d };
        let (ga, gb, gc, gd) = (a.guess(), b.guess(), c.guess(), d.guess());
        return [a.root(ga), b.root(gb), c.root(gc), d.root(gd)];
    }
    x.map(sqrt)
}
