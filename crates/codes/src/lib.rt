// Rows of 8-bit codes: the dot product with a query, the sum of the squared codes, and whether every code is within
// the levels.
// A row is cached (bytes in two's complement) or resident (signed numbers); the query's codes are widened to i16 once.
// From quantized_cache.rs, `dot_codes` and `validate_row`, and the search loop of quantization.rs.
//
// A row is summed in parts of 16 codes: loops of constant length, which LLVM unrolls and vectorises. An odd part of 16 comes first,
// then the turns of several parts, whose sums LLVM adds in vectors, once a turn. A rest of 7 to 15 is summed as the row's last 16
// codes, those already summed taken as 0; a rest of up to 6 goes one by one, a row of fewer than 16 by 8 codes and one by one. Each
// function adds to the sums so far, so that its contract speaks of the row up to a place; all of them are inlined.
// The part that a short row begins with is widened by its bytes (`widened`). LLVM's own sign extension unpacks into whatever a register
// holds, and where that is the distance of the row before, each row waits for the one before it.
// A turn is two turns of half the size, and no loop over its parts: with one, under a const parameter, LLVM does not unroll the turn,
// and rows from 100 codes on took 1.7 to 2.9 times as long.
// LLVM vectorises a sum only if one place uses it. So no turn may be implied by another one's not having run (`Pair::sums` has its odd
// turn of 32 before those of 64). The order of the operations on the sums matters too: measure each change, with the levels a literal
// and not.
#![tactic(auto)]

ghost use Rattle.std.specs.Prelude.{refl, List, ℕ, ℤ, ◌≡◌, ◌+◌, ◌-◌, ◌*◌, ◌≤◌, ◌<◌, nat_abs, pos, ◌*ℤ◌, length, get_or, leb};
ghost use Rattle.std.proofs.lemmas.List.{get_or_default, get_or-map, length-map};
ghost use Rattle.codes.specs.Codes.{signed, codes, part, Small, RowSums, RowCheck};
ghost use Rattle.codes.specs.Sums.{masked_at, Checked, Summed, CodeAdded, CodeChecked, SumsAdded, ChecksAdded};

// Of a row, or a part of one: the sum of the squared codes, and whether every code is within the levels.
#[derive(Clone, Copy)]
pub struct Check {
    pub squares: u32,
    pub whole: bool,
}

// The same, and the dot product.
#[derive(Clone, Copy)]
pub struct Sums {
    pub dot: i32,
    pub check: Check,
}

// Of no code.
pub const NO_CHECK: Check = Check {
    squares: 0,
    whole: true,
};

pub const NO_SUMS: Sums = Sums {
    dot: 0,
    check: NO_CHECK,
};

// ---- a code

// A code as a row holds it: a byte in two's complement (cached), or a signed number (resident).
pub trait Code: Copy {
    // the number that it is, and those that a row of them holds
    ghost code_of: { Self → ℤ };

    ghost codes_of: { List Self → List ℤ };

    fn value(self) -> i8
        ensures { result ≡ code_of self };

    // a row holds the number of each of its codes
    ghost as_many: { (l : List Self) → length (codes_of l) ≡ length l };

    ghost each: { (l : List Self) (p : ℕ) (x : Self) → p < length l → get_or (codes_of l) p (pos 0) ≡ code_of (get_or l p x) };
}

impl Code for u8 {
    ghost code_of = { signed };

    ghost codes_of = { codes };

    fn value(self) -> i8 {
        self.cast_signed()
    }

    ghost as_many = { λ l. length-map l signed };

    ghost each = { λ l p x h. get_or-map signed l p x (pos 0) h };
}

impl Code for i8 {
    ghost code_of = { λ x. x };

    ghost codes_of = { λ l. l };

    fn value(self) -> i8 {
        self
    }

    ghost as_many = { λ l. refl };

    ghost each = { λ l p x h. get_or_default l p (pos 0) x h };
}

// ---- one code

fn product(x: i8, y: i16) -> i32
    requires { nat_abs y ≤ 128 }
    ensures { (result ≡ x *ℤ y) × (nat_abs result ≤ 16384) }
{
    (x as i32) * (y as i32)
}

fn square(x: i8) -> u32
    ensures { (result ≡ nat_abs x * nat_abs x) × (result ≤ 16384) }
{
    let z = x as i32;
    (z * z) as u32
}

// The code and the levels in one byte, which is over twice the levels where the code is beyond them: one vector addition and
// comparison, also where the levels are known beforehand.
fn within(levels: u8, x: i8) -> bool
    requires { levels ≤ 127 }
    ensures { result ≡ leb (nat_abs x) levels }
{
    (((x as i32 + 256) as u32 + levels as u32) % 256) as u8 <= 2 * levels
}

// The code in 16 bits, from its byte.
fn widened(x: i8) -> i16
    ensures { result ≡ x }
{
    let byte = ((x as i32 + 256) as u32 % 256) as i16;
    byte - byte / 128 * 256
}

// The code x at place j of a part, 0 at the places before 17 - k; 17 takes all. That k is a byte, and of a rest one more than its
// codes, lets LLVM make the 16 comparisons one vector comparison.
fn masked(x: i8, j: usize, k: u8) -> i8
    requires { (j < 16) × (k ≤ 17) }
    ensures { result ≡ masked_at j k x }
{
    if (j as u8) + k < 17 { 0 } else { x }
}

// ---- a code more, and the sums of two parts

fn add_code_check(levels: u8, s: Check, x: i8) -> Check
    requires { (s.squares ≤ 1073741824) × (levels ≤ 127) }
    ensures { CodeChecked levels x s result }
{
    Check {
        squares: s.squares + square(x),
        whole: s.whole & within(levels, x),
    }
}

fn add_code(levels: u8, s: Sums, x: i8, y: i16) -> Sums
    requires y_bound { nat_abs y ≤ 128 }
    requires dot_bound { (nat_abs s.dot ≤ 1073741824) × (s.check.squares ≤ 1073741824) × (levels ≤ 127) }
    ensures { CodeAdded levels x y s result }
{
    Sums {
        dot: s.dot + product(x, y),
        check: add_code_check(levels, s.check, x),
    }
}

// The same for the part that a row begins with.
fn add_first_code(levels: u8, s: Sums, x: i8, y: i16) -> Sums
    requires y_bound { nat_abs y ≤ 128 }
    requires dot_bound { (nat_abs s.dot ≤ 1073741824) × (s.check.squares ≤ 1073741824) × (levels ≤ 127) }
    ensures { CodeAdded levels x y s result }
{
    let z = widened(x) as i32;
    Sums {
        dot: s.dot + z * (y as i32),
        check: Check {
            squares: s.check.squares + (z * z) as u32,
            whole: s.check.whole & within(levels, x),
        },
    }
}

fn add_checks(a: Check, b: Check) -> Check
    requires { a.squares + b.squares ≤ 1073741824 }
    ensures { ChecksAdded a b result }
{
    Check {
        squares: a.squares + b.squares,
        whole: a.whole & b.whole,
    }
}

fn add_sums(a: Sums, b: Sums) -> Sums
    requires { (nat_abs a.dot + nat_abs b.dot ≤ 1073741824) × (a.check.squares + b.check.squares ≤ 1073741824) }
    ensures { SumsAdded a b result }
{
    Sums {
        dot: a.dot + b.dot,
        check: add_checks(a.check, b.check),
    }
}

// ---- a row

// The codes of a row, and the magnitude that none of them should exceed.
#[derive(Drop)]
struct Row<'c, C> {
    levels: u8,
    codes: &'c [C],
    ghost bounds: { (levels ≤ 127) × (length codes.now ≤ 65536) },
}

// `sums` are sums of the codes before place i, and those returned of the codes before place e.
// The methods of `Pair` are these with a query beside the row. One form of both would be a trait over what is summed, its zero, a
// code more and two parts, with laws for each: no plainer than the second text of six short methods.
impl<'c, C: Code> Row<'c, C> {
    // The n codes before e are summed, those before i taken as 0.
    fn part(&self, sums: Check, i: usize, e: usize, n: usize) -> Check
        requires e_in_bounds { (e ≤ length self.now.codes.now) × (i ≤ e) × (e ≤ i + n) × (n ≤ e) × (n ≤ 16) }
        requires checked { Checked self.now.levels i (C.codes_of self.now.codes.now) 0 sums }
        ensures { Checked self.now.levels e (C.codes_of self.now.codes.now) 0 result }
    {
        let p = e - n;
        let k = (e - i + 17 - n) as u8;
        let mut s = NO_CHECK;
        for j in 0..n {
            s = add_code_check(self.levels, s, masked(self.codes[p + j].value(), j, k));
        }
        add_checks(sums, s)
    }

    // A turn of 32 codes; those of 64 and 128 are two turns of half the size each.
    #[inline(always)]
    fn turn_32(&self, sums: Check, i: usize) -> Check
        requires i_in_bounds { i + 32 ≤ length self.now.codes.now }
        requires checked { Checked self.now.levels i (C.codes_of self.now.codes.now) 0 sums }
        ensures { Checked self.now.levels (i + 32) (C.codes_of self.now.codes.now) 0 result }
    {
        let s = self.part(sums, i, i + 16, 16);
        self.part(s, i + 16, i + 32, 16)
    }

    #[inline(always)]
    fn turn_64(&self, sums: Check, i: usize) -> Check
        requires i_in_bounds { i + 64 ≤ length self.now.codes.now }
        requires checked { Checked self.now.levels i (C.codes_of self.now.codes.now) 0 sums }
        ensures { Checked self.now.levels (i + 64) (C.codes_of self.now.codes.now) 0 result }
    {
        let s = self.turn_32(sums, i);
        self.turn_32(s, i + 32)
    }

    #[inline(always)]
    fn turn_128(&self, sums: Check, i: usize) -> Check
        requires i_in_bounds { i + 128 ≤ length self.now.codes.now }
        requires checked { Checked self.now.levels i (C.codes_of self.now.codes.now) 0 sums }
        ensures { Checked self.now.levels (i + 128) (C.codes_of self.now.codes.now) 0 result }
    {
        let s = self.turn_64(sums, i);
        self.turn_64(s, i + 64)
    }

    // The last codes, from place i on, one by one.
    fn ones(&self, sums: Check, i: usize) -> Check
        requires i_in_bounds { i ≤ length self.now.codes.now }
        requires checked { Checked self.now.levels i (C.codes_of self.now.codes.now) 0 sums }
        ensures { Checked self.now.levels (length self.now.codes.now) (C.codes_of self.now.codes.now) 0 result }
    {
        let mut s = sums;
        for j in i..self.codes.len() {
            s = self.part(s, j, j + 1, 1);
        }
        s
    }

    // A row of fewer than 16 codes: 8 at once where there are as many, the others one by one.
    #[inline(always)]
    fn short(&self) -> Check
        ensures { Checked self.now.levels (length self.now.codes.now) (C.codes_of self.now.codes.now) 0 result }
    {
        if self.codes.len() < 8 {
            return self.ones(NO_CHECK, 0);
        }
        let s = self.part(NO_CHECK, 0, 8, 8);
        self.ones(s, 8)
    }

    // Inlined, with `short` and `row_check`, so that the level count is known where a caller's is.
    #[inline(always)]
    fn check(&self) -> Check
        ensures { RowCheck self.now.levels (C.codes_of self.now.codes.now) result }
    {
        let n = self.codes.len();
        if n < 16 {
            return self.short();
        }
        let mut s = NO_CHECK;
        let mut i = 0usize;
        let mut r = n;
        if 16 <= r % 32 {
            s = self.part(s, i, i + 16, 16);
            i += 16;
            r -= 16;
        }
        if 32 <= r {
            // whole turns off the rest, which count no place
            while 128 <= r {
                s = self.turn_128(s, i);
                i += 128;
                r -= 128;
            }
            while 64 <= r {
                s = self.turn_64(s, i);
                i += 64;
                r -= 64;
            }
            while 32 <= r {
                s = self.turn_32(s, i);
                i += 32;
                r -= 32;
            }
        }
        if r == 0 {
            return s;
        }
        self.part(s, i, n, 16)
    }
}

// A row beside a query of as many codes.
#[derive(Drop)]
struct Pair<'c, 'q, C> {
    row: Row<'c, C>,
    query: &'q [i16],
    ghost as_long: { length query.now ≡ length row.codes.now },
    ghost small: { Small query.now },
}

impl<'c, 'q, C: Code> Pair<'c, 'q, C> {
    // The sums of the first n codes.
    fn first(&self, n: usize) -> Sums
        requires { (n ≤ 16) × (n ≤ length self.now.query.now) }
        ensures { Summed self.now.row.levels n (C.codes_of self.now.row.codes.now) self.now.query.now 0 result }
    {
        let mut s = NO_SUMS;
        for j in 0..n {
            s = add_first_code(self.row.levels, s, self.row.codes[j].value(), self.query[j]);
        }
        s
    }

    fn part(&self, sums: Sums, i: usize, e: usize, n: usize) -> Sums
        requires e_in_bounds { (e ≤ length self.now.query.now) × (i ≤ e) × (e ≤ i + n) × (n ≤ e) × (n ≤ 16) }
        requires summed { Summed self.now.row.levels i (C.codes_of self.now.row.codes.now) self.now.query.now 0 sums }
        ensures { Summed self.now.row.levels e (C.codes_of self.now.row.codes.now) self.now.query.now 0 result }
    {
        let p = e - n;
        let k = (e - i + 17 - n) as u8;
        let mut s = NO_SUMS;
        for j in 0..n {
            s = add_code(
                self.row.levels,
                s,
                masked(self.row.codes[p + j].value(), j, k),
                self.query[p + j],
            );
        }
        add_sums(sums, s)
    }

    #[inline(always)]
    fn turn_32(&self, sums: Sums, i: usize) -> Sums
        requires i_in_bounds { i + 32 ≤ length self.now.query.now }
        requires summed { Summed self.now.row.levels i (C.codes_of self.now.row.codes.now) self.now.query.now 0 sums }
        ensures { Summed self.now.row.levels (i + 32) (C.codes_of self.now.row.codes.now) self.now.query.now 0 result }
    {
        let s = self.part(sums, i, i + 16, 16);
        self.part(s, i + 16, i + 32, 16)
    }

    #[inline(always)]
    fn turn_64(&self, sums: Sums, i: usize) -> Sums
        requires i_in_bounds { i + 64 ≤ length self.now.query.now }
        requires summed { Summed self.now.row.levels i (C.codes_of self.now.row.codes.now) self.now.query.now 0 sums }
        ensures { Summed self.now.row.levels (i + 64) (C.codes_of self.now.row.codes.now) self.now.query.now 0 result }
    {
        let s = self.turn_32(sums, i);
        self.turn_32(s, i + 32)
    }

    fn ones(&self, sums: Sums, i: usize) -> Sums
        requires i_in_bounds { i ≤ length self.now.query.now }
        requires summed { Summed self.now.row.levels i (C.codes_of self.now.row.codes.now) self.now.query.now 0 sums }
        ensures { Summed self.now.row.levels (length self.now.query.now) (C.codes_of self.now.row.codes.now) self.now.query.now 0 result }
    {
        let mut s = sums;
        for j in i..self.query.len() {
            s = self.part(s, j, j + 1, 1);
        }
        s
    }

    fn short(&self) -> Sums
        ensures { Summed self.now.row.levels (length self.now.query.now) (C.codes_of self.now.row.codes.now) self.now.query.now 0 result }
    {
        if self.query.len() < 8 {
            return self.ones(NO_SUMS, 0);
        }
        let s = self.first(8);
        self.ones(s, 8)
    }

    fn sums(&self) -> Sums
        ensures { RowSums self.now.row.levels (C.codes_of self.now.row.codes.now) self.now.query.now result }
    {
        let n = self.query.len();
        if n < 16 {
            return self.short();
        }
        let mut s = NO_SUMS;
        let mut i = 0usize;
        let mut r = n;
        if 16 <= r % 32 {
            s = self.first(16);
            i += 16;
            r -= 16;
        }
        if 32 <= r {
            if 32 <= r % 64 {
                s = self.turn_32(s, i);
                i += 32;
                r -= 32;
            }
            while 64 <= r {
                s = self.turn_64(s, i);
                i += 64;
                r -= 64;
            }
        }
        if r == 0 {
            return s;
        }
        if r < 7 {
            return self.ones(s, i);
        }
        self.part(s, i, n, 16)
    }
}

// ---- the sums of a row

// The row beside the query.
pub fn row_sums<C: Code>(levels: u8, codes: &[C], query: &[i16]) -> Sums
    requires bounds { (length query.now ≡ length codes.now) × (length query.now ≤ 65536) × (levels ≤ 127) }
    requires small { Small query.now }
    ensures { RowSums levels (C.codes_of codes.now) query.now result }
{
    let pair = Pair {
        row: Row { levels, codes },
        query,
    };
    pair.sums()
}

// The row alone.
#[inline(always)]
pub fn row_check<C: Code>(levels: u8, codes: &[C]) -> Check
    requires { (length codes.now ≤ 65536) × (levels ≤ 127) }
    ensures { RowCheck levels (C.codes_of codes.now) result }
{
    let row = Row { levels, codes };
    row.check()
}
