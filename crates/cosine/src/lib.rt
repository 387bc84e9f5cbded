// A row that is too far under cosine to be a candidate, told by whole numbers alone, without a root: a limit from the worst key that is
// kept, and two products for a row.
#![tactic(auto)]

ghost use Rattle.std.specs.Prelude.{◌≡◌, ◌≤◌, ◌<◌, pos};
ghost use Rattle.std.specs.Float.{binary64};
ghost use Rattle.std.specs.Float.Ieee.{of_int};
ghost use Rattle.root.specs.SquareRoot.{sqrt_of};
ghost use Rattle.cosine.specs.Far.{positive_part, is_far, Far};

fn positive_part(d: i32) -> u64
    ensures { (result ≡ positive_part d) × (result ≤ 2147483648) }
{
    d.max(0) as u64
}

// Whether a row with these sums is too far by the limit t.
pub fn is_far(squares: u32, dot: i32, t: u32) -> bool
    ensures { result ≡ is_far squares dot t }
{
    let d = positive_part(dot);
    d * d < (t as u64) * (squares as u64) / 64
}

// A guess at 2^16 times 1 less the distance of a key, rounded down. No law is known of it: what is made of it is tested.
fn guess(worst: u64) -> u64
    ensures { result < 65536 }
{
    let z = (1.0 - float::value_of_key(worst)) * 65536.0 + 4503599627370495.0;
    if z < 4503599627436032.0 {
        return f64::to_bits(z) % 65536;
    }
    0
}

fn limit(worst: u64, norm: u64) -> u32
    requires { norm < 67108864 }
    ensures { Far (sqrt_of (of_int binary64 (pos norm))) worst result }
{
    let g = guess(worst);
    if worst < float::key(1.0 - g as f64 * 0.0000152587890625) {
        let u = g * g * norm / 67108864;
        if 0 < u {
            return (u - u / 131072 - 1) as u32;
        }
    }
    0
}

// The limit for the worst key that is kept and the query's norm; 0, by which no row is too far, where none is found: while there is
// room, or where the worst distance is 1 or more. (No Option: 0 is a limit as any other, and a row needs no test of whether there is one.)
pub fn far_limit(worst: u64, norm: i64) -> u32
    ensures { Far (sqrt_of (of_int binary64 norm)) worst result }
{
    if (norm < 0) | (67108864 <= norm) {
        return 0;
    }
    limit(worst, norm as u64)
}
