// The agreement count: at how many places the list and the list over all eligible records hold the same id. The list is in order, and so
// these are its places before the least eligible record that it lacks: one pass over the rows finds them, with no further slice.
#![tactic(auto)]

ghost use Rattle.std.specs.Prelude.{◌≡◌, ◌≤◌, ◌<◌, length, MatchOption};
ghost use Rattle.search_spec.specs.Lent.{wanted_of, everyone};
ghost use Rattle.search_spec.specs.Lists.{is_eligible};
ghost use Rattle.eligible.specs.Walk.{Sorted};
ghost use Rattle.agreement.specs.Count.{key_not_after, FirstIs, AheadIs, Listed, CountIs, counted};

use config::Refused;
use rerank::Original;

// Whether the row, with its key, holds place i or comes before it: by the key, and of two equal keys by the row.
fn not_after(ks: &[u64], rs: &[u64], key: u64, row: u64, i: usize) -> bool
    requires { (i < length ks.now) × (i < length rs.now) }
    ensures { result ≡ key_not_after ks.now rs.now key row i }
{
    (key, row) <= (ks[i], rs[i])
}

// The first of n places that the row, with its key, holds or comes before; none where it comes after all. The last is looked at first: it
// answers for nearly every row.
fn first_place(ks: &[u64], rs: &[u64], n: usize, key: u64, row: u64) -> Option<usize>
    requires { (n ≤ length ks.now) × (n ≤ length rs.now) }
    ensures { MatchOption result (FirstIs (key_not_after ks.now rs.now key row) n n)
        (λ i. (i < n) × FirstIs (key_not_after ks.now rs.now key row) n i) }
{
    if n == 0 {
        return None;
    }
    if !not_after(ks, rs, key, row, n - 1) {
        return None;
    }
    let mut low = 0;
    let mut high = n - 1;
    while low < high {
        let mid = low + (high - low) / 2;
        if not_after(ks, rs, key, row, mid) {
            high = mid;
        } else {
            low = mid + 1;
        }
    }
    Some(low)
}

// The places that still agree: of the first n, those that come before the row, where it is not listed.
fn ahead(ks: &[u64], rs: &[u64], n: usize, key: u64, row: u64) -> usize
    requires { (n ≤ length ks.now) × (n ≤ length rs.now) }
    ensures { AheadIs (key_not_after ks.now rs.now key row) rs.now n row result }
{
    match first_place(ks, rs, n, key, row) {
        Some(i) if rs[i] != row => i,
        _ => n,
    }
}

// Over a list of eligible rows rs by original order, with their keys ks. 23 and 24 are for the lowest of all eligible rows.
pub fn count(
    original: &Original<'_>,
    wanted: Option<&[u64]>,
    ks: &[u64],
    rs: &[u64],
) -> Result<usize, Refused>
    requires sorted { Sorted (wanted_of wanted) }
    requires listed { Listed original.now.library.manifest.bytes.now original.now.library.segments.now original.now.query.coordinates.now (is_eligible (wanted_of wanted) everyone original.now.library.manifest.bytes.now) ks.now rs.now }
    ensures { CountIs original.now.library.manifest.bytes.now original.now.library.segments.now original.now.query.coordinates.now (is_eligible (wanted_of wanted.entry) everyone original.now.library.manifest.bytes.now) rs.now (counted result) }
{
    let table = original.library.table();
    let mut n = rs.len();
    let mut cursor = 0;
    for row in 0..table.manifest.layout.rows {
        let e = eligible::row_step(table, wanted, cursor, row);
        cursor = e.cursor;
        if e.eligible {
            let key = original.measure_one(row)?;
            n = ahead(ks, rs, n, key, row as u64);
        }
    }
    Ok(n)
}
