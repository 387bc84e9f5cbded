// The eligible rows: the ids handed in, sorted in a lent slice, merged with the rising ids of the manifest. They stand for the
// `BTreeSet` of `search_ids` in the Rust's src/generation.rs.
#![tactic(auto)]

ghost use Rattle.std.specs.Prelude.{◌≡◌, ◌++◌, ◌≤◌, ◌<◌, leb, length, drop};
ghost use Rattle.rank.specs.Sort.{sort, Ascending};
ghost use Rattle.search_spec.specs.Lent.{wanted_of, handed, everyone};
ghost use Rattle.search_spec.specs.Lists.{eligible};
ghost use Rattle.eligible.specs.Walk.{Behind, Stepped, CursorAt, Turned, Sorted, ids_of, sorted_ids};

use entries::Table;

// Whether an id is among the sorted ids, or a row eligible; and the cursor for the next.
#[derive(Clone, Copy)]
pub struct Found {
    pub eligible: bool,
    pub cursor: usize,
}

// Puts the ids, sorted, at the front of a lent slice.
pub fn order(ids: &[u64], work: &mut [u64])
    requires { length ids.now ≤ length work.old }
    ensures { work.new ≡ sort leb ids.now ++ drop (length ids.now) work.old }
{
    le::copy(ids, work);
    let n = ids.len();
    rank::sort_numbers(&mut work[..n]);
}

// Whether the id is among the sorted ids, where all before the cursor are below it.
#[tactic(auto, using(crate::proofs::Walk::stands, crate::proofs::Walk::ended))]
pub fn step(sorted: &[u64], cursor: usize, id: u64) -> Found
    requires { Ascending leb sorted.now × Behind sorted.now cursor id }
    ensures { Stepped sorted.now id result }
{
    for at in cursor..sorted.len() {
        let x = sorted[at];
        if id <= x {
            return Found {
                eligible: x == id,
                cursor: at,
            };
        }
    }
    Found {
        eligible: false,
        cursor: sorted.len(),
    }
}

// Whether the row is eligible, where the cursor has come to it. Without a list every row is.
pub fn row_step(table: Table<'_>, wanted: Option<&[u64]>, cursor: usize, row: usize) -> Found
    requires row { row < table.manifest.layout.rows }
    requires sorted { Sorted (wanted_of wanted) × CursorAt table.manifest.bytes.now (ids_of (wanted_of wanted)) cursor row }
    ensures { Turned table.entry.manifest.bytes.now (wanted_of wanted.entry) row result }
{
    match wanted {
        None => Found {
            eligible: true,
            cursor,
        },
        Some(sorted) => {
            let id = entries::read_entry(table.manifest, row).id;
            step(sorted, cursor, id)
        }
    }
}

// How many rows are eligible.
pub fn count(table: Table<'_>, wanted: Option<&[u64]>) -> usize
    requires { Sorted (wanted_of wanted) }
    ensures { result ≡ length (eligible (wanted_of wanted.entry) everyone table.entry.manifest.bytes.now) }
{
    if wanted.is_none() {
        return table.manifest.layout.rows;
    }
    let mut cursor = 0;
    let mut total = 0;
    for row in 0..table.manifest.layout.rows {
        let s = row_step(table, wanted, cursor, row);
        cursor = s.cursor;
        total += s.eligible as usize;
    }
    total
}

// Sorts the ids handed in into the lent slice, and says how many they are. Without a list the slice stays.
pub fn select(wanted: Option<&[u64]>, work: &mut [u64]) -> usize
    requires { handed (wanted_of wanted) ≤ length work.old }
    ensures value { result ≡ handed (wanted_of wanted.entry) }
    ensures work_after { work.new ≡ sorted_ids (wanted_of wanted.entry) ++ drop (handed (wanted_of wanted.entry)) work.old }
{
    match wanted {
        None => 0,
        Some(ids) => {
            order(ids, work);
            ids.len()
        }
    }
}
