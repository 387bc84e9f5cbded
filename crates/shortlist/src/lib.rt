// Scan, then rerank: the candidates of a search by original distance, in two lent slices whose length is the limit. And for an agreement call
// at how many places the first k of them and all eligible rows by original distance hold the same.
#![tactic(auto)]

ghost use Rattle.std.specs.Prelude.{◌≡◌, List, ℕ, leb, length};
ghost use Rattle.rank.specs.Sort.{sort};
ghost use Rattle.config.specs.Refusal.{none};
ghost use Rattle.row.specs.Answer.{view_of};
ghost use Rattle.search_spec.specs.Lent.{wanted_of, everyone};
ghost use Rattle.search_spec.specs.Lists.{is_eligible};
ghost use Rattle.eligible.specs.Walk.{Sorted};
ghost use Rattle.shortlist.specs.Shortlist.{KeptRows, RankedIs, ShortlistIs, shortlisted};

use config::Refused;
use rerank::Original;
use scan::{Against, Rows};

// How many records were measured, of how many eligible rows, and, for an agreement call, at how many places the lists agree.
#[derive(Clone, Copy)]
pub struct Shortlisted {
    pub measured: usize,
    pub eligible: usize,
    pub agreement: usize,
}

// Behind a scan: the candidates, whose rows come in any order. An agreement call is refused for the lowest of all eligible rows, so a refusal
// of the candidates is not its own.
fn behind(
    agree: bool,
    k: usize,
    original: &Original<'_>,
    wanted: Option<&[u64]>,
    eligible: usize,
    ks: &mut [u64],
    rs: &mut [u64],
) -> Result<Shortlisted, Refused>
    requires sorted { Sorted (wanted_of wanted) }
    requires kept { (length ks.old ≡ length rs.old)
        × KeptRows original.now.library.manifest.bytes.now (is_eligible (wanted_of wanted) everyone original.now.library.manifest.bytes.now) eligible rs.old }
    ensures { (C : List ℕ) → sort leb rs.old ≡ sort leb C → RankedIs none agree k original.now.library.manifest.bytes.now original.now.library.segments.now original.now.query.coordinates.now (is_eligible (wanted_of wanted.entry) everyone original.now.library.manifest.bytes.now) C (shortlisted result) ks.new rs.new }
{
    let reranked = original.rerank(ks, rs);
    if !agree {
        let measured = reranked?;
        return Ok(Shortlisted {
            measured,
            eligible,
            agreement: 0,
        });
    }
    let measured = reranked.unwrap_or(0);
    let n = measured.min(k);
    let agreement = agreement::count(original, wanted, &ks[..n], &rs[..n])?;
    Ok(Shortlisted {
        measured,
        eligible,
        agreement,
    })
}

#[inline(always)]
pub fn shortlist<R: Rows>(
    agree: bool,
    k: usize,
    against: Against<'_>,
    rows: R,
    original: &Original<'_>,
    wanted: Option<&[u64]>,
    ks: &mut [u64],
    rs: &mut [u64],
) -> Result<Shortlisted, Refused>
    requires sorted { Sorted (wanted_of wanted) }
    requires rows { (R.count rows ≡ original.now.library.manifest.layout.rows) × (R.width rows ≡ original.now.library.manifest.layout.dimensions)
        × (length against.codes.now ≡ original.now.library.manifest.layout.dimensions) × (against.metric ≡ original.now.library.metric) }
    requires slices { length ks.old ≡ length rs.old }
    ensures { ShortlistIs agree k against.entry.levels original.now.library.manifest.bytes.now original.now.library.segments.now original.now.query.coordinates.now (is_eligible (wanted_of wanted.entry) everyone original.now.library.manifest.bytes.now) (R.at rows) (view_of against.entry.query.row.scale against.entry.query.row.norm against.entry.codes.now) (length ks.old) (shortlisted result) ks.new rs.new }
{
    let scanned = scan::scan(against, rows, original.library.table(), wanted, ks, rs)?;
    let n = scanned.count;
    behind(
        agree,
        k,
        original,
        wanted,
        scanned.eligible,
        &mut ks[..n],
        &mut rs[..n],
    )
}
