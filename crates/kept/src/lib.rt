// The rows that a call looks at, kept one way or the other: cached or resident, the lengths of their slices, and the candidates among them.
#![tactic(auto)]

ghost use Rattle.std.specs.Prelude.{◌≡◌, ℕ, List, true, false, length, IfSome, IsNone, ◌↔◌};
ghost use Rattle.format.specs.declared.Head.{Head};
ghost use Rattle.quantization.specs.Encoder.{Levels};
ghost use Rattle.math.specs.Distance.{inverse_norm};
ghost use Rattle.search_spec.specs.Lent.{Rows as Seen, base, wanted_of, everyone};
ghost use Rattle.search_spec.specs.Kept.{cached_rows, resident_rows};
ghost use Rattle.search_spec.specs.Tests.{query_ok};
ghost use Rattle.search_spec.specs.Lists.{is_eligible, encoded};
ghost use Rattle.eligible.specs.Walk.{Sorted};
ghost use Rattle.front.specs.Query.{at_levels};
ghost use Rattle.kept.specs.Seen.{cached-base, resident-base};
ghost use Rattle.shortlist.specs.Shortlist.{ShortlistIs, shortlisted};

use config::Refused;
use format::{Head, Manifest};
use math::Query;
use quantized_cache::{CacheState, CachedRows};
use rerank::Original;
use resident::{ResidentRows, ResidentState};
use scan::{Against, Rows};
use segment::Library;
use shortlist::Shortlisted;

// Kept rows as they are lent, with what opening or building returned.
pub trait Kept: Copy {
    type Rows: Rows;

    ghost head_of: { Self → Head };

    // the rows that a call sees, for a manifest
    ghost seen: { Self → List ℕ → Seen };

    fn head(self) -> Head
        ensures { result ≡ head_of self };

    // 21: none where the slices have not the lengths that they were opened or built with, or less than the rows need.
    fn rows(self, m: Manifest<'_>) -> Option<Self::Rows>
        ensures none { IsNone result ↔ ((seen self m.entry.bytes.now).length_ok ≡ false) }
        ensures some { IfSome result (λ rows. (Self.Rows.at rows ≡ (seen self m.entry.bytes.now).at)
            × (Self.Rows.count rows ≡ m.entry.layout.rows) × (Self.Rows.width rows ≡ m.entry.layout.dimensions)) };

    // they are rows of the base's encoder
    ghost of_base: { (s : Self) (m : List ℕ) → (seen s m).encoding ≡ base };
}

// A cache, with the state that opening returned.
#[derive(Clone, Copy)]
pub struct Cached<'a> {
    pub state: CacheState,
    pub cache: &'a [u8],
}

impl<'a> Kept for Cached<'a> {
    type Rows = CachedRows<'a>;

    ghost head_of = { λ s. s.state.head };

    ghost seen = { λ s m. cached_rows m s.state s.cache.now };

    ghost of_base = { λ s m. cached-base s.state s.cache.now m };

    fn head(self) -> Head {
        self.state.head
    }

    #[tactic(auto, using(quantized_cache::proofs::Succeeds::length_passed), unfolding(search_spec::specs::Kept::cached_rows))]
    fn rows(self, m: Manifest<'_>) -> Option<CachedRows<'a>> {
        let rows = m.layout.rows;
        let dimensions = m.layout.dimensions;
        if !quantized_cache::length_holds(self.state, rows, dimensions, self.cache) {
            return None;
        }
        Some(CachedRows {
            cache: self.cache,
            rows,
            dimensions,
        })
    }
}

// Resident rows, with the state that building returned.
#[derive(Clone, Copy)]
pub struct Resident<'a> {
    pub state: ResidentState,
    pub codes: &'a [i8],
    pub scales: &'a [f64],
    pub norms: &'a [i64],
}

impl<'a> Kept for Resident<'a> {
    type Rows = ResidentRows<'a>;

    ghost head_of = { λ s. s.state.head };

    ghost seen = { λ s m. resident_rows m s.state s.codes.now s.scales.now s.norms.now };

    ghost of_base = { λ s m. resident-base s.state s.codes.now s.scales.now s.norms.now m };

    fn head(self) -> Head {
        self.state.head
    }

    #[tactic(auto, using(crate::proofs::Lengths::lengths_passed), unfolding(search_spec::specs::Kept::resident_rows))]
    fn rows(self, m: Manifest<'_>) -> Option<ResidentRows<'a>> {
        let rows = m.layout.rows;
        let dimensions = m.layout.dimensions;
        if !resident::lengths_hold(
            self.state,
            rows,
            dimensions,
            self.codes.len(),
            self.scales.len(),
            self.norms.len(),
        ) {
            return None;
        }
        Some(ResidentRows {
            codes: self.codes,
            scales: self.scales,
            norms: self.norms,
            rows,
            dimensions,
        })
    }
}

// A library beside a query that is made for one call.
fn original_of<'a>(library: Library<'a>, coordinates: &'a [f64], inverse: f64) -> Original<'a>
    requires { (length coordinates.now ≡ library.manifest.layout.dimensions) × (inverse ≡ inverse_norm coordinates.now) }
    ensures { (result.library ≡ library.entry) × (result.query.coordinates.now ≡ coordinates.now) }
{
    let query = Query {
        metric: library.metric,
        coordinates,
        inverse,
    };
    Original { library, query }
}

// The candidates by original order, in two slices whose length is the limit.
#[tactic(auto, using(config::proofs::Coordinates::valid_parts))]
#[inline(always)]
pub fn find<R: Rows>(
    rows: R,
    agree: bool,
    k: usize,
    levels: u32,
    library: Library<'_>,
    wanted: Option<&[u64]>,
    query: &[f32],
    ks: &mut [u64],
    rs: &mut [u64],
) -> Result<Shortlisted, Refused>
    requires query { Levels levels × (query_ok library.manifest.bytes.now query.now ≡ true) }
    requires rows { (R.count rows ≡ library.manifest.layout.rows) × (R.width rows ≡ library.manifest.layout.dimensions) }
    requires sorted { Sorted (wanted_of wanted) × (length ks.old ≡ length rs.old) }
    ensures { ShortlistIs agree k levels library.entry.manifest.bytes.now library.entry.segments.now query.now (is_eligible (wanted_of wanted.entry) everyone library.entry.manifest.bytes.now)
        (R.at rows) (encoded (at_levels levels) query.now) (length ks.old) (shortlisted result) ks.new rs.new }
{
    let mut codes = [0i16; 4096];
    let mut wide = [0.0f64; 4096];
    let read = front::read_query(levels, query, &mut codes, &mut wide);
    let n = query.len();
    let against = Against {
        levels,
        metric: library.metric,
        query: read.query,
        codes: &codes[..n],
    };
    let original = original_of(library, &wide[..n], read.inverse);
    shortlist::shortlist(agree, k, against, rows, &original, wanted, ks, rs)
}
