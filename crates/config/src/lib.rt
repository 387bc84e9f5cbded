// Bounds, metric, configuration and the vector test: config.rs, and `EmbeddingSpace::validate` of collection.rs.
#![tactic(auto)]

ghost use Rattle.std.specs.Prelude.{◌≡◌, ◌&&◌, ◌+◌, ◌*◌, ◌≤◌, leb, length};
ghost use Rattle.config.specs.Limits.{max_results, max_candidates};
ghost use Rattle.config.specs.Told.{number_of};
ghost use Rattle.config.specs.Metric.{metric_of, byte_of, is_cosine};
ghost use Rattle.config.specs.declared.Number.TheVariants.{Configuration};
ghost use Rattle.config.specs.Space.{valid_config, no_zero, valid_space};
ghost use Rattle.config.specs.Vector.{valid_vector, floats_at, patterns_at, largest_bits};

// The bounds of config.rs, generation.rs (MAX_RECORDS among them), quantization.rs and quantized_cache.rs.
pub const MAX_DIMENSIONS: usize = 4_096;

pub const MAX_EF: usize = 4_096;

pub const MAX_METADATA: usize = 16_384;

pub const MAX_RECORDS: usize = 1_000_000;

pub const MAX_SEGMENTS: usize = 1_024;

pub const MAX_SEGMENT_BYTES: usize = 67_108_864;

pub const MAX_MANIFEST_BYTES: usize = 67_108_864;

pub const MAX_RESULTS: usize = 10_000;

pub const MAX_CANDIDATES: usize = 65_536;

pub const MAX_CODE_BYTES: usize = 536_870_912;

pub const MAX_CACHE_BYTES: usize = 1_073_741_824;

// 17: the most results of a search.
pub fn results_hold(k: usize) -> bool
    ensures { result ≡ leb k max_results }
{
    k <= MAX_RESULTS
}

// 18: the candidates of a search.
pub fn limit_holds(k: usize, limit: usize) -> bool
    ensures { result ≡ (leb k limit && leb limit max_candidates) }
{
    (k <= limit) & (limit <= MAX_CANDIDATES)
}

// What document 01's table turns away. Its number is the table's (`number_of`).
#[derive(Clone, Copy, Debug, PartialEq, Eq)]
pub enum Number {
    Layout = 1,
    Configuration,
    ManifestCrc,
    Tiling,
    Record,
    SegmentCrc,
    Options,
    CodeBytes,
    CacheBytes,
    Names,
    Room,
    CacheHead,
    Identity,
    Row,
    CacheCrc,
    Query,
    Results,
    Candidates,
    Ids,
    AnswerRoom,
    Changed,
    Approximate,
    RecordChanged,
    Original,
}

// Why a call is refused, and where: the error of every entry.
#[derive(Clone, Copy, Debug, PartialEq, Eq)]
pub struct Refused {
    pub number: Number,
    pub place: u64,
}

impl Number {
    // Document 01's number.
    pub fn number(self) -> u32
        ensures { result ≡ number_of self }
    {
        self as u32
    }
}

// A refusal whose place says nothing is at 0.
impl From<Number> for Refused {
    ghost from_gives = { λ number r. r ≡ record { number = number; place = 0 } };

    fn from(number: Number) -> Refused {
        Refused { number, place: 0 }
    }
}

#[derive(Clone, Copy, Debug, PartialEq, Eq)]
pub enum Metric {
    SquaredL2,
    Cosine,
    InnerProduct,
}

// A metric byte that names no metric.
#[derive(Clone, Copy, Debug, PartialEq, Eq)]
pub struct UnknownMetric(pub u8);

impl TryFrom<u8> for Metric {
    type Error = UnknownMetric;

    ghost try_from_gives = { λ byte answer. answer ≡ metric_of byte };

    #[tactic(auto, unfolding(crate::specs::Metric::metric_of))]
    fn try_from(byte: u8) -> Result<Self, UnknownMetric> {
        match byte {
            0 => Ok(Metric::SquaredL2),
            1 => Ok(Metric::Cosine),
            2 => Ok(Metric::InnerProduct),
            _ => Err(UnknownMetric(byte)),
        }
    }
}

// 2: a metric that is none.
impl From<UnknownMetric> for Number {
    ghost from_gives = { λ _ number. number ≡ Configuration };

    fn from(_: UnknownMetric) -> Number {
        Number::Configuration
    }
}

impl Metric {
    pub fn byte(self) -> u8
        ensures { result ≡ byte_of self }
    {
        self as u8
    }

    pub fn is_cosine(self) -> bool
        ensures { result ≡ is_cosine self }
    {
        self == Metric::Cosine
    }
}

#[derive(Clone, Copy, Debug, PartialEq, Eq)]
pub struct Config {
    pub dimensions: usize,
    pub m: usize,
    pub ef_construction: usize,
    pub seed: u64,
    pub metric: Metric,
}

impl Config {
    pub fn validate(self) -> bool
        ensures { result ≡ valid_config self.dimensions self.m self.ef_construction }
    {
        let d = self.dimensions;
        let m = self.m;
        let ef = self.ef_construction;
        (1 <= d) & (d <= MAX_DIMENSIONS) & (2 <= m) & (m <= 64) & (m <= ef) & (ef <= MAX_EF)
    }
}

// Whether no byte of s is 0.
fn no_zero(s: &[u8]) -> bool
    ensures { result ≡ no_zero s.now }
{
    !s.contains(&0)
}

// What is left of the configuration's test where m and ef are the defaults.
fn validate_dimensions(dimensions: usize) -> bool
    ensures { result ≡ valid_config dimensions 16 200 }
{
    (1 <= dimensions) & (dimensions <= MAX_DIMENSIONS)
}

// EmbeddingSpace::validate, for a model whose bytes may be no UTF-8.
pub fn validate_space(model: &[u8], dimensions: usize) -> bool
    ensures { result ≡ valid_space model.now dimensions }
{
    let n = model.len();
    if 512 < n {
        return false;
    }
    (1 <= n) & validate_dimensions(dimensions) & utf8::valid(model) & no_zero(model)
}

// The vector test over floats: their count, all finite, and under cosine not all zero.
pub fn validate_vector(metric: Metric, dimensions: usize, vector: &[f32]) -> bool
    ensures { result ≡ valid_vector metric dimensions vector.now }
{
    if vector.len() != dimensions {
        return false;
    }
    let finite = vector.iter().all(|x| x.is_finite());
    let zero = vector.iter().all(|x| *x == 0.0);
    finite & !(metric.is_cosine() & zero)
}

// The largest pattern without its sign of the n floats at a place of a record.
pub fn largest_bits(s: &[u8], at: usize, n: usize) -> u32
    requires { at + 4 * n ≤ length s.now }
    ensures { result ≡ largest_bits (patterns_at n s.now at) }
{
    let mut most: u32 = 0;
    for i in 0..n {
        most = most.max(le::u32_at(s, at + 4 * i) % 2147483648);
    }
    most
}

// The vector test over the n coordinates at a place of a record: the largest pattern tells of all of them.
pub fn validate_record(metric: Metric, s: &[u8], at: usize, n: usize) -> bool
    requires { at + 4 * n ≤ length s.now }
    ensures { result ≡ valid_vector metric n (floats_at n s.now at) }
{
    let most = largest_bits(s, at, n);
    (most < 2139095040) & !(metric.is_cosine() & (most == 0))
}
