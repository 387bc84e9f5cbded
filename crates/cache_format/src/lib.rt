// How a cache is laid out: quantized_cache.rs's `identity` and `geometry`, the writing of its head, and what opening tests before the rows.
#![tactic(auto)]

ghost use Rattle.std.specs.Prelude.{◌≡◌, ◌+◌, ◌≤◌, ◌<◌, length, take, drop};
ghost use Rattle.le.specs.Le.{paste};
ghost use Rattle.config.specs.Told.{numbered};
ghost use Rattle.format.specs.Same.{same_bytes};
ghost use Rattle.cache_format.specs.Cache.{counted, inner, identity as identity_of, identity_length, cache_version, cache_between, head_rest, cache_head, row_length, cache_size};
ghost use Rattle.cache_format.specs.Sizing.{place_ok, options_ok, default_options, codes_ok, bounds_number, limits_number, sizing_number};
ghost use Rattle.cache_format.specs.Open.{cache_head_ok, same_identity, cache_head_number};

use config::Number;

// "VECSQ801"
const MAGIC: u64 = 0x3130_3851_5343_4556;

const VERSION: u32 = 1;

const MAX_PLATFORM: usize = 64;

const MAX_ROOT: usize = 1_048_576;

const MAX_BUFFER_BYTES: usize = 16_777_216;

// Bounds for a prepared cache and its read buffer: the Rust's `QuantizedCacheOptions`, with its defaults.
#[derive(Clone, Copy)]
pub struct Options {
    pub max_cache_bytes: usize,
    pub buffer_bytes: usize,
}

impl Options {
    pub const DEFAULT_MAX_CACHE_BYTES: usize = 1_073_741_824;

    pub const DEFAULT_BUFFER_BYTES: usize = 1_048_576;

    // Sizing's 7.
    #[tactic(auto, unfolding(utf8::specs::Grammar::span))]
    fn validate(self, row_bytes: usize) -> bool
        ensures { result ≡ options_ok self.max_cache_bytes self.buffer_bytes row_bytes }
    {
        ((1 <= self.max_cache_bytes) & (self.max_cache_bytes <= config::MAX_CACHE_BYTES))
            & ((row_bytes <= self.buffer_bytes) & (self.buffer_bytes <= MAX_BUFFER_BYTES))
    }
}

impl Default for Options {
    ghost is_default = { λ o. o ≡ default_options };

    fn default() -> Options {
        Options {
            max_cache_bytes: Options::DEFAULT_MAX_CACHE_BYTES,
            buffer_bytes: Options::DEFAULT_BUFFER_BYTES,
        }
    }
}

// ---- Sizes.

pub fn row_length(dimensions: usize) -> usize
    requires { dimensions ≤ 4096 }
    ensures { result ≡ row_length dimensions }
{
    dimensions + 16
}

// From the lengths of platform, root and manifest.
pub fn identity_length(platform: usize, root: usize, manifest: usize) -> usize
    requires { (platform ≤ 64) × (root ≤ 1048576) × (66 ≤ manifest) × (manifest ≤ 67108864) }
    ensures { result ≡ identity_length platform root manifest }
{
    4 + platform + (4 + root) + (manifest - 12)
}

// From the lengths of the identity and of the bytes between it and the rows.
#[tactic(auto, using(crate::proofs::Sizes::rows_in))]
pub fn cache_size(identity: usize, between: usize, rows: usize, dimensions: usize) -> usize
    requires { (identity < 4294967296) × (between < 4294967296) × (rows ≤ 1000000) × (dimensions ≤ 4096) }
    ensures { result ≡ cache_size identity between rows dimensions }
{
    identity + 20 + between + rows * row_length(dimensions)
}

// Sizing's 8, and building's.
pub fn codes_hold(rows: usize, dimensions: usize) -> bool
    requires { (rows ≤ 1000000) × (dimensions ≤ 4096) }
    ensures { result ≡ codes_ok rows dimensions }
{
    rows * dimensions <= config::MAX_CODE_BYTES
}

// Where a cache is kept: the platform's name and the root's path.
#[derive(Clone, Copy)]
pub struct Location<'a> {
    pub platform: &'a [u8],
    pub root: &'a [u8],
}

impl<'a> Location<'a> {
    pub fn check_sizing(
        self,
        options: Options,
        manifest: usize,
        rows: usize,
        dimensions: usize,
    ) -> Result<(), Number>
        requires { (66 ≤ manifest) × (manifest ≤ 67108864) × (rows ≤ 1000000) × (dimensions ≤ 4096) }
        ensures { numbered result ≡ sizing_number (length self.entry.platform.now) (length self.entry.root.now) options.max_cache_bytes options.buffer_bytes manifest rows dimensions }
    {
        check_sizing_by_lengths(
            self.platform.len(),
            self.root.len(),
            options,
            manifest,
            rows,
            dimensions,
        )
    }
}

// Sizing's 10.
fn place_holds(platform: usize, root: usize) -> bool
    ensures { result ≡ place_ok platform root }
{
    (platform <= MAX_PLATFORM) & (root <= MAX_ROOT)
}

// Sizing's 10 and 7, of rows of some length.
#[tactic(auto, unfolding(crate::specs::Sizing::bounds_number))]
fn check_bounds(platform: usize, root: usize, options: Options, row: usize) -> Result<(), Number>
    ensures { numbered result ≡ bounds_number platform root options.max_cache_bytes options.buffer_bytes row }
{
    if !place_holds(platform, root) {
        return Err(Number::Names);
    }
    if !options.validate(row) {
        return Err(Number::Options);
    }
    Ok(())
}

// Sizing's tests, in their order, by the lengths of platform, root and manifest.
pub fn check_sizing_by_lengths(
    platform: usize,
    root: usize,
    options: Options,
    manifest: usize,
    rows: usize,
    dimensions: usize,
) -> Result<(), Number>
    requires { (66 ≤ manifest) × (manifest ≤ 67108864) × (rows ≤ 1000000) × (dimensions ≤ 4096) }
    ensures { numbered result ≡ sizing_number platform root options.max_cache_bytes options.buffer_bytes manifest rows dimensions }
{
    check_bounds(platform, root, options, row_length(dimensions))?;
    let identity = identity_length(platform, root, manifest);
    let size = cache_size(identity, 0, rows, dimensions);
    check_limits(rows, dimensions, size, options.max_cache_bytes)
}

// Sizing's 8 and 9, of a cache of some size. The limit counts 8 bytes beside the cache, which were the Rust's LEASE
// file.
#[tactic(auto, unfolding(crate::specs::Sizing::limits_number))]
fn check_limits(rows: usize, dimensions: usize, size: usize, limit: usize) -> Result<(), Number>
    requires { (rows ≤ 1000000) × (dimensions ≤ 4096) × (size < 9223372036854775808) }
    ensures { numbered result ≡ limits_number rows dimensions size limit }
{
    if !codes_hold(rows, dimensions) {
        return Err(Number::CodeBytes);
    }
    if limit < size + 8 {
        return Err(Number::CacheBytes);
    }
    Ok(())
}

// ---- The head.

// By a loop: `copy_from_slice` is `memmove`, which the C library would need from outside.
pub fn put_bytes(cache: &mut [u8], at: usize, s: &[u8])
    requires { at + length s.now ≤ length cache.old }
    ensures { cache.new ≡ paste cache.old at s.now }
{
    for i in 0..s.len() {
        cache[at + i] = s[i];
    }
}

// After a u32 length.
#[tactic(auto, using(crate::proofs::Parts::counted_stored))]
fn put_counted(cache: &mut [u8], at: usize, s: &[u8])
    requires { (at + 4 + length s.now ≤ length cache.old) × (length s.now < 4294967296) }
    ensures { cache.new ≡ paste cache.old at (counted s.now) }
{
    le::put_u32(cache, at, s.len() as u32);
    put_bytes(cache, at + 4, s);
}

// What a cache is for: where it is kept, and a manifest, of lengths that sizing and the manifest's tests let pass.
#[derive(Clone, Copy)]
pub struct Identity<'a> {
    pub location: Location<'a>,
    pub manifest: &'a [u8],
    pub ghost platform_short: { length location.platform.now ≤ 64 },
    pub ghost root_short: { length location.root.now ≤ 1048576 },
    pub ghost long: { 66 ≤ length manifest.now },
    pub ghost short: { length manifest.now ≤ 67108864 },
}

impl<'a> Identity<'a> {
    // As a cache has it.
    pub fn len(self) -> usize
        ensures { result ≡ identity_length (length self.entry.location.platform.now) (length self.entry.location.root.now) (length self.entry.manifest.now) }
    {
        identity_length(
            self.location.platform.len(),
            self.location.root.len(),
            self.manifest.len(),
        )
    }

    // Where the root's path stands in a cache, behind its length; and where the manifest's part begins.
    fn root_at(self) -> usize
        ensures { result ≡ 20 + length self.entry.location.platform.now }
    {
        20 + self.location.platform.len()
    }

    fn manifest_at(self) -> usize
        ensures { result ≡ 20 + length self.entry.location.platform.now + 4 + length self.entry.location.root.now }
    {
        self.root_at() + 4 + self.location.root.len()
    }

    // The manifest without its first 8 and last 4 bytes.
    fn inner(self) -> &'a [u8]
        ensures { result.now ≡ inner self.entry.manifest.now }
    {
        let end = self.manifest.len() - 4;
        &self.manifest[8..end]
    }

    // Behind the head's first 16 bytes.
    #[tactic(auto, using(crate::proofs::Parts::identity_stored))]
    fn put(self, cache: &mut [u8])
        requires { 16 + identity_length (length self.location.platform.now) (length self.location.root.now) (length self.manifest.now) ≤ length cache.old }
        ensures { cache.new ≡ paste cache.old 16 (identity_of self.entry.location.platform.now self.entry.location.root.now self.entry.manifest.now) }
    {
        put_counted(cache, 16, self.location.platform);
        put_counted(cache, self.root_at(), self.location.root);
        put_bytes(cache, self.manifest_at(), self.inner());
    }

    // What stands between the magic and the rows.
    fn put_rest(self, cache: &mut [u8])
        requires { 16 + identity_length (length self.location.platform.now) (length self.location.root.now) (length self.manifest.now) ≤ length cache.old }
        ensures { cache.new ≡ paste cache.old 8 (head_rest cache_version (identity_of self.entry.location.platform.now self.entry.location.root.now self.entry.manifest.now) cache_between) }
    {
        le::put_u32(cache, 8, VERSION);
        le::put_u32(cache, 12, self.len() as u32);
        self.put(cache);
    }

    // What stands before the rows.
    pub fn put_head(self, cache: &mut [u8])
        requires { 16 + identity_length (length self.location.platform.now) (length self.location.root.now) (length self.manifest.now) ≤ length cache.old }
        ensures { cache.new ≡ paste cache.old 0 (cache_head cache_version (identity_of self.entry.location.platform.now self.entry.location.root.now self.entry.manifest.now) cache_between) }
    {
        le::put_u64(cache, 0, MAGIC);
        self.put_rest(cache);
    }

    // Opening's 13: the identity's length and its bytes.
    fn stands_in(self, cache: &[u8]) -> bool
        requires { 16 + identity_length (length self.location.platform.now) (length self.location.root.now) (length self.manifest.now) ≤ length cache.now }
        ensures { result ≡ same_identity (identity_of self.entry.location.platform.now self.entry.location.root.now self.entry.manifest.now) cache.now }
    {
        let root_at = self.root_at();
        (le::u32_at(cache, 12) as usize == self.len())
            & (same_counted_at(cache, 16, self.location.platform)
                & same_counted_at(cache, root_at, self.location.root)
                & format::same_bytes_at(cache, self.manifest_at(), self.inner()))
    }

    // The tests before the rows, in their order; `size` is the size that the cache must have.
    #[tactic(auto, unfolding(crate::specs::Open::cache_head_number))]
    pub fn check_head(self, cache: &[u8], size: usize) -> Result<(), Number>
        requires { 16 + identity_length (length self.location.platform.now) (length self.location.root.now) (length self.manifest.now) ≤ size }
        ensures { numbered result ≡ cache_head_number 1 size (identity_of self.entry.location.platform.now self.entry.location.root.now self.entry.manifest.now) cache.now }
    {
        if !head_holds(cache, size) {
            return Err(Number::CacheHead);
        }
        if !self.stands_in(cache) {
            return Err(Number::Identity);
        }
        Ok(())
    }
}

// ---- Opening.

fn same_counted_at(cache: &[u8], at: usize, s: &[u8]) -> bool
    requires { (at + 4 + length s.now ≤ length cache.now) × (length s.now < 4294967296) }
    ensures { result ≡ same_bytes (take (4 + length s.now) (drop at cache.now)) (counted s.now) }
{
    (le::u32_at(cache, at) as usize == s.len()) & format::same_bytes_at(cache, at + 4, s)
}

// Opening's 12: length first, then magic and version.
#[tactic(auto, unfolding(crate::specs::Open::cache_head_ok, le::specs::Le::le))]
fn head_holds(cache: &[u8], size: usize) -> bool
    requires { 12 ≤ size }
    ensures { result ≡ cache_head_ok 1 size cache.now }
{
    if cache.len() != size {
        return false;
    }
    (le::u64_at(cache, 0) == MAGIC) & (le::u32_at(cache, 8) == VERSION)
}
