// The states that opening and building return, and the head that a check returns, as the bytes that a caller from C keeps.
#![tactic(auto)]

ghost use Rattle.std.specs.Prelude.{◌≡◌, ◌+◌, ◌*◌, ◌≤◌, length};
ghost use Rattle.le.specs.Le.{le_at, paste};
ghost use Rattle.api_state.specs.Bytes.{words, head_numbers, state_bytes, config_in, head_at, head_bytes, head_in, bytes_of_cache, cache_in, resident_bytes, resident_in};
ghost use Rattle.api_state.specs.Fits.{Fit, StateFits};

use config::Config;
use format::Head;

// The head and the two states have a pair of functions each: one call of `put_state` and of `head_at`, with the state's own numbers. A trait
// with three impls would say each of them again, and the lengths too.

// ---- Writing. What is written is read back as the state, of every state that a program can hold.

fn put_words(out: &mut [u8], at: usize, v: &[u64])
    requires { at + 8 * length v.now ≤ length out.old }
    ensures { (out.new ≡ paste out.old at (words v.now)) × Fit v.now }
{
    for (i, x) in v.iter().enumerate() {
        le::put_u64(out, at + 8 * i, *x);
    }
}

fn put_model(out: &mut [u8], at: usize, s: [u8; 512])
    requires { at + 512 ≤ length out.old }
    ensures { (out.new ≡ paste out.old at s) × (length s ≡ 512) }
{
    cache_format::put_bytes(out, at, &s);
}

fn head_numbers(h: Head) -> [u64; 11]
    ensures { result ≡ head_numbers h }
{
    let c = h.config;
    let metric = c.metric;
    [
        h.length as u64,
        h.generation,
        h.sequence,
        c.dimensions as u64,
        c.m as u64,
        c.ef_construction as u64,
        c.seed,
        metric.byte() as u64,
        h.model_length as u64,
        h.segments as u64,
        h.rows as u64,
    ]
}

// The head, with the state's own numbers before the model.
fn put_state(out: &mut [u8], h: Head, own: &[u64])
    requires { length out.old ≡ 600 + 8 * length own.now }
    ensures { (out.new ≡ state_bytes h own.now) × StateFits h own.now }
{
    let numbers = head_numbers(h);
    let model = h.model;
    let at = 88 + 8 * own.len();
    put_words(out, 0, &numbers);
    put_words(out, 88, own);
    put_model(out, at, model);
}

pub fn put_head(h: Head, out: &mut [u8; 600])
    ensures { (out.new ≡ head_bytes h) × (head_in (head_bytes h) ≡ h) }
{
    put_state(out, h, &[]);
}

pub fn put_cache(s: quantized_cache::CacheState, out: &mut [u8; 608])
    ensures { (out.new ≡ bytes_of_cache s) × (cache_in (bytes_of_cache s) ≡ s) }
{
    put_state(out, s.head, &[s.cache as u64]);
}

pub fn put_resident(s: resident::ResidentState, out: &mut [u8; 624])
    ensures { (out.new ≡ resident_bytes s) × (resident_in (resident_bytes s) ≡ s) }
{
    put_state(
        out,
        s.head,
        &[s.codes as u64, s.scales as u64, s.norms as u64],
    );
}

// ---- Reading.

fn read_config(b: &[u8]) -> Config
    requires { (88 ≤ length b.now) × (le_at 8 b.now 56 ≤ 2) }
    ensures { result ≡ config_in b.now }
{
    Config {
        dimensions: le::u64_at(b, 24) as usize,
        m: le::u64_at(b, 32) as usize,
        ef_construction: le::u64_at(b, 40) as usize,
        seed: le::u64_at(b, 48),
        metric: format::metric_of(le::u64_at(b, 56) as u8),
    }
}

fn head_at(b: &[u8], at: usize) -> Head
    requires { (88 ≤ length b.now) × (at + 512 ≤ length b.now) }
    ensures { result ≡ head_at b.now at }
{
    let unknown = 2 < le::u64_at(b, 56);
    if unknown {
        return format::zero_head();
    }
    Head {
        length: le::u64_at(b, 0) as usize,
        generation: le::u64_at(b, 8),
        sequence: le::u64_at(b, 16),
        config: read_config(b),
        model_length: le::u64_at(b, 64) as usize,
        model: format::read_model(b, at, 512),
        segments: le::u64_at(b, 72) as usize,
        rows: le::u64_at(b, 80) as usize,
    }
}

pub fn read_head(b: &[u8; 600]) -> Head
    ensures { result ≡ head_in b.now }
{
    head_at(b, 88)
}

pub fn read_cache(b: &[u8; 608]) -> quantized_cache::CacheState
    ensures { result ≡ cache_in b.now }
{
    quantized_cache::CacheState {
        head: head_at(b, 96),
        cache: le::u64_at(b, 88) as usize,
    }
}

pub fn read_resident(b: &[u8; 624]) -> resident::ResidentState
    ensures { result ≡ resident_in b.now }
{
    resident::ResidentState {
        head: head_at(b, 112),
        codes: le::u64_at(b, 88) as usize,
        scales: le::u64_at(b, 96) as usize,
        norms: le::u64_at(b, 104) as usize,
    }
}
