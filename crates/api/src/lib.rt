// The entries for callers from C: each is another crate's, under that one's equation. It returns the refusal's number; the place and all else that is
// answered go into the room that the caller lends, and a state crosses as bytes (crate `api_state`).
#![tactic(auto)]

ghost use Rattle.std.specs.Prelude.{◌≡◌, [], length};
ghost use Rattle.config.specs.Told.{told, numbered};
ghost use Rattle.manifest.specs.Check.{checked, scratch_left};
ghost use Rattle.segment.specs.Check.{checked_library};
ghost use Rattle.quantization.specs.Encoder.{base_levels, midpoints};
ghost use Rattle.quantized_cache.specs.Size.{sized};
ghost use Rattle.quantized_cache.specs.Open.{opened};
ghost use Rattle.prepare.specs.Prepare.{cache_after, prepared};
ghost use Rattle.resident.specs.Build.{built, codes_after, scales_after, norms_after};
ghost use Rattle.records.specs.Records.{hand_out_refusal, handed_out};
ghost use Rattle.search_spec.specs.Lent.{answers_of, work_of, call_of, every, only, wanted_of};
ghost use Rattle.search_spec.specs.Outcome.{searched as outcome, agreed};
ghost use Rattle.search_spec.specs.Kept.{cached as cached_outcome, resident as resident_outcome, agreement_cached, agreement_resident};
ghost use Rattle.api_state.specs.Bytes.{head_bytes, head_in, bytes_of_cache, cache_in, resident_bytes, resident_in};
ghost use Rattle.api_answers.specs.Numbers.{info_numbers, report_numbers, distance_four_of};

use cache_format::{Location, Options};
use config::{Number, Refused};
use kept::{Cached, Kept, Resident};
use prepare::Info;
use quantized_cache::CacheState;
use records::Record;
use resident::ResidentState;
use search_spec::{Answers, Call, Report, Work};

// What is refused: its place goes into the room that the caller lends, its number is returned. Both are 0 where nothing is.
fn tell<T>(answer: &Result<T, Refused>, place: &mut u64) -> u32
    ensures { (result ≡ (told answer.now).number) × (place.new ≡ (told answer.now).place) }
{
    match answer {
        Ok(_) => {
            *place = 0;
            0
        }
        Err(refused) => {
            *place = refused.place;
            refused.number.number()
        }
    }
}

// The number of what is refused at 0, or 0.
fn number<T>(answer: &Result<T, Number>) -> u32
    ensures { result ≡ numbered answer.now }
{
    match answer {
        Ok(_) => 0,
        Err(number) => number.number(),
    }
}

// ---- The library check.

#[unsafe(no_mangle)]
pub extern "C" fn pv_manifest_check(
    manifest: &[u8],
    expected_crc: u32,
    scratch: &mut [u64],
    head: &mut [u8; 600],
    place: &mut u64,
) -> u32
    ensures fact { let answer = checked manifest.now expected_crc (length scratch.old) in
        (result ≡ answer.refusal.number)
        × (place.new ≡ answer.refusal.place)
        × (head.new ≡ head_bytes answer.head)
        × (head_in head.new ≡ answer.head) }
    ensures scratch_after { scratch.new ≡ scratch_left manifest.now expected_crc scratch.old }
{
    let answer = manifest::check(manifest, expected_crc, scratch);
    let number = tell(&answer, place);
    api_state::put_head(answer.unwrap_or(format::zero_head()), head);
    number
}

#[unsafe(no_mangle)]
pub extern "C" fn pv_library_check(
    manifest: &[u8],
    expected_crc: u32,
    scratch: &mut [u64],
    segments: &[u8],
    head: &mut [u8; 600],
    place: &mut u64,
) -> u32
    ensures fact { let answer = checked_library manifest.now expected_crc (length scratch.old) segments.now in
        (result ≡ answer.refusal.number)
        × (place.new ≡ answer.refusal.place)
        × (head.new ≡ head_bytes answer.head)
        × (head_in head.new ≡ answer.head) }
    ensures scratch_after { scratch.new ≡ scratch_left manifest.now expected_crc scratch.old }
{
    let answer = segment::check(manifest, expected_crc, scratch, segments);
    let number = tell(&answer, place);
    api_state::put_head(answer.unwrap_or(format::zero_head()), head);
    number
}

// ---- The cache and the resident rows.

#[unsafe(no_mangle)]
pub extern "C" fn pv_cache_size(
    manifest: &[u8],
    expected_crc: u32,
    scratch: &mut [u64],
    platform: &[u8],
    root: &[u8],
    max_cache_bytes: usize,
    buffer_bytes: usize,
    size: &mut u64,
    place: &mut u64,
) -> u32
    ensures fact { let answer = sized manifest.now expected_crc (length scratch.old) platform.now root.now (record { max_cache_bytes = max_cache_bytes; buffer_bytes = buffer_bytes }) in
        (result ≡ answer.refusal.number)
        × (place.new ≡ answer.refusal.place)
        × (size.new ≡ answer.size) }
    ensures scratch_after { scratch.new ≡ scratch_left manifest.now expected_crc scratch.old }
{
    let options = Options {
        max_cache_bytes: max_cache_bytes,
        buffer_bytes: buffer_bytes,
    };
    let location = Location { platform, root };
    let answer = quantized_cache::size(manifest, expected_crc, scratch, location, options);
    let number = tell(&answer, place);
    let bytes = answer.unwrap_or(0);
    *size = bytes as u64;
    number
}

#[unsafe(no_mangle)]
pub extern "C" fn pv_cache_prepare(
    manifest: &[u8],
    expected_crc: u32,
    scratch: &mut [u64],
    segments: &[u8],
    platform: &[u8],
    root: &[u8],
    max_cache_bytes: usize,
    buffer_bytes: usize,
    cache: &mut [u8],
    info: &mut [u64; 5],
    place: &mut u64,
) -> u32
    ensures fact { let answer = prepared manifest.now expected_crc (length scratch.old) segments.now platform.now root.now (record { max_cache_bytes = max_cache_bytes; buffer_bytes = buffer_bytes }) (length cache.old) in
        (result ≡ answer.refusal.number)
        × (place.new ≡ answer.refusal.place)
        × (info.new ≡ info_numbers answer.info)
        × (cache.new ≡ cache_after manifest.now segments.now platform.now root.now answer.refusal cache.old) }
    ensures scratch_after { scratch.new ≡ scratch_left manifest.now expected_crc scratch.old }
{
    let options = Options {
        max_cache_bytes: max_cache_bytes,
        buffer_bytes: buffer_bytes,
    };
    let location = Location { platform, root };
    let answer = prepare::prepare(
        manifest,
        expected_crc,
        scratch,
        segments,
        location,
        options,
        cache,
    );
    let number = tell(&answer, place);
    let nothing = Info {
        generation: 0,
        sequence: 0,
        cache_bytes: 0,
        code_bytes: 0,
        parameter_bytes: 0,
    };
    *info = api_answers::info_numbers(answer.unwrap_or(nothing));
    number
}

#[unsafe(no_mangle)]
pub extern "C" fn pv_cache_open(
    manifest: &[u8],
    expected_crc: u32,
    scratch: &mut [u64],
    cache: &[u8],
    platform: &[u8],
    root: &[u8],
    max_cache_bytes: usize,
    buffer_bytes: usize,
    state: &mut [u8; 608],
    place: &mut u64,
) -> u32
    ensures fact { let answer = opened manifest.now expected_crc (length scratch.old) cache.now platform.now root.now (record { max_cache_bytes = max_cache_bytes; buffer_bytes = buffer_bytes }) in
        (result ≡ answer.refusal.number)
        × (place.new ≡ answer.refusal.place)
        × (state.new ≡ bytes_of_cache answer.state)
        × (cache_in state.new ≡ answer.state) }
    ensures scratch_after { scratch.new ≡ scratch_left manifest.now expected_crc scratch.old }
{
    let options = Options {
        max_cache_bytes: max_cache_bytes,
        buffer_bytes: buffer_bytes,
    };
    let location = Location { platform, root };
    let answer = quantized_cache::open(manifest, expected_crc, scratch, cache, location, options);
    let number = tell(&answer, place);
    let nothing = CacheState {
        head: format::zero_head(),
        cache: 0,
    };
    api_state::put_cache(answer.unwrap_or(nothing), state);
    number
}

#[unsafe(no_mangle)]
pub extern "C" fn pv_resident_build(
    manifest: &[u8],
    expected_crc: u32,
    scratch: &mut [u64],
    segments: &[u8],
    codes: &mut [i8],
    scales: &mut [f64],
    norms: &mut [i64],
    state: &mut [u8; 624],
    place: &mut u64,
) -> u32
    ensures fact { let answer = built manifest.now expected_crc (length scratch.old) segments.now (length codes.old) (length scales.old) (length norms.old) in
        (result ≡ answer.refusal.number)
        × (place.new ≡ answer.refusal.place)
        × (state.new ≡ resident_bytes answer.state)
        × (resident_in state.new ≡ answer.state)
        × (codes.new ≡ codes_after base_levels midpoints manifest.now segments.now answer.refusal codes.old)
        × (scales.new ≡ scales_after base_levels midpoints manifest.now segments.now answer.refusal scales.old)
        × (norms.new ≡ norms_after base_levels midpoints manifest.now segments.now answer.refusal norms.old) }
    ensures scratch_after { scratch.new ≡ scratch_left manifest.now expected_crc scratch.old }
{
    let answer = resident::build(
        manifest,
        expected_crc,
        scratch,
        segments,
        codes,
        scales,
        norms,
    );
    let number = tell(&answer, place);
    let nothing = ResidentState {
        head: format::zero_head(),
        codes: 0,
        scales: 0,
        norms: 0,
    };
    api_state::put_resident(answer.unwrap_or(nothing), state);
    number
}

// ---- Searches and their agreement counts, over a cache and over resident rows, of all ids or of those handed in.

// A search; its report goes into the room that the caller lends, zeros where it is refused.
fn searched<K: Kept>(
    kept: K,
    manifest: &[u8],
    segments: &[u8],
    wanted: Option<&[u64]>,
    query: &[f32],
    k: usize,
    limit: usize,
    keys: &mut [u64],
    candidates: &mut [u64],
    id_work: &mut [u64],
    ids: &mut [u64],
    distances: &mut [f64],
    rows: &mut [u64],
    starts: &mut [u64],
    lengths: &mut [u32],
    report: &mut [u64; 7],
    place: &mut u64,
) -> u32
    ensures { let a = answers_of ids.old distances.old rows.old starts.old lengths.old in
        let w = work_of keys.old candidates.old id_work.old in
        let c = call_of manifest.now segments.now (wanted_of wanted.entry) query.now k limit a w in
        let o = outcome (K.head_of kept) (K.seen kept manifest.now) c in
        (result ≡ o.refusal.number)
        × (place.new ≡ o.refusal.place)
        × (report.new ≡ report_numbers o.report)
        × (answers_of ids.new distances.new rows.new starts.new lengths.new ≡ o.answers)
        × (work_of keys.new candidates.new id_work.new ≡ o.work) }
{
    let call = Call {
        manifest,
        segments,
        wanted,
        query,
        k,
        limit,
    };
    let mut work = Work {
        keys,
        candidates,
        ids: id_work,
    };
    let mut answers = Answers {
        ids,
        distances,
        rows,
        starts,
        lengths,
    };
    let answer = search::search(kept, &call, &mut work, &mut answers);
    let number = tell(&answer, place);
    let nothing = Report {
        generation: 0,
        sequence: 0,
        eligible: 0,
        measured: 0,
        complete: false,
        approximate: false,
        count: 0,
    };
    *report = api_answers::report_numbers(answer.unwrap_or(nothing));
    number
}

// An agreement count, 0 where it is refused.
fn counted<K: Kept>(
    kept: K,
    manifest: &[u8],
    segments: &[u8],
    wanted: Option<&[u64]>,
    query: &[f32],
    k: usize,
    limit: usize,
    keys: &mut [u64],
    candidates: &mut [u64],
    id_work: &mut [u64],
    ids: &mut [u64],
    distances: &mut [f64],
    rows: &mut [u64],
    starts: &mut [u64],
    lengths: &mut [u32],
    agreement: &mut u64,
    place: &mut u64,
) -> u32
    ensures { let a = answers_of ids.old distances.old rows.old starts.old lengths.old in
        let w = work_of keys.old candidates.old id_work.old in
        let c = call_of manifest.now segments.now (wanted_of wanted.entry) query.now k limit a w in
        let o = agreed (K.head_of kept) (K.seen kept manifest.now) c in
        (result ≡ o.refusal.number)
        × (place.new ≡ o.refusal.place)
        × (agreement.new ≡ o.agreement)
        × (answers_of ids.new distances.new rows.new starts.new lengths.new ≡ o.answers)
        × (work_of keys.new candidates.new id_work.new ≡ o.work) }
{
    let call = Call {
        manifest,
        segments,
        wanted,
        query,
        k,
        limit,
    };
    let mut work = Work {
        keys,
        candidates,
        ids: id_work,
    };
    let mut answers = Answers {
        ids,
        distances,
        rows,
        starts,
        lengths,
    };
    let answer = search::agreement(kept, &call, &mut work, &mut answers);
    let number = tell(&answer, place);
    let count = answer.unwrap_or(0);
    *agreement = count as u64;
    number
}

#[unsafe(no_mangle)]
pub extern "C" fn pv_search_cached(
    state: &[u8; 608],
    manifest: &[u8],
    segments: &[u8],
    cache: &[u8],
    query: &[f32],
    k: usize,
    limit: usize,
    keys: &mut [u64],
    candidates: &mut [u64],
    ids: &mut [u64],
    distances: &mut [f64],
    rows: &mut [u64],
    starts: &mut [u64],
    lengths: &mut [u32],
    report: &mut [u64; 7],
    place: &mut u64,
) -> u32
    ensures { let a = answers_of ids.old distances.old rows.old starts.old lengths.old in
        let w = work_of keys.old candidates.old [] in
        let c = call_of manifest.now segments.now every query.now k limit a w in
        let o = cached_outcome (cache_in state.now) cache.now c in
        (result ≡ o.refusal.number)
        × (place.new ≡ o.refusal.place)
        × (report.new ≡ report_numbers o.report)
        × (answers_of ids.new distances.new rows.new starts.new lengths.new ≡ o.answers)
        × (work_of keys.new candidates.new [] ≡ o.work) }
{
    let kept = Cached {
        state: api_state::read_cache(state),
        cache,
    };
    let none = &mut [];
    searched(
        kept, manifest, segments, None, query, k, limit, keys, candidates, none, ids, distances,
        rows, starts, lengths, report, place,
    )
}

#[unsafe(no_mangle)]
pub extern "C" fn pv_search_cached_ids(
    state: &[u8; 608],
    manifest: &[u8],
    segments: &[u8],
    cache: &[u8],
    wanted: &[u64],
    id_work: &mut [u64],
    query: &[f32],
    k: usize,
    limit: usize,
    keys: &mut [u64],
    candidates: &mut [u64],
    ids: &mut [u64],
    distances: &mut [f64],
    rows: &mut [u64],
    starts: &mut [u64],
    lengths: &mut [u32],
    report: &mut [u64; 7],
    place: &mut u64,
) -> u32
    ensures { let a = answers_of ids.old distances.old rows.old starts.old lengths.old in
        let w = work_of keys.old candidates.old id_work.old in
        let c = call_of manifest.now segments.now (only wanted.now) query.now k limit a w in
        let o = cached_outcome (cache_in state.now) cache.now c in
        (result ≡ o.refusal.number)
        × (place.new ≡ o.refusal.place)
        × (report.new ≡ report_numbers o.report)
        × (answers_of ids.new distances.new rows.new starts.new lengths.new ≡ o.answers)
        × (work_of keys.new candidates.new id_work.new ≡ o.work) }
{
    let kept = Cached {
        state: api_state::read_cache(state),
        cache,
    };
    let wanted = Some(wanted);
    searched(
        kept, manifest, segments, wanted, query, k, limit, keys, candidates, id_work, ids,
        distances, rows, starts, lengths, report, place,
    )
}

#[unsafe(no_mangle)]
pub extern "C" fn pv_search_resident(
    state: &[u8; 624],
    manifest: &[u8],
    segments: &[u8],
    codes: &[i8],
    scales: &[f64],
    norms: &[i64],
    query: &[f32],
    k: usize,
    limit: usize,
    keys: &mut [u64],
    candidates: &mut [u64],
    ids: &mut [u64],
    distances: &mut [f64],
    rows: &mut [u64],
    starts: &mut [u64],
    lengths: &mut [u32],
    report: &mut [u64; 7],
    place: &mut u64,
) -> u32
    ensures { let a = answers_of ids.old distances.old rows.old starts.old lengths.old in
        let w = work_of keys.old candidates.old [] in
        let c = call_of manifest.now segments.now every query.now k limit a w in
        let o = resident_outcome (resident_in state.now) codes.now scales.now norms.now c in
        (result ≡ o.refusal.number)
        × (place.new ≡ o.refusal.place)
        × (report.new ≡ report_numbers o.report)
        × (answers_of ids.new distances.new rows.new starts.new lengths.new ≡ o.answers)
        × (work_of keys.new candidates.new [] ≡ o.work) }
{
    let kept = Resident {
        state: api_state::read_resident(state),
        codes,
        scales,
        norms,
    };
    let none = &mut [];
    searched(
        kept, manifest, segments, None, query, k, limit, keys, candidates, none, ids, distances,
        rows, starts, lengths, report, place,
    )
}

#[unsafe(no_mangle)]
pub extern "C" fn pv_search_resident_ids(
    state: &[u8; 624],
    manifest: &[u8],
    segments: &[u8],
    codes: &[i8],
    scales: &[f64],
    norms: &[i64],
    wanted: &[u64],
    id_work: &mut [u64],
    query: &[f32],
    k: usize,
    limit: usize,
    keys: &mut [u64],
    candidates: &mut [u64],
    ids: &mut [u64],
    distances: &mut [f64],
    rows: &mut [u64],
    starts: &mut [u64],
    lengths: &mut [u32],
    report: &mut [u64; 7],
    place: &mut u64,
) -> u32
    ensures { let a = answers_of ids.old distances.old rows.old starts.old lengths.old in
        let w = work_of keys.old candidates.old id_work.old in
        let c = call_of manifest.now segments.now (only wanted.now) query.now k limit a w in
        let o = resident_outcome (resident_in state.now) codes.now scales.now norms.now c in
        (result ≡ o.refusal.number)
        × (place.new ≡ o.refusal.place)
        × (report.new ≡ report_numbers o.report)
        × (answers_of ids.new distances.new rows.new starts.new lengths.new ≡ o.answers)
        × (work_of keys.new candidates.new id_work.new ≡ o.work) }
{
    let kept = Resident {
        state: api_state::read_resident(state),
        codes,
        scales,
        norms,
    };
    let wanted = Some(wanted);
    searched(
        kept, manifest, segments, wanted, query, k, limit, keys, candidates, id_work, ids,
        distances, rows, starts, lengths, report, place,
    )
}

#[unsafe(no_mangle)]
pub extern "C" fn pv_agreement_cached(
    state: &[u8; 608],
    manifest: &[u8],
    segments: &[u8],
    cache: &[u8],
    query: &[f32],
    k: usize,
    limit: usize,
    keys: &mut [u64],
    candidates: &mut [u64],
    ids: &mut [u64],
    distances: &mut [f64],
    rows: &mut [u64],
    starts: &mut [u64],
    lengths: &mut [u32],
    agreement: &mut u64,
    place: &mut u64,
) -> u32
    ensures { let a = answers_of ids.old distances.old rows.old starts.old lengths.old in
        let w = work_of keys.old candidates.old [] in
        let c = call_of manifest.now segments.now every query.now k limit a w in
        let o = agreement_cached (cache_in state.now) cache.now c in
        (result ≡ o.refusal.number)
        × (place.new ≡ o.refusal.place)
        × (agreement.new ≡ o.agreement)
        × (answers_of ids.new distances.new rows.new starts.new lengths.new ≡ o.answers)
        × (work_of keys.new candidates.new [] ≡ o.work) }
{
    let kept = Cached {
        state: api_state::read_cache(state),
        cache,
    };
    let none = &mut [];
    counted(
        kept, manifest, segments, None, query, k, limit, keys, candidates, none, ids, distances,
        rows, starts, lengths, agreement, place,
    )
}

#[unsafe(no_mangle)]
pub extern "C" fn pv_agreement_cached_ids(
    state: &[u8; 608],
    manifest: &[u8],
    segments: &[u8],
    cache: &[u8],
    wanted: &[u64],
    id_work: &mut [u64],
    query: &[f32],
    k: usize,
    limit: usize,
    keys: &mut [u64],
    candidates: &mut [u64],
    ids: &mut [u64],
    distances: &mut [f64],
    rows: &mut [u64],
    starts: &mut [u64],
    lengths: &mut [u32],
    agreement: &mut u64,
    place: &mut u64,
) -> u32
    ensures { let a = answers_of ids.old distances.old rows.old starts.old lengths.old in
        let w = work_of keys.old candidates.old id_work.old in
        let c = call_of manifest.now segments.now (only wanted.now) query.now k limit a w in
        let o = agreement_cached (cache_in state.now) cache.now c in
        (result ≡ o.refusal.number)
        × (place.new ≡ o.refusal.place)
        × (agreement.new ≡ o.agreement)
        × (answers_of ids.new distances.new rows.new starts.new lengths.new ≡ o.answers)
        × (work_of keys.new candidates.new id_work.new ≡ o.work) }
{
    let kept = Cached {
        state: api_state::read_cache(state),
        cache,
    };
    let wanted = Some(wanted);
    counted(
        kept, manifest, segments, wanted, query, k, limit, keys, candidates, id_work, ids,
        distances, rows, starts, lengths, agreement, place,
    )
}

#[unsafe(no_mangle)]
pub extern "C" fn pv_agreement_resident(
    state: &[u8; 624],
    manifest: &[u8],
    segments: &[u8],
    codes: &[i8],
    scales: &[f64],
    norms: &[i64],
    query: &[f32],
    k: usize,
    limit: usize,
    keys: &mut [u64],
    candidates: &mut [u64],
    ids: &mut [u64],
    distances: &mut [f64],
    rows: &mut [u64],
    starts: &mut [u64],
    lengths: &mut [u32],
    agreement: &mut u64,
    place: &mut u64,
) -> u32
    ensures { let a = answers_of ids.old distances.old rows.old starts.old lengths.old in
        let w = work_of keys.old candidates.old [] in
        let c = call_of manifest.now segments.now every query.now k limit a w in
        let o = agreement_resident (resident_in state.now) codes.now scales.now norms.now c in
        (result ≡ o.refusal.number)
        × (place.new ≡ o.refusal.place)
        × (agreement.new ≡ o.agreement)
        × (answers_of ids.new distances.new rows.new starts.new lengths.new ≡ o.answers)
        × (work_of keys.new candidates.new [] ≡ o.work) }
{
    let kept = Resident {
        state: api_state::read_resident(state),
        codes,
        scales,
        norms,
    };
    let none = &mut [];
    counted(
        kept, manifest, segments, None, query, k, limit, keys, candidates, none, ids, distances,
        rows, starts, lengths, agreement, place,
    )
}

#[unsafe(no_mangle)]
pub extern "C" fn pv_agreement_resident_ids(
    state: &[u8; 624],
    manifest: &[u8],
    segments: &[u8],
    codes: &[i8],
    scales: &[f64],
    norms: &[i64],
    wanted: &[u64],
    id_work: &mut [u64],
    query: &[f32],
    k: usize,
    limit: usize,
    keys: &mut [u64],
    candidates: &mut [u64],
    ids: &mut [u64],
    distances: &mut [f64],
    rows: &mut [u64],
    starts: &mut [u64],
    lengths: &mut [u32],
    agreement: &mut u64,
    place: &mut u64,
) -> u32
    ensures { let a = answers_of ids.old distances.old rows.old starts.old lengths.old in
        let w = work_of keys.old candidates.old id_work.old in
        let c = call_of manifest.now segments.now (only wanted.now) query.now k limit a w in
        let o = agreement_resident (resident_in state.now) codes.now scales.now norms.now c in
        (result ≡ o.refusal.number)
        × (place.new ≡ o.refusal.place)
        × (agreement.new ≡ o.agreement)
        × (answers_of ids.new distances.new rows.new starts.new lengths.new ≡ o.answers)
        × (work_of keys.new candidates.new id_work.new ≡ o.work) }
{
    let kept = Resident {
        state: api_state::read_resident(state),
        codes,
        scales,
        norms,
    };
    let wanted = Some(wanted);
    counted(
        kept, manifest, segments, wanted, query, k, limit, keys, candidates, id_work, ids,
        distances, rows, starts, lengths, agreement, place,
    )
}

// ---- Four distances.

#[unsafe(no_mangle)]
pub extern "C" fn pv_distance_four(
    metric: u32,
    query: &[f32],
    a: &[f32],
    b: &[f32],
    c: &[f32],
    d: &[f32],
    distances: &mut [f64; 4],
) -> u32
    ensures { let answer = distance_four_of metric query.now a.now b.now c.now d.now in
        (result ≡ answer.refusal.number)
        × (distances.new ≡ answer.distances) }
{
    let answer = api_answers::distance_four(metric, query, a, b, c, d);
    let number = number(&answer);
    *distances = answer.unwrap_or([0.0, 0.0, 0.0, 0.0]);
    number
}

// ---- Kept rows as a slice of records. The one refusal's place is 0.

#[unsafe(no_mangle)]
pub extern "C" fn pv_records(
    ids: &[u64],
    distances: &[f64],
    rows: &[u64],
    count: usize,
    out: &mut [Record],
) -> u32
    ensures { (result ≡ (hand_out_refusal ids.now distances.now rows.now count (length out.old)).number)
        × (out.new ≡ handed_out ids.now distances.now rows.now count out.old) }
{
    number(&records::records(ids, distances, rows, count, out))
}
