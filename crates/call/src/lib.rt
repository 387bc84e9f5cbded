// A call: the Rust's `search_selected` (generation/quantization.rs, generation/quantized_cache.rs) and its agreement count over lent slices,
// of cached or resident rows, all ids or those handed in. Its tests stand in `front`, what follows them in `ranked`.
#![tactic(auto)]

ghost use Rattle.std.specs.Prelude.{◌≡◌};
ghost use Rattle.search_spec.specs.Lent.{Singles, answers_in, work_in, call_in, SameAnswers, SameWork};
ghost use Rattle.search_spec.specs.Outcome.{late_refusal};
ghost use Rattle.search_spec.specs.Tests.{front_number};
ghost use Rattle.ranked.specs.Ends.{Ends, looked_at};
ghost use Rattle.answers.specs.Report.{answered, answered_by};
ghost use Rattle.call.specs.Whole.{outcome_of, worked_call};

use answers::Answered;
use config::{Number, Refused};
use format::Manifest;
use kept::Kept;
use search_spec::{Answers, Call, Room, Work};

// Past 20.
fn past<K: Kept>(
    kept: K,
    agree: bool,
    m: Manifest<'_>,
    call: &Call<'_>,
    keys: &mut [u64],
    candidates: &mut [u64],
    ids: &mut [u64],
    answers: &mut Answers<'_>,
) -> Result<Answered, Refused>
    requires { let c = worked_call call.now answers.old keys.old candidates.old ids.old in
        (m.bytes.now ≡ call.now.manifest.now) × (front_number (K.head_of kept) c ≡ 0) }
    ensures fact { let c = worked_call call.now answers.old keys.old candidates.old ids.old in
        let v = K.seen kept call.now.manifest.now in
        Ends agree v c (late_refusal v c (looked_at agree v c)) (answered result) (answers_in answers.new) }
    ensures same_references { SameAnswers answers.old answers.new }
{
    let table = front::check_entries(m)?;
    let n = eligible::select(call.wanted, ids);
    let wanted = call.wanted.and(Some(&ids[..n]));
    if call.k == 0 {
        let total = eligible::count(table, wanted);
        return Ok(Answered {
            report: answers::report_of(m, total, 0, false, 0),
            agreement: 0,
        });
    }
    match kept.rows(m) {
        Some(rows) => ranked::ranked(rows, agree, table, call, wanted, keys, candidates, answers),
        None => Err(Refused {
            number: Number::Changed,
            place: 0,
        }),
    }
}

// The values of a slice of f32 are f32, which is not said of a slice in a struct.
fn singles(query: &[f32])
    ensures { Singles query.now }
{}

// All of a call, a search or an agreement count, of all ids or of those handed in, which are sorted in a slice of their own.
pub fn over<K: Kept>(
    kept: K,
    agree: bool,
    call: &Call<'_>,
    work: &mut Work<'_>,
    answers: &mut Answers<'_>,
) -> Result<Answered, Refused>
    ensures fact { let c = call_in call.now answers.old work.old in
        let o = outcome_of agree (K.head_of kept) (K.seen kept call.now.manifest.now) c in
        (answered result ≡ answered_by agree o) × (answers_in answers.new ≡ o.answers) × (work_in work.new ≡ o.work) }
    ensures same_references { SameAnswers answers.old answers.new × SameWork work.old work.new }
{
    singles(call.query);
    let room = Room {
        ids: answers.ids.len(),
        distances: answers.distances.len(),
        rows: answers.rows.len(),
        starts: answers.starts.len(),
        lengths: answers.lengths.len(),
        keys: work.keys.len(),
        candidates: work.candidates.len(),
        wanted: work.ids.len(),
    };
    let count = front::handed_in(call.wanted);
    let m = front::front(
        kept.head(),
        call.manifest,
        count,
        call.query,
        call.k,
        call.limit,
        room,
    )?;
    let r = past(
        kept,
        agree,
        m,
        call,
        work.keys,
        work.candidates,
        work.ids,
        answers,
    );
    answers::clear(work);
    r
}
