// A call past all tests of what is lent: the candidates, and of them the list, written into the answer slices, with its report.
#![tactic(auto)]

ghost use Rattle.std.specs.Prelude.{◌≡◌, true, [], ◌≤◌, ◌<◌, min};
ghost use Rattle.search_spec.specs.Lent.{Rows as Seen, base, answers_in, work_of, wanted_of, SameAnswers};
ghost use Rattle.search_spec.specs.Tests.{query_ok, room_of};
ghost use Rattle.eligible.specs.Walk.{Sorted};
ghost use Rattle.ranked.specs.Ends.{Fits, Ends, lent_call, rest_refusal};
ghost use Rattle.answers.specs.Report.{answered};

use answers::Answered;
use config::Refused;
use entries::Table;
use scan::Rows;
use search_spec::{Answers, Call};
use segment::Library;

// Past the length; `wanted` are the ids handed in, sorted.
pub fn ranked<R: Rows>(
    rows: R,
    agree: bool,
    table: Table<'_>,
    call: &Call<'_>,
    wanted: Option<&[u64]>,
    keys: &mut [u64],
    candidates: &mut [u64],
    answers: &mut Answers<'_>,
) -> Result<Answered, Refused>
    requires call { (table.manifest.bytes.now ≡ call.now.manifest.now) × (0 < call.now.k) × (call.now.k ≤ call.now.limit)
        × (query_ok call.now.manifest.now call.now.query.now ≡ true) × Sorted (wanted_of wanted) }
    requires rows { (R.count rows ≡ table.manifest.layout.rows) × (R.width rows ≡ table.manifest.layout.dimensions) }
    requires fits { let r = room_of (answers_in answers.old) (work_of keys.old candidates.old []) in
        Fits (min call.now.k table.manifest.layout.rows) (min call.now.limit table.manifest.layout.rows) r }
    ensures fact { let c = lent_call call.now wanted.entry answers.old (work_of keys.old candidates.old []) in
        (v : Seen) → v.encoding ≡ base → v.length_ok ≡ true → v.at ≡ R.at rows
        → Ends agree v c (rest_refusal agree v c) (answered result) (answers_in answers.new) }
    ensures same_references { SameAnswers answers.old answers.new }
{
    let m = table.manifest;
    let starts = segment::starts(m);
    let library = Library {
        manifest: m,
        metric: m.metric(),
        starts: &starts,
        segments: call.segments,
    };
    let n = call.limit.min(m.layout.rows);
    let found = kept::find(
        rows,
        agree,
        call.k,
        quantization::BASE_LEVELS,
        library,
        wanted,
        call.query,
        &mut keys[..n],
        &mut candidates[..n],
    )?;
    let count = call.k.min(found.measured);
    answers::write(&library, &keys[..count], &candidates[..count], answers);
    let approximate = call.limit < found.eligible;
    Ok(Answered {
        report: answers::report_of(m, found.eligible, found.measured, approximate, count),
        agreement: found.agreement,
    })
}
