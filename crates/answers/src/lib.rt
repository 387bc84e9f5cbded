// What a search leaves: the listed rows in the answer slices, the working slices cleared, the report.
#![tactic(auto)]

ghost use Rattle.std.specs.Prelude.{◌≡◌, ◌≤◌, ◌<◌, length};
ghost use Rattle.le.specs.Le.{zeros};
ghost use Rattle.rank.specs.Rows.{RowsBelow};
ghost use Rattle.search_spec.specs.Lent.{answers_in, SameAnswers, SameWork};
ghost use Rattle.search_spec.specs.Outcome.{filled};
ghost use Rattle.answers.specs.Places.{place_by, places_by};
ghost use Rattle.answers.specs.Report.{report_by};

use format::Manifest;
use search_spec::{Answers, Place, Report, Work};
use segment::Library;

// ---- The answers.

// A row of the list, with the key of its distance.
fn place_of(library: &Library<'_>, key: u64, row: u64) -> Place
    requires { row < library.now.manifest.layout.rows }
    ensures { result ≡ place_by library.now.manifest.bytes.now key row }
{
    let n = row as usize;
    let e = entries::read_entry(library.manifest, n);
    Place {
        id: e.id,
        distance: float::value_of_key(key),
        row,
        start: library.records().metadata_start(n) as u64,
        length: e.metadata,
    }
}

// The listed rows, at the front of the answer slices.
pub fn write(library: &Library<'_>, keys: &[u64], listed: &[u64], answers: &mut Answers<'_>)
    requires listed { (length keys.now ≡ length listed.now) × RowsBelow library.now.manifest.layout.rows listed.now }
    requires room { (length listed.now ≤ length answers.old.ids.now) × (length listed.now ≤ length answers.old.distances.now)
        × (length listed.now ≤ length answers.old.rows.now) × (length listed.now ≤ length answers.old.starts.now)
        × (length listed.now ≤ length answers.old.lengths.now) }
    ensures fact { answers_in answers.new ≡ filled (places_by library.now.manifest.bytes.now keys.now listed.now) (answers_in answers.old) }
    ensures same_references { SameAnswers answers.old answers.new }
{
    for i in 0..listed.len() {
        let p = place_of(library, keys[i], listed[i]);
        answers.ids[i] = p.id;
        answers.distances[i] = p.distance;
        answers.rows[i] = p.row;
        answers.starts[i] = p.start;
        answers.lengths[i] = p.length;
    }
}

// The working slices, zero over their whole length.
pub fn clear(work: &mut Work<'_>)
    ensures fact { (work.new.keys.now ≡ zeros work.old.keys.now) × (work.new.candidates.now ≡ zeros work.old.candidates.now)
        × (work.new.ids.now ≡ zeros work.old.ids.now) }
    ensures same_references { SameWork work.old work.new }
{
    le::clear(work.keys);
    le::clear(work.candidates);
    le::clear(work.ids);
}

// ---- The report.

#[tactic(auto, unfolding(crate::specs::Report::report_by))]
pub fn report_of(
    m: Manifest<'_>,
    eligible: usize,
    measured: usize,
    approximate: bool,
    count: usize,
) -> Report
    ensures { result ≡ report_by m.entry.bytes.now eligible measured approximate count }
{
    Report {
        generation: m.generation(),
        sequence: m.sequence(),
        eligible,
        measured,
        complete: true,
        approximate,
        count,
    }
}

// The report of a call and, of an agreement call, its count.
#[derive(Clone, Copy)]
pub struct Answered {
    pub report: Report,
    pub agreement: usize,
}
