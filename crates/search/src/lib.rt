// The searches and agreement counts of a library, over a cache or resident rows, of all ids or of those handed in: quantized_cache.rs's
// `CachedQuantizedSnapshot` and quantization.rs's `QuantizedSnapshot`. Each is one call of crate `call`.
#![tactic(auto)]

ghost use Rattle.std.specs.Prelude.{◌≡◌};
ghost use Rattle.search_spec.specs.Lent.{answers_in, work_in, call_in, SameAnswers, SameWork};
ghost use Rattle.search_spec.specs.Outcome.{searched, agreed, returned, returned_count, search_outcome, count_outcome};

use config::Refused;
use kept::Kept;
use search_spec::{Answers, Call, Report, Work};

// `search` and `search_ids` of both.
pub fn search<K: Kept>(
    kept: K,
    call: &Call<'_>,
    work: &mut Work<'_>,
    answers: &mut Answers<'_>,
) -> Result<Report, Refused>
    ensures fact { let c = call_in call.now answers.old work.old in
        let o = searched (K.head_of kept) (K.seen kept c.manifest) c in
        (search_outcome result ≡ returned o) × (answers_in answers.new ≡ o.answers) × (work_in work.new ≡ o.work) }
    ensures same_references { SameAnswers answers.old answers.new × SameWork work.old work.new }
{
    let answered = call::over(kept, false, call, work, answers)?;
    Ok(answered.report)
}

// The agreement count of a search.
pub fn agreement<K: Kept>(
    kept: K,
    call: &Call<'_>,
    work: &mut Work<'_>,
    answers: &mut Answers<'_>,
) -> Result<usize, Refused>
    ensures fact { let c = call_in call.now answers.old work.old in
        let o = agreed (K.head_of kept) (K.seen kept c.manifest) c in
        (count_outcome result ≡ returned_count o) × (answers_in answers.new ≡ o.answers) × (work_in work.new ≡ o.work) }
    ensures same_references { SameAnswers answers.old answers.new × SameWork work.old work.new }
{
    let answered = call::over(kept, true, call, work, answers)?;
    Ok(answered.agreement)
}
