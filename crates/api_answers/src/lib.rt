// What crosses to C as numbers: info and report, and four distances of a metric that is given by its number.
#![tactic(auto)]

ghost use Rattle.std.specs.Prelude.{◌≡◌};
ghost use Rattle.math.specs.Four.{four_outcome};
ghost use Rattle.api_answers.specs.Numbers.{info_numbers, report_numbers, distance_four_of};

use config::Number;
use prepare::Info;
use search_spec::Report;

pub fn info_numbers(i: Info) -> [u64; 5]
    ensures { result ≡ info_numbers i }
{
    [
        i.generation,
        i.sequence,
        i.cache_bytes as u64,
        i.code_bytes as u64,
        i.parameter_bytes as u64,
    ]
}

pub fn report_numbers(report: Report) -> [u64; 7]
    ensures { result ≡ report_numbers report }
{
    [
        report.generation,
        report.sequence,
        report.eligible as u64,
        report.measured as u64,
        report.complete as u64,
        report.approximate as u64,
        report.count as u64,
    ]
}

// A metric over 2 is refused as a query is.
#[tactic(auto, unfolding(crate::specs::Numbers::distance_four_of))]
pub fn distance_four(
    metric: u32,
    query: &[f32],
    a: &[f32],
    b: &[f32],
    c: &[f32],
    d: &[f32],
) -> Result<[f64; 4], Number>
    ensures { four_outcome result ≡ distance_four_of metric query.now a.now b.now c.now d.now }
{
    if 2 < metric {
        return Err(Number::Query);
    }
    math::distance_four(format::metric_of(metric as u8), query, a, b, c, d)
}
