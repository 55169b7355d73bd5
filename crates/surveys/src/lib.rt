//! The survey of a file.
#![tactic(auto)]

ghost use Rattle.std.specs.Prelude.{MatchResult};
ghost use Rattle.records.specs.Checks.{Lawful};
ghost use Rattle.records.specs.Refusals.{Faulty};
ghost use Rattle.surveys.specs.Surveys.{LeavesOf, SurveyBy, Surveyed, TreeBy};

use answers::Survey;
use filed::Filed;
use problems::{Problem, root};
use propagation::Constraints;
use records::{Refusal, is_sum_file};
use sums::Sums;
use tables::Tables;

/// Surveys a sum file, which begins with byte 3, or a table file.
pub fn survey(bytes: &[u8]) -> Result<Survey, Refusal>
    ensures answer { Surveyed bytes.now result }
    ensures leaves { LeavesOf bytes.now }
{
    if is_sum_file(bytes) {
        survey_of::<Sums>(bytes)
    } else {
        survey_of::<Tables>(bytes)
    }
}

/// Surveys a file of the sort that holds this problem.
fn survey_of<'a, P: Filed<'a> + Drop>(bytes: &'a [u8]) -> Result<Survey, Refusal>
    ensures answer { MatchResult result (SurveyBy P.Filed.reading bytes.now) (Faulty P.Filed.reading.code bytes.now) }
    ensures leaves { Lawful P.Filed.reading.code bytes.now → TreeBy P.Filed.reading P.Problem.less bytes.now }
{
    let problem = P::open(bytes)?;
    let width = problem.width();
    let node = root(&problem);
    Ok(Survey {
        sort: P::sort(),
        variables: width,
        constraints: problem.count(),
        root: node,
        status: node.status(width),
        bound: problem.least(&node),
    })
}
