//! Small problems worked by hand: what the definitions of closure, tree and status give for them.
#![tactic(auto)]

ghost use Rattle.std.specs.Prelude.{◌≡◌, length};
ghost use Rattle.cases.specs.Cases.{cases, CasesHold};

/// The number of the worked cases, each of which comes out as it was worked.
pub fn worked_cases() -> usize
    ensures count { result ≡ length cases }
    ensures hold { CasesHold }
{
    15
}
