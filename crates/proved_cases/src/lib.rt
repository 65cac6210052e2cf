//! A table of scripts and what a build of each comes to, proved by computing the definitions of the meaning.
#![tactic(auto)]

ghost use Rattle.std.specs.Prelude.{◌≡◌, All, length};
ghost use Rattle.proved_cases.specs.Comes.{comes_to, IsBuild};
ghost use Rattle.proved_cases.specs.Runs.{ComputesBuilds};
ghost use Rattle.proved_cases.specs.Table.{table};

/// How many cases the table has. Each comes to what the table expects, and is a build of the model over a past. What is
/// computed for it is such a build for any commands, any past and any policy.
pub fn cases_stand() -> u8
    ensures count { result ≡ length table }
    ensures expected { All (λ case. comes_to case ≡ case.expected) table }
    ensures builds { All IsBuild table }
    ensures computed { ComputesBuilds }
{
    10
}
