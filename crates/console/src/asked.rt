use crate::listed::Listed;
use console_lines::PolicyRequest;
use model::{Command, Record};
use policy::{HighestFirst, LastRun, LineSet, Policy, ScriptOrder};

/// The policy that steps and builds ask.
#[derive(Drop)]
pub enum Asked {
    Order(ScriptOrder),
    Last(LastRun),
    High(HighestFirst),
    List(Listed),
}

impl Policy for Asked {
    ghost use Rattle.console.specs.Asks.{patience, passes, patient, within};

    ghost patience = { patience };

    ghost passes = { passes };

    ghost patient = { patient };

    ghost within = { within };

    fn ask(&mut self, among: &LineSet, front: u8) -> u8 {
        match self {
            Asked::Order(policy) => policy.ask(among, front),
            Asked::Last(policy) => policy.ask(among, front),
            Asked::High(policy) => policy.ask(among, front),
            Asked::List(policy) => policy.ask(among, front),
        }
    }
}

impl Asked {
    /// A policy as it is asked for, with no pass so far; a last-run policy is primed from these commands and records.
    pub fn of_request(request: PolicyRequest, commands: &[Command], records: &[Record]) -> Asked {
        match request {
            PolicyRequest::Order => Asked::Order(ScriptOrder),
            PolicyRequest::Last(patience) => {
                Asked::Last(LastRun::new(patience, commands, records))
            }
            PolicyRequest::High(patience) => Asked::High(HighestFirst::new(patience)),
            PolicyRequest::List(patience, wishes) => Asked::List(Listed::new(patience, wishes)),
        }
    }
}
