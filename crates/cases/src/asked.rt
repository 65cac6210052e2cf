use crate::parts::Parts;
use crate::table::first_word;
use files::FileStore;
use model::{BuildRefusal, Built, StepRefusal, Stepped};
use policy::{HighestFirst, LastRun, ScriptOrder};
use runner::{Ticket, build, step};
use script::Script;

/// The policy that steps and builds ask.
#[derive(Drop)]
pub enum Asked {
    Order(ScriptOrder),
    Last(LastRun),
    High(HighestFirst),
}

impl Asked {
    /// The policy of a line as `last 4`; a last-run policy is primed from a script and a book.
    pub fn of_line(line: &str, script: &Script, parts: &Parts) -> Asked {
        let (name, patience) = first_word(line);
        let patience = patience.parse().unwrap_or(0);
        match name {
            "last" => {
                Asked::Last(LastRun::new(patience, script.commands(), parts.book.records()))
            }
            "high" => Asked::High(HighestFirst::new(patience)),
            _ => Asked::Order(ScriptOrder),
        }
    }

    /// Makes a step under the policy.
    pub fn step<F: FileStore>(
        &mut self,
        ticket: &Ticket,
        files: &mut F,
        parts: &mut Parts,
    ) -> Result<Stepped, StepRefusal> {
        let Parts { pool, log, book } = parts;
        match self {
            Asked::Order(policy) => step(ticket, policy, files, pool, log, book),
            Asked::Last(policy) => step(ticket, policy, files, pool, log, book),
            Asked::High(policy) => step(ticket, policy, files, pool, log, book),
        }
    }

    /// Builds a script under the policy.
    pub fn build<F: FileStore>(
        &mut self,
        script: &Script,
        files: &mut F,
        parts: &mut Parts,
    ) -> Result<Built, BuildRefusal> {
        let Parts { pool, log, book } = parts;
        match self {
            Asked::Order(policy) => build(script, policy, files, pool, log, book),
            Asked::Last(policy) => build(script, policy, files, pool, log, book),
            Asked::High(policy) => build(script, policy, files, pool, log, book),
        }
    }
}
