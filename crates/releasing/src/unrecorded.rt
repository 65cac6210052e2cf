ghost use Rattle.std.specs.Prelude.{◌≡◌, ℕ, min, nat_lt};
ghost use Rattle.model.specs.Policies.{Answered};
ghost use Rattle.policy.specs.Lines.{has};
ghost use Rattle.policy.specs.Patiences.{patience_of, passes_of, choice_of};
ghost use Rattle.policy.specs.Waiting.{waits};
ghost use Rattle.std.proofs.Common.{rules, arith};

use model::Command;
use policy::{LastRun, LineSet, Policy};

/// The last-run policy of a book without records: every line waits on all earlier ones, so that it always answers the
/// front.
#[derive(Clone, Copy, Debug, PartialEq, Eq)]
pub struct Unrecorded {
    policy: LastRun,
    ghost waiting: { (line earlier : ℕ) → waits (choice_of policy) line earlier ≡ nat_lt earlier line },
}

impl Unrecorded {
    ghost use Rattle.releasing.specs.Unrecorded.{last_run_of};

    /// Primed from the commands of a script and no record. A patience above 32 counts as 32.
    pub fn new(patience: u8, commands: &[Command]) -> Unrecorded
        ensures patience { patience_of (last_run_of result) ≡ min patience 32 }
        ensures passes { passes_of (last_run_of result) ≡ 0 }
    {
        Unrecorded {
            policy: LastRun::new(patience, commands, &[]),
        }
    }
}

impl Policy for Unrecorded {
    ghost patience = { λ _. 0 };

    ghost passes = { λ _. 0 };

    ghost patient = { first_of (Prim.search rules, Prim.grind (arith, Self.row.coded.inj)) };

    ghost within = { first_of (Prim.search rules, Prim.grind (arith, Self.row.coded.inj)) };

    // Kept: the clauses of `ScriptOrder::ask`, but it asks the last-run policy, as `release` is to.
    fn ask(&mut self, among: &LineSet, front: u8) -> u8
        ensures answers { Answered (has among.now) front result (record { patience = 0; before = 0; after = 0 }) }
        ensures same { ◌≡◌ {A = ℕ} 0 0 }
        ensures line { result ≡ front }
    {
        self.policy.ask(among, front)
    }
}
