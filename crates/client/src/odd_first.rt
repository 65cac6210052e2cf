ghost use Rattle.std.specs.Prelude.{◌≡◌, ℕ, ◌≤◌};
ghost use Rattle.std.specs.List.{find, range_with_len};
ghost use Rattle.std.proofs.Common.{rules, arith};
ghost use Rattle.model.specs.Policies.{Answered};
ghost use Rattle.policy.specs.Lines.{has};
ghost use Rattle.client.specs.Odd.{is_odd_in, odd_first};

use policy::{LineSet, Policy};

/// How often in a row the policy passes the front by.
const PATIENCE: u8 = 3;

/// A policy that chooses the lowest odd line.
#[derive(Clone, Copy, Debug, PartialEq, Eq)]
pub struct OddFirst {
    passes: u8,
    ghost within: { passes ≤ 3 },
}

/// The lowest odd line of a set.
fn lowest_odd(among: &LineSet) -> Option<u8>
    ensures { result ≡ find (is_odd_in (has among.now)) (range_with_len 0 64) }
{
    (0..64u8).find(|line| line % 2 == 1 && among.has(*line))
}

impl OddFirst {
    /// It has not passed a front by.
    pub fn new() -> OddFirst
        ensures { result.passes ≡ 0 }
    {
        OddFirst { passes: 0 }
    }

    /// The line that it answers.
    fn choose(&self, among: &LineSet, front: u8) -> u8
        ensures { result ≡ odd_first (has among.now) front self.now.passes }
    {
        if self.passes != PATIENCE && among.leads(front) {
            lowest_odd(among).unwrap_or(front)
        } else {
            front
        }
    }
}

impl Policy for OddFirst {
    ghost patience = { λ _. 3 };

    ghost passes = { λ p. p.passes };

    ghost patient = { first_of (Prim.search rules, Prim.grind (arith, Self.row.coded.inj)) };

    ghost within = { first_of (Prim.search rules, Prim.grind (arith, Self.row.coded.inj)) };

    fn ask(&mut self, among: &LineSet, front: u8) -> u8
        ensures answers { Answered (has among.now) front result (record { patience = 3; before = self.old.passes; after = self.new.passes }) }
        ensures same { ◌≡◌ {A = ℕ} 3 3 }
        ensures line { result ≡ odd_first (has among.now) front self.old.passes }
    {
        let line = self.choose(among, front);
        if line == front {
            self.passes = 0;
        } else {
            self.passes += 1;
        }
        line
    }
}
