ghost use Rattle.std.specs.Prelude.{◌≡◌, ◌≤◌};
ghost use Rattle.std.proofs.Common.{rules, arith};

use policy::{LineSet, Policy};

/// A policy that turns from the front to the line after it, and back.
#[derive(Clone, Copy, Debug, PartialEq, Eq)]
pub struct Alternating {
    passes: u8,
    ghost within: { passes ≤ 1 },
}

impl Alternating {
    /// It has not passed a front by.
    pub fn new() -> Alternating
        ensures { result.passes ≡ 0 }
    {
        Alternating { passes: 0 }
    }
}

impl Policy for Alternating {
    ghost patience = { λ _. 1 };

    ghost passes = { λ p. p.passes };

    ghost patient = { first_of (Prim.search rules, Prim.grind (arith, Self.row.coded.inj)) };

    ghost within = { first_of (Prim.search rules, Prim.grind (arith, Self.row.coded.inj)) };

    fn ask(&mut self, among: &LineSet, front: u8) -> u8 {
        let after = front.saturating_add(1);
        if self.passes == 0 && after != front && among.leads(front) && among.has(after) {
            self.passes = 1;
            after
        } else {
            self.passes = 0;
            front
        }
    }
}
