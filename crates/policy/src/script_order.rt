ghost use Rattle.std.specs.Prelude.{◌≡◌, ℕ};
ghost use Rattle.model.specs.Policies.{Answered};
ghost use Rattle.policy.specs.Lines.{has};
ghost use Rattle.std.proofs.Common.{rules};

use crate::line_set::LineSet;
use crate::policy::Policy;

/// The policy without patience: always the front.
#[derive(Clone, Copy, Debug, PartialEq, Eq)]
pub struct ScriptOrder;

impl Policy for ScriptOrder {
    ghost patience = { λ _. 0 };

    ghost passes = { λ _. 0 };

    ghost patient = { Prim.search rules };

    ghost within = { Prim.search rules };

    fn ask(&mut self, among: &LineSet, front: u8) -> u8
        ensures answers { Answered (has among.now) front result (record { patience = 0; before = 0; after = 0 }) }
        ensures same { ◌≡◌ {A = ℕ} 0 0 }
        ensures line { result ≡ front }
    {
        front
    }
}
