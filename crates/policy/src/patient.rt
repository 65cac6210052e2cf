ghost use Rattle.std.specs.Prelude.{◌≡◌, min};
ghost use Rattle.model.specs.Policies.{Answered};
ghost use Rattle.policy.specs.Lines.{has};
ghost use Rattle.policy.specs.Patiences.{patience_of, passes_of, choice_of};
ghost use Rattle.std.proofs.Common.{rules};

use crate::choice::Choice;
use crate::line_set::LineSet;
use crate::patience::Patience;
use crate::policy::Policy;

/// A policy that answers its choice as often as its patience allows.
#[derive(Clone, Copy, Debug, PartialEq, Eq)]
pub struct Patient<C> {
    patience: Patience,
    choice: C,
}

impl<C> Patient<C> {
    /// The policy of a choice, with no pass so far. A patience above 32 counts as 32.
    pub fn with_choice(patience: u8, choice: C) -> Patient<C>
        ensures patience { patience_of result ≡ min patience 32 }
        ensures passes { passes_of result ≡ 0 }
        ensures choice { choice_of result ≡ choice }
    {
        Patient {
            patience: Patience::new(patience),
            choice,
        }
    }
}

impl<C: Choice> Policy for Patient<C> {
    ghost patience = { patience_of };

    ghost passes = { passes_of };

    ghost patient = { Prim.search rules };

    ghost within = { Prim.search rules };

    fn ask(&mut self, among: &LineSet, front: u8) -> u8
        ensures answers { Answered (has among.now) front result (record { patience = patience_of self.old; before = passes_of self.old; after = passes_of self.new }) }
        ensures same { patience_of self.new ≡ patience_of self.old }
        ensures line { result ≡ C.Choice.line (choice_of self.old) (has among.now) front (patience_of self.old) (passes_of self.old) }
        ensures choice { choice_of self.new ≡ choice_of self.old }
    {
        let choice = self.choice.choose(among, front);
        self.patience.settle(among, front, choice)
    }
}
