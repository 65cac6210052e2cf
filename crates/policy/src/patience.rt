ghost use Rattle.std.specs.Prelude.{◌≡◌, ◌≤◌, min};
ghost use Rattle.model.specs.Policies.{Answered};
ghost use Rattle.policy.specs.Choices.{may_pass, takes, answer};
ghost use Rattle.policy.specs.Lines.{has};

use crate::line_set::LineSet;

/// How often in a row a policy may pass the front by, and how often it has just done so.
#[derive(Clone, Copy, Debug, PartialEq, Eq)]
pub struct Patience {
    limit: u8,
    passes: u8,
    ghost patient: { limit ≤ 32 },
    ghost within: { passes ≤ limit },
}

impl Patience {
    ghost use Rattle.policy.specs.Patiences.{most, passed};

    /// No pass so far. A limit above 32 counts as 32.
    pub fn new(limit: u8) -> Patience
        ensures limit { most result ≡ min limit 32 }
        ensures passes { passed result ≡ 0 }
    {
        Patience {
            limit: limit.min(32),
            passes: 0,
        }
    }

    /// The front may be passed by.
    pub fn may_pass(&self, among: &LineSet, front: u8) -> bool
        ensures { result ≡ may_pass (has among.now) front (most self.now) (passed self.now) }
    {
        self.passes != self.limit && among.leads(front)
    }

    /// A choice is taken: the front may be passed by, and the choice is in the set.
    fn takes(&self, among: &LineSet, front: u8, choice: u8) -> bool
        ensures { result ≡ takes (has among.now) front (most self.now) (passed self.now) choice }
    {
        self.may_pass(among, front) && among.has(choice)
    }

    /// The answer of a policy that would choose a line, with the pass counted. The choice is not taken if the front may
    /// not be passed by or the choice is not in the set.
    pub fn settle(&mut self, among: &LineSet, front: u8, choice: u8) -> u8
        ensures line { result ≡ answer (has among.now) front (most self.old) (passed self.old) choice }
        ensures answers { Answered (has among.now) front result (record { patience = most self.old; before = passed self.old; after = passed self.new }) }
        ensures same { most self.new ≡ most self.old }
    {
        if choice != front && self.takes(among, front, choice) {
            self.passes += 1;
            choice
        } else {
            self.passes = 0;
            front
        }
    }
}
