ghost use Rattle.std.specs.Prelude.{◌≡◌, ◌<◌, min, length};
ghost use Rattle.model.specs.Policies.{Answered};
ghost use Rattle.policy.specs.Lines.{has};
ghost use Rattle.policy.specs.Patiences.{most, passed};
ghost use Rattle.console.specs.Wishes.{after, next, line};
ghost use Rattle.std.proofs.Common.{rules};

use console_lines::Wishes;
use policy::{LineSet, Patience, Policy};

/// The policy that wishes for the lines of a list, over and over. A wish is used up only where the front may be passed
/// by; one that is not in the set counts as the front.
#[derive(Drop)]
pub struct Listed {
    patience: Patience,
    wishes: Wishes,
    /// The place of the next wish.
    at: usize,
    ghost within: { at < length wishes.lines.items },
}

impl Listed {
    /// It has not passed a front by. A patience above 32 counts as 32.
    pub fn new(patience: u8, wishes: Wishes) -> Listed
        ensures patience { most result.patience ≡ min patience 32 }
        ensures passes { passed result.patience ≡ 0 }
        ensures wishes { result.wishes ≡ wishes }
        ensures at { result.at ≡ 0 }
    {
        Listed {
            patience: Patience::new(patience),
            wishes,
            at: 0,
        }
    }

    /// The place after that of the next wish.
    fn after(&self) -> usize
        ensures place { result ≡ after self.now.wishes.lines.items self.now.at }
        ensures within { result < length self.now.wishes.lines.items }
    {
        let last = self.wishes.lines.len() - 1;
        if self.at < last { self.at + 1 } else { 0 }
    }

    /// The place of the next wish once this has been asked.
    fn next(&self, among: &LineSet, front: u8) -> usize
        ensures place { result ≡ next self.now.wishes.lines.items self.now.at (has among.now) front (most self.now.patience) (passed self.now.patience) }
        ensures within { result < length self.now.wishes.lines.items }
    {
        if self.patience.may_pass(among, front) {
            self.after()
        } else {
            self.at
        }
    }
}

impl Policy for Listed {
    ghost patience = { λ p. most p.patience };

    ghost passes = { λ p. passed p.patience };

    ghost patient = { Prim.search rules };

    ghost within = { Prim.search rules };

    fn ask(&mut self, among: &LineSet, front: u8) -> u8
        ensures answers { Answered (has among.now) front result (record { patience = most self.old.patience; before = passed self.old.patience; after = passed self.new.patience }) }
        ensures same { most self.new.patience ≡ most self.old.patience }
        ensures line { result ≡ line self.old.wishes.lines.items self.old.at (has among.now) front (most self.old.patience) (passed self.old.patience) }
        ensures next { self.new.at ≡ next self.old.wishes.lines.items self.old.at (has among.now) front (most self.old.patience) (passed self.old.patience) }
        ensures wishes { self.new.wishes ≡ self.old.wishes }
    {
        let wish = self.wishes.lines.as_slice()[self.at];
        self.at = self.next(among, front);
        self.patience.settle(among, front, wish)
    }
}
