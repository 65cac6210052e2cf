ghost use Rattle.std.specs.Prelude.{◌≡◌, ℕ, ◌+◌, ◌≤◌};
ghost use Rattle.model.specs.Asks.{Asks, number, fronts};
ghost use Rattle.model.specs.Policies.{Answered};
ghost use Rattle.policy.specs.Lines.{has};

use crate::line_set::LineSet;

// Kept: the trait by which users bring a policy of their own, with its laws.
/// Who acts next. A policy means two numbers: its patience, which never changes, and how often in a row it has just
/// passed the front by. Whatever else it is, nobody relies on more.
pub trait Policy {
    ghost patience: { Self → ℕ };

    ghost passes: { Self → ℕ };

    /// A line of those that are left. The front is answered if the passes have come to the patience, or if it is not
    /// the lowest line of the set.
    fn ask(&mut self, among: &LineSet, front: u8) -> u8
        ensures answers { Answered (has among.now) front result (record { patience = patience self.old; before = passes self.old; after = passes self.new }) }
        ensures same { patience self.new ≡ patience self.old };

    ghost patient: { (p : Self) → patience p ≤ 32 };

    ghost within: { (p : Self) → passes p ≤ patience p };
}

/// Asks a policy with one set and one front until it answers the front, and tells how often it passed the front by.
pub fn passes_until_front<P: Policy>(policy: &mut P, among: &LineSet, front: u8) -> u8
    ensures bound { result ≤ P.Policy.patience policy.old }
    ensures asks { (h : Asks (P.Policy.patience policy.old) front (P.Policy.passes policy.old) (P.Policy.passes policy.new)) × (number h ≡ result + 1) × (fronts h ≡ 1) }
    ensures passes { P.Policy.passes policy.new ≡ 0 }
    ensures same { P.Policy.patience policy.new ≡ P.Policy.patience policy.old }
{
    // Kept: a loop, since an ask changes the policy, and nothing is known of what a closure in a chain has changed.
    for passed in 0..33u8 {
        if policy.ask(among, front) == front {
            return passed;
        }
    }
    unreachable()
}
