ghost use Rattle.std.specs.Prelude.{◌≡◌};
ghost use Rattle.model.specs.Book.{own};
ghost use Rattle.runner.specs.States.{is_ended, is_waiting};

// Kept throughout: the derived `==`, under names whose contracts are the words of the model, which proofs by hand cite.

use model::{LineState, Standing};

/// A line in this state has ended.
pub(crate) fn has_ended(state: LineState) -> bool
    ensures { result ≡ is_ended state }
{
    state == LineState::Ended
}

/// A line in this state has made no act.
pub(crate) fn is_waiting(state: LineState) -> bool
    ensures { result ≡ is_waiting state }
{
    state == LineState::Waiting
}

/// A record of this standing may be skipped by.
pub(crate) fn is_own(standing: Standing) -> bool
    ensures { result ≡ own standing }
{
    standing == Standing::Own
}
