ghost use Rattle.std.specs.Prelude.{◌≡◌, true, [], ◌∷◌, ◌++◌};
ghost use Rattle.lists.specs.Held.{held};
ghost use Rattle.model.specs.Hazards.{ended};
ghost use Rattle.engine.specs.Owns.{own_in};
ghost use Rattle.engine.specs.declared.own.Walk.TheVariants.{Ended, Listed};

use lists::Lent;
use model::Entry;

/// The most acts of a line.
pub(crate) const ACTS: usize = 17;

/// Lists an entry if it is one of the line; false where there is no room for it.
fn list_one(line: u8, entry: Entry, own: &mut Lent<Entry>) -> bool
    ensures { result ≡ true → held own.new ≡ held own.old ++ own_in line (entry ∷ []) }
{
    line != entry.line || own.push(entry)
}

/// Lists the entries of a line; false where they are more than the list has room for.
pub(crate) fn list_own(line: u8, entries: &[Entry], own: &mut Lent<Entry>) -> bool
    requires { held own.old ≡ [] }
    ensures { result ≡ true → held own.new ≡ own_in line entries.now }
{
    for entry in entries {
        if !list_one(line, *entry, own) {
            return false;
        }
    }
    true
}

/// Where the walk of `list_unended` stopped.
#[derive(Clone, Copy, Debug, PartialEq, Eq)]
pub(crate) enum Walk {
    /// At the write of the line.
    Ended,
    /// After the last entry: all of the line are listed.
    Listed,
    /// At an entry of the line that the list had no room for.
    Full,
}

// Kept: a walk apart from `list_own`, which lists a line that has ended too, since its record is made of all its acts.
/// Lists the entries of a line that has not ended, in one walk. It stops at the line's write, since that one entry
/// tells that the line has ended, however many follow.
pub(crate) fn list_unended(line: u8, entries: &[Entry], own: &mut Lent<Entry>) -> Walk
    requires { held own.old ≡ [] }
    ensures ended { result ≡ Ended → ended line entries.now ≡ true }
    ensures listed { result ≡ Listed → held own.new ≡ own_in line entries.now }
{
    for entry in entries {
        if line == entry.line && entry.wrote {
            return Walk::Ended;
        }
        if !list_one(line, *entry, own) {
            return Walk::Full;
        }
    }
    Walk::Listed
}
