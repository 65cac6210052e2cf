ghost use Rattle.std.specs.Prelude.{◌≡◌, None};
ghost use Rattle.model.specs.Hazards.{earliest, hazard_or, hazard};
ghost use Rattle.engine.specs.Meets.{meets, write_hazard};

use model::{Entry, Hazard, HazardKind};

/// A new entry meets an earlier one in this way.
fn does_meet(kind: HazardKind, new: Entry, earlier: Entry) -> bool
    ensures { result ≡ meets kind new earlier }
{
    let same = new.file == earlier.file;
    match kind {
        HazardKind::WriteWrite => new.wrote && earlier.wrote && same,
        HazardKind::ReadWrite => new.wrote && !earlier.wrote && same,
        HazardKind::SpeculativeWriteRead => {
            !new.wrote && earlier.wrote && same && new.line < earlier.line
        }
    }
}

/// The earliest entry that a new one meets in this way.
fn earliest_met(kind: HazardKind, entries: &[Entry], new: Entry) -> Option<Entry>
    ensures { result ≡ earliest (meets kind new) entries.now }
{
    entries
        .iter()
        .copied()
        .find(|earlier| does_meet(kind, new, *earlier))
}

// Kept: that an act meets another is what is asked here; it becomes an error where the act is noted.
/// The hazard of this kind, with the earliest entry that a new one meets so.
fn hazard_by(kind: HazardKind, entries: &[Entry], new: Entry) -> Option<Hazard>
    ensures { result ≡ hazard_or kind new (earliest (meets kind new) entries.now) None }
{
    earliest_met(kind, entries, new).map(|earlier| Hazard {
        kind,
        file: new.file,
        earlier,
        later: new,
    })
}

/// The hazard of a new write, given the earlier entries.
fn hazard_of_write(entries: &[Entry], new: Entry) -> Option<Hazard>
    ensures { result ≡ write_hazard new entries.now }
{
    hazard_by(HazardKind::WriteWrite, entries, new).or_else(|| hazard_by(
        HazardKind::ReadWrite,
        entries,
        new,
    ))
}

// Kept: an `Option`, as above; the hazard becomes an error in `note`.
/// The hazard of a new entry, given the earlier ones.
pub fn hazard_of(entries: &[Entry], new: Entry) -> Option<Hazard>
    ensures { result ≡ hazard new entries.now }
{
    // A kind of which the new entry cannot be is not looked for.
    if new.wrote {
        hazard_of_write(entries, new)
    } else {
        hazard_by(HazardKind::SpeculativeWriteRead, entries, new)
    }
}
