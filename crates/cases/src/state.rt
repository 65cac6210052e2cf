use crate::parts::Parts;
use files::FileStore;
use model::Standing;
use std::io;
use std::io::Write;

/// What files, pool, log and book hold: the number of each file, and behind them the counts of contents and bytes in
/// the pool, whether a run is open, the counts of records and of own ones, and that of entries.
pub type State = [usize; 70];

/// Where a state has the count of entries.
pub const ENTRIES: usize = 69;

/// How many records of the book are own.
fn own_records(parts: &Parts) -> usize {
    let mut own = 0usize;
    for record in parts.book.records() {
        if record.standing == Standing::Own {
            own = own.saturating_add(1);
        }
    }
    own
}

/// What they hold now.
pub fn state_of<F: FileStore>(files: &F, parts: &Parts) -> State {
    let mut state = [0; 70];
    for file in 0..64u8 {
        state[file as usize] = files.tell(file) as usize;
    }
    state[64] = parts.pool.count() as usize;
    state[65] = parts.pool.used();
    state[66] = parts.log.is_open() as usize;
    state[67] = parts.book.records().len();
    state[68] = own_records(parts);
    state[ENTRIES] = parts.log.entries().len();
    state
}

/// Tells what calls have left of a state: all, all but the entries, or less.
pub fn tell_left(out: &mut Vec<u8>, before: &State, after: &State) -> io::Result<()> {
    let [.., records, _, entries] = *after;
    if after == before {
        writeln!(out, "unchanged")
    } else if after[..ENTRIES] == before[..ENTRIES] {
        writeln!(out, "as before, entries {entries}")
    } else {
        writeln!(out, "changed, records {records}, entries {entries}")
    }
}

/// Tells the counts of a state.
pub fn tell_counts(out: &mut Vec<u8>, state: &State) -> io::Result<()> {
    let [.., contents, bytes, open, records, _, entries] = *state;
    writeln!(
        out,
        "contents {contents} bytes {bytes} open {open} records {records} entries {entries}"
    )
}
