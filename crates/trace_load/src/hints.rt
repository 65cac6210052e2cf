ghost use Rattle.std.specs.Prelude.{◌≡◌, ◌-◌, ◌≤◌, true, [], map, length, take, nat_lt};
ghost use Rattle.lists.specs.Held.{held, room};
ghost use Rattle.model.specs.Records.{said};
ghost use Rattle.model.specs.Book.{hint as hint_in};
ghost use Rattle.model.specs.Load.{numbered, hinted, hints as hints_in};
ghost use Rattle.pool.specs.Contents.{meant};
ghost use Rattle.trace.specs.Format.{lawful};
ghost use Rattle.trace.specs.Told.{meant as traced, coming};
ghost use Rattle.trace_load.specs.Takes.{fresh, hints_told, hints_after};

// Kept throughout: contents and pool stay two parameters; a struct of the two references would be made for three
// private functions, and their clauses would say the same of its fields.

use lists::Lent;
use model::{Record, Refusal, Standing, Use, place_of};
use pool::Pool;
use trace::{Records, Trace, has_command};

/// A use of a file, with the number that its content has in the pool.
fn renumbered(contents: &[&[u8]], pool: &Pool, u: Use) -> Use
    ensures { result ≡ numbered (map (λ x. x.now) contents.now) (meant pool.now) u }
{
    let at = usize::from(u.number).saturating_sub(1);
    let content = contents.get(at).copied().unwrap_or(&[]);
    let found = pool.find(content);
    Use {
        number: found.map_or(0, |found| found.number),
        ..u
    }
}

/// The reads of a record with their numbers in the pool; unused places name no file and no content.
fn renumbered_reads(contents: &[&[u8]], pool: &Pool, reads: &[Use]) -> [Use; 16]
    requires { length reads.now ≤ 16 }
    ensures { take (length reads.now) result ≡ map (numbered (map (λ x. x.now) contents.now) (meant pool.now)) reads.now }
{
    let mut list = [Use::default(); 16];
    // Kept: the place is written by its number; after a `zip` with `iter_mut` a proof knows nothing of what was
    // written.
    for (i, u) in reads.iter().enumerate() {
        list[i] = renumbered(contents, pool, *u);
    }
    list
}

/// A record of a file as a hint, with the numbers that its contents have in the pool.
fn as_hint(contents: &[&[u8]], pool: &Pool, rec: &Record) -> Record
    ensures { said result ≡ hinted (map (λ x. x.now) contents.now) (meant pool.now) (said rec.now) }
{
    let reads = rec.reads();
    let count = reads.len() as u8;
    let list = renumbered_reads(contents, pool, reads);
    let write = renumbered(contents, pool, rec.write);
    Record {
        command: rec.command,
        reads: list,
        count,
        write,
        standing: Standing::Hint,
    }
}

/// Takes one hint into a book that has a place for it.
fn take_hint(book: &mut Lent<Record>, rec: Record)
    requires { length (hint_in (said rec) (map said (held book.old))) ≤ room book.old }
    ensures held { map said (held book.new) ≡ hint_in (said rec) (map said (held book.old)) }
    ensures room { room book.new ≡ room book.old }
{
    let records = book.as_slice();
    let Some(at) = place_of(records, rec.command) else {
        book.push(rec);
        return;
    };
    if records[at].standing != Standing::Own {
        book.replace(at, rec);
    }
}

/// Takes records as hints into a book that has the places for them.
fn take_all(book: &mut Lent<Record>, pool: &Pool, contents: &[&[u8]], records: Records)
    requires { length (hints_in (map (λ x. x.now) contents.now) (meant pool.now) (coming records) (map said (held book.old))) ≤ room book.old }
    ensures held { map said (held book.new) ≡ hints_in (map (λ x. x.now) contents.now) (meant pool.now) (coming records.entry) (map said (held book.old)) }
    ensures room { room book.new ≡ room book.old }
{
    for rec in records {
        take_hint(book, as_hint(contents, pool, &rec));
    }
}

/// More of the records that are to come than so many need a place: those whose command is not in the list. It stops
/// at the first for which no place is left.
fn exceeds(list: &[Record], records: Records, free: usize) -> bool
    ensures { result ≡ nat_lt free (fresh (map said list.now) (coming records.entry)) }
{
    records
        .filter(|rec| !has_command(list, rec.command))
        .nth(free)
        .is_some()
}

/// Takes the records of a checked file into a book as hints, with the numbers that their contents have in the pool.
/// A hint is appended, or takes the place of a record of its command that is not own; an own record stays. Where the
/// book has too few places it is as it was.
pub fn take_hints(book: &mut Lent<Record>, pool: &Pool, trace: &Trace) -> Result<(), Refusal>
    requires { lawful (traced trace.now) ≡ true }
    ensures value { result ≡ hints_told (hints_in (traced trace.now).contents (meant pool.now) (traced trace.now).records (map said (held book.old))) (room book.old) }
    ensures held { map said (held book.new) ≡ hints_after (hints_in (traced trace.now).contents (meant pool.now) (traced trace.now).records (map said (held book.old))) (room book.old) (map said (held book.old)) }
    ensures room { room book.new ≡ room book.old }
{
    let free = book.room().saturating_sub(book.len());
    if exceeds(book.as_slice(), trace.records(), free) {
        return Err(Refusal::NoRoomToLoad);
    }
    take_all(book, pool, trace.contents(), trace.records());
    Ok(())
}
