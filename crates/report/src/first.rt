ghost use Rattle.std.specs.Prelude.{◌≡◌, ◌+◌, ◌≤◌, [], ◌∷◌, ◌++◌, length, Ok, Err};
ghost use Rattle.output.specs.Writes.{written, Room, Writes};
ghost use Rattle.report.specs.Report.{kind_word, where_stopped, first_words};

// Kept throughout: each part says the room that it needs, 60 bytes for a whole first line: no type has a bound for it.

use crate::numbers::{put_file, put_number};
use model::{BuildRefusal, Built, Fault, Hazard, HazardKind, Refusal, Stop};
use output::Output;

// Kept: bytes and no Display, which would go through a formatter and its error, where nothing can fail.
/// The name of a hazard.
fn word_of(kind: HazardKind) -> &'static [u8]
    ensures word { result.now ≡ kind_word kind }
    ensures short { length result.now ≤ 22 }
{
    match kind {
        HazardKind::WriteWrite => b"write-write",
        HazardKind::ReadWrite => b"read-write",
        HazardKind::SpeculativeWriteRead => b"speculative-write-read",
    }
}

/// Writes the kind of a hazard, its file, and the lines of its acts.
#[tactic(auto, using(crate::proofs::Digits::three_digits))]
fn put_hazard(out: &mut Output, hazard: Hazard)
    requires { Room 40 out.old }
    ensures written { Writes (where_stopped 0 (Fault.Hazard hazard)) out.old out.new }
    ensures short { written out.new ≤ written out.old + 40 }
{
    out.put_byte(b' ');
    out.put(word_of(hazard.kind));
    out.put_byte(b' ');
    put_file(out, hazard.file);
    put_number(out, hazard.earlier.line as u16);
    put_number(out, hazard.later.line as u16);
}

/// Writes where a run stopped.
#[tactic(auto, using(crate::proofs::Digits::three_digits))]
fn put_where(out: &mut Output, stop: Stop)
    requires { Room 40 out.old }
    ensures written { Writes (where_stopped stop.line stop.fault) out.old out.new }
    ensures short { written out.new ≤ written out.old + 40 }
{
    match stop.fault {
        Fault::Hazard(hazard) => put_hazard(out, hazard),
        Fault::TooLong | Fault::NoRoom | Fault::Absent | Fault::BadList => {
            put_number(out, stop.line as u16)
        }
    }
}

/// Writes what a kept build did.
#[tactic(auto, using(crate::proofs::Digits::three_digits))]
fn put_kept(out: &mut Output, built: Built)
    requires { Room 60 out.old }
    ensures written { Writes (first_words (Ok built)) out.old out.new }
    ensures short { written out.new ≤ written out.old + 55 }
{
    out.put(b"kept executed");
    put_number(out, built.executed as u16);
    out.put(b" skipped");
    put_number(out, built.skipped as u16);
}

/// Writes why a build stopped.
#[tactic(auto, using(crate::proofs::Digits::three_digits))]
fn put_stopped(out: &mut Output, stop: Stop, built: Built)
    requires { Room 60 out.old }
    ensures written { Writes (first_words (Err (BuildRefusal.Stopped stop built))) out.old out.new }
    ensures short { written out.new ≤ written out.old + 55 }
{
    out.put(b"stopped");
    put_number(out, stop.fault.refusal().number() as u16);
    put_where(out, stop);
}

/// Writes why a build was refused.
#[tactic(auto, using(crate::proofs::Digits::three_digits))]
fn put_refused(out: &mut Output, refusal: Refusal)
    requires { Room 60 out.old }
    ensures written { Writes (first_words (Err (BuildRefusal.By refusal))) out.old out.new }
    ensures short { written out.new ≤ written out.old + 55 }
{
    out.put(b"refused");
    put_number(out, refusal.number() as u16);
}

/// Writes what a build came to.
fn put_outcome(out: &mut Output, outcome: Result<Built, BuildRefusal>)
    requires { Room 60 out.old }
    ensures written { Writes (first_words outcome) out.old out.new }
    ensures short { written out.new ≤ written out.old + 55 }
{
    match outcome {
        Ok(built) => put_kept(out, built),
        Err(BuildRefusal::Stopped(stop, built)) => put_stopped(out, stop, built),
        Err(BuildRefusal::By(refusal)) => put_refused(out, refusal),
    }
}

/// Writes the first line of a report.
pub(crate) fn put_first(out: &mut Output, outcome: Result<Built, BuildRefusal>)
    requires { Room 60 out.old }
    ensures written { Writes (first_words outcome ++ 10 ∷ []) out.old out.new }
    ensures short { written out.new ≤ written out.old + 56 }
{
    put_outcome(out, outcome);
    out.put_byte(b'\n');
}
