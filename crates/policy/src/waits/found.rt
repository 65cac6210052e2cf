ghost use Rattle.std.specs.Prelude.{◌≡◌, map};
ghost use Rattle.std.specs.Option.{option_map};
ghost use Rattle.model.specs.Records.{said};
ghost use Rattle.policy.specs.Waiting.{finds, reads_file, waits_by};

use model::{Command, Record, Standing, Use, record_of};

// Kept: commands and records are two parameters here, since they go together only while the table is made.
/// The record that a line finds. A record counts as none if it is struck.
pub fn found(commands: &[Command], records: &[Record], line: usize) -> Option<Record>
    ensures { option_map said result ≡ finds commands.now (map said records.now) line }
{
    let command = commands.get(line)?;
    record_of(records, *command).filter(|record| record.standing != Standing::Struck)
}

/// One of the reads is of a file.
fn reads_file(reads: &[Use], file: u8) -> bool
    ensures { result ≡ reads_file file reads.now }
{
    reads.iter().any(|read| file == read.file)
}

/// By their records, a line waits on an earlier one.
pub fn waits_by(line: &Option<Record>, earlier: &Option<Record>) -> bool
    ensures { result ≡ waits_by (option_map said line.now) (option_map said earlier.now) }
{
    match (line, earlier) {
        (None, _) => true,
        (Some(_), None) => false,
        (Some(mine), Some(other)) => reads_file(mine.reads(), other.write.file),
    }
}
