use model::{Command, Kind, Record, Standing, Use};
use policy::LastRun;

fn copy(from: u8, to: u8) -> Command {
    Command {
        kind: Kind::Copy,
        a: from,
        b: to,
        ..Command::default()
    }
}

/// The record of a command that reads one file.
fn reads_one(command: Command, standing: Standing) -> Record {
    let mut reads = [Use::default(); 16];
    reads[0] = Use {
        file: command.a,
        number: 1,
    };
    Record {
        command,
        reads,
        count: 1,
        write: Use {
            file: command.b,
            number: 1,
        },
        standing,
    }
}

/// The last-run policy over a script of seven lines.
///
/// Line 1 reads what line 0 writes, and line 3 what line 1 writes. Line 4 has no record, and the record of line 5 is
/// struck: both wait on all earlier lines. Line 6 reads what line 5 writes, but never waits on a line without a record.
pub fn last_run(patience: u8) -> LastRun {
    let commands = [
        copy(0, 1),
        copy(1, 2),
        copy(3, 4),
        copy(2, 5),
        copy(5, 6),
        copy(7, 8),
        copy(8, 9),
    ];
    let records = [
        reads_one(commands[0], Standing::Own),
        reads_one(commands[1], Standing::Own),
        reads_one(commands[2], Standing::Hint),
        reads_one(commands[3], Standing::Own),
        reads_one(commands[5], Standing::Struck),
        reads_one(commands[6], Standing::Own),
    ];
    LastRun::new(patience, &commands, &records)
}
