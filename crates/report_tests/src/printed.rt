use files::{FileStore, Table};
use model::{BuildRefusal, Built, Entry, Fault, Hazard, HazardKind, Refusal, Stop};
use pool::{Place, Pool};
use report::report;
use script::Script;

/// A build of two lines.
const BUILT: Built = Built {
    first: None,
    executed: 2,
    skipped: 0,
};

/// The second line was to write a file that the first had read.
fn stopped() -> BuildRefusal {
    let earlier = Entry {
        line: 0,
        wrote: false,
        file: 5,
        number: 1,
    };
    let later = Entry {
        line: 1,
        wrote: true,
        file: 5,
        number: 2,
    };
    let hazard = Hazard {
        kind: HazardKind::ReadWrite,
        file: 5,
        earlier,
        later,
    };
    let stop = Stop {
        line: 1,
        fault: Fault::Hazard(hazard),
    };
    BuildRefusal::Stopped(stop, BUILT)
}

/// The report of a build after which file 0 has two bytes.
fn reported(out: &mut [u8], outcome: Result<Built, BuildRefusal>) -> Result<usize, Refusal> {
    let mut bytes = [0; 8];
    let mut places = [Place::NOWHERE; 4];
    let mut pool = Pool::new(&mut bytes, &mut places);
    let _ = pool.put(b"AB");
    let mut files = Table::new();
    files.set(0, 1);
    let mut script = Script::new();
    let _ = script.read(b"file 00 net");
    report(out, outcome, &script, &files, &pool)
}

#[test]
fn kept_stopped_and_refused(rt: HostRuntime) {
    let mut out = [7; 2048];
    assert_eq!(rt; reported(&mut out, Ok(BUILT)), Ok(35));
    assert!(rt; out.starts_with(b"kept executed 2 skipped 0\n00 net 2\n\x07"));
    assert_eq!(rt; reported(&mut out, Err(stopped())), Ok(38));
    assert!(rt; out.starts_with(b"stopped 33 read-write 05 0 1\n00 net 2\n"));
    let mut short = [7; 2047];
    assert_eq!(rt;
        reported(&mut short, Ok(BUILT)),
        Err(Refusal::ReportBufferShort)
    );
    assert!(rt; short == [7; 2047]);
}
