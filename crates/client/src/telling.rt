use crate::chain::{Answers, RunAnswers};
use model::{BuildRefusal, Built, CloseRefusal, Closed, Refusal, Standing, StepRefusal, Stepped};
use std::io;

fn tell_done(rt: &HostRuntime, call: &str, answer: Result<(), Refusal>) -> io::Result<()> {
    match answer {
        Ok(()) => println!(rt; "{call}: done"),
        Err(refusal) => println!(rt; "{call}: refused {refusal}"),
    }
}

fn tell_build(rt: &HostRuntime, answer: Result<Built, BuildRefusal>) -> io::Result<()> {
    match answer {
        Ok(built) => tell_built(rt, built),
        Err(refusal) => println!(rt; "build: refused {refusal}"),
    }
}

fn tell_built(rt: &HostRuntime, built: Built) -> io::Result<()> {
    let Built {
        first,
        executed,
        skipped,
    } = built;
    let runs = if first.is_none() {
        "one run"
    } else {
        "two runs"
    };
    println!(rt; "build: kept, executed {executed} and skipped {skipped} in {runs}")
}

fn tell_audit(rt: &HostRuntime, answer: Result<Standing, Refusal>) -> io::Result<()> {
    match answer {
        Ok(Standing::Own) => println!(rt; "audit: true, and own now"),
        Ok(Standing::Struck) => println!(rt; "audit: untrue, and struck now"),
        Ok(Standing::Hint) => println!(rt; "audit: a hint"),
        Err(refusal) => println!(rt; "audit: refused {refusal}"),
    }
}

fn tell_step(rt: &HostRuntime, answer: Result<Stepped, StepRefusal>) -> io::Result<()> {
    match answer {
        Ok(stepped) => tell_stepped(rt, stepped),
        Err(refusal) => println!(rt; "step: refused {refusal}"),
    }
}

fn tell_stepped(rt: &HostRuntime, stepped: Stepped) -> io::Result<()> {
    let Stepped {
        line,
        skipped,
        stop,
    } = stepped;
    let what = if skipped {
        "was skipped"
    } else {
        "made an act"
    };
    let end = if stop.is_some() {
        ", and the run stopped"
    } else {
        ""
    };
    println!(rt; "step: line {line} {what}{end}")
}

fn tell_close(rt: &HostRuntime, answer: Result<Closed, CloseRefusal>) -> io::Result<()> {
    match answer {
        Ok(Closed::Kept) => println!(rt; "close: kept"),
        Ok(Closed::PutBack) => println!(rt; "close: put back"),
        Err(refusal) => println!(rt; "close: refused {refusal}"),
    }
}

fn tell_run(rt: &HostRuntime, run: &RunAnswers) -> io::Result<()> {
    match run.blank {
        None => println!(rt; "begin: a live ticket")?,
        Some(refusal) => println!(rt; "begin: a blank ticket, refused {refusal}")?,
    }
    for answer in run.steps {
        tell_step(rt, answer)?;
    }
    tell_close(rt, run.closed)
}

/// Prints what each call of a chain answered, a line for each.
pub fn tell(rt: &HostRuntime, answers: &Answers) -> io::Result<()> {
    tell_done(rt, "lay", answers.laid)?;
    tell_build(rt, answers.built)?;
    tell_done(rt, "load", answers.loaded)?;
    tell_audit(rt, answers.audited)?;
    tell_run(rt, &answers.run)?;
    tell_build(rt, answers.last)
}
