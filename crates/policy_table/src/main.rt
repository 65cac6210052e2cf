//! What the three policies answer on a table of sets, and how long a front waits under each, and under a fourth.
#![tactic(auto)]

mod alternating;
mod script;

ghost use Rattle.std.specs.Prelude.{◌≤◌};

use alternating::Alternating;
use policy::{HighestFirst, LineSet, Policy, ScriptOrder, passes_until_front};
use std::io;

const PATIENCE: u8 = 2;

fn set_of(lines: &[u8]) -> LineSet {
    let mut set = LineSet::new();
    for line in lines {
        set.insert(*line);
    }
    set
}

/// The answer of a policy that has passed the front by some times before.
fn answer<P: Policy>(policy: &mut P, before: u8, among: &LineSet, front: u8) -> u8 {
    let easy = set_of(&[0, 2]);
    for _ in 0..before {
        policy.ask(&easy, 0);
    }
    policy.ask(among, front)
}

fn show(rt: &HostRuntime, lines: &[u8], front: u8, before: u8) -> io::Result<()> {
    let among = set_of(lines);
    let script = answer(&mut ScriptOrder, before, &among, front);
    let last = answer(&mut script::last_run(PATIENCE), before, &among, front);
    let highest = answer(&mut HighestFirst::new(PATIENCE), before, &among, front);
    print!(rt; "front {front} passes {before} script {script} last {last} highest {highest} of")?;
    for line in lines {
        print!(rt; " {line}")?;
    }
    println!(rt)
}

/// How often the alternating policy passes a front by: the bound comes with the trait.
fn alternates(among: &LineSet, front: u8) -> u8
    ensures { result ≤ 1 }
{
    let mut policy = Alternating::new();
    passes_until_front(&mut policy, among, front)
}

fn waits(rt: &HostRuntime, lines: &[u8], front: u8) -> io::Result<()> {
    let among = set_of(lines);
    let script = passes_until_front(&mut ScriptOrder, &among, front);
    let last = passes_until_front(&mut script::last_run(40), &among, front);
    let highest = passes_until_front(&mut HighestFirst::new(5), &among, front);
    let alternating = alternates(&among, front);
    println!(rt;
        "passed by: script {script} last {last} highest {highest} alternating {alternating}"
    )
}

fn main(rt: HostRuntime) -> io::Result<()> {
    show(&rt, &[0, 1, 2, 3, 4, 5, 6, 7], 0, 0)?;
    show(&rt, &[0, 1, 2, 3, 4, 5, 6, 7], 0, 1)?;
    show(&rt, &[0, 1, 2, 3, 4, 5, 6, 7], 0, 2)?;
    show(&rt, &[0, 1, 2, 3, 4, 5], 0, 0)?;
    show(&rt, &[0, 1], 0, 0)?;
    show(&rt, &[1, 3], 1, 0)?;
    show(&rt, &[0, 3], 0, 0)?;
    show(&rt, &[0, 4], 0, 0)?;
    show(&rt, &[0, 5], 0, 0)?;
    show(&rt, &[5, 6], 5, 0)?;
    show(&rt, &[6, 7, 63], 6, 0)?;
    show(&rt, &[63], 63, 0)?;
    show(&rt, &[2, 3], 3, 0)?;
    show(&rt, &[2, 3], 1, 0)?;
    show(&rt, &[64, 200], 64, 0)?;
    show(&rt, &[], 9, 1)?;
    waits(&rt, &[0, 1, 2, 3, 4, 5, 6, 7], 0)?;
    waits(&rt, &[0, 1], 0)
}
