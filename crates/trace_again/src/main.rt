//! Reads a trace file from standard input, takes it into an empty pool and an empty book, saves it again, and tells
//! whether the bytes are the same. A file that is refused is told by its number alone.
#![tactic(auto)]

use input::read_input;
use lists::Lent;
use model::{Record, Refusal};
use pool::{Place, Pool};
use std::io;
use trace::check;
use trace_load::{put_contents, take_hints};
use trace_write::save;

/// The most bytes that a file can have that is saved or loaded, and one more.
const ROOM: usize = 82181;

/// Takes a file into an empty pool and an empty book, and saves it.
fn saved_again(bytes: &[u8], out: &mut [u8]) -> Result<usize, Refusal> {
    let trace = check(bytes)?;
    let mut room = [0u8; 65536];
    let mut places = [Place::NOWHERE; 1024];
    let mut pool = Pool::new(&mut room, &mut places);
    put_contents(&mut pool, &trace)?;
    let mut slots = [Record::default(); 256];
    let mut book = Lent::new(&mut slots);
    take_hints(&mut book, &pool, &trace)?;
    save(out, &pool, book.as_slice())
}

fn tell(rt: &HostRuntime, bytes: &[u8], out: &[u8], len: usize) -> io::Result<()> {
    if len <= out.len() && bytes == &out[0..len] {
        println!(rt; "same {len} bytes")
    } else {
        println!(rt; "other bytes")
    }
}

fn main(rt: HostRuntime) -> io::Result<()> {
    let mut buffer = [0u8; ROOM];
    let mut out = [0u8; ROOM];
    let len = read_input(&rt, &mut buffer)?;
    let bytes = &buffer[0..len];
    match saved_again(bytes, &mut out) {
        Ok(n) => tell(&rt, bytes, &out, n),
        Err(refusal) => println!(rt; "refused {refusal}"),
    }
}
