//! Reading standard input into a buffer, for the programs.
#![tactic(auto)]

ghost use Rattle.std.specs.Prelude.{◌≤◌, length, IfOk};

use std::io;
use std::io::Read;

/// Fills the buffer from standard input, as far as that goes, and tells how many bytes it has.
pub fn read_input(rt: &HostRuntime, buffer: &mut [u8]) -> io::Result<usize>
    ensures { IfOk result (λ n. n ≤ length buffer.new) }
{
    let mut stdin = rt.stdin();
    let mut len = 0;
    // Kept: no method of the library fills a lent buffer up to the end of the input; `read_to_end` fills a vector.
    while len < buffer.len() {
        let n = stdin.read(&mut buffer[len..])?;
        if n == 0 {
            break;
        }
        len += n;
    }
    Ok(len)
}
