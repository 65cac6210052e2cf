ghost use Rattle.std.specs.Prelude.{◌≡◌, ◌<◌, ◌++◌, IfSome, IfOk};
ghost use Rattle.std.specs.Option.{option_map};
ghost use Rattle.console_lines.specs.Hex.{digit_value, byte_value, bytes_written, digit_of, digits, word as word_written};

use std::alloc::{AllocError, Global};

/// The value of a digit in lower case.
fn digit_value(digit: u8) -> Option<u8>
    ensures value { result ≡ digit_value digit }
    ensures below { IfSome result (λ n. n < 16) }
{
    match digit {
        b'0'..=b'9' => Some(digit - b'0'),
        b'a'..=b'f' => Some(digit - b'a' + 10),
        _ => None,
    }
}

/// The byte that two digits write.
fn byte_value(high: u8, low: u8) -> Option<u8>
    ensures { result ≡ byte_value high low }
{
    let high = digit_value(high)?;
    let low = digit_value(low)?;
    Some(high * 16 + low)
}

/// The bytes that a word writes, two digits a byte, or a dash for no bytes.
pub fn bytes_written(alloc: Global, word: &[u8]) -> Result<Option<Vec<u8>>, AllocError>
    ensures { IfOk result (λ bytes. option_map (λ v. v.items) bytes ≡ bytes_written word.now) }
{
    let mut bytes = Vec::new(alloc);
    if word == b"-".as_slice() {
        return Ok(Some(bytes));
    }
    let mut rest = word;
    while let [high, low, others @ ..] = rest {
        let Some(byte) = byte_value(*high, *low) else {
            return Ok(None);
        };
        bytes.push(byte)?;
        rest = others;
    }
    if rest.is_empty() {
        Ok(Some(bytes))
    } else {
        Ok(None)
    }
}

/// The digit of a value.
fn digit_of(value: u8) -> u8
    requires { value < 16 }
    ensures { result ≡ digit_of value }
{
    if value < 10 {
        b'0' + value
    } else {
        b'a' + (value - 10)
    }
}

/// Appends the digits of bytes.
fn put_digits(out: &mut Vec<u8>, bytes: &[u8]) -> Result<(), AllocError>
    ensures { IfOk result (λ _. out.new.items ≡ out.old.items ++ digits bytes.now) }
{
    for byte in bytes {
        out.push(digit_of(*byte / 16))?;
        out.push(digit_of(*byte % 16))?;
    }
    Ok(())
}

/// Appends the word that writes bytes.
pub fn put_hex(out: &mut Vec<u8>, bytes: &[u8]) -> Result<(), AllocError>
    ensures { IfOk result (λ _. out.new.items ≡ out.old.items ++ word_written bytes.now) }
{
    if bytes.is_empty() {
        out.push(b'-')?;
        Ok(())
    } else {
        put_digits(out, bytes)
    }
}
