ghost use Rattle.std.specs.Prelude.{◌≡◌, ◌∷◌, map, IfOk};
ghost use Rattle.std.specs.Option.{option_map};
ghost use Rattle.script.specs.Text.{comment};
ghost use Rattle.console_lines.specs.Meanings.{policy_asks, request_asks, line_says};
ghost use Rattle.console_lines.specs.Numbers.{number_up_to};
ghost use Rattle.console_lines.specs.Requests.{patient_words, list_words, policy_written, bytes_words, short_written, other_written, request_written, words_say, line_written};
ghost use Rattle.console_lines.specs.Words.{place, wish};

use crate::hex::bytes_written;
use crate::numbers::number_up_to;
use crate::plain::Plain;
use crate::start::Start;
use crate::wishes::Wishes;
use crate::words::words_of;
use model::Wish;
use std::alloc::{AllocError, Global};

/// The policy that is to be asked from now on; a patience above 32 counts as 32.
#[derive(Drop)]
pub enum PolicyRequest {
    Order,
    Last(u8),
    High(u8),
    List(u8, Wishes),
}

/// A command of a line.
#[derive(Drop)]
pub enum Request {
    Plain(Plain),
    Start(Start),
    Script(Vec<u8>),
    Policy(PolicyRequest),
    Load(Vec<u8>),
    Audit(usize),
    Close(Wish),
    /// Fills the image.
    Fill(Vec<u8>),
}

/// What a line says.
#[derive(Drop)]
pub enum Line {
    /// No words, or a comment.
    Nothing,
    /// No command, or one that breaks the form of its row.
    Malformed,
    Asks(Request),
}

/// The highest place that a command names.
const HIGHEST_PLACE: u32 = 65535;

/// The highest patience that a command names.
const HIGHEST_PATIENCE: u32 = 255;

fn patience_of(word: &[u8]) -> Option<u8>
    ensures { result ≡ number_up_to word.now 255 }
{
    let patience = number_up_to(word, HIGHEST_PATIENCE)?;
    Some(patience as u8)
}

/// The policy of a name and a patience.
fn patient_policy(name: &[u8], patience: &[u8]) -> Option<PolicyRequest>
    ensures { option_map policy_asks result ≡ patient_words name.now patience.now }
{
    let patience = patience_of(patience)?;
    match name {
        b"last" => Some(PolicyRequest::Last(patience)),
        b"high" => Some(PolicyRequest::High(patience)),
        _ => None,
    }
}

/// The policy of a name, a patience and a list of lines.
fn list_policy(name: &[u8], patience: &[u8], lines: &[u8]) -> Option<PolicyRequest>
    ensures { option_map policy_asks result ≡ list_words name.now patience.now lines.now }
{
    let patience = patience_of(patience)?;
    let wishes = Wishes::of_word(lines)?;
    match name {
        b"list" => Some(PolicyRequest::List(patience, wishes)),
        _ => None,
    }
}

/// The policy that words tell.
fn policy_of(words: &[&[u8]]) -> Option<PolicyRequest>
    ensures { option_map policy_asks result ≡ policy_written (map (λ x. x.now) words.now) }
{
    match words {
        [name] => (*name == b"order".as_slice()).then_some(PolicyRequest::Order),
        [name, patience] => patient_policy(name, patience),
        [name, patience, lines] => list_policy(name, patience, lines),
        _ => None,
    }
}

fn place_of(words: &[&[u8]]) -> Option<usize>
    ensures { result ≡ place (map (λ x. x.now) words.now) }
{
    match words {
        [place] => {
            let place = number_up_to(place, HIGHEST_PLACE)?;
            Some(place as usize)
        }
        _ => None,
    }
}

fn wish_of(words: &[&[u8]]) -> Option<Wish>
    ensures { result ≡ wish (map (λ x. x.now) words.now) }
{
    match words {
        [wish] => match *wish {
            b"keep" => Some(Wish::Keep),
            b"back" => Some(Wish::PutBack),
            _ => None,
        },
        _ => None,
    }
}

/// The command that one word in hexadecimal follows.
fn with_bytes(alloc: Global, name: &[u8], word: &[u8]) -> Result<Option<Request>, AllocError>
    ensures { IfOk result (λ request. option_map request_asks request ≡ bytes_words name.now word.now) }
{
    let Some(bytes) = bytes_written(alloc, word)? else {
        return Ok(None);
    };
    match name {
        b"script" => Ok(Some(Request::Script(bytes))),
        b"load" => Ok(Some(Request::Load(bytes))),
        b"image" => Ok(Some(Request::Fill(bytes))),
        _ => Ok(None),
    }
}

/// The command that a name alone tells, or a name and one word in hexadecimal.
fn short_request(alloc: Global, name: &[u8], words: &[&[u8]]) -> Result<Option<Request>, AllocError>
    ensures { IfOk result (λ request. option_map request_asks request ≡ short_written name.now (map (λ x. x.now) words.now)) }
{
    match words {
        [] => Ok(Plain::named(name).map(Request::Plain)),
        [word] => with_bytes(alloc, name, word),
        _ => Ok(None),
    }
}

/// The command that a name and the words after it tell, unless it is a start or a policy.
fn other_request(alloc: Global, name: &[u8], words: &[&[u8]]) -> Result<Option<Request>, AllocError>
    ensures { IfOk result (λ request. option_map request_asks request ≡ other_written name.now (map (λ x. x.now) words.now)) }
{
    if name == b"audit".as_slice() {
        Ok(place_of(words).map(Request::Audit))
    } else if name == b"close".as_slice() {
        Ok(wish_of(words).map(Request::Close))
    } else {
        short_request(alloc, name, words)
    }
}

/// The command that a name and the words after it tell.
fn request_of(alloc: Global, name: &[u8], words: &[&[u8]]) -> Result<Option<Request>, AllocError>
    ensures { IfOk result (λ request. option_map request_asks request ≡ request_written name.now (map (λ x. x.now) words.now)) }
{
    if name == b"start".as_slice() {
        Ok(Start::of_words(words).map(Request::Start))
    } else if name == b"policy".as_slice() {
        Ok(policy_of(words).map(Request::Policy))
    } else {
        other_request(alloc, name, words)
    }
}

/// A first word begins with `#`.
fn is_comment(name: &[u8]) -> bool
    ensures { result ≡ comment name.now }
{
    matches!(name, [b'#', ..])
}

/// What a line says of which these are the first word and the others.
fn line_of(alloc: Global, name: &[u8], words: &[&[u8]]) -> Result<Line, AllocError>
    ensures { IfOk result (λ said. line_says said ≡ words_say (name.now ∷ map (λ x. x.now) words.now)) }
{
    if is_comment(name) {
        return Ok(Line::Nothing);
    }
    match request_of(alloc, name, words)? {
        Some(request) => Ok(Line::Asks(request)),
        None => Ok(Line::Malformed),
    }
}

impl Line {
    /// What a line says, which has no byte 10 at its end.
    pub fn read(alloc: Global, line: &[u8]) -> Result<Line, AllocError>
        ensures { IfOk result (λ said. line_says said ≡ line_written line.now) }
    {
        let words = words_of(line);
        match words.as_slice() {
            [] => Ok(Line::Nothing),
            [name, others @ ..] => line_of(alloc, name, others),
        }
    }
}
