ghost use Rattle.std.specs.Prelude.{◌≡◌, ◌≤◌, map, length};
ghost use Rattle.std.specs.Option.{option_map};
ghost use Rattle.std.specs.Str.{bytes_eq};
ghost use Rattle.script.specs.Text.{label_byte, is_label, file_of, files_of};
ghost use Rattle.script.specs.Views.{four};

/// The most bytes that a label may have.
const LONGEST: usize = 16;

fn is_label_byte(b: u8) -> bool
    ensures { result ≡ label_byte b }
{
    matches!(b, b'a'..=b'z' | b'0'..=b'9' | b'.' | b'-')
}

/// Whether a word may be a label.
pub(crate) fn is_label(word: &[u8]) -> bool
    ensures { result ≡ is_label word.now }
{
    word.len() <= LONGEST && word.iter().all(|b| is_label_byte(*b))
}

/// A label is this word. Most labels differ in their last byte, so it is compared first.
fn is_same(label: &[u8], word: &[u8]) -> bool
    ensures { result ≡ bytes_eq label.now word.now }
{
    if label.last() != word.last() {
        return false;
    }
    label == word
}

/// The file that has a label.
pub(crate) fn file_of(labels: &[&[u8]; 64], label: &[u8]) -> Option<u8>
    ensures { result ≡ file_of (map (λ x. x.now) labels.now) label.now }
{
    let file = labels.iter().position(|held| is_same(held, label))?;
    Some(file as u8)
}

/// The files that have labels, filled up with 0.
pub(crate) fn files_of(labels: &[&[u8]; 64], args: &[&[u8]]) -> Option<[u8; 4]>
    requires { length args.now ≤ 4 }
    ensures { result ≡ option_map four (files_of (map (λ x. x.now) labels.now) (map (λ x. x.now) args.now)) }
{
    let mut files = [0; 4];
    for (i, arg) in args.iter().enumerate() {
        files[i] = file_of(labels, arg)?;
    }
    Some(files)
}
