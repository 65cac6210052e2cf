ghost use Rattle.std.specs.Prelude.{◌≡◌, is_some};
ghost use Rattle.std.specs.List.{list_all, slice_get};
ghost use Rattle.std.specs.Option.{option_map};
ghost use Rattle.model.specs.Commands.{listed};
ghost use Rattle.model.specs.Digits.{file_number as file_number_of};
ghost use Rattle.engine.specs.Lists.{twos, file_at};

use model::file_number;

/// The most bytes of a list: fifteen files, two digits each.
const LONGEST: usize = 30;

/// The bytes of a list, two by two, each write a file.
fn are_files(list: &[u8]) -> bool
    ensures { result ≡ list_all (λ digits. is_some (file_number_of digits)) (twos list.now) }
{
    list.chunks(2).all(|digits| file_number(digits).is_some())
}

/// A content lists files for a gather.
#[tactic(auto, using(crate::proofs::Lists::files_listed, crate::proofs::Lists::listed_long, crate::proofs::Lists::listed_short))]
pub(crate) fn is_list(list: &[u8]) -> bool
    ensures { result ≡ is_some (listed list.now) }
{
    list.len() <= LONGEST && are_files(list)
}

/// The two digits at a place of a list.
fn digits_at(list: &[u8], at: usize) -> Option<&[u8]>
    ensures { option_map (λ digits. digits.now) result ≡ slice_get (twos list.now) at }
{
    list.chunks(2).nth(at)
}

/// The file at a place of a list.
#[tactic(auto, using(crate::proofs::Lists::file_of_two))]
pub(crate) fn file_at(list: &[u8], at: usize) -> Option<u8>
    ensures { result ≡ file_at list.now at }
{
    // Kept: a closure, since a function of another crate gets no proof when it is passed by name.
    digits_at(list, at).and_then(|digits| file_number(digits))
}
