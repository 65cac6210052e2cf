ghost use Rattle.std.specs.Prelude.{◌≡◌, length};

mod found;
mod methods;

// Kept: one array and not an array of rows, since the check learns nothing of a row that a closure answers.
/// Who waits on whom among the 64 lines: for each line, 64 places that tell which lines it waits on.
#[derive(Clone, Copy, Debug, PartialEq, Eq)]
pub struct Waits {
    table: [bool; 4096],
    ghost long: { length table ≡ 4096 },
}
