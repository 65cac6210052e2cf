ghost use Rattle.std.specs.Prelude.{◌≡◌, length};

mod methods;

/// A set of the lines of a script, which are numbered 0 to 63.
#[derive(Clone, Copy, Debug, PartialEq, Eq)]
pub struct LineSet {
    lines: [bool; 64],
    ghost long: { length lines ≡ 64 },
}
