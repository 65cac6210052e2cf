ghost use Rattle.std.specs.Prelude.{◌≡◌, ℕ, Bool};

// Kept: a closure in its place would need the premise that it can be called, and no public function here has a premise.
/// What is looked for.
pub trait Sought {
    ghost is: { Self → ℕ → Bool };

    /// The element of a number is the one that is looked for. Numbers count from 1.
    fn is(&self, number: u16) -> bool
        ensures { result ≡ is self.now number };
}
