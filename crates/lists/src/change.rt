ghost use Rattle.std.specs.Prelude.{◌≡◌};

// Kept: a closure in its place would need the premise that it can be called, and no public function here has a premise.
/// A change of one element where it lies.
pub trait Change<T> {
    ghost changed: { Self → T → T };

    fn apply(&self, element: &mut T)
        ensures { element.new ≡ changed self.now element.old };
}
