//! Work that gives back what it was lent.

ghost use Rattle.std.specs.Prelude.{◌≡◌};

/// Work that is lent values, and gives them back afterwards. A closure's contract can't say in what state it leaves what it was lent.
pub(crate) trait Lent {
    type Back;

    ghost may_begin: { Self → Type 0 };

    ghost gives: { Self → Self.Back → Type 0 };

    /// Does the work, and gives back what it was lent.
    fn go(self) -> Self::Back
        requires { may_begin self }
        ensures { gives self result };
}

/// Takes back what was lent: it is in the state in which the work left it.
pub(crate) fn take_back<T>(lent: &mut T)
    ensures { lent.new ≡ lent.old }
{}
