ghost use Rattle.std.specs.Prelude.{◌≡◌, List, ℕ};

use emc_base::Txt;

/// Something that has a name.
pub trait Named {
    /// The name, as its UTF-8 bytes.
    ghost name_in: { Self → List ℕ };

    /// Lends the name.
    fn name(&self) -> &Txt
        ensures { result.now ≡ name_in self.now };
}

/// A name alone.
impl Named for Txt {
    ghost name_in = { λ text. text };

    fn name(&self) -> &Txt {
        self
    }
}

/// What is lent keeps its name.
impl<'a, T: Named> Named for &'a T {
    ghost name_in = { λ lent. T.name_in lent.now };

    fn name(&self) -> &Txt {
        (*self).name()
    }
}
