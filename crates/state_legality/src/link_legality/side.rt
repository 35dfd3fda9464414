ghost use Rattle.std.specs.Prelude.{◌≡◌};
ghost use Rattle.state_legality.specs.link_legality.Sides.{end_at, key_at, partners_at, side_number};

use edm_types::{Assoc, End, Link, Mult};
use emc_base::Key;

/// A side of an association: that of its first end, or of its second.
#[derive(Clone, Copy, Debug, PartialEq, Eq)]
pub enum Side {
    /// That of the first end.
    First,
    /// That of the second end.
    Second,
}

impl Side {
    /// The end at this side.
    pub fn end_of(self, assoc: &Assoc) -> &End
        ensures { result.now ≡ end_at assoc.now self }
    {
        match self {
            Side::First => &assoc.first,
            Side::Second => &assoc.second,
        }
    }

    /// How many partners an entity at this side may have: the multiplicity of the other end.
    pub fn partners_of(self, assoc: &Assoc) -> Mult
        ensures { result ≡ partners_at assoc.now self }
    {
        match self {
            Side::First => assoc.second.mult,
            Side::Second => assoc.first.mult,
        }
    }

    /// The key that a link has at this side.
    pub fn key_of(self, link: &Link) -> &Key
        ensures { result.now ≡ key_at link.now self }
    {
        match self {
            Side::First => &link.first,
            Side::Second => &link.second,
        }
    }

    /// The number that stands for this side in a spot.
    pub fn number(self) -> usize
        ensures { result ≡ side_number self }
    {
        match self {
            Side::First => 0,
            Side::Second => 1,
        }
    }
}
