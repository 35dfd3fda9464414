ghost use Rattle.std.specs.Prelude.{◌≡◌};
ghost use Rattle.entity_state.specs.entity_values.Rules.{rule_number};

/// The rules of entity states.
#[derive(Clone, Copy, Debug, PartialEq, Eq)]
pub enum StateRule {
    /// An entity's type is concrete, and the element type of its set or derived from it.
    Type,
    /// Null stands only in nullable properties.
    Null,
    /// Every other value is in the domain of its property.
    Domain,
    /// No two entities of a set have one key.
    Key,
    /// Each key of a link is that of an entity at that end.
    End,
    /// No link stands twice.
    Once,
    /// An entity has as many partners as the other end's multiplicity allows.
    Count,
    /// An entity that refers by a constraint finds its principal.
    Principal,
}

impl StateRule {
    /// The number that is printed after `S`.
    pub fn number(self) -> u8
        ensures { result ≡ rule_number self }
    {
        match self {
            StateRule::Type => 1,
            StateRule::Null => 2,
            StateRule::Domain => 3,
            StateRule::Key => 4,
            StateRule::End => 5,
            StateRule::Once => 6,
            StateRule::Count => 7,
            StateRule::Principal => 8,
        }
    }
}
