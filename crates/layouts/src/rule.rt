ghost use Rattle.std.specs.Prelude.{◌≡◌};
ghost use Rattle.layouts.specs.Rules.{rule_number};

/// A rule that three documents have to keep. Each has a number, by which the rules are ordered, and which is what is printed.
/// Source: this project's profile of CSDL, SSDL and MSL, version 3.
#[derive(Clone, Copy, Debug, PartialEq, Eq)]
pub enum Rule {
    /// 1: the file is JSON.
    IsJson = 1,
    /// 2: each node has the form that its layout says.
    HasForm = 2,
    /// 3: no member is missing that must be there.
    HasMembers = 3,
    /// 4: each member is known.
    IsKnown = 4,
    /// 5: no construct stands there that is left out.
    IsSupported = 5,
    /// 6: no name is given twice in its scope.
    NamedOnce = 6,
    /// 7: each name resolves to something of the sort that is needed.
    Resolves = 7,
    /// 8: no type is its own ancestor.
    Ancestors = 8,
    /// 9: just the types without a base have a key, of one to four properties, each once.
    TypeKey = 9,
    /// 10: the properties of a key aren't nullable, and are of types that a key may have.
    KeyProperty = 10,
    /// 11: no property has the name of an inherited one.
    InheritedName = 11,
    /// 12: the type of a property is a simple one or an enumeration, whose numbers lie within its underlying type.
    PropertyType = 12,
    /// 13: a bound stands at a text or a byte list alone, and is a number from 1 to 1,048,576.
    Bound = 13,
    /// 14: the element type of each set, and the type of each end, has a concrete type at or below it.
    ConcreteType = 14,
    /// 15: the ends of an association set name each role of its association once.
    EndRoles = 15,
    /// 16: the multiplicities of an association are among those that are allowed, with a constraint or without.
    Multiplicities = 16,
    /// 17: a constraint's principal list is the whole key of the principal type, and the dependent list matches it.
    Constraint = 17,
    /// 18: where a property of a key is a dependent one, the dependent type is the element type of its set.
    DependentKey = 18,
    /// 19: the constraints that decide a key lead from set to set without coming round in a circle.
    Arrows = 19,
    /// 20: the type of an end is the element type of its entity set, or derived from it.
    EndType = 20,
    /// 21: the type of a column is one of those that a column may have.
    ColumnType = 21,
    /// 22: the key of a table has one to four columns, each once, none of which may be null.
    TableKey = 22,
    /// 23: the columns of a key hold whole numbers of two to eight bytes, or texts.
    KeyColumn = 23,
    /// 24: a foreign key points to the whole key of a table, from as many columns of the same kinds, each once.
    ForeignKey = 24,
    /// 25: a foreign key doesn't match each column with itself.
    PointsElsewhere = 25,
    /// 26: a container has the name that its document gives it.
    ContainerName = 26,
    /// 27: each type that a fragment picks is the element type of its set, or derived from it.
    PickedType = 27,
    /// 28: a property that a fragment names is one and the same of all types that it picks.
    SharedProperty = 28,
    /// 29: a column can hold what its property does.
    Corresponds = 29,
    /// 30: a fragment writes the whole key to the whole key of its table.
    WritesKey = 30,
    /// 31: two fragments by which one set owns a table pair its key alike.
    OnePairing = 31,
    /// 32: no table has two owners.
    OneOwner = 32,
    /// 33: a condition names a property or a column, and a value or whether it is null.
    ConditionForm = 33,
    /// 34: the value of a condition lies in the domain of what it is compared with.
    ConditionValue = 34,
    /// 35: no condition speaks of a key.
    KeyCondition = 35,
    /// 36: the links of an association are hosted at an end, or have a table of their own.
    LinkPlace = 36,
    /// 37: an association with a constraint has no mapping of its own.
    ConstraintMapping = 37,
    /// 38: no value is compared with what holds another entity's key.
    ForeignValue = 38,
    /// 39: a fragment names no property twice at one end, and no column twice.
    WrittenOnce = 39,
    /// 40: the mapping of an association set names the association of that set.
    MappedAssociation = 40,
}

impl Rule {
    /// The number that is printed.
    pub fn number(self) -> u8
        ensures { result ≡ rule_number self }
    {
        self as u8
    }
}
