/// Where the indices of the two values of a dependent property begin that is written to no column.
pub const LOST: u64 = 16;

/// Where those of dependent properties begin, by their places in a type.
pub const DEPENDENT: u64 = 20;

/// Where those of groups begin, by the place of a property in the first one's type.
pub const FIRST_SHARED: u64 = 280;

/// Where those of groups begin, by the place of a property in the second one's type.
pub const SECOND_SHARED: u64 = 536;

/// Where those of the keys of partners begin, by the association and the part of the key.
pub const PARTNER_KEY: u64 = 800;

/// How many there are of each association.
pub const PARTNER_PARTS: u64 = 4;
