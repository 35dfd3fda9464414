//! Small mappings whose states are legal, or fail, just as is meant.
#![tactic(auto)]

mod sound_examples;
mod supported_states;

ghost use Rattle.worked_examples.specs.bosses.BossLost.{BossIsLost};
ghost use Rattle.worked_examples.specs.staff.ByKind.{
  OneOfEachIsLegal,
  OneOfEachIsStored,
  ToldRowsAreLegal,
  ToldRowsSatisfy,
};
ghost use Rattle.worked_examples.specs.bosses.JoinedBosses.{
  JoinedIsLegal,
  JoinedIsStored,
  JoinedTablesAreLegal,
  JoinedTablesSatisfy,
};
ghost use Rattle.worked_examples.specs.LevelLost.{LevelIsLost};
ghost use Rattle.worked_examples.specs.bosses.LinkHidden.{BossIsHidden};
ghost use Rattle.worked_examples.specs.people.LongName.{LongNameIsTold};
ghost use Rattle.worked_examples.specs.people.NameShown.{NullNameIsHidden};
ghost use Rattle.worked_examples.specs.people.NameUnwritten.{NameIsLost};
ghost use Rattle.worked_examples.specs.bosses.NeededBoss.{EachOthersBossIsLegal, MissingBossIsNot};
ghost use Rattle.worked_examples.specs.bosses.NoBoss.{
  BosslessIsStored,
  BosslessRowSatisfies,
  NoBossIsDemanded,
  OnlyBosslessIsShown,
};
ghost use Rattle.worked_examples.specs.people.Notes.{
  AskedColumnIsNot,
  NoteIsErased,
  NoteIsFree,
  NoteIsKept,
  UnwrittenTableHasNone,
  WrittenColumnsAreNot,
};
ghost use Rattle.worked_examples.specs.bosses.OneBoss.{
  CrewIsLegal,
  CrewIsStored,
  CrewTablesAreLegal,
  CrewTablesSatisfy,
};
ghost use Rattle.worked_examples.specs.staff.Owners.{OwnerDangles};
ghost use Rattle.worked_examples.specs.people.People.{
  NoNameIsLegal,
  OnePersonIsLegal,
  OneRowIsDemanded,
  OneRowIsLegal,
  OneRowSatisfies,
  TwentyCharactersAreLegal,
  TwentyOneCharactersAreNot,
};
ghost use Rattle.worked_examples.specs.staff.Salary.{SalaryIsLeftNull};
ghost use Rattle.worked_examples.specs.Seats.{
  SeatRowsAreLegal,
  SeatRowsSatisfy,
  SeatsAreKeyed,
  SeatsAreLegal,
  SeatsAreStored,
};
ghost use Rattle.worked_examples.specs.bosses.TwoBosses.{TwoBossesClash};
ghost use Rattle.worked_examples.specs.staff.TypeLost.{TypeIsLost};

pub use sound_examples::{
    bosses_are_sound, broken_mappings_are_not_sound, broken_models_are_not_sound,
    broken_stores_are_not_sound, items_are_sound, kinds_are_told, lines_are_sound,
    people_are_sound, seats_are_sound, shop_is_sound, staff_is_sound,
};
pub use supported_states::{
    adds_a_boss, adds_a_leader, supports_a_child, supports_a_detail, supports_a_line,
    supports_an_order, supports_with_a_concrete_type,
};

/// One person with a name: the state is legal, its tables have the one row, and they are legal and agree with the fragment.
pub fn stores_one_person()
    ensures legal { OnePersonIsLegal }
    ensures demanded { OneRowIsDemanded }
    ensures legal_tables { OneRowIsLegal }
    ensures satisfied { OneRowSatisfies }
{}

/// A person may have no name.
pub fn allows_no_name()
    ensures legal { NoNameIsLegal }
{}

/// The bound of a name counts its characters, however many bytes they take.
pub fn counts_characters()
    ensures twenty { TwentyCharactersAreLegal }
    ensures twenty_one { TwentyOneCharactersAreNot }
{}

/// Of a name that is too long, just this is told: the rule of domains, at the name.
pub fn tells_a_long_name()
    ensures told { LongNameIsTold }
{}

/// A property that is written nowhere is lost: two states have the same tables.
pub fn loses_an_unwritten_name()
    ensures fails { NameIsLost }
{}

/// An entity that no fragment's conditions let through is lost: its tables are those of the state without it.
pub fn loses_a_level()
    ensures fails { LevelIsLost }
{}

/// The type is lost where one fragment picks two types and nothing is written that tells them apart.
pub fn loses_a_type()
    ensures fails { TypeIsLost }
{}

/// A column that can't be null is null where nothing writes it, here for an entity of another type.
pub fn leaves_a_salary_null()
    ensures fails { SalaryIsLeftNull }
{}

/// An employee, told by a column from a person who is none: the state is legal, each row holds its kind's constant, and the rows are
/// legal and agree with both fragments.
pub fn stores_an_employee_by_kind()
    ensures legal { OneOfEachIsLegal }
    ensures demanded { OneOfEachIsStored }
    ensures legal_tables { ToldRowsAreLegal }
    ensures satisfied { ToldRowsSatisfy }
{}

/// A fragment that shows fewer rows than it writes disagrees with its table.
pub fn hides_a_null_name()
    ensures fails { NullNameIsHidden }
{}

/// Two links that are written to one cell clash.
pub fn clashes_at_two_bosses()
    ensures fails { TwoBossesClash }
{}

/// At most one boss of each person, in a column of the person's row: the state is legal, two rows come of a person and of a link,
/// and the tables are legal and agree with both fragments.
pub fn stores_one_boss()
    ensures legal { CrewIsLegal }
    ensures demanded { CrewIsStored }
    ensures legal_tables { CrewTablesAreLegal }
    ensures satisfied { CrewTablesSatisfy }
{}

/// A fragment that shows only rows whose column of bosses is null demands null there, and its rows are those without a boss. The
/// tables agree with it.
pub fn stores_a_person_without_a_boss()
    ensures null { NoBossIsDemanded }
    ensures shown { OnlyBosslessIsShown }
    ensures demanded { BosslessIsStored }
    ensures satisfied { BosslessRowSatisfies }
{}

/// Where each person has exactly one boss, a person without a boss isn't legal.
pub fn needs_a_boss()
    ensures legal { EachOthersBossIsLegal }
    ensures missing { MissingBossIsNot }
{}

/// A link fragment that shows fewer rows than it writes disagrees with its table: the place has the keys of both ends.
pub fn hides_a_boss()
    ensures fails { BossIsHidden }
{}

/// Any number of bosses of each person, in a table of their own: the state is legal, each link is a row of both ids, and the tables
/// are legal and agree with both fragments.
pub fn joins_bosses()
    ensures legal { JoinedIsLegal }
    ensures demanded { JoinedIsStored }
    ensures legal_tables { JoinedTablesAreLegal }
    ensures satisfied { JoinedTablesSatisfy }
{}

/// A link that no fragment writes is lost: the place names the association set alone.
pub fn loses_a_boss()
    ensures fails { BossIsLost }
{}

/// A foreign key that points to a narrower table than the model's association dangles.
pub fn dangles_at_an_owner()
    ensures fails { OwnerDangles }
{}

/// A key of two parts: the state is legal, the key of each row is in the order of the table's key, and the rows are legal and agree
/// with the fragment.
pub fn stores_seats()
    ensures legal { SeatsAreLegal }
    ensures keyed { SeatsAreKeyed }
    ensures demanded { SeatsAreStored }
    ensures legal_tables { SeatRowsAreLegal }
    ensures satisfied { SeatRowsSatisfy }
{}

/// A column that the mapping doesn't name is free, where its table is written: it is erased for a comparison with a state's tables, and an
/// update keeps what it holds.
pub fn keeps_a_note()
    ensures free { NoteIsFree }
    ensures written { WrittenColumnsAreNot }
    ensures asked { AskedColumnIsNot }
    ensures unwritten { UnwrittenTableHasNone }
    ensures erased { NoteIsErased }
    ensures kept { NoteIsKept }
{}
