//! Small models, stores and mappings that are sound, and some of which one part is broken, so that they aren't.

ghost use Rattle.emc_base.specs.declared.value.Kind.TheVariants as kind;
ghost use Rattle.round_trip.specs.soundness.Kinds.{Corresponds, IsSoundKind};
ghost use Rattle.round_trip.specs.soundness.mappings.Mappings.{IsSoundSchema};
ghost use Rattle.round_trip.specs.soundness.models.Models.{IsSoundModel};
ghost use Rattle.round_trip.specs.soundness.Stores.{IsSoundStore};
ghost use Rattle.round_trip.specs.Words.{Mult};
ghost use Rattle.worked_examples.specs.sound_examples.BrokenMappings as mappings;
ghost use Rattle.worked_examples.specs.sound_examples.BrokenModels as models;
ghost use Rattle.worked_examples.specs.sound_examples.BrokenStores as stores;
ghost use Rattle.worked_examples.specs.sound_examples.Items.{one_level, three_levels};
ghost use Rattle.worked_examples.specs.sound_examples.Kinds.{
  no_byte,
  no_character,
  no_number,
  one_twice,
  two_bytes,
};
ghost use Rattle.worked_examples.specs.sound_examples.Lines.{lines_model};
ghost use Rattle.worked_examples.specs.sound_examples.Seats.{swapped};
ghost use Rattle.worked_examples.specs.bosses.Bosses.{bossed, bossed_model, bossed_store};
ghost use Rattle.worked_examples.specs.staff.ByKind.{optional_salaries, told_staff};
ghost use Rattle.worked_examples.specs.bosses.JoinedBosses.{joined, joined_store};
ghost use Rattle.worked_examples.specs.LevelLost.{items};
ghost use Rattle.worked_examples.specs.staff.Owners.{shop, shop_model, shop_store};
ghost use Rattle.worked_examples.specs.people.People.{people, people_model, people_store};
ghost use Rattle.worked_examples.specs.Seats.{seats};
ghost use Rattle.worked_examples.specs.staff.Salary.{staff_model, staff_store};

/// People with an id and a name.
pub fn people_are_sound()
    ensures model { IsSoundModel people_model }
    ensures store { IsSoundStore people_store }
    ensures schema { IsSoundSchema people }
{}

/// People and employees, who are people with a salary.
pub fn staff_is_sound()
    ensures model { IsSoundModel staff_model }
    ensures store { IsSoundStore (staff_store optional_salaries) }
    ensures schema { IsSoundSchema told_staff }
{}

/// People with bosses, however many each has.
pub fn bosses_are_sound()
    ensures model { (mult : Mult) → IsSoundModel (bossed_model mult) }
    ensures hosted_store { IsSoundStore bossed_store }
    ensures joined_store { IsSoundStore joined_store }
    ensures hosted { (mult : Mult) → IsSoundSchema (bossed mult) }
    ensures joined { IsSoundSchema joined }
{}

/// Orders owned by people: a constraint.
pub fn shop_is_sound()
    ensures model { IsSoundModel shop_model }
    ensures store { IsSoundStore shop_store }
    ensures schema { IsSoundSchema shop }
{}

/// Items in two tables by their level: conditions on a property that is a whole number, or an enumeration. Where a number that is
/// compared is none of the enumeration's, the mapping isn't sound.
pub fn items_are_sound()
    ensures schema { IsSoundSchema items }
    ensures levels { IsSoundSchema three_levels }
    ensures constant { ¬ IsSoundSchema one_level }
{}

/// Seats, whose key has two parts, which the table's key has in another order.
pub fn seats_are_sound()
    ensures schema { IsSoundSchema seats }
{}

/// Lines of orders, whose key holds the order's: an arrow of V19, and no circle.
pub fn lines_are_sound()
    ensures model { IsSoundModel lines_model }
{}

/// Models that aren't sound: a key property that may be null, a type based on itself, a forest without a derived type, a set in
/// which nothing can stand, an association of one and one, an arrow that leads from a set to itself, a property with the name of an
/// inherited one, and a principal list that isn't the key.
pub fn broken_models_are_not_sound()
    ensures key { ¬ IsSoundModel models.optional_key }
    ensures base { ¬ IsSoundModel models.own_base }
    ensures forest { ¬ IsSoundModel models.lost_employees }
    ensures concrete { ¬ IsSoundModel models.nobody }
    ensures mults { ¬ IsSoundModel models.paired_model }
    ensures arrows { ¬ IsSoundModel models.own_principal_model }
    ensures names { ¬ IsSoundModel models.inherited_name }
    ensures principal { ¬ IsSoundModel models.unlisted_model }
{}

/// Stores that aren't sound: a key column that may be null, two columns of one name, and foreign keys that point from a column to
/// itself and to half of a key.
pub fn broken_stores_are_not_sound()
    ensures key { ¬ IsSoundStore stores.optional_key }
    ensures names { ¬ IsSoundStore stores.one_name }
    ensures itself { ¬ IsSoundStore stores.to_itself }
    ensures whole { ¬ IsSoundStore stores.to_half }
{}

/// Mappings that aren't sound. A fragment: that doesn't write the key; that has a condition on the key; that compares a name with a
/// number; that writes a name to a column that is too short; that writes a property that its type doesn't have; that stands twice;
/// and one of a second set to the same table. A Value condition on the column that hosts a boss, and on a property that is written to
/// it; an enumeration that is written to it. A link fragment of an association that has a constraint. Two fragments that pair the key differently.
pub fn broken_mappings_are_not_sound()
    ensures key { ¬ IsSoundSchema mappings.keyless }
    ensures condition { ¬ IsSoundSchema mappings.one_id }
    ensures constant { ¬ IsSoundSchema mappings.wrong_sort }
    ensures bound { ¬ IsSoundSchema mappings.short }
    ensures property { ¬ IsSoundSchema mappings.salaried }
    ensures place { ¬ IsSoundSchema mappings.doubled }
    ensures owner { ¬ IsSoundSchema mappings.crowded }
    ensures host { ¬ IsSoundSchema mappings.one_boss }
    ensures joined { ¬ IsSoundSchema mappings.told_boss }
    ensures joined_enum { ¬ IsSoundSchema mappings.enum_boss }
    ensures constraint { ¬ IsSoundSchema mappings.mapped_owner }
    ensures pairing { ¬ IsSoundSchema swapped }
{}

/// Enumerations, and bounds: the numbers of an enumeration rise within its underlying kind, and there are some; a bound is 1 to
/// 1,048,576. An enumeration is held by a column of its underlying kind.
pub fn kinds_are_told()
    ensures sound { IsSoundKind two_bytes }
    ensures large { ¬ IsSoundKind no_byte }
    ensures empty { ¬ IsSoundKind no_number }
    ensures twice { ¬ IsSoundKind one_twice }
    ensures bound { ¬ IsSoundKind no_character }
    ensures held { Corresponds two_bytes kind.Byte }
    ensures other { ¬ Corresponds two_bytes kind.Int16 }
{}
