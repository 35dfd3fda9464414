//! What given entities ask for in small models, and the legal states with them, written out.

ghost use Rattle.round_trip.specs.soundness.models.Models.{IsSoundModel};
ghost use Rattle.worked_examples.specs.supported.Accounts as accounts;
ghost use Rattle.worked_examples.specs.supported.Bosses as bosses;
ghost use Rattle.worked_examples.specs.supported.Contacts as contacts;
ghost use Rattle.worked_examples.specs.supported.Details as details;
ghost use Rattle.worked_examples.specs.supported.Leaders as leaders;
ghost use Rattle.worked_examples.specs.supported.Owned as owned;
ghost use Rattle.worked_examples.specs.supported.Parents as parents;

/// A detail asks for its line, and the line for its order. They stand with plain orders, lines and details of the number zero and of those of four ends, and the
/// state is legal.
pub fn supports_a_detail()
    ensures sound { IsSoundModel details.details_model }
    ensures first { details.DetailAsksFirst }
    ensures asks { details.DetailAsks }
    ensures stands { details.DetailStands }
    ensures legal { details.DetailIsLegal }
{}

/// An order asks for its owner, a plain person who is no employee, at whichever end of the association it stands. Where the owner is given, here an employee, no one
/// is asked for; nor is one who stands by the number of an end.
pub fn supports_an_order()
    ensures asks { owned.OrderAsks }
    ensures plain { owned.OwnerIsPlain }
    ensures stands { owned.OrderStands }
    ensures legal { owned.OrderIsLegal }
    ensures taken { owned.GivenOwnerIsTaken }
    ensures employee_stands { owned.EmployeeStands }
    ensures employee_legal { owned.EmployeeIsLegal }
    ensures numbered { owned.NumberedOwnerIsTaken }
    ensures turned { owned.TurnedOrderAsks }
    ensures turned_stands { owned.TurnedOrderStands }
{}

/// Where the owner's type is abstract, the plain owner is of the first type below it of which there are entities: an employee, and no customer.
pub fn supports_with_a_concrete_type()
    ensures sound { IsSoundModel contacts.contacts_model }
    ensures asks { contacts.OrderAsks }
    ensures concrete { contacts.OwnerIsConcrete }
    ensures stands { contacts.OrderStands }
    ensures legal { contacts.OrderIsLegal }
{}

/// A line asks for its order, the order for the customer whose number is the value of number zero, and the customer for the account. A line of an order that stands
/// by number zero asks for nothing.
pub fn supports_a_line()
    ensures sound { IsSoundModel accounts.accounts_model }
    ensures first { accounts.LineAsksFirst }
    ensures asks { accounts.LineAsks }
    ensures stands { accounts.LineStands }
    ensures legal { accounts.LineIsLegal }
    ensures numbered { accounts.NumberedOrderIsTaken }
{}

/// Where a customer may have a parent, a given one asks for its parent and the account. A customer that is only asked for, by a child or by an order, asks for no
/// parent, and one that is its own parent for the account alone.
pub fn supports_a_child()
    ensures sound { IsSoundModel parents.parents_model }
    ensures line_asks { parents.LineAsks }
    ensures asks { parents.ChildAsks }
    ensures own_parent { parents.OwnParentIsTaken }
    ensures stands { parents.ChildStands }
    ensures legal { parents.ChildIsLegal }
{}

/// Where each person has exactly one boss, one who has no given boss gets the person of the number of the boss's end; one who has, gets none.
pub fn adds_a_boss()
    ensures stands { bosses.BossStands }
    ensures legal { bosses.BossIsLegal }
{}

/// Where each project has exactly one leader, one that has no given leader gets the person of the number of the leader's end; one that has, gets none. The end's type
/// is below that of its set, so this person is an employee, and those of the other numbers are not.
pub fn adds_a_leader()
    ensures sound { IsSoundModel leaders.leaders_model }
    ensures stands { leaders.LeaderStands }
    ensures legal { leaders.LeaderIsLegal }
{}
