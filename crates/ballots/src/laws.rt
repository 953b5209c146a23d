//! Laws over the definitions. The functions do nothing: their contracts are the laws.

ghost use Rattle.std.specs.Prelude.{◌≤◌};
ghost use Rattle.protocol.specs.Limits.{last_number, most_members};
ghost use Rattle.ballots.specs.Slots.{OneSlotChanges, SlotForEachMember, SlotHoldsItsValue, SlotsCountAsMembers};

use crate::member::Member;
use crate::number::Number;

/// A member is 1 to 15.
pub fn range_of_member(member: Member)
    ensures low { 1 ≤ member }
    ensures high { member ≤ most_members }
{
    // Its range is known once it is read.
    let _number = member.get();
}

/// A number is 1 to 999,999.
pub fn range_of_number(number: Number)
    ensures low { 1 ≤ number }
    ensures high { number ≤ last_number }
{
    // Its range is known once it is read.
    let _value = number.get();
}

/// Lists with a slot of type `A` for each member of a circuit, in rising order of members.
pub fn slots_of_members<A>()
    ensures many { SlotForEachMember A }
    ensures read { SlotHoldsItsValue A }
    ensures set { OneSlotChanges A }
    ensures count { SlotsCountAsMembers A }
{}
