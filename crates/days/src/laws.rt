//! The law over every day. The function does nothing but cite the laws that it rests on.

ghost use Rattle.days.specs.Days.{DaysAgree};

use rows_saved::Rows;
use world::laws;

/// In every day of a circuit's processes, however often they end and begin again, any two releases of one number have one entry. It
/// was offered for that number no later than in the call that released it, and is set as the member's own code table and widths set it.
pub fn days_agree<R: Rows>()
    ensures { DaysAgree R.Rows }
{
    laws::agreement();
    laws::circuits_exist();
}
