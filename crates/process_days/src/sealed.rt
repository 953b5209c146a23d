//! The laws. The functions do nothing: their contracts are the laws.

ghost use Rattle.process_days.specs.Keyed.{SealedLogsAgree, SealedOrdersAreInTurn, SealedPacketsCame};

use crate::laws;
use rows_saved::Settles;
use wire::Socket;

/// Where no tag is made without the key, each packet that the door of a member lets in was handed out to that member before, in the day,
/// by a process of the circuit of the same number and count.
pub fn sealed_packets_came<S: Socket>()
    ensures { SealedPacketsCame S.came }
{}

/// So the events of the circuit's processes, in any one order in which what they take in was let in by their doors, are in turn: that is
/// all that a day asks of what comes.
pub fn sealed_orders_are_in_turn<S: Socket>()
    ensures { SealedOrdersAreInTurn S.came }
{}

/// So what they release agrees, with all that was released before in the day: with a key, that rests on the key alone.
pub fn sealed_logs_agree<R: Settles, S: Socket>()
    ensures { SealedLogsAgree R.Rows R.Settles.is_settled S.came }
{
    laws::processes_agree::<R>();
}
