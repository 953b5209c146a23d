//! The datagrams that a station hands out, sent.

ghost use Rattle.std.specs.Prelude.{[], ◌∷◌};
ghost use Rattle.wire.specs.Passing.{sent, Passes};
ghost use Rattle.driver.specs.Events.{sending};

use ballots::Member;
use command_ends::Fault;
use station::Datagram;
use std::io::Write;
use wire::Wire;

/// Tells that the wire did not take what was sent to a member: it is lost. That the writer fails is ignored.
fn tell_unsent<E: Write>(to: Member, err: &mut E) {
    let _ = Fault::SendFailed(to.get()).tell(err);
}

/// Sends bytes to a member. Those that the wire does not take are lost, and `err` has it.
pub(crate) fn send_bytes<N: Wire, E: Write>(to: Member, bytes: &[u8], wire: &mut N, err: &mut E)
    ensures { Passes (N.passed wire.old) (N.passed wire.new) (sent to bytes.now ∷ []) }
{
    if !wire.send(to, bytes) {
        tell_unsent(to, err);
    }
}

/// Sends datagrams, each once, in order. `err` has those that the wire does not take.
pub(crate) fn send_all<N: Wire, E: Write>(out: &[Datagram], wire: &mut N, err: &mut E)
    ensures { Passes (N.passed wire.old) (N.passed wire.new) (sending out.now) }
{
    for datagram in out {
        send_bytes(datagram.to(), datagram.bytes(), wire, err);
    }
}
