//! The head and the records of the file as bytes.

ghost use Rattle.std.specs.Prelude.{◌≡◌};
ghost use Rattle.gone_out.specs.Files.{head_bytes, record_bytes};

use crate::origin::Origin;
use ballots::Number;

/// The bytes of the head.
pub const HEAD_LEN: usize = 16;

/// The bytes of a record.
pub const RECORD_LEN: usize = 8;

/// The head of a station's file.
pub fn head(origin: &Origin) -> [u8; HEAD_LEN]
    ensures { result ≡ head_bytes origin.now }
{
    let (member, count) = (origin.member.get(), origin.count);
    let [c1, c0] = origin.circuit.to_be_bytes();
    let [k3, k2, k1, k0] = origin.check(0).to_be_bytes();
    [
        b'G', b'O', b'N', b'E', 0, 0, 0, 1, c1, c0, member, count, k3, k2, k1, k0,
    ]
}

/// The record of a number in a station's file.
pub fn record(origin: &Origin, number: Number) -> [u8; RECORD_LEN]
    ensures { result ≡ record_bytes origin.now number }
{
    let [n3, n2, n1, n0] = number.get().to_be_bytes();
    let [k3, k2, k1, k0] = origin.check(number.get()).to_be_bytes();
    [n3, n2, n1, n0, k3, k2, k1, k0]
}
