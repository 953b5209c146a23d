//! Tags of sixteen bytes.

ghost use Rattle.std.specs.Prelude.{◌≡◌, ◌≤◌, ◌++◌, ◌↔◌, IsTrue, length, take};
ghost use Rattle.seals.specs.Sealing.{tag_of};

use hmac::Key;

/// The length of a tag, and of a packet's id, which is one.
pub(crate) const TAG_LEN: usize = 16;

/// The first sixteen bytes.
pub(crate) fn first_bytes(bytes: &[u8]) -> [u8; TAG_LEN]
    requires { 16 ≤ length bytes.now }
    ensures { result ≡ take 16 bytes.now }
{
    let mut out = [0u8; TAG_LEN];
    'bytes: for i in 0..TAG_LEN {
        out[i] = bytes[i];
    }
    out
}

/// The tag of bytes under a key.
pub(crate) fn tag_of(key: &Key, bytes: &[u8]) -> [u8; TAG_LEN]
    ensures { result ≡ tag_of key.now bytes.now }
{
    first_bytes(&key.tag(bytes))
}

/// The tag of what two parts make.
pub(crate) fn tag_of_parts(key: &Key, first: &[u8], second: &[u8]) -> [u8; TAG_LEN]
    ensures { result ≡ tag_of key.now (first.now ++ second.now) }
{
    first_bytes(&key.tag_of_parts(first, second))
}

/// Whether they are one tag. It reads all bytes of both, wherever they differ first.
pub(crate) fn is_same(tag: &[u8; TAG_LEN], other: &[u8]) -> bool
    requires { length other.now ≡ 16 }
    ensures { IsTrue result ↔ (tag.now ≡ other.now) }
{
    let mut changed = 0u8;
    'bytes: for i in 0..TAG_LEN {
        changed |= tag[i] ^ other[i];
    }
    changed == 0
}
