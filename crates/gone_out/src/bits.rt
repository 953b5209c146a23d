//! Words of 64 bits as flags.

ghost use Rattle.std.specs.Prelude.{◌≡◌, ◌<◌, ◌*◌, true, not, length, slice_set};
ghost use Rattle.gone_out.specs.Numbers.{has, flags_of};

/// Whether a bit is set.
pub(crate) fn has_bit(words: &[u64], n: usize) -> bool
    requires { n < 64 * length words.now }
    ensures { result ≡ has (flags_of words.now) n }
{
    (words[n / 64] >> (n % 64)) & 1 == 1
}

/// Sets a bit; whether it was not set before.
pub(crate) fn set_bit(words: &mut Vec<u64>, n: usize) -> bool
    requires { n < 64 * length words.old.items }
    ensures new { result ≡ not (has (flags_of words.old.items) n) }
    ensures set { flags_of words.new.items ≡ slice_set (flags_of words.old.items) n true }
    ensures len { length words.new.items ≡ length words.old.items }
{
    let word = words[n / 64];
    let bit = 1u64 << (n % 64);
    words[n / 64] = word | bit;
    word & bit == 0
}
