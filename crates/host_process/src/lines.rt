//! Where lines end.

ghost use Rattle.std.specs.Prelude.{◌≡◌, ◌≤◌, ◌-◌, length, take};
ghost use Rattle.host_process.specs.Lines.{HasNoEnd, ends_line};

/// How many of these bytes are of their first line, with its end.
pub(crate) fn first_line(bytes: &[u8]) -> usize
    ensures within { result ≤ length bytes.now }
    ensures line { HasNoEnd (take (result - 1) bytes.now) }
{
    let mut place = 0;
    while place < bytes.len() {
        if bytes[place] == b'\n' {
            return place + 1;
        }
        place += 1;
    }
    bytes.len()
}

/// Whether a line ends with the last of these bytes.
pub(crate) fn ends_line(bytes: &[u8]) -> bool
    ensures { result ≡ ends_line bytes.now }
{
    let count = bytes.len();
    count > 0 && bytes[count - 1] == b'\n'
}
