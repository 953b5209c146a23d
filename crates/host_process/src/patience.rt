//! How long it is waited for standard error, and what is lost.

ghost use Rattle.std.specs.Prelude.{◌≡◌, ◌+◌, ◌-◌, ◌^◌, true, false, min};

/// How long it is waited for standard error at most, in milliseconds.
const LIMIT: i32 = 1000;

/// What is known of a standard error that may take nothing for a while: whether it took nothing the last time, and how many lines were
/// lost since it did.
#[derive(Clone, Copy, PartialEq, Eq)]
pub struct Patience {
    is_stuck: bool,
    lost: u64,
}

impl Patience {
    /// It is thought to take what it is told.
    pub fn new() -> Patience
        ensures { result ≡ record { is_stuck = false; lost = 0 } }
    {
        Patience {
            is_stuck: false,
            lost: 0,
        }
    }

    /// How long it is waited for it, in milliseconds: a second, or not at all where it took nothing the last time.
    pub fn limit(&self) -> i32 {
        if self.is_stuck { 0 } else { LIMIT }
    }

    /// It took nothing: so many lines were lost.
    pub fn lose(&mut self, lines: u64)
        ensures { self.new ≡ record { is_stuck = true; lost = min (self.old.lost + lines) (2 ^ 64 - 1) } }
    {
        self.is_stuck = true;
        self.lost = self.lost.saturating_add(lines);
    }

    /// It takes again: how many lines were lost, of which it is told now.
    pub fn recover(&mut self) -> u64
        ensures lost { result ≡ self.old.lost }
        ensures none { self.new ≡ record { is_stuck = false; lost = 0 } }
    {
        let lost = self.lost;
        *self = Patience::new();
        lost
    }
}
