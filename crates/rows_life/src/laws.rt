//! What is known of the number of a log, and of lives in a row.

ghost use Rattle.std.specs.Prelude.{◌≡◌, ◌+◌, ℕ};
ghost use Rattle.sqlite_wal.specs.Recovery.{Image};
ghost use Rattle.rows_life.specs.Keeping.{StandFor};
ghost use Rattle.rows_life.specs.Logs.{number_in};

/// A checkpoint, which raises the first salt and the count by one, leaves the number of the log.
pub fn a_checkpoint_keeps_the_number()
    ensures { (salt checkpoints : ℕ) → number_in (salt + 1) (checkpoints + 1) ≡ number_in salt checkpoints }
{}

/// Lives that are begun or ended in a row, each of which may have been cut off, keep what one keeps: no life at all, or any number.
pub fn lives_add_up()
    ensures none { (files : Image) → StandFor files files }
    ensures more { (first second third : Image) → StandFor first second → StandFor second third → StandFor first third }
{}
