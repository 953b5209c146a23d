//! Files that saved rows lie in: made at the first start of a station, and taken up at every other.

ghost use Rattle.std.specs.Prelude.{◌≡◌, ◌≤◌, ℕ, List, Option, IfErr, IfOk, OnOk, codes};
ghost use Rattle.std.specs.Io.KnownBytes.{Appends};
ghost use Rattle.rows_saved.specs.Saved.{SameRows};
ghost use Rattle.rows_saved.specs.declared.identity.Identity.{Identity as IdentityValue};
ghost use Rattle.tape_frames.specs.declared.version.Version.{Version as VersionValue};
ghost use Rattle.command_ends.specs.Ends.{end_of, IsOfRows};
ghost use Rattle.rows_files.specs.Creating.{MayBeMade};
ghost use Rattle.rows_files.specs.Knowing.{KnowsAll};
ghost use Rattle.rows_files.specs.Telling.{IsDoneOrRefused, IsToldStill};
ghost use Rattle.rows_files.specs.declared.causes.RefusedRows.{RefusedRows as RefusedRowsValue};

use crate::causes::RefusedRows;
use crate::creating::NewRows;
use command_ends::Fault;
use gone_out::Known;
use rows_saved::{Identity, SavesAll};
use std::alloc::Global;
use std::io::Write;

/// Files that hold saved rows.
pub trait RowFiles {
    /// The rows in one of them, which save many by one call.
    type Rows: SavesAll;

    // A file may be made, since whoever holds these files was asked for one. A start that was not asked can't show it, and makes none.
    ghost may_make: { Self → Type 0 };

    // A call over these files was refused so: by this fault, for this cause.
    ghost refuses: { Self → RefusedRowsValue → Type 0 };

    // A file was made whole for this station, in this version, and given the name at this path.
    ghost leaves: { Self → List ℕ → IdentityValue → VersionValue → Type 0 };

    // The rows in the file at a path were taken up as those of this station, or whosever they are where none was given.
    ghost opens: { Self → List ℕ → Option IdentityValue → Self.Rows → Type 0 };

    // The rows in the file at a path were taken up, whosever they are, and all of them upgraded, and the file was closed.
    ghost upgrades: { Self → List ℕ → Type 0 };

    // The file of these rows was closed, and has them all without its log.
    ghost closes: { Self → Self.Rows → Type 0 };

    /// Makes a row file. It has its name once it is whole: cut off at any moment, the making leaves nothing at the path, or all of
    /// the file.
    ///
    /// `Store`, with its cause, where something stands at the path, a log that is not empty lies beside it, another process is
    /// making it, or the host refuses; `OutOfMemory`. What stood there stays as it was.
    fn make(&self, rt: &HostRuntime, new: NewRows<'_>) -> Result<(), RefusedRows>
        requires { MayBeMade (may_make self.now) new.identity }
        ensures { IsDoneOrRefused (refuses self.now) result (λ _. leaves self.now new.entry.path.now new.entry.identity new.entry.version) };

    /// Takes up the rows in the file at a path: those of this station, or whosever they are where none is given.
    ///
    /// A file that is not there, what is no database, and one that lists no table and has no log, is refused with `Store`, its
    /// cause beside it, before anything is written; else the fault is that of the rows.
    fn open(
        &self,
        rt: &HostRuntime,
        path: &str,
        identity: Option<Identity>,
    ) -> Result<Self::Rows, RefusedRows>
        ensures taken { IsDoneOrRefused (refuses self.now) result (opens self.now path.now identity) }
        ensures open { IfOk result (λ rows. Self.Rows.kept rows → Self.Rows.is_open rows) };

    /// Which numbers have a saved row, and which of these rows have a vote. All rows are read, and none is changed.
    ///
    /// It is refused as a reading of rows is; with `OutOfMemory` also where there is no room for the numbers.
    fn known(&self, alloc: Global, rows: &mut Self::Rows) -> Result<Known, RefusedRows>
        ensures known { Self.Rows.kept rows.new → IfOk result (KnowsAll (Self.Rows.saved rows.old)) }
        ensures refused { IfErr result (refuses self.now) }
        ensures open { Self.Rows.kept rows.new → OnOk result (Self.Rows.is_open rows.new) }
        ensures same { Self.Rows.kept rows.new → Self.Rows.is_open rows.new → SameRows (Self.Rows.saved rows.old) (Self.Rows.saved rows.new) }
        ensures version { Self.Rows.version rows.new ≡ Self.Rows.version rows.old }
        ensures counts { Self.Rows.refusals rows.old ≤ Self.Rows.refusals rows.new }

        // The store's half, told forwards: rows that lie in what was made for them stay there.
        ensures made { Self.Rows.made rows.old → Self.Rows.made rows.new }

        // What held as the call ended held before.
        ensures was_kept { Self.Rows.kept rows.new → Self.Rows.kept rows.old }
        ensures was_open { Self.Rows.kept rows.new → Self.Rows.is_open rows.new → Self.Rows.is_open rows.old };

    /// Closes the file of these rows, as a good end does: what its log holds is copied into it, so that a copy of the file
    /// alone has them all.
    ///
    /// Where that is refused nothing is lost: the file and its log hold the rows together.
    fn close(&self, rows: Self::Rows) -> Result<(), RefusedRows>
        ensures { IsDoneOrRefused (refuses self.now) result (λ _. closes self.now rows) };

    /// Lets the rows go of a command that came to a fault, as a kill would. Where their file stands at its path no more, what it holds is kept beside
    /// that first. The fault stays, or tells why a save was refused; it ends the command as it did.
    fn let_go<'f>(&self, rows: Self::Rows, fault: Fault<'f>) -> Fault<'f>
        ensures { IsToldStill (refuses self.now) fault.entry result };

    /// Lists the rows in the file at a path, whosever they are, as the command `rows` prints them. A fault is one of the rows, the
    /// output or memory.
    fn list<W: Write>(
        &self,
        rt: &HostRuntime,
        path: &str,
        out: &mut W,
    ) -> Result<(), Fault<'static>>
        ensures { IfErr result (λ fault. IsOfRows (end_of fault)) };

    /// Takes the rows in the file at a path over to the second layout, whosever they are, as the command `upgrade` does, and
    /// then writes its text. A fault is one of the rows, the output or memory.
    fn upgrade<W: Write>(
        &self,
        rt: &HostRuntime,
        path: &str,
        out: &mut W,
    ) -> Result<(), Fault<'static>>
        ensures ends { IfErr result (λ fault. IsOfRows (end_of fault)) }
        ensures upgraded { OnOk result (upgrades self.now path.now) }
        ensures done { OnOk result (Appends (W.contents out.old) (W.contents out.new) (codes "layout 2\n")) };
}
