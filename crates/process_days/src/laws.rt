//! The laws that join the logs of processes to a day, and a day to the files of what it releases. The functions do nothing but
//! cite the laws that they rest on.

ghost use Rattle.process_days.specs.Telling.{DrivenHaveLogs, DrivenTakeLetIn, LogsAgree, LogsMakeDays};
ghost use Rattle.process_days.specs.Seeing.{DaysFilesAgree, WrittenIsFiled};
ghost use Rattle.process_days.specs.Cutting.{CutsKeepTheFiled, CutsKeepThePrinted, CutsKeepTheSent, LogsAreCut, LogsCanBeCut, LogsHavePrefixes, NextProcessesBegin, PrefixesAgree, PrefixesAreLogs, SavesAreStored, StoriesHavePrefixes, StretchesFileTheStored, WrittenIsStored};
ghost use Rattle.process_days.specs.Ends.{GoodEndsSendAll};
ghost use Rattle.process_days.specs.Saved.{AnswersAreSaved, FilesAreSaved, MovesAreSaved, NotesAreSaved, OldNotesAreSaved, SendsAreSaved};
ghost use Rattle.driver.specs.Driving.{fate_of};
ghost use Rattle.run_command.specs.Running.{tells};
ghost use Rattle.run_command.specs.Standing.{Texts};
ghost use Rattle.serve_command.specs.Serving.{prints};

use days::laws;
use driver::Sink;
use folders::Folders;
use rows_saved::{Rows, Settles};
use std::io::Write;
use wire::Wire;

/// What drives a station, as `run_station` or `serve_run`, tells of itself as a process does: its log is that of the steps that the station took.
pub fn driven_have_logs<R: Settles, N: Wire, S: Sink, F: Folders, W: Write>()
    ensures driven { DrivenHaveLogs R.Rows R.Settles.is_settled N.passed (fate_of S.Sink) }
    ensures runs { (texts : Texts) → DrivenHaveLogs R.Rows R.Settles.is_settled N.passed (tells texts F.doings F.refuses) }
    ensures serves { DrivenHaveLogs R.Rows R.Settles.is_settled N.passed (prints W.contents) }
{}

/// What drives a station takes in such packets alone as its wire lets in, by what the wire tells.
pub fn driven_take_let_in<R: Settles, N: Wire, S: Sink, F: Folders, W: Write>()
    ensures driven { DrivenTakeLetIn R.Rows R.Settles.is_settled N.passed (fate_of S.Sink) }
    ensures runs { (texts : Texts) → DrivenTakeLetIn R.Rows R.Settles.is_settled N.passed (tells texts F.doings F.refuses) }
    ensures serves { DrivenTakeLetIn R.Rows R.Settles.is_settled N.passed (prints W.contents) }
{}

/// Processes of `serve` and `run` that go on in a day, each as its own log says, make a day again, in any order in which what
/// they take in was handed out before.
pub fn processes_make_days<R: Settles>()
    ensures { LogsMakeDays R.Rows R.Settles.is_settled }
{}

/// So what they release agrees, with all that was released before in the day.
pub fn processes_agree<R: Settles>()
    ensures { LogsAgree R.Rows R.Settles.is_settled }
{
    laws::days_agree::<R>();
}

/// Of what is released in a day two files `12.tape` are the same bytes, and where there is a file `12.tape` there is no
/// `12.void`.
pub fn files_agree<R: Rows>()
    ensures { DaysFilesAgree R.Rows }
{
    laws::days_agree::<R>();
}

/// What `run` writes among the releases of a plant are files of what its member released in the day.
pub fn what_is_written_was_released()
    ensures { WrittenIsFiled }
{}

/// The first events of a log are the log of the process as it was then, also if it ended before what its last steps saved was stored. Behind a
/// save all that it saved is stored.
pub fn logs_have_prefixes<R: Settles>()
    ensures prefixes { LogsHavePrefixes R.Rows R.Settles.is_settled }
    ensures logs { PrefixesAreLogs R.Rows R.Settles.is_settled }
    ensures stored { SavesAreStored R.Rows R.Settles.is_settled }
{}

/// Each log can be cut right behind its last save. All that was sent, printed, or written among the releases is of its kept events.
pub fn cuts_keep_what_went_out()
    ensures cut { LogsAreCut }
    ensures sent { CutsKeepTheSent }
    ensures printed { CutsKeepThePrinted }
    ensures filed { CutsKeepTheFiled }
    ensures stretches { StretchesFileTheStored }
    ensures stories { StoriesHavePrefixes }
{}

/// So what `run` writes among the releases of a plant are files of what its member released in the day, even if only the kept events of its
/// log are told in the day.
pub fn what_is_written_was_stored()
    ensures { WrittenIsStored }
{}

/// The next process of a member begins behind any event of the one before, over the rows of that moment.
pub fn next_processes_begin<R: Settles>()
    ensures { NextProcessesBegin R.Rows R.Settles.is_settled }
{}

/// Whatever drove a station, as `run_station` or `serve_run`, and however it ended: wherever its log is cut behind its last save, the kept events
/// are those of a station, and all that was sent was sent by then.
pub fn logs_can_be_cut<R: Settles, N: Wire, S: Sink, F: Folders, W: Write>()
    ensures driven { LogsCanBeCut R.Rows R.Settles.is_settled N.passed (fate_of S.Sink) }
    ensures runs { (texts : Texts) → LogsCanBeCut R.Rows R.Settles.is_settled N.passed (tells texts F.doings F.refuses) }
    ensures serves { LogsCanBeCut R.Rows R.Settles.is_settled N.passed (prints W.contents) }
{}

/// So what processes release agrees in whatever way they end: killed, or by a save that is refused or torn.
pub fn prefixes_agree<R: Settles>()
    ensures { PrefixesAgree R.Rows R.Settles.is_settled }
{
    laws::days_agree::<R>();
}

/// Nothing that a process saved waits when something goes out: a datagram of any kind, a file among the releases, the note that a number went
/// out, or a file of the offers that is moved for a release or an answer. A note and such a move are also behind the files of the release.
pub fn nothing_goes_out_unsaved<R: Settles>()
    ensures sends { SendsAreSaved R.Rows R.Settles.is_settled }
    ensures files { FilesAreSaved R.Rows R.Settles.is_settled }
    ensures notes { NotesAreSaved R.Rows R.Settles.is_settled }
    ensures old_notes { OldNotesAreSaved R.Rows R.Settles.is_settled }
    ensures moves { MovesAreSaved R.Rows R.Settles.is_settled }
    ensures answers { AnswersAreSaved R.Rows R.Settles.is_settled }
{}

/// And it goes out: where a process ended well, all that was handed out was sent, in order. That its files are written says `run_station`.
pub fn good_ends_send_all<R: Settles, N: Wire, S: Sink, F: Folders, W: Write>()
    ensures driven { GoodEndsSendAll R.Rows R.Settles.is_settled N.passed (fate_of S.Sink) }
    ensures runs { (texts : Texts) → GoodEndsSendAll R.Rows R.Settles.is_settled N.passed (tells texts F.doings F.refuses) }
    ensures serves { GoodEndsSendAll R.Rows R.Settles.is_settled N.passed (prints W.contents) }
{}
