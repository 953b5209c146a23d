//! The beginning of a life, and its end. What is done to the files stands in an order in which each moment at which it may be cut
//! off leaves a pair that the next start takes.

ghost use Rattle.std.specs.Prelude.{◌≡◌, ◌≤◌, ◌⊎◌, Some, IsTrue, IfOk, OnOk, false};
ghost use Rattle.rows_files.specs.Found.{HoldsNoFrame};
ghost use Rattle.rows_files.specs.declared.found.FoundLog.TheVariants.{Blank};
ghost use Rattle.sqlite_wal.specs.Files.{seen_image};
ghost use Rattle.sqlite_wal.specs.Reads.{AreClean, IsClean};
ghost use Rattle.rows_life.specs.Acts.{AreWritten, IsBegunAnew, IsWritten, LifeBegins, LifeEnds, MayBegin};
ghost use Rattle.rows_life.specs.Keeping.{IsNewLog, IsUnwritten, KeepAll, KeepNoSums, LoseNothing, ReplacesBare, WritesTheMark};
ghost use Rattle.rows_life.specs.Lives.{IsAtRest, IsBegun, MayGoOn, log_in, page_size_in};
ghost use Rattle.rows_life.specs.Logs.{log_of};

use crate::copying::copied;
use crate::log_head::{LAST_NUMBER, LOG_HEAD_LEN, new_log};
use crate::looking::{failed, log_on, page_size_on, pair_on};
use crate::marks::{mark_at_rest, mark_in_use};
use crate::sums::without_sums;
use rows_files::{FoundFile, FoundLog, Mark, RefusedRows, RowsCause, opening_refusal};
use sqlite_disk::{Disk, Files, is_no_room};
use std::alloc::Global;
use std::io;

/// A log that is to hold no frame by now.
fn without_frame(log: FoundLog) -> Result<FoundLog, RefusedRows>
    ensures none { IfOk result HoldsNoFrame }
    ensures same { IfOk result (λ held. held ≡ log) }
{
    match log {
        FoundLog::Filled(_) => Err(failed()),
        FoundLog::Nothing | FoundLog::Empty | FoundLog::Blank(_) => Ok(log),
    }
}

/// Why a disk that did not take a write refuses rows.
fn unwritten(error: io::Error) -> RefusedRows {
    if is_no_room(&error) {
        RefusedRows::for_cause(RowsCause::DiskFull)
    } else {
        failed()
    }
}

/// Writes the log of a new life, in place of one that holds nothing.
///
/// The old log is cut within the head of its first frame, and the new one is written up to there. Each step waits for the disk. Recovery
/// takes no file of that length for a log, whatever a torn write made of it. The last byte makes it one.
fn renew<D: Disk>(log: &mut D, bytes: &[u8; LOG_HEAD_LEN]) -> io::Result<()>
    requires usable { IsTrue (D.Disk.is_usable log.old) }
    requires bare { IsClean D.Disk log.old → HoldsNoFrame (log_in (D.Disk.seen log.old)) }
    ensures stands { IsWritten D.Disk (λ file. file ≡ bytes.now) log.old log.new result }
    ensures kept { ReplacesBare D.Disk bytes.now log.old log.new }
{
    log.sync()?;
    log.set_len(LOG_HEAD_LEN - 1)?;
    log.sync()?;
    log.write_at(0, &bytes[..LOG_HEAD_LEN - 1])?;
    log.sync()?;
    log.write_at(LOG_HEAD_LEN - 1, &bytes[LOG_HEAD_LEN - 1..])?;
    log.sync()
}

/// Begins the life of a number over files whose log held nothing: each step is on the disk before the next is taken.
fn begin<D: Disk>(
    files: &mut Files<D>,
    held: FoundLog,
    log: &[u8; LOG_HEAD_LEN],
    number: u32,
) -> io::Result<()>
    requires log_usable { IsTrue (D.Disk.is_usable files.old.log) }
    requires db_usable { IsTrue (D.Disk.is_usable files.old.db) }
    requires copied { HoldsNoFrame held }
    requires number { number ≤ 0xff_ffff }
    requires numbered { log_of log.now ≡ Blank (Some number) }
    requires told { IsClean D.Disk files.old.log → held ≡ log_in (D.Disk.seen files.old.log) }
    requires made { IsClean D.Disk files.old.db → IsNewLog (page_size_in (D.Disk.seen files.old.db)) log.now }
    ensures begun { AreWritten D.Disk (IsBegun number) files.old files.new result }
    ensures kept { LoseNothing D.Disk files.old files.new }
{
    mark_at_rest(&mut files.db, held)?;
    renew(&mut files.log, log)?;
    mark_in_use(&mut files.db, number)
}

/// The number of a life, by chance.
fn number_by(chance: u64) -> u32
    ensures { result ≤ 0xff_ffff }
{
    (chance % (LAST_NUMBER as u64) + 1) as u32
}

/// Begins a life by chance over files whose log is to hold nothing by now. Files that may be used no more are refused.
fn begin_anew<D: Disk>(files: &mut Files<D>, chance: u64) -> Result<(), RefusedRows>
    ensures begun { AreWritten D.Disk IsBegunAnew files.old files.new result }
    ensures kept { LoseNothing D.Disk files.old files.new }
{
    if !files.may_be_used() {
        return Err(failed());
    }
    let held = without_frame(log_on(&mut files.log)?)?;
    let page_size = page_size_on(&mut files.db)?;
    let number = number_by(chance);
    let Some(log) = new_log(page_size, number, (chance / 0x1_0000_0000) as u32) else {
        return Err(failed());
    };
    match begin(files, held, &log, number) {
        Ok(()) => Ok(()),
        Err(error) => Err(unwritten(error)),
    }
}

/// Whether what the log holds has to be copied before a life can begin over a file that was marked. A file and a log that are no pair are
/// refused.
fn has_to_be_copied<D: Disk>(files: &mut Files<D>) -> Result<bool, RefusedRows>
    ensures { MayBegin D.Disk files.old files.new result }
{
    let (file, log) = pair_on(files)?;
    if let Some(cause) = opening_refusal(file, log) {
        return Err(RefusedRows::for_cause(cause));
    }
    match (file, log) {
        (FoundFile::Database(Mark::InUse(_)), FoundLog::Filled(_)) => Ok(true),
        (FoundFile::Database(Mark::InUse(_) | Mark::AtRest), _) => Ok(false),
        // Another process has put it there since it was looked at.
        _ => Err(RefusedRows::for_cause(RowsCause::InUse)),
    }
}

/// The same. Files whose pages keep sums are refused too. Nothing is written.
fn tested<D: Disk>(alloc: Global, files: &mut Files<D>) -> Result<bool, RefusedRows>
    ensures begins { MayBegin D.Disk files.old files.new result }
    ensures plain { OnOk result (AreClean D.Disk files.new.log files.new.db → KeepNoSums (seen_image D.Disk files.old.log files.old.db)) }
{
    let copies = has_to_be_copied(files)?;
    without_sums(alloc, files)?;
    Ok(copies)
}

/// The files once the log holds nothing: what it held is in the row file by now.
fn settled<D: Disk>(
    alloc: Global,
    files: Files<D>,
    seed: u64,
) -> (Files<D>, Result<(), RefusedRows>)
    ensures pair { OnOk result.1 (AreClean D.Disk result.0.log result.0.db → MayGoOn (D.Disk.seen files.db) (D.Disk.seen files.log)) }
    ensures kept { KeepAll D.Disk files result.0 }
    ensures plain { OnOk result.1 (AreClean D.Disk result.0.log result.0.db → KeepNoSums (seen_image D.Disk files.log files.db)) }
{
    let mut files = files;
    match tested(alloc, &mut files) {
        Ok(true) => copied(alloc, files, seed),
        Ok(false) => (files, Ok(())),
        Err(refused) => (files, Err(refused)),
    }
}

/// Begins a life of a row file that was marked, and its log: what that holds is copied into the file, and the two have a number in
/// common that no log before had. `chance` is to be random. The files come back.
///
/// `Store`, with its cause, where the file has another log, its pages keep sums, or the disk fails; `OutOfMemory`. Wherever it is cut off,
/// the two are a pair, with all that was saved.
pub fn begin_life<D: Disk>(
    alloc: Global,
    files: Files<D>,
    chance: u64,
) -> (Files<D>, Result<(), RefusedRows>)
    ensures begins { LifeBegins D.Disk files result.0 result.1 }
{
    let (mut files, done) = settled(alloc, files, chance);
    if let Err(refused) = done {
        return (files, Err(refused));
    }
    let begun = begin_anew(&mut files, chance);
    (files, begun)
}

/// Whether a file of this mark can be marked.
fn can_be_marked(mark: Mark) -> bool
    ensures yes { IsTrue result → ¬ (mark ≡ Mark.Unmarkable) }
    ensures no { result ≡ false → mark ≡ Mark.Unmarkable }
{
    match mark {
        Mark::Unmarkable => false,
        _ => true,
    }
}

/// Marks a row file as at rest whose log holds no frame; one whose log does is not as it was left, and one that may be used no more is not
/// marked.
fn rest<D: Disk>(db: &mut D, log: FoundLog) -> Result<(), RefusedRows>
    ensures rests { IsWritten D.Disk (λ file. HoldsNoFrame log × IsAtRest file) db.old db.new result }
    ensures mark { WritesTheMark D.Disk db.old db.new }
    ensures held { HoldsNoFrame log ⊎ IsUnwritten D.Disk db.old db.new }
{
    if !db.may_be_used() {
        return Err(failed());
    }
    let held = without_frame(log)?;
    match mark_at_rest(db, held) {
        Ok(()) => Ok(()),
        Err(error) => Err(unwritten(error)),
    }
}

/// Ends the life of a row file whose log was copied into it: it is at rest, and a copy of it alone has all. A file that can't be marked
/// stays as it is.
///
/// `Store`, with its cause, where the log holds a frame still, the file is no database, or the disk fails.
pub fn end_life<D: Disk>(files: &mut Files<D>) -> Result<(), RefusedRows>
    ensures ends { LifeEnds D.Disk files.old files.new result }
{
    let (file, log) = pair_on(files)?;
    match file {
        FoundFile::Database(mark) => {
            if can_be_marked(mark) {
                rest(&mut files.db, log)
            } else {
                Ok(())
            }
        }
        FoundFile::Nothing | FoundFile::Foreign | FoundFile::Bare => Err(failed()),
    }
}
