//! What a turn hands out is made ready, and then its row is saved; what was saved is stored before it goes further.

ghost use Rattle.std.specs.Prelude.{◌≡◌, ◌≤◌, [], None, Some, IfOk, IfErr, OnOk, OnErr, IfSome, length, option_map};
ghost use Rattle.std.specs.List.{AllZip};
ghost use Rattle.code_table.specs.Tables.{mean};
ghost use Rattle.line_check.specs.Sets.{Sets};
ghost use Rattle.tape_frames.specs.Entries.{owned_entry, version_of};
ghost use Rattle.rows_saved.specs.Saved.{HasPromise, RowFits, Rises};
ghost use Rattle.station.specs.Speaking.{AllFit};
ghost use Rattle.station.specs.Stations.{StaysMade, sight};
ghost use Rattle.station.specs.Readiness.{Carries, IsReleased, IsNumbered, RowSaved, RowBalked, SaysTheSameAt, WasChecked, slugs_of};
ghost use Rattle.station.specs.Saving.{CanBeSaved, SavesTurn};
ghost use Rattle.station.specs.Settling.{Settling};

use crate::answer::{Answer, Datagram, Release};
use crate::station::Station;
use ballots::laws::range_of_number;
use ballots::{Number, Row};
use line_check::{SetError, SetFault, Slug, set};
use node_core::{Outgoing, Turn};
use packets::encode_beside;
use refusals::StepRefusal;
use rows_saved::{Rows, RowsFault, Settles};
use std::alloc::{AllocError, Global};
use tape_frames::{Entry, Tape, Version};

/// A tape that was set before, and its slugs.
#[derive(Drop)]
pub(crate) struct Checked<'a> {
    pub tape: &'a Tape,
    pub slugs: Vec<Slug>,
}

/// The bytes of the first datagram that says the same as the packet at this place, where it was spelled already.
fn spelled_alike<'a>(packets: &Outgoing<'_>, out: &'a [Datagram], place: usize) -> Option<&'a [u8]>
    ensures { IfSome result (λ bytes. SaysTheSameAt packets.now place out.entry.now bytes.now) }
{
    match out.get(packets.first_alike(place)) {
        None => None,
        Some(datagram) => Some(datagram.bytes()),
    }
}

/// The datagrams of packets, in order, spelled in this version. No memory is taken where there is none. What goes to all others is packed
/// once.
fn spell_all(
    alloc: Global,
    packets: &Outgoing<'_>,
    version: Version,
) -> Result<Vec<Datagram>, AllocError>
    requires { AllFit (version_of version) packets.now }
    ensures carry { IfOk result (λ v. AllZip (Carries (version_of version)) packets.now v.items) }
    ensures many { IfOk result (λ v. length v.items ≡ length packets.now) }
    ensures memory { OnErr result (packets.now ≡ [] → ⊥) }
{
    let count = packets.len();
    if count == 0 {
        return Ok(Vec::new(alloc));
    }
    let mut out = Vec::with_capacity(alloc, count)?;
    for place in 0..count {
        match packets.get(place) {
            None => unreachable!(),
            Some(packet) => {
                let alike = spelled_alike(packets, &out, place);
                let bytes = encode_beside(alloc, alike, &packet, version)?;
                let to = packet.to();
                out.push(Datagram { to, bytes })?
            }
        }
    }
    Ok(out)
}

/// Saves a row, where there is one.
fn save_row<R: Rows>(rows: &mut R, number: Number, row: &Option<Row>) -> Result<(), RowsFault>
    requires promised { IfSome row.now HasPromise }
    requires fits { IfSome row.now (RowFits (R.version rows.old)) }
    ensures saved { R.kept rows.new → OnOk result (RowSaved (sight R.Rows) number row.now rows.old rows.new) }
    ensures balked { R.kept rows.new → IfErr result (λ fault. RowBalked (sight R.Rows) number row.now fault rows.old rows.new) }
    ensures rows { StaysMade R.Rows rows.old rows.new }
    ensures cause { OnErr result (Rises (R.refusals rows.old) (R.refusals rows.new)) }
    ensures blames { IfErr result (R.blames rows.old rows.new) }
    ensures counts { R.refusals rows.old ≤ R.refusals rows.new }
{
    match row {
        Some(row) => rows.put(number, row),
        None => Ok(()),
    }
}

impl<R: Rows> Station<R> {
    /// The slugs of a tape, or its first fault.
    pub(crate) fn setting(&self, tape: &Tape) -> Result<Result<Vec<Slug>, SetFault>, AllocError>
        ensures { IfOk result (λ given. Sets (mean self.now.table) self.now.widths tape.now (slugs_of given)) }
    {
        match set(self.alloc, &self.table, &self.widths, tape) {
            Ok(slugs) => Ok(Ok(slugs)),
            Err(SetError::Fault(fault)) => Ok(Err(fault)),
            Err(SetError::OutOfMemory) => Err(AllocError),
        }
    }

    /// A released entry, set by the code table and the widths. A tape that was checked is not set again, and no memory is taken where there
    /// is no entry.
    fn release(
        &self,
        number: Number,
        entry: Option<Entry>,
        checked: Option<Checked<'_>>,
    ) -> Result<Option<Release>, AllocError>
        requires { WasChecked self.now.table self.now.widths checked }
        ensures released { IfOk result (IsReleased self.now.table self.now.widths number (option_map owned_entry entry)) }
        ensures numbered { IfOk result IsNumbered }
        ensures memory { OnErr result (entry ≡ None → ⊥) }
    {
        let Some(entry) = entry else {
            return Ok(None);
        };
        let set = match (&entry, checked) {
            (Entry::Void, _) => Ok(Vec::new(self.alloc)),
            (Entry::Tape(tape), Some(checked)) if checked.tape.same(tape.lend()) => {
                Ok(checked.slugs)
            }
            (Entry::Tape(tape), _) => self.setting(tape)?,
        };
        range_of_number(number);
        Ok(Some(Release { number, entry, set }))
    }

    /// Makes ready what a turn hands out that was taken at the row `before`, spelled in the version of the rows, and then saves
    /// its row where it has one.
    pub(crate) fn save(
        &mut self,
        number: Number,
        before: &Row,
        turn: Turn,
        checked: Option<Checked<'_>>,
    ) -> Result<Answer, StepRefusal>
        requires { CanBeSaved R.version self.old before.now turn checked }
        ensures { SavesTurn R.Rows number before.now turn self.old self.new result }
    {
        let Ok(out) = spell_all(self.alloc, &turn.out(before), self.rows.version()) else {
            return Err(StepRefusal::OutOfMemory);
        };
        let Ok(release) = self.release(number, turn.release, checked) else {
            return Err(StepRefusal::OutOfMemory);
        };
        if let Err(fault) = save_row(&mut self.rows, number, &turn.row) {
            return Err(StepRefusal::Store(fault));
        }
        Ok(Answer {
            number: Some(number),
            out,
            release,
            note: turn.note,
        })
    }
}

impl<R: Settles> Station<R> {
    /// Stores all that the station saved since the last call. Nothing that a step of it handed out may go further before.
    ///
    /// - `Stopped`: the station has stopped, and nothing is done.
    /// - `Store`: it can't be stored, and the station stops. What it saved is stored or is not, which the next start tells.
    pub fn settle(&mut self) -> Result<(), StepRefusal>
        ensures { Settling R.Rows R.Settles.is_settled self.old self.new result }
    {
        if self.stopped {
            return Err(StepRefusal::Stopped);
        }
        match self.rows.settle() {
            Ok(()) => Ok(()),
            Err(fault) => {
                self.stopped = true;
                Err(StepRefusal::Store(fault))
            }
        }
    }
}
