//! The command `rehearse`: a whole circuit in one process, driven by a script.

ghost use Rattle.std.specs.Prelude.{◌≡◌, OnOk, OnErr, IfOk, true, false};
ghost use Rattle.std.specs.List.{All};
ghost use Rattle.command_ends.specs.Ends.{IsOfInput, end_of};
ghost use Rattle.protocol.specs.Versions.{One};
ghost use Rattle.tape_frames.specs.Entries.{version_of};
ghost use Rattle.rehearse_command.specs.Orders.{step_of};
ghost use Rattle.rehearse_command.specs.Rehearsals.{BeginsIn, BeginsOn, HasRehearsed, inputs, PlaysLine, PlaysOn, PlaysScript, PlaysStaged, RehearsesUpTo, ShowsStep, StandsNew, StopsOn, StopsStaged, TurnsOn};

use crate::scene_lines::{ShownStep, put_scene};
use crate::{Order, ScriptFault, is_ignored, order_of};
use code_table::CodeTable;
use command_ends::{End, Fault, end_with};
use inputs::{ScriptPaths, read_table, read_text, read_widths};
use rows_saved::MemoryRows;
use std::alloc::{AllocError, Global};
use std::io::{Read, Write};
use std::mem::ManuallyDrop;
use streams::{PutFault, hand_on};
use tape_frames::Version;
use widths::Widths;
use world::{PlayFault, Step, World, WorldRefusal, circuit_in_memory};

/// The number of the circuit that is rehearsed.
const CIRCUIT: u16 = 7;

/// A circuit of so many members that is rehearsed, the moment that it has reached, in milliseconds, and room for the lines
/// that are shown. It is new until a line is played that does more than set it.
#[derive(Drop)]
struct Rehearsal {
    world: World<MemoryRows>,
    now: u64,
    text: String,
    count: u8,
    is_new: bool,
}

/// What each member sets tapes by, and where its memory is from.
#[derive(Clone, Copy)]
struct MemberSetting<'a> {
    alloc: Global,
    table: &'a CodeTable,
    widths: &'a Widths,
}

/// Why a line is not played.
#[derive(Clone, Copy)]
enum LineStop {
    /// It asks for what can't be done.
    Refused(&'static str),
    /// What it shows was not written whole, or there was no memory for it.
    Unwritten(PutFault),
}

impl From<AllocError> for LineStop {
    fn from(error: AllocError) -> LineStop {
        LineStop::Unwritten(PutFault::from(error))
    }
}

impl From<PutFault> for LineStop {
    fn from(fault: PutFault) -> LineStop {
        LineStop::Unwritten(fault)
    }
}

/// Why the stage is not set.
impl From<PlayFault> for LineStop {
    fn from(fault: PlayFault) -> LineStop {
        match fault {
            PlayFault::BadCount => LineStop::Refused("bad line"),
            PlayFault::OutOfMemory => LineStop::Unwritten(PutFault::OutOfMemory),
        }
    }
}

/// Why a step is not taken.
impl From<WorldRefusal> for LineStop {
    fn from(refusal: WorldRefusal) -> LineStop {
        match refusal {
            WorldRefusal::NoSuchMember => LineStop::Refused("no such member"),
            WorldRefusal::NoSuchDatagram => LineStop::Refused("no such datagram"),
            WorldRefusal::OutOfMemory => LineStop::Unwritten(PutFault::OutOfMemory),
        }
    }
}

/// Why a line on a stage asks for nothing.
impl From<ScriptFault> for LineStop {
    fn from(fault: ScriptFault) -> LineStop {
        match fault {
            ScriptFault::BadLine => LineStop::Refused("bad line"),
            ScriptFault::BadTape => LineStop::Refused("bad tape"),
            ScriptFault::OutOfMemory => LineStop::Unwritten(PutFault::OutOfMemory),
        }
    }
}

impl LineStop {
    /// What is told of it, where it ended this line, counted from 1.
    fn at<'a>(self, line: usize) -> Fault<'a>
        ensures { IsOfInput (end_of result) }
    {
        match self {
            LineStop::Refused(what) => Fault::script(line, what),
            LineStop::Unwritten(fault) => Fault::from(fault),
        }
    }
}

/// So many members, each with a copy of this table and of these widths.
fn members_of(setting: MemberSetting<'_>, count: u8) -> Result<Vec<(CodeTable, Widths)>, AllocError>
    ensures { IfOk result (λ members. All (λ member. member ≡ (setting.entry.table.now, setting.entry.widths.now)) members.items) }
{
    let mut members = Vec::with_capacity(setting.alloc, usize::from(count))?;
    for _ in 0..count {
        let table = setting.table.copy(setting.alloc)?;
        let widths = setting.widths.copy(setting.alloc)?;
        members.push((table, widths))?;
    }
    Ok(members)
}

/// A circuit of so many members in this version, in which nothing has happened yet.
fn stage_of(setting: MemberSetting<'_>, count: u8, version: Version) -> Result<Rehearsal, LineStop>
    ensures begins { IfOk result (λ stage. BeginsIn (version_of version) stage.world) }
    ensures stands { IfOk result (λ stage. StandsNew (setting.entry.table.now, setting.entry.widths.now) stage.world) }
{
    let members = members_of(setting, count)?;
    let world = circuit_in_memory(setting.alloc, CIRCUIT, version, members)?;
    Ok(Rehearsal {
        world,
        now: 0,
        text: String::new(setting.alloc),
        count,
        is_new: true,
    })
}

/// The step that a line orders at a moment; `None` where it orders none.
fn step_of(order: Order, now: u64) -> Option<Step>
    ensures { result ≡ step_of order now }
{
    match order {
        Order::Members(_) => None,
        Order::Wire(_) => None,
        Order::At(_) => None,
        Order::Offer {
            member,
            number,
            tape,
        } => Some(Step::Offer {
            member,
            number,
            tape,
            now,
        }),
        Order::Withdraw { member, number } => Some(Step::Withdraw {
            member,
            number,
            now,
        }),
        Order::Seek { member, number } => Some(Step::Seek {
            member,
            number,
            now,
        }),
        Order::Due { member } => Some(Step::Due { member, now }),
        Order::Deliver { k } => Some(Step::Deliver { k: k as usize, now }),
        Order::Restart { member } => Some(Step::Restart { member }),
        Order::Upgrade { member } => Some(Step::Upgrade { member }),
        Order::Balk { member, saved } => Some(Step::Balk { member, saved }),
        Order::Recall { member, number, to } => Some(Step::Recall { member, number, to }),
    }
}

impl Rehearsal {
    /// Sets the stage anew with its members in this version, as long as it is new.
    fn turn_to(&mut self, setting: MemberSetting<'_>, version: Version) -> Result<(), LineStop>
        ensures early { OnOk result (self.old.is_new ≡ true) }
        ensures begins { OnOk result (BeginsIn (version_of version) self.new.world) }
        ensures goes_on { TurnsOn (setting.entry.table.now, setting.entry.widths.now) result self.old self.new }
        ensures stops { OnErr result (self.new.world ≡ self.old.world) }
        ensures no_more { OnOk result (self.new.is_new ≡ false) }
    {
        if !self.is_new {
            return Err(LineStop::Refused("bad line"));
        }
        let mut stage = stage_of(setting, self.count, version)?;
        stage.is_new = false;
        *self = stage;
        Ok(())
    }

    /// Takes a step, and shows what it did.
    fn show<W: Write>(&mut self, alloc: Global, step: &Step, out: &mut W) -> Result<(), LineStop>
        ensures { ShowsStep result (W.contents out.old) self.old (W.contents out.new) self.new }
    {
        let (sent, released) = (self.world.sent().len(), self.world.releases().len());
        let seen = self.world.step(step)?;
        let (_, new_sent) = self.world.sent().split_at(sent);
        let (_, new_releases) = self.world.releases().split_at(released);
        let shown = ShownStep {
            seen,
            before: sent,
            sent: new_sent,
            releases: new_releases,
        };
        put_scene(alloc, &mut self.text, &shown, out)?;
        Ok(())
    }

    /// Takes the step that a line orders, and shows what it did.
    fn play<W: Write>(&mut self, alloc: Global, order: Order, out: &mut W) -> Result<(), LineStop>
        ensures { PlaysLine result (W.contents out.old) self.old (W.contents out.new) self.new }
    {
        self.is_new = false;
        if let Order::At(moment) = order {
            self.now = moment;
            return Ok(());
        }
        match step_of(order, self.now) {
            Some(step) => self.show(alloc, &step, out),
            None => Err(LineStop::Refused("bad line")),
        }
    }
}

/// Sets the stage by the first line that is not ignored. Its members are in version 1 until the next line says else.
fn set_stage(
    setting: MemberSetting<'_>,
    order: Result<Order, ScriptFault>,
) -> Result<Rehearsal, LineStop>
    ensures begins { IfOk result (λ stage. BeginsIn One stage.world) }
    ensures stands { IfOk result (λ stage. BeginsOn (setting.entry.table.now, setting.entry.widths.now) stage) }
{
    match order {
        Ok(Order::Members(count)) => stage_of(setting, count, Version::One),
        Err(ScriptFault::OutOfMemory) => Err(LineStop::Unwritten(PutFault::OutOfMemory)),
        // Before there is a stage a tape is no fault of its own.
        _ => Err(LineStop::Refused("bad line")),
    }
}

/// Plays a line on the stage that is set.
fn play_order<W: Write>(
    setting: MemberSetting<'_>,
    stage: &mut Rehearsal,
    order: Result<Order, ScriptFault>,
    out: &mut W,
) -> Result<(), LineStop>
    ensures goes_on { PlaysOn (setting.entry.table.now, setting.entry.widths.now) result
        (W.contents out.old) stage.old (W.contents out.new) stage.new }
    ensures stops { StopsOn result (W.contents out.old) stage.old (W.contents out.new) stage.new }
{
    match order {
        Ok(Order::Wire(version)) => stage.turn_to(setting, version),
        Ok(order) => stage.play(setting.alloc, order, out),
        Err(fault) => Err(LineStop::from(fault)),
    }
}

/// Plays one line that is not ignored. The first such line sets the stage.
fn play_line<W: Write>(
    setting: MemberSetting<'_>,
    stage: &mut Option<Rehearsal>,
    words: &[u8],
    out: &mut W,
) -> Result<(), LineStop>
    ensures goes_on { PlaysStaged (setting.entry.table.now, setting.entry.widths.now) result
        (W.contents out.old) stage.old (W.contents out.new) stage.new }
    ensures stops { StopsStaged (setting.entry.table.now, setting.entry.widths.now) result (W.contents out.old) stage.old (W.contents out.new) }
{
    let order = order_of(setting.alloc, words);
    match stage {
        Some(stage) => play_order(setting, stage, order, out),
        None => {
            *stage = Some(set_stage(setting, order)?);
            Ok(())
        }
    }
}

/// The lines of a script.
fn lines_of<'a>(alloc: Global, script: &'a [u8]) -> Result<Vec<&'a [u8]>, AllocError> {
    script.split(|b| *b == b'\n').collect(alloc)
}

/// Plays all lines of a script, up to the first fault. Where there is none, the memory of the circuit is not given back.
fn play_all<'a, W: Write>(
    setting: MemberSetting<'_>,
    script: &[u8],
    out: &mut W,
) -> Result<(), Fault<'a>>
    ensures { PlaysScript (setting.entry.table.now, setting.entry.widths.now) result (W.contents out.old) (W.contents out.new) }
{
    let lines = lines_of(setting.alloc, script)?;
    let mut stage = None;
    for (index, words) in lines.iter().enumerate() {
        if !is_ignored(words) {
            if let Err(stop) = play_line(setting, &mut stage, words, out) {
                return Err(stop.at(index + 1));
            }
        }
    }
    // The process ends with its rehearsal, so the memory of the circuit is not given back piece by piece: that took up to a fifth of
    // the time.
    let _left = ManuallyDrop::new(stage);
    hand_on(out)?;
    Ok(())
}

/// What `rehearse` is asked: where its three files are, and what they are read from.
#[derive(Drop)]
pub struct RehearsalOrder<'a, R: Read + Drop> {
    pub paths: &'a ScriptPaths<'a>,
    pub table: R,
    pub widths: R,
    pub script: R,
}

/// The same, from the three files.
fn rehearsed<'a, R: Read + Drop, W: Write>(
    alloc: Global,
    order: RehearsalOrder<'a, R>,
    out: &mut W,
) -> Result<(), Fault<'a>>
    ensures { RehearsesUpTo (inputs (R.remaining order.entry.table) (R.remaining order.entry.widths)) result
        (W.contents out.old) (W.contents out.new) }
{
    let RehearsalOrder {
        paths,
        mut table,
        mut widths,
        mut script,
    } = order;
    let table = read_table(alloc, &mut table, paths.table)?;
    let widths = read_widths(alloc, &mut widths, paths.widths)?;
    let script = read_text(alloc, &mut script, paths.script)?;
    let setting = MemberSetting {
        alloc,
        table: &table,
        widths: &widths,
    };
    play_all(setting, &script, out)
}

/// Rehearses a circuit by a script: each line's step, what it sends and what it releases are written as they come.
///
/// The table is read and taken before the widths are read, and the widths before the script. The first fault ends it;
/// a faulty line leaves what the lines before it wrote.
///
/// Where it ends well, the memory of the circuit is left to the end of the process.
///
/// Whatever the lines are, what is written is what a circuit did, step by step, whose members are set up by these texts
/// and begin in one version, and its releases agree: no two of one number differ, and each released entry was offered for
/// its number.
pub fn rehearse<R: Read + Drop, W: Write, E: Write>(
    alloc: Global,
    order: RehearsalOrder<'_, R>,
    out: &mut W,
    err: &mut E,
) -> End
    ensures { HasRehearsed (inputs (R.remaining order.entry.table) (R.remaining order.entry.widths)) result
        (W.contents out.old) (W.contents out.new) }
{
    let outcome = rehearsed(alloc, order, out);
    if outcome.is_err() {
        // What the lines before the fault wrote stays.
        let _ = out.flush();
    }
    end_with(outcome, err)
}
