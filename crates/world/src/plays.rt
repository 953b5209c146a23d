//! A circuit that is played from its beginning.

ghost use Rattle.std.specs.Prelude.{◌≡◌, ℕ, IfOk, IfErr, length};
ghost use Rattle.tape_frames.specs.Entries.{version_of};
ghost use Rattle.world.specs.Founding.{AreNewlyMade, IsCount, IsNewlyMade, IsUnfounded};
ghost use Rattle.world.specs.Playing.{HaveRows, IsBeginning, IsFresh, IsUnplayed, Musters, PlaysParts, WasPlayed};
ghost use Rattle.world.specs.Reach.{Agreed, AllHonest, IsReached};
ghost use Rattle.world.specs.Taking.{StopsAt};

use crate::step::{RunStop, Step};
use crate::world::{NewWorldFault, World, member_count};
use code_table::CodeTable;
use rows_saved::{MemoryRows, Rows};
use std::alloc::{AllocError, Global};
use tape_frames::Version;
use widths::Widths;

/// A circuit that was played.
#[derive(Drop)]
pub struct Played<R: Rows> {
    /// The circuit after the steps that were taken.
    pub world: World<R>,
    /// Whether all steps were taken, or which one was refused.
    pub run: Result<(), RunStop>,
}

/// What a circuit in memory begins with: its number, the version of its rows, and its members by what they set tapes by, in order.
#[derive(Drop)]
pub struct Founders {
    pub circuit: u16,
    pub version: Version,
    pub members: Vec<(CodeTable, Widths)>,
}

/// Why a circuit was not played.
#[derive(Clone, Copy, PartialEq, Eq)]
pub enum PlayFault {
    /// There are no members, or more than 15.
    BadCount,
    /// The stations, or their rows, could not be kept in memory.
    OutOfMemory,
}

/// Plays a circuit from its beginning, its members over these rows: takes the steps in order, up to the first that is
/// refused.
///
/// Where the rows were just made for the members, nobody else writes to them, and they read back what was saved, then,
/// whatever the steps and the versions of the rows are, the releases agree: no two of one number differ, each released
/// entry was offered for its number, and the slugs of a tape are what its member's code table and widths make of it.
///
/// It is not played where [`World::new`] answers a fault, and in no other case.
pub fn play<R: Rows>(
    alloc: Global,
    circuit: u16,
    members: Vec<(CodeTable, Widths, R)>,
    steps: &[Step],
) -> Result<Played<R>, NewWorldFault<R>>
    ensures unfounded { IfErr result (IsUnfounded members.items) }
    ensures count { IfOk result (λ _. IsCount (length members.items)) }
    // The world is what these steps make of these members, each at the version of its rows.
    ensures plays { IfOk result (λ p. PlaysParts R.Rows circuit members.items steps.now p.world p.run) }
    ensures stops { IfOk result (λ p. IfErr p.run (StopsAt steps.now p.world)) }
    // The headline.
    ensures reached { IfOk result (λ p. AreNewlyMade R.Rows members.items → IsReached R.Rows p.world) }
    ensures agreed { IfOk result (λ p. AreNewlyMade R.Rows members.items → AllHonest R.honest p.world → Agreed R.Rows p.world) }
{
    match World::new(alloc, circuit, members) {
        Ok(world) => {
            let mut world = world;
            let run = world.run(steps);
            Ok(Played { world, run })
        }
        Err(fault) => Err(fault),
    }
}

/// Empty rows in memory at this version, for one member.
fn rows_at(alloc: Global, version: Version) -> MemoryRows
    ensures new { IsNewlyMade ⟦<MemoryRows as Rows>⟧ result }
    ensures at { ⟦<MemoryRows as Rows>⟧.version result ≡ version_of version }
{
    MemoryRows::at(alloc, version)
}

/// These members, each with rows in memory at this version.
fn with_memory(
    alloc: Global,
    version: Version,
    members: Vec<(CodeTable, Widths)>,
) -> Result<Vec<(CodeTable, Widths, MemoryRows)>, AllocError>
    ensures { IfOk result (λ v. HaveRows ⟦<MemoryRows as Rows>⟧ (version_of version) members.items v.items) }
{
    let mut parts = Vec::with_capacity(alloc, members.len())?;
    for (table, widths) in members {
        parts.push((table, widths, rows_at(alloc, version)))?;
    }
    Ok(parts)
}

/// The members of a circuit, each with empty rows in memory at this version.
fn newly_made(
    alloc: Global,
    version: Version,
    members: Vec<(CodeTable, Widths)>,
) -> Result<Vec<(CodeTable, Widths, MemoryRows)>, PlayFault>
    ensures { Musters ⟦<MemoryRows as Rows>⟧ (version_of version) members.items result }
{
    if member_count(members.len()).is_none() {
        return Err(PlayFault::BadCount);
    }
    match with_memory(alloc, version, members) {
        Ok(members) => Ok(members),
        Err(_) => Err(PlayFault::OutOfMemory),
    }
}

/// A circuit of these members, numbered from 1 in the list's order, over empty rows in memory at this version. Nothing went
/// between them.
///
/// There is none as `BadCount` where there are no members or more than 15; `OutOfMemory`.
pub fn circuit_in_memory(
    alloc: Global,
    circuit: u16,
    version: Version,
    members: Vec<(CodeTable, Widths)>,
) -> Result<World<MemoryRows>, PlayFault>
    ensures unplayed { IfErr result (IsUnplayed (length members.items)) }
    ensures begins { IfOk result (IsBeginning ⟦<MemoryRows as Rows>⟧ circuit members.items) }
    // It stands for a fresh state of the circuit of these members, all at this version.
    ensures fresh { IfOk result (IsFresh ⟦<MemoryRows as Rows>⟧ circuit members.items (λ _. version_of version)) }
    ensures reached { IfOk result (IsReached ⟦<MemoryRows as Rows>⟧) }
{
    let parts = newly_made(alloc, version, members)?;
    match World::new(alloc, circuit, parts) {
        Ok(world) => Ok(world),
        Err(_) => Err(PlayFault::OutOfMemory),
    }
}

/// Plays a circuit from its beginning, its members over empty rows in memory: takes the steps in order, up to the first that
/// is refused.
///
/// Whatever the steps are, the releases agree: no two of one number differ, each released entry was offered for its
/// number, and the slugs of a tape are what its member's code table and widths make of it.
///
/// It is not played as `BadCount` where there are no members or more than 15; `OutOfMemory`.
pub fn play_in_memory(
    alloc: Global,
    by: Founders,
    steps: &[Step],
) -> Result<Played<MemoryRows>, PlayFault>
    ensures played { WasPlayed ⟦<MemoryRows as Rows>⟧ by.circuit by.members.items (version_of by.version) steps.now result }
    ensures agreed { IfOk result (λ p. Agreed ⟦<MemoryRows as Rows>⟧ p.world) }
{
    let Founders {
        circuit,
        version,
        members,
    } = by;
    let members = newly_made(alloc, version, members)?;
    match play(alloc, circuit, members, steps) {
        Ok(played) => Ok(played),
        Err(_) => Err(PlayFault::OutOfMemory),
    }
}
