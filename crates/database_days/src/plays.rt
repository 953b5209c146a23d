//! A circuit over databases that is played from its beginning.

ghost use Rattle.std.specs.Prelude.{◌≤◌, IfOk, length};
ghost use Rattle.protocol.specs.Limits.{most_members};
ghost use Rattle.tape_frames.specs.Entries.{version_of};
ghost use Rattle.world.specs.Playing.{HaveRows, WasPlayed};
ghost use Rattle.world.specs.Reach.{Agreed};

use acceptor_store::SqliteRows;
use code_table::CodeTable;
use rows_saved::{Identity, Rows};
use sqlite::{Connection, MemStore};
use std::alloc::AllocError;
use tape_frames::Version;
use widths::Widths;
use world::{PlayFault, Played, Step, member_count, play};

/// These members, each with rows at this version in a database of its own, which lies in memory.
fn with_databases(
    circuit: u16,
    count: u8,
    version: Version,
    members: Vec<(CodeTable, Widths)>,
) -> Result<Vec<(CodeTable, Widths, SqliteRows<MemStore>)>, AllocError>
    requires many { length members.items ≤ count }
    requires few { count ≤ most_members }
    ensures { IfOk result (λ v. HaveRows ⟦<SqliteRows<MemStore> as Rows>⟧ (version_of version) members.items v.items) }
{
    let alloc = *members.allocator();
    let mut parts = Vec::with_capacity(alloc, members.len())?;
    let mut me = 0;
    for (table, widths) in members {
        me += 1;
        let identity = Identity {
            circuit,
            member: me,
            members: count,
        };
        let conn = Connection::open_in_memory(alloc)?;
        match SqliteRows::create(alloc, conn, identity, version) {
            Ok(rows) => parts.push((table, widths, rows))?,
            Err(_) => return Err(AllocError),
        }
    }
    Ok(parts)
}

/// Plays a circuit from its beginning, its members over databases that are made for them in memory, at this version: takes
/// the steps in order, up to the first that is refused. A member that a step takes over goes on in the second layout of its
/// database.
///
/// Whatever the steps are, the releases agree, as [`world::play_in_memory`] says.
///
/// It is not played as `BadCount` where there are no members or more than 15; `OutOfMemory`, also where a member's
/// database could not be made.
pub fn play_in_databases(
    circuit: u16,
    version: Version,
    members: Vec<(CodeTable, Widths)>,
    steps: &[Step],
) -> Result<Played<SqliteRows<MemStore>>, PlayFault>
    ensures played { WasPlayed ⟦<SqliteRows<MemStore> as Rows>⟧ circuit members.items (version_of version) steps.now result }
    ensures agreed { IfOk result (λ p. Agreed ⟦<SqliteRows<MemStore> as Rows>⟧ p.world) }
{
    let alloc = *members.allocator();
    let Some(count) = member_count(members.len()) else {
        return Err(PlayFault::BadCount);
    };
    let Ok(members) = with_databases(circuit, count, version, members) else {
        return Err(PlayFault::OutOfMemory);
    };
    match play(alloc, circuit, members, steps) {
        Ok(played) => Ok(played),
        Err(_) => Err(PlayFault::OutOfMemory),
    }
}
