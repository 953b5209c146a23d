//! The files that a station reads before it starts.

ghost use Rattle.std.specs.Prelude.{◌≡◌, IfSome, option_map};
ghost use Rattle.commands.specs.Starts.{AreFilesOf, AreWidthsAt, GivesBesideRows, IsOffer, IsTableAt};

use crate::host::Host;
use code_table::CodeTable;
use command_ends::Fault;
use command_line::TapeOffer;
use configuration::Config;
use inputs::{read_table, read_tape, read_widths};
use std::alloc::Global;
use tape_frames::Tape;
use widths::Widths;

/// What they hold.
#[derive(Drop)]
pub(crate) struct Files {
    pub(crate) table: CodeTable,
    pub(crate) widths: Widths,
    /// The number and the tape that are offered, if any.
    pub(crate) offer: Option<(u32, Tape)>,
}

/// The code table in the file at a path.
fn table_at<'a, H: Host>(alloc: Global, host: &H, path: &'a str) -> Result<CodeTable, Fault<'a>>
    ensures { GivesBesideRows result (λ table. IsTableAt (H.text host.now) path.now table) }
{
    let mut input = host.open(path);
    read_table(alloc, &mut input, path)
}

/// The measures and widths in the file at a path.
fn widths_at<'a, H: Host>(alloc: Global, host: &H, path: &'a str) -> Result<Widths, Fault<'a>>
    ensures { GivesBesideRows result (λ widths. AreWidthsAt (H.text host.now) path.now widths) }
{
    let mut input = host.open(path);
    read_widths(alloc, &mut input, path)
}

/// The tape in the file at a path.
fn tape_at<'a, H: Host>(alloc: Global, host: &H, path: &'a str) -> Result<Tape, Fault<'a>>
    ensures { GivesBesideRows result (λ tape. IfSome (H.text host.now path.now) (λ frames. tape ≡ frames)) }
{
    let mut input = host.open(path);
    read_tape(alloc, &mut input, path)
}

/// The tape that is offered, with its number, if any.
fn offer_at<'a, H: Host>(
    alloc: Global,
    host: &H,
    offer: Option<TapeOffer<'a>>,
) -> Result<Option<(u32, Tape)>, Fault<'a>>
    ensures { GivesBesideRows result (λ made. IsOffer (H.text host.now) (option_map (λ o. (o.number, o.path.now)) offer.entry) made) }
{
    match offer {
        None => Ok(None),
        Some(TapeOffer { number, path }) => {
            let tape = tape_at(alloc, host, path)?;
            Ok(Some((number, tape)))
        }
    }
}

/// Reads the code table, the widths and the tape, in this order.
pub(crate) fn read_files<'a, H: Host>(
    alloc: Global,
    host: &H,
    config: &'a Config,
    offer: Option<TapeOffer<'a>>,
) -> Result<Files, Fault<'a>>
    ensures { GivesBesideRows result (AreFilesOf (H.text host.now) config.now (option_map (λ o. (o.number, o.path.now)) offer.entry)) }
{
    let table = table_at(alloc, host, &config.table)?;
    let widths = widths_at(alloc, host, &config.widths)?;
    let offer = offer_at(alloc, host, offer)?;
    Ok(Files {
        table,
        widths,
        offer,
    })
}
