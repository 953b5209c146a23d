//! Releases that are printed as they come.

ghost use Rattle.std.specs.Prelude.{◌≡◌, option_copied};
ghost use Rattle.station.specs.Readiness.{slugs_of};
ghost use Rattle.release_texts.specs.ReleaseText.{lent};
ghost use Rattle.streams.specs.Writing.{Writes};
ghost use Rattle.serve_command.specs.Serving.{release_of, printing};
ghost use Rattle.serve_command.specs.Printed.{Printed, PrintedFront, printed};

use command_ends::Fault;
use driver::{HeardDatagram, Log, Outlet, Sink, TakenStep};
use line_check::{SetFault, Slug};
use release_texts::{PrintedRelease, put_release};
use station::Release;
use std::alloc::Global;
use std::io::Write;
use streams::{PutFault, hand_on};

/// What setting the entry of a release gave, its slugs lent.
fn lent_slugs(release: &Release) -> Result<&[Slug], SetFault>
    ensures { lent result ≡ slugs_of release.now.set }
{
    match &release.set {
        Ok(slugs) => Ok(slugs.as_slice()),
        Err(fault) => Err(*fault),
    }
}

/// Writes a release and hands it on at once.
fn announce<W: Write>(alloc: Global, release: &Release, out: &mut W) -> Result<(), PutFault>
    ensures { Writes result (W.contents out.old) (W.contents out.new) (release_of release.now) }
{
    let number = release.number.get();
    let printed = PrintedRelease {
        lead: "",
        number,
        entry: release.entry.lend(),
        set: lent_slugs(release),
    };
    put_release(alloc, &printed, out)?;
    hand_on(out)?;
    Ok(())
}

/// The same, if there is one.
fn announce_any<W: Write>(
    alloc: Global,
    release: Option<&Release>,
    out: &mut W,
) -> Result<(), PutFault>
    ensures { Writes result (W.contents out.old) (W.contents out.new) (printing (option_copied release.entry)) }
{
    match release {
        Some(release) => announce(alloc, release, out),
        None => Ok(()),
    }
}

/// Prints each release, and hands it on at once.
#[derive(Drop)]
pub(crate) struct Printer<'a, W: Write> {
    pub(crate) alloc: Global,
    pub(crate) out: &'a mut W,
}

impl<W: Write> Sink for Printer<'_, W> {
    ghost lived = { λ old new log. Printed old.out.ghost_name new.out.ghost_name (W.contents old.out.now) (W.contents new.out.now) log };

    ghost front = { λ old new log. PrintedFront old.out.ghost_name new.out.ghost_name (W.contents old.out.now) (W.contents new.out.now) log };

    ghost may = { λ _ _. Unit {0} };

    fn hear<E: Write>(&mut self, _heard: &HeardDatagram, _now: u64, _log: &mut Log<'_, E>) {}

    ghost fates = { printed (λ it. it.out.ghost_name) (λ it. W.contents it.out.now) };
}

impl<W: Write> Outlet for Printer<'_, W> {
    fn print<E: Write>(
        &mut self,
        step: &TakenStep,
        _log: &mut Log<'_, E>,
    ) -> Result<(), Fault<'static>> {
        announce_any(self.alloc, step.answer.release.as_ref(), self.out)?;
        Ok(())
    }

    ghost free = { λ _ _. tt };
}
