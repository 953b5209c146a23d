//! circuitd: one station of a wire circuit, and the tools round it.
#![tactic(auto)]

ghost use Rattle.commands.specs.Ends.{AsksForFile};

use command_ends::{End, Fault};
use command_line::{Asked, parse};
use commands::{Console, carry_out};
use host_process::{StandardError, fill_descriptors};
use rows_host_files::{HostFiles, RowFiles};
use std::env;
use std::io::{BufWriter, ErrorKind, LineWriter};
use std::process::ExitCode;

/// The words that the program was called with.
fn command_words<'a>(rt: &HostRuntime) -> Result<Vec<String>, Fault<'a>> {
    match env::args(rt) {
        Ok(args) => Ok(args.collect(rt.alloc())?),
        Err(e) if e.kind() == ErrorKind::OutOfMemory => Err(Fault::OutOfMemory),
        Err(_) => Err(Fault::Usage("an argument is not UTF-8")),
    }
}

/// Carries out what is asked over the standard streams and these files of rows. What is told on standard error is written a line
/// at a time, and lost where it takes nothing.
fn carry_out_here<F: RowFiles>(rt: &HostRuntime, asked: &Asked<'_>, row_files: &F) -> End
    requires { AsksForFile asked.now → F.may_make row_files.now }
{
    let Ok(mut err) = LineWriter::new(rt.alloc(), StandardError::new(rt.alloc())) else {
        return Fault::OutOfMemory.tell(&mut rt.stderr());
    };
    let Ok(out) = BufWriter::new(rt.alloc(), rt.stdout()) else {
        return Fault::OutOfMemory.tell(&mut err);
    };
    let mut console = Console {
        rt,
        row_files,
        input: rt.stdin(),
        out,
        err,
    };
    carry_out(&mut console, asked)
}

/// Runs the command that the program was called with, over these files of rows.
fn run<F: RowFiles>(rt: &HostRuntime, row_files: &F) -> End
    requires { F.may_make row_files.now }
{
    match command_words(rt) {
        Ok(words) => match parse(rt.alloc(), &words, &mut rt.stdout(), &mut rt.stderr()) {
            Ok(asked) => carry_out_here(rt, &asked, row_files),
            Err(end) => end,
        },
        Err(fault) => fault.tell(&mut rt.stderr()),
    }
}

/// The same over the files of the host. They meet a function over any files here alone: each such place costs the prover many
/// seconds.
fn run_here(rt: &HostRuntime) -> End {
    run(rt, &HostFiles)
}

fn main(rt: HostRuntime) -> ExitCode {
    fill_descriptors(&rt);
    run_here(&rt).status()
}
