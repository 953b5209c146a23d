//! Each command, run over the files that its words name.

ghost use Rattle.std.specs.Prelude.{◌≡◌, codes};
ghost use Rattle.std.specs.Io.KnownBytes.{Appends};
ghost use Rattle.command_ends.specs.declared.end.End.TheVariants.{Done};
ghost use Rattle.arguments.specs.declared.asked.Asked.TheVariants.{Upgrade};
ghost use Rattle.commands.specs.Ends.{AnswersAsked, AsksForFile, CreatesAsked, StartsAsked};
ghost use Rattle.commands.specs.Starts.{HasRun};

use crate::console::Console;
use crate::create_start::create;
use crate::editing::{run_fit, run_punch, run_spell};
use crate::host::ThisHost;
use crate::init_start::{run_init, run_renew};
use crate::reels::{run_import, run_survey};
use crate::run_start::run;
use crate::serve_start::serve;
use crate::start_up::Ground;
use crate::story::Story;
use answer_command::{AcceptorSeat, AnswerOrder, answer};
use check_command::{CheckOrder, check};
use command_ends::{End, end_with};
use command_line::{Asked, print_version};
use draw_command::{ChartingOrder, DrawOrder, chart, draw};
use inputs::{ScriptPaths, SettingPaths, TapePaths};
use plant_commands::{check_config, stop};
use rehearse_command::{RehearsalOrder, rehearse};
use rows_files::RowFiles;
use status_command::{Shape, StatusOrder, status};
use std::io::{Read, Write};
use streams::InputFile;
use tape_drawing::DrawingForm;

/// Checks the tape at its path by the table and the widths at theirs.
fn run_check<F: RowFiles, R: Read + Drop, W: Write + Drop, E: Write + Drop>(
    console: &mut Console<'_, F, R, W, E>,
    paths: &TapePaths<'_>,
    listing: bool,
) -> End {
    let rt = console.rt;
    let Console {
        input,
        out,
        err,
        ..
    } = console;
    let paths = *paths;
    let order = CheckOrder {
        paths: &paths,
        table: Story::of_file(rt, paths.table),
        widths: Story::of_file(rt, paths.widths),
        tape: Story::at(rt, paths.tape, input),
        listing,
    };
    check(rt.alloc(), order, out, err)
}

/// Draws the tape at its path by the table and the widths at theirs.
fn run_draw<F: RowFiles, R: Read + Drop, W: Write + Drop, E: Write + Drop>(
    console: &mut Console<'_, F, R, W, E>,
    paths: &TapePaths<'_>,
    page: DrawingForm,
) -> End {
    let rt = console.rt;
    let Console {
        input,
        out,
        err,
        ..
    } = console;
    let paths = *paths;
    let order = DrawOrder {
        paths: &paths,
        table: Story::of_file(rt, paths.table),
        widths: Story::of_file(rt, paths.widths),
        tape: Story::at(rt, paths.tape, input),
        page,
    };
    draw(rt.alloc(), order, out, err)
}

/// Charts the table and the widths at their paths.
fn run_chart<F: RowFiles, R: Read + Drop, W: Write + Drop, E: Write + Drop>(
    console: &mut Console<'_, F, R, W, E>,
    paths: &SettingPaths<'_>,
    page: DrawingForm,
) -> End {
    let rt = console.rt;
    let Console { out, err, .. } = console;
    let order = ChartingOrder {
        paths,
        table: InputFile::at(rt, paths.table),
        widths: InputFile::at(rt, paths.widths),
        page,
    };
    chart(rt.alloc(), order, out, err)
}

/// Rehearses by the script at its path, and the table and the widths at theirs.
fn run_rehearse<F: RowFiles, R: Read + Drop, W: Write + Drop, E: Write + Drop>(
    console: &mut Console<'_, F, R, W, E>,
    paths: &ScriptPaths<'_>,
) -> End {
    let rt = console.rt;
    let Console { out, err, .. } = console;
    let order = RehearsalOrder {
        paths,
        table: InputFile::at(rt, paths.table),
        widths: InputFile::at(rt, paths.widths),
        script: InputFile::at(rt, paths.script),
    };
    rehearse(rt.alloc(), order, out, err)
}

/// Tells in a shape how the station of the configuration at a path stands.
fn run_status<F: RowFiles, R: Read + Drop, W: Write + Drop, E: Write + Drop>(
    console: &mut Console<'_, F, R, W, E>,
    config: &str,
    shape: Shape,
) -> End {
    let rt = console.rt;
    let Console { out, err, .. } = console;
    status(rt, StatusOrder { config, shape }, out, err)
}

/// Runs the command that was asked for. A row file is made only where that is asked for. A tape or a text whose path is `-` is read from
/// the console's input; a path that can't be opened is told in the place in which the file would be read.
pub fn carry_out<F: RowFiles, R: Read + Drop, W: Write + Drop, E: Write + Drop>(
    console: &mut Console<'_, F, R, W, E>,
    asked: &Asked<'_>,
) -> End
    requires asked { AsksForFile asked.now → F.may_make console.old.row_files.now }
    ensures answered { AnswersAsked asked.now (R.remaining console.old.input) (W.contents console.old.out) (W.contents console.new.out) result }
    ensures created { CreatesAsked asked.now F.leaves console.old.row_files.now (W.contents console.old.out) (W.contents console.new.out) result }
    ensures started { StartsAsked asked.now (HasRun F.leaves F.opens F.Rows.version F.closes console.old.row_files.now) result }
    ensures over { (path : _) → asked.now ≡ Upgrade path → result ≡ Done → Appends (W.contents console.old.out) (W.contents console.new.out) (codes "layout 2\n") }
{
    let rt = console.rt;
    let host = ThisHost { rt };
    let ground = Ground {
        rt,
        host: &host,
        row_files: console.row_files,
    };
    match asked {
        Asked::Answer { circuit, me, wire } => {
            let Console {
                input,
                out,
                err,
                ..
            } = console;
            let seat = AcceptorSeat {
                circuit: *circuit,
                me: *me,
                wire: *wire,
            };
            answer(rt.alloc(), AnswerOrder { seat, input }, out, err)
        }
        Asked::Check { paths, listing } => run_check(console, paths, *listing),
        Asked::Draw { paths, page } => run_draw(console, paths, *page),
        Asked::Chart { paths, page } => run_chart(console, paths, *page),
        Asked::Punch {
            paths,
            ligatures,
            room,
        } => run_punch(console, paths, *ligatures, *room),
        Asked::Spell { paths, plain } => run_spell(console, paths, *plain),
        Asked::Fit { paths, text } => run_fit(console, paths, *text),
        Asked::Rows { path } => {
            let outcome = ground.row_files.list(rt, *path, &mut console.out);
            end_with(outcome, &mut console.err)
        }
        Asked::Upgrade { path } => {
            let outcome = ground.row_files.upgrade(rt, *path, &mut console.out);
            end_with(outcome, &mut console.err)
        }
        Asked::Init(plan) => run_init(console, plan),
        Asked::Renew(plan) => run_renew(console, plan),
        Asked::Create(plan) => create(&ground, *plan, &mut console.out, &mut console.err),
        Asked::Serve(plan) => serve(&ground, *plan, &mut console.out, &mut console.err),
        Asked::Run(plan) => run(&ground, *plan, &mut console.err),
        Asked::CheckConfig { config } => {
            check_config(rt, *config, &mut console.out, &mut console.err)
        }
        Asked::Stop { config } => stop(rt, *config, &mut console.err),
        Asked::Status { config, json } => {
            let shape = if *json { Shape::Json } else { Shape::Lines };
            run_status(console, *config, shape)
        }
        Asked::Watch { config } => run_status(console, *config, Shape::Watched),
        Asked::Rehearse { paths } => run_rehearse(console, paths),
        Asked::Import(plan) => run_import(console, plan),
        Asked::Survey { paths, tapes } => run_survey(console, paths, *tapes),
        Asked::Version => print_version(&mut console.out, &mut console.err),
    }
}
