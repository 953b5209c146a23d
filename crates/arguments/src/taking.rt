//! What the words of a call ask for.

use crate::asked::{Asked, ReelPlan, Unasked};
use crate::grammar::grammar;
use crate::plan::{
    AllNamed, CreatePlan, InitPlan, KeyAsked, Mismatch, Named, Plan, RenewPlan, RunPlan, TapeOffer,
    all_of, creation_of, key_of, members_of, offer_of,
};
use ballots::Member;
use clap::{ArgMatches, Error};
use inputs::{ScriptPaths, SettingPaths, StoryPaths, TapePaths};
use log_terms::{LogTerms, loudness_of};
use std::alloc::Global;
use tape_drawing::DrawingForm;
use tape_frames::Version;

fn matches_of<'a>(alloc: Global, words: &'a [String]) -> Result<ArgMatches<'a>, Error> {
    let first = match words.get(1) {
        Some(first) => first.as_str(),
        None => "",
    };
    grammar(alloc, first)?.try_get_matches_from(words)
}

/// The version whose number a line gives for an option.
fn version_of<'a>(matches: &ArgMatches<'a>, name: &str) -> Option<Version> {
    match matches.get_str(name) {
        Some("1") => Some(Version::One),
        Some("2") => Some(Version::Two),
        _ => None,
    }
}

fn answer_of<'a>(matches: &ArgMatches<'a>) -> Option<Asked<'a>> {
    let circuit = matches.get_one::<u16>("CIRCUIT")?;
    let me = Member::new(matches.get_one::<u8>("MEMBER")?)?;
    let wire = version_of(matches, "wire")?;
    Some(Asked::Answer { circuit, me, wire })
}

fn tape_paths_of<'a>(matches: &ArgMatches<'a>) -> Option<TapePaths<'a>> {
    Some(TapePaths {
        table: matches.get_str("TABLE")?,
        widths: matches.get_str("WIDTHS")?,
        tape: matches.get_str("TAPE")?,
    })
}

fn check_of<'a>(matches: &ArgMatches<'a>) -> Option<Asked<'a>> {
    let paths = tape_paths_of(matches)?;
    let listing = matches.get_flag("holes");
    Some(Asked::Check { paths, listing })
}

fn page_of<'a>(matches: &ArgMatches<'a>) -> DrawingForm {
    if matches.get_flag("html") {
        DrawingForm::Html
    } else {
        DrawingForm::Svg
    }
}

fn draw_of<'a>(matches: &ArgMatches<'a>) -> Option<Asked<'a>> {
    let paths = tape_paths_of(matches)?;
    let page = page_of(matches);
    Some(Asked::Draw { paths, page })
}

fn setting_paths_of<'a>(matches: &ArgMatches<'a>) -> Option<SettingPaths<'a>> {
    Some(SettingPaths {
        table: matches.get_str("TABLE")?,
        widths: matches.get_str("WIDTHS")?,
    })
}

fn chart_of<'a>(matches: &ArgMatches<'a>) -> Option<Asked<'a>> {
    let paths = setting_paths_of(matches)?;
    let page = page_of(matches);
    Some(Asked::Chart { paths, page })
}

fn punch_of<'a>(matches: &ArgMatches<'a>) -> Option<Asked<'a>> {
    let paths = StoryPaths {
        table: matches.get_str("TABLE")?,
        story: matches.get_str("TEXT")?,
    };
    let ligatures = matches.get_str("ligatures");
    let room = match matches.get_str("most")? {
        "4096" => Version::One,
        _ => Version::Two,
    };
    Some(Asked::Punch {
        paths,
        ligatures,
        room,
    })
}

fn spell_of<'a>(matches: &ArgMatches<'a>) -> Option<Asked<'a>> {
    let paths = StoryPaths {
        table: matches.get_str("TABLE")?,
        story: matches.get_str("TAPE")?,
    };
    let plain = matches.get_flag("plain");
    Some(Asked::Spell { paths, plain })
}

fn fit_of<'a>(matches: &ArgMatches<'a>) -> Option<Asked<'a>> {
    let paths = tape_paths_of(matches)?;
    let text = matches.get_flag("text");
    Some(Asked::Fit { paths, text })
}

fn rows_of<'a>(matches: &ArgMatches<'a>) -> Option<Asked<'a>> {
    let path = matches.get_str("DB")?;
    Some(Asked::Rows { path })
}

fn upgrade_of<'a>(matches: &ArgMatches<'a>) -> Option<Asked<'a>> {
    let path = matches.get_str("DB")?;
    Some(Asked::Upgrade { path })
}

fn create_of<'a>(matches: &ArgMatches<'a>) -> Option<Asked<'a>> {
    let config = matches.get_str("CONFIG")?;
    let layout = version_of(matches, "layout")?;
    Some(Asked::Create(CreatePlan { config, layout }))
}

/// The member that a line names, if it names one.
fn member_of<'a>(matches: &ArgMatches<'a>) -> Option<Member> {
    Member::new(matches.get_one::<u8>("member")?)
}

/// What a line names of what plants are made of.
fn named_of<'a>(matches: &ArgMatches<'a>) -> Named<'a> {
    Named {
        members: members_of(member_of(matches), matches.get_flag("all")),
        stations: matches.get_str("stations"),
        table: matches.get_str("table"),
        widths: matches.get_str("widths"),
    }
}

/// The key that a line asks for.
fn init_key_of<'a>(matches: &ArgMatches<'a>) -> KeyAsked<'a> {
    key_of(matches.get_str("key"), matches.get_flag("new-key"))
}

/// To make plants of what is named.
fn fresh_of<'a>(matches: &ArgMatches<'a>, all: &AllNamed<'a>) -> Option<Asked<'a>> {
    let plan = InitPlan {
        folder: matches.get_str("FOLDER")?,
        circuit: matches.get_one::<u16>("circuit")?,
        members: all.members,
        stations: all.stations,
        table: all.table,
        widths: all.widths,
        key: init_key_of(matches),
    };
    Some(Asked::Init(plan))
}

/// To make plants of the old one in this folder, and of what is named.
fn renewed_of<'a>(matches: &ArgMatches<'a>, old: &'a str, named: &Named<'a>) -> Option<Asked<'a>> {
    let plan = RenewPlan {
        folder: matches.get_str("FOLDER")?,
        circuit: matches.get_one::<u16>("circuit")?,
        old,
        members: named.members,
        stations: named.stations,
        table: named.table,
        widths: named.widths,
        key: init_key_of(matches),
    };
    Some(Asked::Renew(plan))
}

fn init_of<'a>(matches: &ArgMatches<'a>) -> Result<Option<Asked<'a>>, Mismatch> {
    let named = named_of(matches);
    match matches.get_str("from") {
        Some(old) => Ok(renewed_of(matches, old, &named)),
        None => match all_of(&named) {
            Ok(all) => Ok(fresh_of(matches, &all)),
            Err(mismatch) => Err(mismatch),
        },
    }
}

fn check_config_of<'a>(matches: &ArgMatches<'a>) -> Option<Asked<'a>> {
    let config = matches.get_str("CONFIG")?;
    Some(Asked::CheckConfig { config })
}

fn stop_of<'a>(matches: &ArgMatches<'a>) -> Option<Asked<'a>> {
    let config = matches.get_str("CONFIG")?;
    Some(Asked::Stop { config })
}

/// The grammar of a call takes one of the two flags at most.
fn status_of<'a>(matches: &ArgMatches<'a>) -> Option<Asked<'a>> {
    let config = matches.get_str("CONFIG")?;
    if matches.get_flag("watch") {
        return Some(Asked::Watch { config });
    }
    let json = matches.get_flag("json");
    Some(Asked::Status { config, json })
}

/// To serve, with what is offered first and the version that rows are made in, if any are.
fn plan_of<'a>(
    matches: &ArgMatches<'a>,
    offer: Option<TapeOffer<'a>>,
    create: Option<Version>,
) -> Option<Asked<'a>> {
    let plan = Plan {
        config: matches.get_str("CONFIG")?,
        turns: matches.get_one::<u32>("turns")?,
        create,
        offer,
        withdraw: matches.get_one::<u32>("withdraw"),
        seek: matches.get_one::<u32>("seek"),
    };
    Some(Asked::Serve(plan))
}

/// Of two mismatches that of the offer is the first.
fn serve_of<'a>(matches: &ArgMatches<'a>) -> Result<Option<Asked<'a>>, Mismatch> {
    let offer = offer_of(matches.get_one::<u32>("number"), matches.get_str("tape"))?;
    let create = creation_of(matches.get_flag("create"), version_of(matches, "layout"))?;
    Ok(plan_of(matches, offer, create))
}

fn run_of<'a>(matches: &ArgMatches<'a>) -> Option<Asked<'a>> {
    let config = matches.get_str("CONFIG")?;
    let layout = version_of(matches, "layout")?;
    let create = matches.get_flag("create").then_some(layout);
    let loudness = loudness_of(matches.get_flag("quiet"), matches.get_flag("verbose"));
    let times = matches.get_flag("times");
    let log = LogTerms { loudness, times };
    let plan = RunPlan {
        config,
        create,
        log,
    };
    Some(Asked::Run(plan))
}

fn rehearse_of<'a>(matches: &ArgMatches<'a>) -> Option<Asked<'a>> {
    let paths = ScriptPaths {
        table: matches.get_str("TABLE")?,
        widths: matches.get_str("WIDTHS")?,
        script: matches.get_str("SCRIPT")?,
    };
    Some(Asked::Rehearse { paths })
}

fn import_of<'a>(matches: &ArgMatches<'a>) -> Option<Asked<'a>> {
    let plan = ReelPlan {
        path: matches.get_str("REEL")?,
        levels: matches.get_str("levels")?,
        mask: matches.get_str("mask")?,
        inverted: matches.get_flag("invert"),
        split: matches.get_one::<u32>("split"),
        trims: matches.get_flag("trim"),
        folder: matches.get_str("to")?,
    };
    Some(Asked::Import(plan))
}

/// The words at the end of a line, where they are these texts.
fn last_words<'a>(words: &'a [String], texts: &[&str]) -> Option<&'a [String]> {
    let (_, last) = words.split_at(words.len().saturating_sub(texts.len()));
    let same = last
        .iter()
        .zip(texts.iter())
        .all(|(word, text)| word.as_str() == *text);
    same.then_some(last)
}

/// To survey these tapes.
fn survey_over<'a>(matches: &ArgMatches<'a>, tapes: &'a [String]) -> Option<Asked<'a>> {
    let paths = setting_paths_of(matches)?;
    Some(Asked::Survey { paths, tapes })
}

/// The tapes are the last words of a line, unless a `--` is among them.
fn survey_of<'a>(
    words: &'a [String],
    matches: &ArgMatches<'a>,
) -> Result<Option<Asked<'a>>, Mismatch> {
    let Some(texts) = matches.get_strs("TAPE") else {
        return Ok(None);
    };
    match last_words(words, texts) {
        Some(tapes) => Ok(survey_over(matches, tapes)),
        None => Err(Mismatch::TapesApart),
    }
}

fn asked_of<'a>(
    words: &'a [String],
    matches: &ArgMatches<'a>,
) -> Result<Option<Asked<'a>>, Mismatch> {
    let Some((name, given)) = matches.subcommand() else {
        return Ok(None);
    };
    let asked = match name {
        "answer" => answer_of(given),
        "check" => check_of(given),
        "draw" => draw_of(given),
        "chart" => chart_of(given),
        "punch" => punch_of(given),
        "spell" => spell_of(given),
        "fit" => fit_of(given),
        "rows" => rows_of(given),
        "upgrade" => upgrade_of(given),
        "init" => return init_of(given),
        "create" => create_of(given),
        "serve" => return serve_of(given),
        "run" => run_of(given),
        "check-config" => check_config_of(given),
        "stop" => stop_of(given),
        "status" => status_of(given),
        "rehearse" => rehearse_of(given),
        "import" => import_of(given),
        "survey" => return survey_of(words, given),
        _ => None,
    };
    Ok(asked)
}

/// The command that the words give, with all that it is given; the first word is the program's own name.
///
/// `Err` is what `clap` says of words that ask for no command, or what of them does not go together. Of two such mistakes
/// `clap`'s is the first.
pub fn asked_by<'a>(alloc: Global, words: &'a [String]) -> Result<Asked<'a>, Unasked> {
    let matches = match matches_of(alloc, words) {
        Ok(matches) => matches,
        Err(error) => return Err(Unasked::Clap(error)),
    };
    match asked_of(words, &matches) {
        Ok(Some(asked)) => Ok(asked),
        Ok(None) => Err(Unasked::NoCommand),
        Err(mismatch) => Err(Unasked::Mismatched(mismatch)),
    }
}
