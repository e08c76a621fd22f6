//! The desk: what a person does with bench files and their reports.
#![tactic(auto)]

use anyhow::{Context, Result};
use clap::ArgMatches;
use desk_schema::schema;
use desk_top::{
    Comparison, Style, Told, command, compared, expected, lint_told, list, map, run_bench, stats,
};
use std::process::ExitCode;
use std::{env, fs};

/// The bytes of a file.
fn bytes_of(rt: &HostRuntime, path: &str) -> Result<Vec<u8>> {
    fs::read(rt, path).context(format_args!("reading {path}"))
}

/// The text of a report's file.
fn text_of(rt: &HostRuntime, path: &str) -> Result<String> {
    let bytes = bytes_of(rt, path)?;
    Ok(String::from_utf8_lossy(rt.alloc(), &bytes)?)
}

/// Prints what a form tells.
fn print(rt: &HostRuntime, told: Told) -> Result<u8> {
    let text = told.text.as_str();
    print!(rt; "{text}")?;
    Ok(told.status)
}

/// The style that words ask for.
fn style_of(matches: &ArgMatches<'_>) -> Style {
    if matches.get_flag("json") {
        Style::Json
    } else if matches.get_flag("junit") {
        Style::Junit
    } else {
        Style::Plain
    }
}

/// Looks through files.
fn lint(rt: &HostRuntime, matches: &ArgMatches<'_>) -> Result<u8> {
    let strict = matches.get_flag("strict");
    let style = style_of(matches);
    let mut status = 0;
    for path in matches.get_strs("FILE").unwrap_or(&[]) {
        let bytes = bytes_of(rt, path)?;
        let told = lint_told(rt.alloc(), path, &bytes, strict, style)?;
        status = print(rt, told)?.max(status);
    }
    Ok(status)
}

/// Runs a file, or compares what it prints with what is expected.
fn run(rt: &HostRuntime, matches: &ArgMatches<'_>) -> Result<u8> {
    let path = matches.get_str("FILE").unwrap_or("");
    let bytes = bytes_of(rt, path)?;
    let traced = matches.get_flag("trace");
    let told = match matches.get_str("expect") {
        Some(report) => {
            let report = text_of(rt, report)?;
            let style = style_of(matches);
            expected(rt.alloc(), path, &bytes, traced, report.as_str(), style)?
        }
        None => run_bench(rt.alloc(), &bytes, traced)?,
    };
    print(rt, told)
}

/// Compares two reports.
fn diff(rt: &HostRuntime, matches: &ArgMatches<'_>) -> Result<u8> {
    let one = text_of(rt, matches.get_str("ONE").unwrap_or(""))?;
    let path = matches.get_str("OTHER").unwrap_or("");
    let other = text_of(rt, path)?;
    let comparison = Comparison {
        name: path,
        expected: one.as_str(),
        printed: other.as_str(),
    };
    print(rt, compared(rt.alloc(), comparison, style_of(matches))?)
}

/// Does what a form of one file asks for.
fn of_file(rt: &HostRuntime, form: &str, matches: &ArgMatches<'_>) -> Result<u8> {
    let bytes = bytes_of(rt, matches.get_str("FILE").unwrap_or(""))?;
    let told = match form {
        "list" => list(rt.alloc(), &bytes, matches.get_flag("trace"))?,
        "map" => map(rt.alloc(), &bytes)?,
        _ => stats(rt.alloc(), &bytes)?,
    };
    print(rt, told)
}

/// Does what the words ask for.
fn act(rt: &HostRuntime, matches: &ArgMatches<'_>) -> Result<u8> {
    match matches.subcommand() {
        Some(("lint", matches)) => lint(rt, matches),
        Some(("run", matches)) => run(rt, matches),
        Some(("diff", matches)) => diff(rt, matches),
        Some(("schema", _)) => {
            let text = schema(rt.alloc())?;
            print(rt, Told { status: 0, text })
        }
        Some((form, matches)) => of_file(rt, form, matches),
        None => Ok(2),
    }
}

fn main(rt: HostRuntime) -> Result<ExitCode> {
    let alloc = rt.alloc();
    let words: Vec<String> = env::args(&rt)?.collect(alloc)?;
    let command = command(alloc)?;
    match command.try_get_matches_from(words.as_slice()) {
        Ok(matches) => Ok(ExitCode::from(act(&rt, &matches)?)),
        Err(error) => {
            error.print(&rt)?;
            Ok(ExitCode::from(error.exit_code() as u8))
        }
    }
}
