use clap::{Arg, ArgAction, Command};
use std::alloc::{AllocError, Global};

/// How a word of the command line is given.
#[derive(Clone, Copy)]
enum Kind {
    /// As `--NAME`, or not at all.
    Flag,
    /// As `--NAME REPORT`, or not at all.
    Report,
    /// As the path of a file, always.
    File,
    /// As the paths of files, at least one.
    Files,
}

use Kind::{File, Files, Flag, Report};

/// A word of the command line: how it is given, its name, and what help says of it.
#[derive(Clone, Copy)]
struct Word(Kind, &'static str, &'static str);

/// A form: its name, what help says of it, and its words.
#[derive(Clone, Copy)]
struct Form(&'static str, &'static str, &'static [Word]);

/// A word for a bench file.
const BENCH: Word = Word(File, "FILE", "A bench file");

/// `mcal lint`.
const LINT: Form = Form(
    "lint",
    "Tell all that is wrong in bench files, with places, and what may not be meant",
    &[
        Word(Flag, "strict", "Warnings count as errors"),
        Word(Flag, "json", "Print a line of JSON for each file"),
        Word(Files, "FILE", "Bench files"),
    ],
);

/// `mcal list`.
const LIST: Form = Form(
    "list",
    "Print a script with what each line printed beside it",
    &[
        Word(Flag, "trace", "Tell how many steps each line made"),
        BENCH,
    ],
);

/// `mcal diff`.
const DIFF: Form = Form(
    "diff",
    "Print where two reports differ, by the lines of their script",
    &[
        Word(Flag, "json", "Print a line of JSON"),
        Word(File, "ONE", "A report"),
        Word(File, "OTHER", "Another report"),
    ],
);

/// `mcal run`.
const RUN: Form = Form(
    "run",
    "Run a bench file and print its report",
    &[
        Word(Flag, "trace", "A line for each step"),
        Word(
            Report,
            "expect",
            "Print where the report differs from this one, with status 8",
        ),
        Word(Flag, "junit", "Print what differs as a suite of JUnit"),
        Word(Flag, "json", "Print what differs as a line of JSON"),
        BENCH,
    ],
);

/// `mcal stats`.
const STATS: Form = Form(
    "stats",
    "Count steps, windows, waits and what was held in a run",
    &[BENCH],
);

/// `mcal schema`.
const SCHEMA: Form = Form("schema", "Print the JSON schema of a configuration", &[]);

/// `mcal map`.
const MAP: Form = Form(
    "map",
    "Say whose driver words and interrupt lines are",
    &[BENCH],
);

/// All forms, in the order of the help.
static FORMS: [Form; 7] = [LINT, LIST, DIFF, RUN, STATS, SCHEMA, MAP];

/// What the command line does with a word of a kind.
fn action_of(kind: Kind) -> ArgAction {
    match kind {
        Flag => ArgAction::SetTrue,
        Report | File => ArgAction::Set,
        Files => ArgAction::Append,
    }
}

/// An argument with what help says of it, and what the command line does with it.
fn helped<'a>(alloc: Global, word: Word) -> Arg<'a> {
    let Word(kind, name, help) = word;
    Arg::new(alloc, name).help(help).action(action_of(kind))
}

/// The argument for a word.
fn argument<'a>(alloc: Global, word: Word) -> Arg<'a> {
    let Word(kind, name, _) = word;
    let argument = helped(alloc, word);
    match kind {
        Flag => argument.long(name),
        Report => argument.long(name).value_name("REPORT"),
        File => argument.required(true),
        Files => argument.required(true).num_args(1..),
    }
}

/// The command of a form.
fn command_of<'a>(alloc: Global, form: Form) -> Result<Command<'a>, AllocError> {
    let Form(name, about, words) = form;
    let mut command = Command::new(alloc, name).about(about);
    for word in words {
        command = command.arg(argument(alloc, *word))?;
    }
    Ok(command)
}

/// The forms of the program.
pub fn command<'a>(alloc: Global) -> Result<Command<'a>, AllocError> {
    let mut command = Command::new(alloc, "mcal")
        .about("What a person does with bench files and their reports")
        .version("1.0")
        .subcommand_required(true)
        .arg_required_else_help(true);
    for form in &FORMS {
        command = command.subcommand(command_of(alloc, *form)?)?;
    }
    Ok(command)
}
