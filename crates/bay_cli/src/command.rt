// The command line as `clap` knows it: the commands and their options.
ghost use Rattle.std.specs.Prelude.{◌≡◌, false, IfOk};
ghost use Rattle.clap.specs.Words.{app_of, new_app, rule_of};
ghost use Rattle.clap.specs.declared.builder.command.Command.TheViews.{out-Command as fields_of};
ghost use Rattle.bay_cli.specs.Jobs.{job_app, program_app};
ghost use Rattle.bay_cli.specs.Options.{app_in, rule_in, with_commands};

use clap::builder::ValueParser;
use clap::{Arg, ArgAction, Command};
use std::alloc::{AllocError, Global};

// The version of the program, of its formats and of its fault numbers. CHANGELOG.md lists the
// changes of each version.
const VERSION: &str = "1.17.0";

// The note below the options in the help of a command with a program.
const WANTED: &str = "Exactly one of --logic and --image is needed.";

// The note below the options in the help of `audit`.
const WANTED_OF_AUDIT: &str =
    "Exactly one of --logic and --image is needed, and --rules or --diagram, or both.";

// The value of an option: none, a text, or a number from the least to the greatest. The text is the
// name of the value in help.
#[derive(Clone, Copy)]
enum OptionValue {
    Nothing,
    Text(&'static str),
    Number(&'static str, u64, u64),
}

// An option `--ID VALUE` of a command.
#[derive(Clone, Copy)]
struct OptionSpec {
    id: &'static str,
    value: OptionValue,
    required: bool,
    help: &'static str,
}

// A command with its options, and with the note below them in help.
#[derive(Clone, Copy)]
struct Entry {
    name: &'static str,
    about: &'static str,
    note: Option<&'static str>,
    options: &'static [OptionSpec],
}

// The bay file.
const BAY: OptionSpec = OptionSpec {
    id: "bay",
    value: OptionValue::Text("F"),
    required: true,
    help: "Bay file",
};

// The program, in either form.
const LOGIC: OptionSpec = OptionSpec {
    id: "logic",
    value: OptionValue::Text("F"),
    required: false,
    help: "Program in Instruction List",
};

const IMAGE: OptionSpec = OptionSpec {
    id: "image",
    value: OptionValue::Text("F"),
    required: false,
    help: "Compiled program, in place of --logic",
};

// Whether to log.
const LOG: OptionSpec = OptionSpec {
    id: "log",
    value: OptionValue::Nothing,
    required: false,
    help: "Log to standard error what happens, and why",
};

// All commands.
const ENTRIES: [Entry; 5] = [
    Entry {
        name: "check",
        about: "Check a bay file and a program",
        note: Some(WANTED),
        options: &[BAY, LOGIC, IMAGE, LOG],
    },
    Entry {
        name: "replay",
        about: "Replay the scenario on standard input",
        note: None,
        options: &[LOG],
    },
    Entry {
        name: "serve",
        about: "Serve clients on 127.0.0.1",
        note: Some(WANTED),
        options: &[
            BAY,
            LOGIC,
            IMAGE,
            OptionSpec {
                id: "port",
                value: OptionValue::Number("N", 1, 65_535),
                required: true,
                help: "Port for clients",
            },
            OptionSpec {
                id: "turns",
                value: OptionValue::Number("N", 0, 4_294_967_295),
                required: true,
                help: "Number of turns",
            },
            OptionSpec {
                id: "trace",
                value: OptionValue::Text("F"),
                required: false,
                help: "Trace file, one line per turn",
            },
            OptionSpec {
                id: "process",
                value: OptionValue::Number("P", 1, 65_535),
                required: false,
                help: "Port for the process, used when the trace is done",
            },
            OptionSpec {
                id: "tell",
                value: OptionValue::Text("WHAT"),
                required: false,
                help: "What else the process is told: releases",
            },
            OptionSpec {
                id: "supervise",
                value: OptionValue::Number("MS", 100, 60_000),
                required: false,
                help: "Most milliseconds between two lines of the process",
            },
            OptionSpec {
                id: "key",
                value: OptionValue::Text("F"),
                required: false,
                help: "Key file, whose key the process has to know",
            },
            OptionSpec {
                id: "record",
                value: OptionValue::Text("F"),
                required: false,
                help: "New file for a trace of the session, for a replay",
            },
            OptionSpec {
                id: "record-most",
                value: OptionValue::Number("OCTETS", 1, 16_777_216),
                required: false,
                help: "Most octets of this trace, or 16000000",
            },
            OptionSpec {
                id: "idle",
                value: OptionValue::Number("S", 10, 3_600),
                required: false,
                help: "Most seconds for which a client may send nothing",
            },
            OptionSpec {
                id: "cycle",
                value: OptionValue::Number("MS", 1, 100),
                required: false,
                help: "Least milliseconds that a turn lasts",
            },
            OptionSpec {
                id: "rules",
                value: OptionValue::Text("F"),
                required: false,
                help: "Rules file: serve only if each rule holds",
            },
            OptionSpec {
                id: "diagram",
                value: OptionValue::Text("F"),
                required: false,
                help: "Diagram file: serve only if no release is a hazard in it",
            },
            LOG,
        ],
    },
    Entry {
        name: "compile",
        about: "Compile a program for a bay",
        note: None,
        options: &[
            BAY,
            OptionSpec {
                id: "logic",
                value: OptionValue::Text("F"),
                required: true,
                help: "Program in Instruction List",
            },
            OptionSpec {
                id: "out",
                value: OptionValue::Text("F"),
                required: true,
                help: "File for the compiled program",
            },
            LOG,
        ],
    },
    Entry {
        name: "audit",
        about: "Prove or refute rules of a bay and a program, and that no release is a hazard",
        note: Some(WANTED_OF_AUDIT),
        options: &[
            BAY,
            LOGIC,
            IMAGE,
            OptionSpec {
                id: "rules",
                value: OptionValue::Text("F"),
                required: false,
                help: "Rules file, one rule per line",
            },
            OptionSpec {
                id: "diagram",
                value: OptionValue::Text("F"),
                required: false,
                help: "Diagram file, the bay's single line diagram",
            },
            OptionSpec {
                id: "effort",
                value: OptionValue::Number("N", 1, 100_000),
                required: false,
                help: "Most work for each of the two, in millions of octets of code, or 60",
            },
            LOG,
        ],
    },
];

// Makes an option for `clap`.
fn arg_of<'a>(alloc: Global, choice: OptionSpec) -> Arg<'a>
    ensures rule { rule_of result ≡ rule_in choice }
    ensures local { result.global ≡ false }
{
    let arg = Arg::new(alloc, choice.id)
        .long(choice.id)
        .help(choice.help)
        .required(choice.required);
    match choice.value {
        OptionValue::Nothing => arg.action(ArgAction::SetTrue),
        OptionValue::Text(name) => arg.value_name(name).action(ArgAction::Set),
        OptionValue::Number(name, least, greatest) => arg
            .value_name(name)
            .value_parser(ValueParser::unsigned(least, greatest))
            .action(ArgAction::Set),
    }
}

// Makes a command for `clap`, without its options.
fn bare_command<'a>(alloc: Global, entry: Entry) -> Command<'a>
    ensures app { app_of result ≡ new_app entry.name.now }
    ensures local { (fields_of result).has_globals ≡ false }
{
    let command = Command::new(alloc, entry.name).about(entry.about);
    match entry.note {
        Some(note) => command.after_help(note),
        None => command,
    }
}

// Makes a command for `clap` with its options.
fn command_of<'a>(alloc: Global, entry: Entry) -> Result<Command<'a>, AllocError>
    ensures app { IfOk result (λ c. app_of c ≡ app_in entry) }
    ensures local { IfOk result (λ c. (fields_of c).has_globals ≡ false) }
{
    let mut command = bare_command(alloc, entry);
    for choice in entry.options {
        command = command.arg(arg_of(alloc, *choice))?;
    }
    Ok(command)
}

/// Builds the `clap` command of the program, with all its subcommands. Fails only if an allocation
/// fails.
pub fn clap_command<'a>(alloc: Global) -> Result<Command<'a>, AllocError>
    ensures { IfOk result (λ c. app_of c ≡ job_app) }
{
    let mut command = Command::new(alloc, "bayctl")
        .about("The controller of one bay")
        .version(VERSION)
        .no_binary_name(true)
        .subcommand_required(true)
        .arg_required_else_help(true)
        .bin_name("bayctl")?;
    for entry in &ENTRIES {
        command = command.subcommand(command_of(alloc, *entry)?)?;
    }
    Ok(command)
}
