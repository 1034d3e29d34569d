//! The command line.

ghost use Rattle.std.specs.Prelude.{◌≤◌};

use crate::manners::{Manner, Terminals};
use acc_emit::Language;
use acc_follow::{LogForm, Views};
use acc_trials::{Machine, bytes_of, first_words, options_in};
use clap::builder::ValueParser;
use clap::error::ErrorKind;
use clap::parser::ValueSource;
use clap::{Arg, ArgAction, ArgMatches, Command, Error, value_parser};
use std::alloc::{AllocError, Global};
use std::convert::AsStr;

/// The default of both sizes in bytes. `option` names it again as text, for the help; so it does the others.
const DEFAULT_SIZE: u64 = 65_536;

/// The default of `--devices`.
const DEFAULT_DEVICES: u64 = 1;

/// The default of `--threads`, of `--jobs` too.
const DEFAULT_THREADS: u64 = 1;

/// The default of `--events`.
const DEFAULT_EVENTS: u64 = 262_144;

/// The default of `--lines`.
const DEFAULT_LINES: u64 = 40;

/// The version that `--version` prints.
const VERSION: &str = "0.1.0 (OpenACC 3.3)";

/// What the command line asks for.
#[derive(Clone, Copy)]
pub struct Options<'a> {
    /// Which streams are terminals, for a run alone.
    pub terminals: Terminals,
    /// The files that have scripts, of which `-` is standard input; none for standard input alone.
    pub files: &'a [&'a str],
    /// The one of these that is run; `None` for standard input.
    pub file: Option<&'a str>,
    /// The file that the output is compared with, in place of writing it; of a program, the output that it has to have.
    pub expect: Option<&'a str>,
    /// What is shown beside what the script prints, but for explanations.
    pub shown: Views,
    /// Whether it is explained; `None` where that is left to whether a person reads it.
    pub explain: Option<bool>,
    /// Whether each line is done when it is read, and an empty line ends what it prints.
    pub line: bool,
    /// Whether the script goes on behind a line at fault.
    pub keep_going: bool,
    /// The language of a program that the script is emitted as, in place of a run.
    pub emit: Option<Language>,
    /// The folder for the programs of all scripts, where there are several.
    pub out: Option<&'a str>,
    /// Whether that program ends with the first statement that is refused.
    pub until_refusal: bool,
    /// The scripts whose rows of the clause tables are counted, in place of a run; none where that is not asked for.
    pub rows: &'a [&'a str],
    /// The files and folders whose scripts are run as tests, in place of a run.
    pub tests: &'a [&'a str],
    /// How many of these run at a time.
    pub jobs: u64,
    /// Whether what these print is written as what they have to print.
    pub bless: bool,
    /// The file for what came of them, as JUnit.
    pub junit: Option<&'a str>,
    /// The seed of a script by chance, where one is written in place of a run.
    pub random: Option<u64>,
    /// How many statements by chance that script has at most.
    pub lines: u64,
    /// The file for a picture of the memories at the end.
    pub svg: Option<&'a str>,
    /// The file for the pictures behind directives; each gets the number of its line in the name.
    pub svg_every: Option<&'a str>,
    /// The file for the page that shows the script step by step.
    pub html: Option<&'a str>,
    /// The size of host memory in bytes, where it is given, as with those that follow.
    pub host: Option<u64>,
    /// The size of each device's memory in bytes.
    pub device: Option<u64>,
    /// How many devices there are.
    pub devices: Option<u64>,
    /// How many events the trace may have.
    pub events: Option<u64>,
    /// Whether the trace also keeps bytes.
    pub full: Option<bool>,
    /// In how many threads each kernel works at most; of a drill, how many threads it has.
    pub threads: Option<u64>,
    /// How often each thread of a drill enters and exits a region, where there is a drill in place of a script.
    pub drill: Option<u64>,
}

/// An option: its name, what its value is called, which is nothing for a flag, and its help.
type Row = (&'static str, &'static str, &'static str);

/// The options that the first line of a script may have too.
const OF_LINES: &[Row] = &[
    ("host", "BYTES", "Size of host memory"),
    ("device", "BYTES", "Size of each device's memory"),
    ("devices", "N", "How many devices there are"),
    ("threads", "N", "Threads of a kernel, or of the drill"),
    ("trace", "WHAT", "What the trace keeps"),
    ("events", "N", "How many events it may have"),
    ("echo", "", "Write each statement before its output"),
    (
        "json",
        "",
        "Write the output, and what --check finds, as JSON",
    ),
    ("log", "HOW", "Tell what each call did"),
    ("explain", "WHEN", "Tell why a line is at fault or refused"),
    ("check", "HOW", "Tell reads of stale bytes"),
];

/// The other options.
const OF_COMMANDS: &[Row] = &[
    ("line", "", "Do each line when it is read"),
    ("keep-going", "", "Go on behind a line at fault"),
    ("svg", "PICTURE", "Draw the memories at the end"),
    ("svg-every", "PICTURE", "Draw them behind each directive"),
    ("html", "PAGE", "Show the script step by step"),
    ("emit", "LANGUAGE", "Write the script as a program instead"),
    ("out", "FOLDER", "Write programs of all FILEs into it"),
    ("until-refusal", "", "End it with the first refusal"),
    ("rows", "FILE", "Count the rows that scripts reach instead"),
    ("random", "SEED", "Write a random script instead"),
    ("lines", "N", "At most how many come by chance"),
    (
        "drill",
        "ROUNDS",
        "Enter and exit regions in N threads instead",
    ),
    ("expect", "OUTPUT", "Compare the output with this file"),
    ("test", "PATH", "Run scripts as tests instead"),
    ("bless", "", "Take what they print as right"),
    ("junit", "FILE", "Write what came of them as JUnit"),
    ("jobs", "N", "How many of them run at a time"),
];

/// What a trace may keep of each event: what it did to counters, or also the bytes of all memories.
const TRACES: &[&str] = &["counts", "full"];

/// When a script is explained.
const TIMES: &[&str] = &["auto", "always", "never"];

/// How the lines of the log are written.
const LOGS: &[&str] = &["text", "json"];

/// Whether stale bytes are warned of, make the status 1 too, or are told with what may be meant.
const CHECKS: &[&str] = &["warn", "error", "all"];

/// The languages that a script can be emitted in.
const LANGUAGES: &[&str] = &["c", "fortran"];

/// Options of runs, which do not go with what is done in place of one.
const OF_RUNS: &[&str] = &[
    "echo",
    "json",
    "log",
    "explain",
    "line",
    "keep-going",
    "check",
    "svg",
    "svg-every",
    "html",
];

/// Options that name a file for what comes of a script, and that of a program.
const OF_ONE_FILE: &[&str] = &["expect", "emit", "svg", "svg-every", "html"];

/// What is done in place of a run, and what else it does not go with.
const INSTEAD: &[(&str, &[&str])] = &[
    ("emit", &[]),
    ("rows", &["emit", "FILE"]),
    (
        "random",
        &["emit", "rows", "threads", "trace", "events", "FILE"],
    ),
    ("drill", &["emit", "rows", "random", "FILE"]),
    (
        "test",
        &["emit", "rows", "random", "drill", "expect", "FILE"],
    ),
];

/// Options that mean something with another one alone.
const BESIDE: &[(&str, &str)] = &[
    ("out", "emit"),
    ("until-refusal", "emit"),
    ("lines", "random"),
    ("bless", "test"),
    ("junit", "test"),
    ("jobs", "test"),
];

fn option<'a>(alloc: Global, row: Row) -> Arg<'a> {
    let (name, value, help) = row;
    let option = Arg::new(alloc, name).long(name).help(help);
    if value.is_empty() {
        return option.action(ArgAction::SetTrue);
    }
    let option = option.value_name(value).action(ArgAction::Set);
    match name {
        "host" | "device" => option.default_value("65536"),
        "devices" => number(option, 4).default_value("1"),
        "threads" | "jobs" => number(option, 64).default_value("1"),
        "lines" => number(option, 10_000).default_value("40"),
        "events" => number(option, 16_777_216).default_value("262144"),
        "drill" => number(option, 1_000),
        "random" => option.value_parser(value_parser!(u64)),
        "explain" => optional(option.value_parser(TIMES), "always"),
        "log" => optional(option.value_parser(LOGS), "text"),
        "check" => optional(option.value_parser(CHECKS), "warn"),
        "trace" => option.value_parser(TRACES).default_value("counts"),
        "emit" => option.value_parser(LANGUAGES),
        "rows" | "test" => option.num_args(1..),
        _ => option,
    }
}

/// An option whose value may be left out, and is this one then.
fn optional<'a>(option: Arg<'a>, value: &'a str) -> Arg<'a> {
    option
        .num_args(0..=1)
        .require_equals(true)
        .default_missing_value(value)
}

/// An option whose value is a number from 1 on.
fn number<'a>(option: Arg<'a>, most: u64) -> Arg<'a> {
    option.value_parser(ValueParser::unsigned(1, most))
}

/// An option with what it does not go with.
fn with_rules<'a>(option: Arg<'a>, name: &str) -> Result<Arg<'a>, AllocError> {
    if name == "expect" {
        return option.requires_if("-", "FILE");
    }
    match INSTEAD.iter().find(|row| row.0 == name) {
        Some((_, others)) => option
            .conflicts_with_all(OF_RUNS)?
            .conflicts_with_all(others),
        None => Ok(option),
    }
}

fn add_line_options(alloc: Global, options: &mut Vec<Arg<'_>>) -> Result<(), AllocError> {
    for row in OF_LINES {
        options.push(with_rules(option(alloc, *row), row.0)?)?;
    }
    Ok(())
}

fn add_all_options(alloc: Global, options: &mut Vec<Arg<'_>>) -> Result<(), AllocError> {
    options.push(file_argument(alloc))?;
    add_line_options(alloc, options)?;
    for row in OF_COMMANDS {
        options.push(with_rules(option(alloc, *row), row.0)?)?;
    }
    Ok(())
}

fn file_argument<'a>(alloc: Global) -> Arg<'a> {
    Arg::new(alloc, "FILE")
        .help("Scripts, in place of standard input")
        .action(ArgAction::Set)
        .num_args(1..)
}

/// Reads the command line, for [`options_of`]. The first word is the program's name.
///
/// # Errors
///
/// `clap`'s own, whose text is for the user: also where help was asked for, and for lack of memory.
pub fn parsed_words<'a>(alloc: Global, words: &'a [String]) -> Result<ArgMatches<'a>, Error> {
    let mut command = all_options(alloc)?;
    parsed_by(alloc, &mut command, words)
}

/// Adds the options in the first line of a script, `# options: ..`, to those of the command line. For values the command
/// line wins. The first line can name no file, so a script writes none.
///
/// # Errors
///
/// `clap`'s own.
pub fn with_first_line<'a>(
    alloc: Global,
    options: Options<'a>,
    script: &[u8],
) -> Result<Options<'a>, Error> {
    let Some(line) = options_in(script) else {
        return Ok(options);
    };
    let Ok(text) = str::from_utf8(line) else {
        return Err(not_text(alloc)?);
    };
    let words = first_words(alloc, text)?;
    options.with_words(alloc, &words)
}

/// What is wrong with a first line that is not UTF-8.
fn not_text(alloc: Global) -> Result<Error, AllocError> {
    let mut command = line_options(alloc)?;
    command.error(ErrorKind::ValueValidation, "it is not UTF-8")
}

impl<'a> Options<'a> {
    /// What they ask for to run scripts on.
    pub fn machine(self) -> Machine {
        Machine {
            host: self.host.unwrap_or(DEFAULT_SIZE),
            device: self.device.unwrap_or(DEFAULT_SIZE),
            devices: self.devices.unwrap_or(DEFAULT_DEVICES),
        }
    }

    /// How many events the trace may have.
    pub fn event_limit(self) -> u64 {
        self.events.unwrap_or(DEFAULT_EVENTS)
    }

    /// The number of threads. The parser allows no number but 1 to 64; the contract shows that to the prover.
    pub fn thread_count(self) -> usize
        ensures { (1 ≤ result) × (result ≤ 64) }
    {
        self.threads.unwrap_or(DEFAULT_THREADS).clamp(1, 64) as usize
    }

    /// What is shown beside what the script prints.
    pub fn views(self) -> Views {
        Views {
            explain: self.explain.unwrap_or(self.terminals.errors),
            ..self.shown
        }
    }

    /// How the lines of the script are run. A prompt goes on behind faults, and its answers need no empty lines.
    pub fn manner(self) -> Manner {
        let asks = self.terminals.input && self.files.is_empty() && self.expect.is_none();
        Manner {
            asks,
            answers: self.line && !asks,
            goes_on: self.keep_going || asks,
        }
    }

    fn with_words(self, alloc: Global, words: &[&str]) -> Result<Options<'a>, Error> {
        let mut command = line_options(alloc)?;
        let matches = parsed_by(alloc, &mut command, words)?;
        Ok(self.or(options_of(&matches, self.terminals)))
    }

    fn or(self, line: Options<'_>) -> Options<'a> {
        Options {
            host: self.host.or(line.host),
            device: self.device.or(line.device),
            devices: self.devices.or(line.devices),
            events: self.events.or(line.events),
            full: self.full.or(line.full),
            threads: self.threads.or(line.threads),
            shown: shown_by_both(self.shown, line.shown),
            explain: self.explain.or(line.explain),
            ..self
        }
    }
}

/// What a command line and a first line show. The check of the first line counts where the command line has none.
fn shown_by_both(command: Views, line: Views) -> Views {
    let check = if command.check { command } else { line };
    Views {
        echo: command.echo || line.echo,
        json: command.json || line.json,
        log: command.log.or(line.log),
        check: check.check,
        check_fails: check.check_fails,
        check_all: check.check_all,
        ..command
    }
}

fn line_options<'a>(alloc: Global) -> Result<Command<'a>, AllocError> {
    let mut options = Vec::new(alloc);
    add_line_options(alloc, &mut options)?;
    Command::new(alloc, "options:")
        .override_usage("# options: [OPTIONS]")
        .disable_help_flag(true)
        .args(options)
}

fn all_options<'a>(alloc: Global) -> Result<Command<'a>, AllocError> {
    let mut options = Vec::new(alloc);
    add_all_options(alloc, &mut options)?;
    bare(alloc).args(options)
}

fn parsed_by<'a, S: AsStr>(
    alloc: Global,
    command: &mut Command<'a>,
    words: &'a [S],
) -> Result<ArgMatches<'a>, Error> {
    let matches = command.try_get_matches_from_mut(words)?;
    check(alloc, command, &matches)?;
    Ok(matches)
}

fn check(alloc: Global, command: &mut Command<'_>, matches: &ArgMatches<'_>) -> Result<(), Error> {
    match bad_value(alloc, matches)? {
        None => Ok(()),
        Some(text) => Err(command.error(ErrorKind::ValueValidation, text.as_str())?),
    }
}

/// How often a file is standard input.
fn input_count(matches: &ArgMatches<'_>, name: &str) -> usize {
    texts(matches, name)
        .iter()
        .filter(|file| **file == "-")
        .count()
}

fn is_stream(matches: &ArgMatches<'_>, name: &str) -> bool {
    matches.get_str(name) == Some("-")
}

/// Whether standard output would get more than a picture or a page.
fn is_shown_twice(matches: &ArgMatches<'_>) -> bool {
    let (picture, page) = (is_stream(matches, "svg"), is_stream(matches, "html"));
    picture && page || (picture || page) && matches.contains_id("expect")
}

/// What goes with one file alone, where it is asked for and there are several.
fn of_one_file(matches: &ArgMatches<'_>) -> Option<&'static str> {
    if texts(matches, "FILE").len() < 2 {
        return None;
    }
    OF_ONE_FILE.iter().copied().find(|name| matches.contains_id(name)
        && !(*name == "emit" && matches.contains_id("out")))
}

/// What means nothing, since the option is not given that it goes with, and that option.
fn misplaced(matches: &ArgMatches<'_>) -> Option<(&'static str, &'static str)> {
    BESIDE.iter().copied().find(|pair| is_given(matches, pair.0) && !matches.contains_id(pair.1))
}

/// What is wrong with files that are named together, if anything is.
fn wrong_together(matches: &ArgMatches<'_>) -> Option<&'static str> {
    let inputs = input_count(matches, "FILE");
    let is_compared = matches.contains_id("expect");
    if inputs.saturating_add(input_count(matches, "expect")) > 1 {
        return Some("standard input can be one of FILE and OUTPUT alone");
    }
    if is_stream(matches, "svg-every") || is_stream(matches, "junit") {
        return Some("'-' is none of what '--svg-every' and '--junit' take");
    }
    if is_shown_twice(matches) {
        return Some("standard output can be one of PICTURE and PAGE, without '--expect'");
    }
    if !matches.contains_id("out") {
        return None;
    }
    if inputs > 0 || is_compared || !matches.contains_id("FILE") {
        return Some("'--out' wants FILEs or folders of scripts, and neither '-' nor '--expect'");
    }
    None
}

/// What is wrong with the files, the options or the sizes, if anything is.
fn bad_value(alloc: Global, matches: &ArgMatches<'_>) -> Result<Option<String>, AllocError> {
    if let Some(name) = of_one_file(matches) {
        return Ok(Some(format!(in alloc; "'--{name}' goes with one FILE alone")?));
    }
    if let Some((name, other)) = misplaced(matches) {
        return Ok(Some(format!(in alloc; "'--{name}' goes with '--{other}' alone")?));
    }
    if let Some(told) = wrong_together(matches) {
        return Ok(Some(String::from_str(alloc, told)?));
    }
    match size_told(alloc, "host", matches.get_str("host").unwrap_or(""))? {
        Some(text) => Ok(Some(text)),
        None => size_told(alloc, "device", matches.get_str("device").unwrap_or("")),
    }
}

fn size_told(alloc: Global, name: &str, text: &str) -> Result<Option<String>, AllocError> {
    let reason = match bytes_of(text) {
        Some(16..=67_108_864) => return Ok(None),
        None if !is_number_of_bytes(text) => {
            String::from_str(alloc, "wanted a number of bytes, as 4096, 64K or 1M")?
        }
        // What does not fit into 64 bits is no number, or the greatest.
        None | Some(u64::MAX) => String::from_str(alloc, "it is not in 16..=67108864")?,
        Some(bytes) => format!(in alloc; "{bytes} is not in 16..=67108864")?,
    };
    let told = format!(in alloc; "invalid value '{text}' for '--{name} <BYTES>': {reason}")?;
    Ok(Some(told))
}

/// Whether a text says a number of bytes, however many they are.
fn is_number_of_bytes(text: &str) -> bool {
    let digits = text
        .strip_suffix('K')
        .or(text.strip_suffix('M'))
        .unwrap_or(text);
    !digits.is_empty() && digits.as_bytes().iter().all(|byte| byte.is_ascii_digit())
}

fn bare<'a>(alloc: Global) -> Command<'a> {
    Command::new(alloc, "accrun")
        .about("Runs a script of OpenACC data directives on simulated devices")
        .version(VERSION)
        .override_usage(USAGE)
        .after_long_help(AFTER_HELP)
}

/// The terminals that a run heeds. What tests print, and programs, does not depend on them.
fn heeded(matches: &ArgMatches<'_>, terminals: Terminals) -> Terminals {
    if matches.contains_id("test") || matches.contains_id("emit") {
        Terminals::NONE
    } else {
        terminals
    }
}

fn is_explained(matches: &ArgMatches<'_>, terminals: Terminals) -> Option<bool> {
    match matches.get_str("explain")? {
        "always" => Some(true),
        "auto" => Some(terminals.errors),
        _ => Some(false),
    }
}

fn language(matches: &ArgMatches<'_>) -> Option<Language> {
    match matches.get_str("emit")? {
        "fortran" => Some(Language::Fortran),
        _ => Some(Language::C),
    }
}

fn log_form(matches: &ArgMatches<'_>) -> Option<LogForm> {
    match matches.get_str("log")? {
        "json" => Some(LogForm::Json),
        _ => Some(LogForm::Text),
    }
}

fn shown_by(matches: &ArgMatches<'_>) -> Views {
    Views {
        echo: matches.get_flag("echo"),
        json: matches.get_flag("json"),
        log: log_form(matches),
        explain: false,
        picture: matches.get_str("svg").is_some(),
        pictures: matches.get_str("svg-every").is_some(),
        lines: matches.contains_id("test"),
        page: matches.get_str("html").is_some(),
        check: matches.contains_id("check"),
        check_fails: matches.get_str("check") == Some("error"),
        check_all: matches.get_str("check") == Some("all"),
    }
}

/// What a command line asks for, where these streams are terminals.
pub fn options_of<'a>(matches: &'a ArgMatches<'_>, terminals: Terminals) -> Options<'a> {
    let terminals = heeded(matches, terminals);
    Options {
        terminals,
        files: texts(matches, "FILE"),
        file: None,
        expect: matches.get_str("expect"),
        shown: shown_by(matches),
        explain: is_explained(matches, terminals),
        line: matches.get_flag("line"),
        keep_going: matches.get_flag("keep-going"),
        emit: language(matches),
        out: matches.get_str("out"),
        until_refusal: matches.get_flag("until-refusal"),
        rows: texts(matches, "rows"),
        tests: texts(matches, "test"),
        jobs: matches.get_one::<u64>("jobs").unwrap_or(DEFAULT_THREADS),
        bless: matches.get_flag("bless"),
        junit: matches.get_str("junit"),
        random: matches.get_one::<u64>("random"),
        lines: matches.get_one::<u64>("lines").unwrap_or(DEFAULT_LINES),
        svg: matches.get_str("svg"),
        svg_every: matches.get_str("svg-every"),
        html: matches.get_str("html"),
        host: given_number(matches, "host"),
        device: given_number(matches, "device"),
        devices: given_number(matches, "devices"),
        threads: given_number(matches, "threads"),
        drill: matches.get_one::<u64>("drill"),
        events: given_number(matches, "events"),
        full: is_full(matches),
    }
}

fn texts<'a>(matches: &'a ArgMatches<'_>, name: &str) -> &'a [&'a str] {
    matches.get_strs(name).unwrap_or(&[])
}

/// The number of an option that is given, and no default.
fn given_number(matches: &ArgMatches<'_>, name: &str) -> Option<u64> {
    bytes_of(given(matches, name)?)
}

fn is_full(matches: &ArgMatches<'_>) -> Option<bool> {
    Some(given(matches, "trace")? == "full")
}

fn given<'a>(matches: &ArgMatches<'a>, name: &str) -> Option<&'a str> {
    if is_given(matches, name) {
        matches.get_str(name)
    } else {
        None
    }
}

fn is_given(matches: &ArgMatches<'_>, name: &str) -> bool {
    matches!(matches.value_source(name), Some(ValueSource::CommandLine))
}

/// The statements and the words of a prompt, as the long help has them.
pub fn statements() -> &'static str {
    let help = AFTER_HELP;
    let from = help.find("Statements, ").unwrap_or(0);
    let to = help.find("\nExample:").unwrap_or(help.len());
    help.get(from..to).unwrap_or("")
}

const USAGE: &str = "accrun [OPTIONS] [FILE]...";

/// What the long help has after the options: the statements, an example, the status.
const AFTER_HELP: &str = "\
A size is from 16 to 67108864 bytes, a multiple of 16, as 4096, 64K or 1M. There
are 1 to 4 devices, numbered from 0, and 1 to 64 threads. The output of a script
depends neither on threads nor on the trace. A drill prints what it leaves: the
allowance of regions, the number of events, and both counters of its array.

The script is FILE, or comes on standard input; for FILE and OUTPUT '-' is
standard input too. It is read whole before its first line runs, but with --line
each line is done when it is read: an empty line ends what it prints. So is a
script that is typed with no FILE and no OUTPUT, behind a prompt with the device
and the number of open regions; behind a line at fault it goes on.

Each FILE has a table of its own, and the status is that of the worst. If the
first line of FILE is '# options: ..', it says what the command line leaves
open. WHEN is always, never, or auto, as without --explain: only where standard
error is a terminal. With --check a read of bytes that are stale is told behind
its line, and what is mapped still at the end; with --check=error the status is
1 then, and --check=all tells what may be meant too. With --expect the status is
1 where the output differs, and 0 else, whatever was refused. The pictures of
--svg-every have the number of the line in their names, as life.000007.svg. In
the page of --html arrow keys step through the script.

A script of --test has to print what stands in its lines '#> ..', or else in
NAME.out beside NAME.acc; what standard error gets stands behind the output.
With '# xfail: REASON' it has to fail; with '# requires: devices 2' it is
skipped where there are fewer. With '# wants: past-the-end' a section may reach
past its array with no warning, and with '# wants: unused-names' an array may be
unused.

A program of --emit does what the script does, and has the expected output in
it, which is that of --expect where it is given. With --until-refusal it has to
fail at the first statement that is refused. With --out each FILE, and what ends
with .acc in folders, becomes a program in FOLDER. It ends with the first
refusal, if there is one. A Makefile there runs the programs.
With --rows the status is 1 where a row is reached by no script. A script of
--random has 40 statements by chance, or 1 to 10000, and fewer where the table
takes no more. Its arrays stand before them, and behind them what ends its
regions and shows its bytes. It is the same on each machine.

Statements, one to a line, with comments after '#':
  array NAME BYTES         an array in host memory
  write PLACE DIGITS       write bytes to host memory, two hexadecimal digits
                           each
  point PLACE to PLACE     write the address of the second byte at the first, as
                           a pointer
  data CLAUSES             enter a region, which counts its sections:
    copy(REFS)             as copyin here, and as copyout at the region's end
    copyin(REFS)           where absent, map it to a new block with its bytes
    copyout(REFS)          where absent, map it to a new block; where the region
                           ends the mapping, its bytes are first copied to host
                           memory
    create(REFS)           where absent, map it to a new block
    no_create(REFS)        where absent, pass it over
    present(REFS)          where absent, refuse it
    attach(PLACES)         attach these pointers, and detach them at the end of
                           the region
  end data                 exit the region that was entered last: what its own
                           entry counted is taken back; at zero the mapping ends
  enter data copyin(REFS)  map it, with its bytes, or count it once more
  enter data create(REFS)  the same without its bytes
  enter data attach(PLACES)
                           attach these pointers
  exit data delete(REFS)   count it once less; at zero the mapping ends
  exit data copyout(REFS)  the same, and its bytes are copied to host memory
                           before the mapping ends
  exit data detach(PLACES) take one attachment of each back
  update self(REFS)        copy its bytes from the device to host memory;
                           host(REFS) says the same
  update device(REFS)      copy its bytes from host memory to the device
  wait, wait(QUEUE)        make all copies that wait in the queues, or in one
  step(QUEUE)              make the next copy of a queue, or print idle
  set device_num(N)        later lines are for device N; the first is for 0
  kernel add K REF         in the innermost open region, add K to each of its
                           bytes on the device
  kernel xor K REF         flip the bits of K in each of these
  kernel number K REF      write K plus its place from 0 on to each of these
  kernel plus REF REF      add the bytes of the first in host memory, as far as
                           they reach, to those of the second on the device
  show REF                 its bytes in host memory
  peek REF                 its bytes on the device, or none
  present REF              whether all of it lies in one mapped range: yes or no
  address PLACE            its device address, or none
  report                   the sizes; of each device the mapped ranges with
                           their counters, the attached pointers, the blocks
                           that only queued copies keep, and the queues that are
                           not empty; the numbers of open regions and of events
NAME is a lower-case letter, then lower-case letters, digits and '_', 32 at
most. REF is NAME, or NAME[OFFSET:LENGTH], in bytes from the start of the array.
REFS is one REF or more, separated by commas. PLACE is NAME[OFFSET], and PLACES
is one or more. A pointer is the eight bytes from a PLACE on. In place of a REF,
but not in an update, REF via PLACE names the pointer to it too.

A data, enter data, exit data or update has one clause or more, and 64 REFs at
most. create(zero: REFS), and copyout(zero: REFS) of a region, fill a new block
with zero; copyin(readonly: REFS) is copyin(REFS). An exit data with the option
finalize takes all counts of enter data. An update with the option if_present
passes over what is absent, and not over what is partly mapped. With the option
async(QUEUE), or async for queue 0, the copies of enter data, exit data and
update wait in a queue, in order; a block of the device stays while a copy of it
waits. A QUEUE is from 0 to 15, and 256 copies may wait in it. A region that is
open at the end of the script is a fault.

Each device has a memory, mapped ranges, counters and queues of its own. Lines
are for the device that was set last, but end data and kernel for that of the
innermost open region.

A kernel's REF lies in one mapped range, whose block is lent to the kernel and
brought back. K is from 0 to 255, and sums are modulo 256. Where the loan is
made and cannot be brought back, report says lent of the range.

A statement that is refused changes nothing and prints 'line L: refused ..'; the
script goes on. A line that is at fault ends the script, but with --keep-going.

At a prompt these are done too:
  undo                     take back the last line that changed something, and
                           those behind it
  save FILE                write the lines that were not refused to a file
  history                  tell these lines and their numbers
  help                     tell the statements

Example:
  printf 'array a 32\\nenter data copyin(a)\\nreport\\n' | accrun --device 4096

Status: 0; 1 where a statement was refused, or the output is not as expected; 2
for a fault, which standard error names.
";
