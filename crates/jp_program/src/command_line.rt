//! What the command line asks for.

ghost use Rattle.std.specs.Prelude.{◌≡◌, ◌≤◌, ◌^◌, ◌↔◌, ℕ, Bool, true, false, IfOk, IfErr, IfSome, IsNone};
ghost use Rattle.std.specs.Prelude.{List, codes, map};
ghost use Rattle.std.specs.List.{All};
ghost use Rattle.clap.specs.Walk.{Text, texts};
ghost use Rattle.clap.specs.Words.{app_of, found_of, rows_of, rule_of, new_app, FailsBy};
ghost use Rattle.jp_output.specs.declared.layout.Ending.{Ending as End};
ghost use Rattle.jp_run.specs.declared.output.Output.{Output as Form};
ghost use Rattle.jp_program.specs.CommandLine.{number_rule, flag_rule, letter_rule, query_rule, files_rule};
ghost use Rattle.jp_program.specs.CommandLine.{field_rule, filter_rule, output_rule, said, refusals};
ghost use Rattle.jp_program.specs.CommandLine.{with_version};
ghost use Rattle.jp_program.specs.CommandLine.{with_output as output_option_of, with_numbers as numbers_of};
ghost use Rattle.jp_program.specs.CommandLine.{with_filter as filter_option_of};
ghost use Rattle.jp_program.specs.CommandLine.{with_flags as flags_of, with_query as query_of};
ghost use Rattle.jp_program.specs.inner.Invocation.{IsAsked, IsNotAsked, wanted_of};
ghost use Rattle.jp_program.specs.Wanted.{Wanted as Wish, Says, SaysNumber, SaysFlag, SaysOutput, AreSaid};
ghost use Rattle.jp_program.specs.Wanted.{IsName, SaysFiles, SaysNames, cuts_documents, has_decimals};
ghost use Rattle.jp_program.specs.Wanted.{AreFieldsOf, SaysCounts, SaysEnding, SaysFields};
ghost use Rattle.jp_program.specs.Wanted.{ends_with_null, keeps_going};
ghost use Rattle.jp_output.specs.Rows.{Path, field_of};

use crate::output::{has_fields, is_of_nodes, is_of_values, output_of};
use crate::version::VERSION;
use clap::error::ErrorKind;
use clap::{Arg, ArgAction, ArgMatches, Command, Error, value_parser};
use jp_answer::OnFault;
use jp_field::fields_in;
use jp_number::Numbers;
use jp_output::{Ending, Field};
use jp_run::{Cutting, Output, RunFault, Settings};
use std::alloc::{AllocError, Global};

/// The most fields of a row.
pub(crate) const MAX_FIELDS: usize = 64;

/// What the help says behind the options.
const MORE: &str = "\
Examples:
  jp '$.msg' app.log
  jp --where '@.level==\"error\"' '$.msg' < app.log
  jp --output lines '$[?$.level==\"error\"]' app.log
  jp --output texts '$.msg' < app.log
  jp -o rows --field @.id --field @.price '$.items[*]' < orders.jsonl
  jp -0 --output raw '$.path' < files.jsonl | xargs -0 ls
  jp -c '$.error' *.log
  jp -d --documents '$.service.port' service.json
  jp -de --documents '$.service.user' service.json
  jp --workers 8 '$.items[?@.count > 10]' < orders.jsonl
  jp --check '$[?count(@.*) > 1]'
  jp --explain '$.id' < mixed.jsonl
  jp --where \"@.service==$(jp --quote \"$name\")\" '$.msg' < app.log

INPUT is read from each FILE in turn, or from standard input: one JSON document
on each line. Lines are counted from 1 in each, or from --first; a blank line
holds no document. With --documents they stand one behind another, over any
number of lines, as a configuration does, and are counted themselves. Numbers
have to be whole, of 64 bits; with --decimals every JSON number is read.

OUTPUT is a line for each node: the number of its line, or document, its
normalized path and its value, with a tab between. So cut -f3 gives the values.
Where two FILEs or more are named, or with --with-filename, the name of the file
stands before it: then cut -f4 does. --output values gives the value alone;
texts the same, but a text without its quotes; raw a text as it stands, line
feeds and all; rows a line of fields with tabs between, each as by texts, or
empty where there is no value; lines each line, or document, once, in which a
node is selected. A FIELD is a singular query of @, the node: @.name, @.tags[0].
None of these names its file. With -0 values, texts and raw texts end with
U+0000, which xargs -0 and sort -z take, and not with a line feed. With -c there
is a line for each FILE alone: how many nodes are selected in it, 0 too.

FILTER is what may stand behind ? in $[?FILTER]: both @ and $ are the document.
A QUERY that begins with - is given behind --. It may call two of our own:
xor(A, B), exactly one of the two is true, and distinct(NODES), each node once.

jp --quote VALUE, with no other word, prints VALUE as a string literal. So what
a variable of the shell holds can stand in a query, and is no more than a text.

The first faulty line, or document, ends the run. With --keep-going it gives a
line: its number, a tab, !, a tab, what is wrong with it. In the other forms it
is counted. A file that cannot be read ends the run too, or is passed so.

Status: 0 finished; 1 finished, and nothing was selected, with --exit-status;
2 the query, or the filter, is refused; 3 a line, or a document, is faulty;
4 reading or writing failed, or a limit was passed; 5 out of memory; 64 the
command line is refused.";

/// What the command line asks for.
#[derive(Drop)]
pub(crate) enum Invocation<'a> {
    /// To show this text: the help, or the version.
    Show(String),
    /// A run of a query, or its check.
    Query(Wanted<'a>),
}

/// A query, and what is to be done with it.
#[derive(Drop)]
pub(crate) struct Wanted<'a> {
    pub(crate) query: &'a str,
    /// The names of the files, in the order of the words.
    pub(crate) files: Vec<&'a str>,
    /// Whether lines of nodes, and those of faults, name their file.
    pub(crate) names: bool,
    /// Only whether the query is accepted.
    pub(crate) check: bool,
    /// Only how many nodes are selected in each input.
    pub(crate) counts: bool,
    /// Whether the first faulty lines are to be explained.
    pub(crate) explain: bool,
    /// Whether the status is to tell that nothing was selected.
    pub(crate) exit_status: bool,
    /// What each row has.
    pub(crate) fields: Vec<Field>,
    pub(crate) settings: Settings<'a>,
}

/// What the words ask for, the first of which is the program's name.
///
/// # Errors
///
/// [`RunFault::Settings`] where they ask for nothing that there is, [`RunFault::Memory`] where a growth of
/// memory was refused.
pub(crate) fn read_words<'a>(
    alloc: Global,
    words: &'a [&'a str],
) -> Result<Invocation<'a>, RunFault>
    ensures asked { IfOk result (IsAsked (texts words.entry.now)) }
    ensures fault { IfErr result (IsNotAsked (texts words.entry.now)) }
{
    match matches(alloc, words) {
        Ok(matches) => match wanted_by(alloc, &matches)? {
            Some(wanted) => Ok(Invocation::Query(wanted)),
            None => Err(RunFault::Settings),
        },
        Err(error) => match error.kind() {
            ErrorKind::DisplayHelp | ErrorKind::DisplayVersion => {
                Ok(Invocation::Show(format!(in alloc; "{error}")?))
            }
            ErrorKind::OutOfMemory => Err(RunFault::Memory),
            _ => Err(RunFault::Settings),
        },
    }
}

/// What the words say of each option.
pub(crate) fn matches<'a>(alloc: Global, words: &'a [&'a str]) -> Result<ArgMatches<'a>, Error>
    ensures said { IfOk result (λ m. rows_of (found_of m) ≡ said (texts words.entry.now)) }
    ensures fault { FailsBy (refusals (texts words.entry.now)) result }
{
    let command = with_filter(alloc, with_output(alloc, named(alloc)?)?)?;
    let command = with_flags(alloc, with_numbers(alloc, command)?)?;
    let command = with_query(alloc, command)?;
    command.try_get_matches_from(words)
}

/// The command, with its name, its version and its texts.
fn named<'a>(alloc: Global) -> Result<Command<'a>, AllocError>
    ensures { IfOk result (λ r. app_of r ≡ with_version (new_app (codes "jp"))) }
{
    let command = Command::new(alloc, "jp").bin_name("jp")?;
    Ok(
        command
            .version(VERSION)
            .about("Prints what a JSONPath query selects in each of many JSON documents.")
            .after_help(MORE),
    )
}

/// The command, with the option that takes a form.
fn with_output<'a>(alloc: Global, command: Command<'a>) -> Result<Command<'a>, AllocError>
    ensures { IfOk result (λ r. app_of r ≡ output_option_of (app_of command.entry)) }
{
    command.arg(output(alloc))
}

/// The command, with the options that take a field and a filter of documents.
fn with_filter<'a>(alloc: Global, command: Command<'a>) -> Result<Command<'a>, AllocError>
    ensures { IfOk result (λ r. app_of r ≡ filter_option_of (app_of command.entry)) }
{
    let command = command.arg(field(alloc))?;
    command.arg(filter(alloc))
}

/// The command, with the options that take a number.
fn with_numbers<'a>(alloc: Global, command: Command<'a>) -> Result<Command<'a>, AllocError>
    ensures { IfOk result (λ r. app_of r ≡ numbers_of (app_of command.entry)) }
{
    let workers = "How many threads answer at once, 1 to 64";
    let piece = "Least documents of a thread, 1 to 1000000";
    let batch = "Documents written together, 1 to 1000000";
    let first = "Number of the first line, 1 to 4294967295";
    let command = command.arg(number(alloc, "workers", "4", workers))?;
    let command = command.arg(number(alloc, "piece", "64", piece))?;
    let command = command.arg(number(alloc, "batch", "4096", batch))?;
    command.arg(number(alloc, "first", "1", first))
}

/// The command, with the options that are there or not: whether the query is only checked, which numbers are
/// read, whether faulty lines are passed, whether they are to be explained, whether the status tells that
/// nothing was selected, whether documents go over lines, whether lines name their file, what ends values,
/// and whether nodes are only counted.
fn with_flags<'a>(alloc: Global, command: Command<'a>) -> Result<Command<'a>, AllocError>
    ensures { IfOk result (λ r. app_of r ≡ flags_of (app_of command.entry)) }
{
    let check = "Read nothing, and say only whether QUERY is accepted";
    let decimals = "Read every JSON number, and print it as it stands";
    let keep_going = "Go on past faulty lines, and files that fail";
    let explain = "Say where a faulty line went wrong";
    let exit_status = "End with 1 where nothing was selected";
    let documents = "Read documents over any number of lines";
    let with_filename = "Begin each line with the name of its file";
    let null = "End each value with U+0000, not a line feed";
    let count = "Write only how many nodes are selected in each FILE";
    let command = command.arg(flag(alloc, "check", check))?;
    let command = command.arg(lettered(alloc, "decimals", 'd', decimals))?;
    let command = command.arg(lettered(alloc, "keep-going", 'k', keep_going))?;
    let command = command.arg(flag(alloc, "explain", explain))?;
    let command = command.arg(lettered(alloc, "exit-status", 'e', exit_status))?;
    let command = command.arg(flag(alloc, "documents", documents))?;
    let command = command.arg(flag(alloc, "with-filename", with_filename))?;
    let command = command.arg(lettered(alloc, "null", '0', null))?;
    command.arg(lettered(alloc, "count", 'c', count))
}

/// The command, with the query, and the files behind it.
fn with_query<'a>(alloc: Global, command: Command<'a>) -> Result<Command<'a>, AllocError>
    ensures { IfOk result (λ r. app_of r ≡ query_of (app_of command.entry)) }
{
    let command = command.arg(query(alloc))?;
    command.arg(files(alloc))
}

/// The option that takes a form.
fn output<'a>(alloc: Global) -> Arg<'a>
    ensures rule { rule_of result ≡ output_rule }
    ensures local { result.global ≡ false }
{
    Arg::new(alloc, "output")
        .short('o')
        .long("output")
        .value_name("FORM")
        .default_value("nodes")
        .help("nodes, values, texts, raw, rows, lines")
}

/// The option that takes a field.
fn field<'a>(alloc: Global) -> Arg<'a>
    ensures rule { rule_of result ≡ field_rule }
    ensures local { result.global ≡ false }
{
    Arg::new(alloc, "field")
        .long("field")
        .value_name("FIELD")
        .action(ArgAction::Append)
        .help("With rows: a column, as @.name; given as often")
}

/// The option that takes a filter of documents.
fn filter<'a>(alloc: Global) -> Arg<'a>
    ensures rule { rule_of result ≡ filter_rule }
    ensures local { result.global ≡ false }
{
    Arg::new(alloc, "where")
        .long("where")
        .value_name("FILTER")
        .help("Answer only documents of which this is true")
}

/// An option that takes a number.
fn number<'a>(alloc: Global, name: &'a str, default: &'a str, help: &'a str) -> Arg<'a>
    ensures rule { rule_of result ≡ number_rule name.entry.now default.entry.now }
    ensures local { result.global ≡ false }
{
    Arg::new(alloc, name)
        .long(name)
        .value_name("N")
        .value_parser(value_parser!(u64))
        .default_value(default)
        .help(help)
}

/// An option that is there or not.
fn flag<'a>(alloc: Global, name: &'a str, help: &'a str) -> Arg<'a>
    ensures rule { rule_of result ≡ flag_rule name.entry.now }
    ensures local { result.global ≡ false }
{
    Arg::new(alloc, name)
        .long(name)
        .action(ArgAction::SetTrue)
        .help(help)
}

/// The same by a letter too.
fn lettered<'a>(alloc: Global, name: &'a str, letter: char, help: &'a str) -> Arg<'a>
    ensures rule { rule_of result ≡ letter_rule name.entry.now letter }
    ensures local { result.global ≡ false }
{
    flag(alloc, name, help).short(letter)
}

/// The query.
fn query<'a>(alloc: Global) -> Arg<'a>
    ensures rule { rule_of result ≡ query_rule }
    ensures local { result.global ≡ false }
{
    Arg::new(alloc, "query")
        .value_name("QUERY")
        .required(true)
        .help("A JSONPath query (RFC 9535)")
}

/// The files.
fn files<'a>(alloc: Global) -> Arg<'a>
    ensures rule { rule_of result ≡ files_rule }
    ensures local { result.global ≡ false }
{
    Arg::new(alloc, "file")
        .value_name("FILE")
        .num_args(0..)
        .help("Files to read, in turn; - is standard input, as is none")
}

/// The query, and what is to be done with it; none where a number is out of its range, or there is no such
/// form, or nodes are to be counted in another, or U+0000 is to end what is no value, or the fields are none
/// of the form, or a file's name has a control character.
fn wanted_by<'a>(alloc: Global, matches: &ArgMatches<'a>) -> Result<Option<Wanted<'a>>, AllocError>
    ensures some { IfOk result (λ o. IfSome o (λ w. Says (rows_of (found_of matches.now)) (wanted_of w))) }
    ensures none { IfOk result (λ o. IsNone o
        → (w : Wish) → Says (rows_of (found_of matches.now)) w → ⊥) }
{
    let Some(files) = files_by(alloc, matches)? else {
        return Ok(None);
    };
    let Some(output) = output_by(matches) else {
        return Ok(None);
    };
    let Some(fields) = fields_by(alloc, matches, output)? else {
        return Ok(None);
    };
    Ok(wanted_of_files(matches, files, output, fields))
}

/// The same of these files, in this form, with these fields.
fn wanted_of_files<'a>(
    matches: &ArgMatches<'a>,
    files: Vec<&'a str>,
    output: Output,
    fields: Vec<Field>,
) -> Option<Wanted<'a>>
    requires said { SaysFiles (rows_of (found_of matches.now)) (texts files.items) }
    requires form { SaysOutput (rows_of (found_of matches.now)) output }
    requires fields { SaysFields (rows_of (found_of matches.now)) output (map field_of fields.items) }
    ensures some { IfSome result (λ w. Says (rows_of (found_of matches.now)) (wanted_of w)) }
    ensures none { IsNone result → (w : Wish) → Says (rows_of (found_of matches.now)) w → ⊥ }
{
    let query = matches.get_str("query")?;
    let names = names_by(matches, &files)?;
    let ending = ending_by(matches, output)?;
    let check = flag_by(matches, "check")?;
    let counts = counts_by(matches, output)?;
    let decimals = flag_by(matches, "decimals")?;
    let keep_going = flag_by(matches, "keep-going")?;
    let explain = flag_by(matches, "explain")?;
    let exit_status = flag_by(matches, "exit-status")?;
    let documents = flag_by(matches, "documents")?;
    let settings = settings_by(
        matches,
        cutting_of(documents),
        output,
        numbers_for(decimals),
        on_fault_for(keep_going),
    )?;
    Some(Wanted {
        query,
        files,
        names,
        check,
        counts,
        explain,
        exit_status,
        fields,
        settings: settings
            .with_ending(ending)
            .with_filter(matches.get_str("where")),
    })
}

/// Whether lines name their file, of these; none where that is not said.
fn names_by(matches: &ArgMatches<'_>, files: &Vec<&str>) -> Option<bool>
    ensures some { IfSome result (SaysNames (rows_of (found_of matches.now)) (texts files.now.items)) }
    ensures none { IsNone result → (names : Bool)
        → SaysNames (rows_of (found_of matches.now)) (texts files.now.items) names → ⊥ }
{
    let there = flag_by(matches, "with-filename")?;
    Some(there || files.len() > 1)
}

/// The files that are named, in the order of the words; none where a name has a control character.
pub(crate) fn files_by<'a>(
    alloc: Global,
    matches: &ArgMatches<'a>,
) -> Result<Option<Vec<&'a str>>, AllocError>
    ensures some { IfOk result (λ o. IfSome o
        (λ files. SaysFiles (rows_of (found_of matches.now)) (texts files.items))) }
    ensures none { IfOk result (λ o. IsNone o
        → (files : List Text) → SaysFiles (rows_of (found_of matches.now)) files → ⊥) }
{
    let Some(given) = matches.get_strs("file") else {
        return Ok(Some(Vec::new(alloc)));
    };
    if !are_names(given) {
        return Ok(None);
    }
    Ok(Some(copied(alloc, given)?))
}

/// Whether no name has a control character.
fn are_names(names: &[&str]) -> bool
    ensures { result ≡ true ↔ All (λ name. IsName name.now) names.now }
{
    for name in names {
        if !is_name(name) {
            return false;
        }
    }
    true
}

/// Whether a name has no control character.
fn is_name(name: &str) -> bool
    ensures { result ≡ true ↔ IsName name.now }
{
    for c in name.chars() {
        if c.is_control() {
            return false;
        }
    }
    true
}

/// The same names, in a list of their own.
fn copied<'a>(alloc: Global, names: &[&'a str]) -> Result<Vec<&'a str>, AllocError>
    ensures { IfOk result (λ copy. copy.items ≡ names.now) }
{
    let mut copy = Vec::new(alloc);
    for name in names {
        copy.push(*name)?;
    }
    Ok(copy)
}

/// How input is cut, by whether documents go over lines.
fn cutting_of(documents: bool) -> Cutting
    ensures { documents ≡ cuts_documents result }
{
    if documents {
        Cutting::Documents
    } else {
        Cutting::Lines
    }
}

/// Which numbers there may be, by whether decimals are said.
fn numbers_for(decimals: bool) -> Numbers
    ensures { decimals ≡ has_decimals result }
{
    if decimals {
        Numbers::Decimals
    } else {
        Numbers::Whole
    }
}

/// What is done where a line is faulty, by whether it is said to keep going.
fn on_fault_for(keep_going: bool) -> OnFault
    ensures { keep_going ≡ keeps_going result }
{
    if keep_going {
        OnFault::KeepGoing
    } else {
        OnFault::Stop
    }
}

/// The settings; none where a number is out of its range.
fn settings_by(
    matches: &ArgMatches<'_>,
    cutting: Cutting,
    output: Output,
    numbers: Numbers,
    on_fault: OnFault,
) -> Option<Settings<'static>>
    ensures some { IfSome result (λ s. AreSaid (rows_of (found_of matches.now)) s.workers s.piece s.batch
        s.before) }
    ensures cutting { IfSome result (λ s. s.cutting ≡ cutting) }
    ensures form { IfSome result (λ s. s.output ≡ output) }
    ensures numbers { IfSome result (λ s. s.numbers ≡ numbers) }
    ensures on_fault { IfSome result (λ s. s.on_fault ≡ on_fault) }
    ensures none { IsNone result → (w p b n : ℕ) → AreSaid (rows_of (found_of matches.now)) w p b n → ⊥ }
{
    let settings = sizes_by(matches)?;
    Some(settings_with(settings, cutting, output, numbers, on_fault))
}

/// The settings of these numbers, all else as by default; none where a number is out of its range.
fn sizes_by(matches: &ArgMatches<'_>) -> Option<Settings<'static>>
    ensures some { IfSome result (λ s. AreSaid (rows_of (found_of matches.now)) s.workers s.piece s.batch
        s.before) }
    ensures whole { IfSome result (λ s. s.numbers ≡ Numbers.Whole) }
    ensures ends { IfSome result (λ s. s.on_fault ≡ OnFault.Stop) }
    ensures none { IsNone result → (w p b n : ℕ) → AreSaid (rows_of (found_of matches.now)) w p b n → ⊥ }
{
    let workers = number_by(matches, "workers")?;
    let piece = number_by(matches, "piece")?;
    let batch = number_by(matches, "batch")?;
    let first = number_by(matches, "first")?;
    let settings = Settings::new(workers, piece, batch).ok()?;
    settings.with_first(first).ok()
}

/// The same settings, but for these, where the numbers are whole and the answer ends at a faulty line.
fn settings_with(
    settings: Settings<'static>,
    cutting: Cutting,
    output: Output,
    numbers: Numbers,
    on_fault: OnFault,
) -> Settings<'static>
    requires whole { settings.numbers ≡ Numbers.Whole }
    requires ends { settings.on_fault ≡ OnFault.Stop }
    ensures same { (result.workers ≡ settings.entry.workers) × (result.piece ≡ settings.entry.piece)
        × (result.batch ≡ settings.entry.batch) × (result.before ≡ settings.entry.before) }
    ensures cutting { result.cutting ≡ cutting }
    ensures form { result.output ≡ output }
    ensures numbers { result.numbers ≡ numbers }
    ensures on_fault { result.on_fault ≡ on_fault }
{
    let settings = settings.with_cutting(cutting).with_output(output);
    let settings = match numbers {
        Numbers::Decimals => settings.with_decimals(),
        Numbers::Whole => settings,
    };
    match on_fault {
        OnFault::KeepGoing => settings.keep_going(),
        OnFault::Stop => settings,
    }
}

/// The form that is said; none where there is no such form.
pub(crate) fn output_by(matches: &ArgMatches<'_>) -> Option<Output>
    ensures some { IfSome result (SaysOutput (rows_of (found_of matches.now))) }
    ensures none { IsNone result → (o : Form) → SaysOutput (rows_of (found_of matches.now)) o → ⊥ }
{
    let word = matches.get_str("output")?;
    output_of(word)
}

/// The fields that are said; none where a text is refused, or there are fields without rows, rows without
/// fields, or more than 64 of them.
pub(crate) fn fields_by(
    alloc: Global,
    matches: &ArgMatches<'_>,
    output: Output,
) -> Result<Option<Vec<Field>>, AllocError>
    ensures some { IfOk result (λ o. IfSome o (λ fields. SaysFields (rows_of (found_of matches.now)) output
        (map field_of fields.items))) }
    ensures none { IfOk result (λ o. IsNone o → (fields : List Path)
        → SaysFields (rows_of (found_of matches.now)) output fields → ⊥) }
{
    match matches.get_strs("field") {
        Some(given) => fields_of(alloc, given, output),
        None => fields_of(alloc, &[], output),
    }
}

/// The fields of these texts, in this form; none where there are none such.
fn fields_of(
    alloc: Global,
    given: &[&str],
    output: Output,
) -> Result<Option<Vec<Field>>, AllocError>
    ensures some { IfOk result (λ o. IfSome o (λ fields. AreFieldsOf (texts given.now) output
        (map field_of fields.items))) }
    ensures none { IfOk result (λ o. IsNone o → (fields : List Path)
        → AreFieldsOf (texts given.now) output fields → ⊥) }
{
    if given.is_empty() == has_fields(output) || given.len() > MAX_FIELDS {
        return Ok(None);
    }
    fields_in(alloc, given)
}

/// Whether nodes are only counted; none where that is not said, or they are to be counted in another form.
pub(crate) fn counts_by(matches: &ArgMatches<'_>, output: Output) -> Option<bool>
    ensures some { IfSome result (SaysCounts (rows_of (found_of matches.now)) output) }
    ensures none { IsNone result → (b : Bool) → SaysCounts (rows_of (found_of matches.now)) output b → ⊥ }
{
    let counts = flag_by(matches, "count")?;
    if counts && !is_of_nodes(output) {
        return None;
    }
    Some(counts)
}

/// What ends values; none where that is not said, or U+0000 is to end what is no value.
pub(crate) fn ending_by(matches: &ArgMatches<'_>, output: Output) -> Option<Ending>
    ensures some { IfSome result (SaysEnding (rows_of (found_of matches.now)) output) }
    ensures none { IsNone result → (e : End) → SaysEnding (rows_of (found_of matches.now)) output e → ⊥ }
{
    let null = flag_by(matches, "null")?;
    if null && !is_of_values(output) {
        return None;
    }
    Some(ending_of(null))
}

/// What ends values, by whether that is U+0000.
fn ending_of(null: bool) -> Ending
    ensures { null ≡ ends_with_null result }
{
    if null { Ending::Null } else { Ending::LineFeed }
}

/// The number that is said of an option; none where it is none of 64 bits.
fn number_by(matches: &ArgMatches<'_>, name: &str) -> Option<u64>
    ensures some { IfSome result (SaysNumber name.now (rows_of (found_of matches.now))) }
    ensures none { IsNone result → (n : ℕ) → SaysNumber name.now (rows_of (found_of matches.now)) n
        → 2 ^ 64 ≤ n }
{
    matches.get_one::<u64>(name)
}

/// Whether an option is there; none where that is not said.
fn flag_by(matches: &ArgMatches<'_>, name: &str) -> Option<bool>
    ensures some { IfSome result (SaysFlag name.now (rows_of (found_of matches.now))) }
    ensures none { IsNone result → (b : Bool) → SaysFlag name.now (rows_of (found_of matches.now)) b → ⊥ }
{
    // Not `get_flag`, of which no clause says what a text that is neither gives (README, What clauses say of
    // status and words).
    matches.get_one::<bool>(name)
}
