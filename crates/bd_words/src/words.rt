ghost use Rattle.std.specs.Prelude.{◌≡◌, ◌≤◌, ℕ, List, Some, None, false, map, string_bytes};
ghost use Rattle.std.specs.Prelude.{option_map, IfOk, IfErr};
ghost use Rattle.clap.specs.Words.{app_of, found_of, kind_of, one_of, rows_of};
ghost use Rattle.clap.specs.Words.{rule_of, subcommand_rows_of, without_minus};
ghost use Rattle.clap.specs.declared.builder.command.Command.TheViews.{out-Command};
ghost use Rattle.clap.specs.declared.error.kind.ErrorKind.TheVariants.{OutOfMemory};
ghost use Rattle.bd_words.specs.Words.{call_of, number_in};
ghost use Rattle.bd_words.specs.Words.{Run as RunCall, Format as FormatCall, Fill as FillCall};
ghost use Rattle.bd_words.specs.Words.{Check as CheckCall, Export as ExportCall};
ghost use Rattle.bd_words.specs.Words.{Import as ImportCall, Serve as ServeCall};
ghost use Rattle.bd_words.specs.Line.{AreTaken, HasRead, HasRows, fill_line, first_line};
ghost use Rattle.bd_words.specs.Line.{format_line, image_line, image_rule, line, number_rule};
ghost use Rattle.bd_words.specs.Line.{path_line, path_rule, with_verb};
ghost use Rattle.bd_words.specs.Calls.{IsWithinLimits, asked};

use bd_limits::{MAX_SLOTS, MIN_SLOTS};
use clap::builder::ValueParser;
use clap::error::ErrorKind;
use clap::{Arg, ArgMatches, Command, Error};
use std::alloc::{AllocError, Global};

/// The greatest number of lines of a fill.
const MAX_FILL: u32 = 100_000;

/// What the program is asked to do.
#[derive(Clone, Copy, Debug, PartialEq, Eq)]
pub enum Call<'a> {
    /// To execute a script on the image of this name.
    Run {
        image: &'a str,
    },
    /// To make an image of this name, of so many slots.
    Format {
        image: &'a str,
        slots: u32,
    },
    /// To execute so many lines of the script of this seed on the image of this name.
    Fill {
        image: &'a str,
        seed: u32,
        count: u32,
    },
    /// To check the image of this name.
    Check {
        image: &'a str,
    },
    /// To write what is at a path of the image of this name, and below it, as a stream.
    Export {
        image: &'a str,
        path: &'a str,
    },
    /// To make what a stream has at a path of the image of this name.
    Import {
        image: &'a str,
        path: &'a str,
    },
    /// To execute the script of several clients on the image of this name.
    Serve {
        image: &'a str,
    },
}

/// Why no call is read.
#[derive(Clone, Copy, Debug, PartialEq, Eq)]
pub enum WordsFault {
    /// The words make no call, or ask for help.
    Refused,
    /// There is no memory.
    NoMemory,
}

impl WordsFault {
    /// What a parse that fails says of the words.
    fn of_parse(error: &Error) -> WordsFault
        ensures memory { kind_of error.now ≡ OutOfMemory → result ≡ WordsFault.NoMemory }
        ensures refused { (kind_of error.now ≡ OutOfMemory → ⊥) → result ≡ WordsFault.Refused }
    {
        match error.kind() {
            ErrorKind::OutOfMemory => WordsFault::NoMemory,
            _ => WordsFault::Refused,
        }
    }
}

impl From<AllocError> for WordsFault {
    ghost use Rattle.std.specs.Prelude.{◌≡◌};
    ghost use Rattle.bd_words.specs.declared.words.WordsFault.TheVariants.{NoMemory};

    ghost from_gives = { λ _ fault. fault ≡ NoMemory };

    fn from(_error: AllocError) -> WordsFault {
        WordsFault::NoMemory
    }
}

/// The argument IMAGE, a name that isn't empty.
fn image_arg<'a>(alloc: Global) -> Arg<'a>
    ensures rule { rule_of result ≡ image_rule }
    ensures local { result.global ≡ false }
{
    Arg::new(alloc, "image")
        .required(true)
        .value_parser(ValueParser::NonEmptyString)
}

/// The argument PATH, a word that may be empty.
fn path_arg<'a>(alloc: Global) -> Arg<'a>
    ensures rule { rule_of result ≡ path_rule }
    ensures local { result.global ≡ false }
{
    Arg::new(alloc, "path").required(true)
}

/// An argument that is a whole number from `least` to `most`.
fn number_arg<'a>(alloc: Global, id: &'a str, least: u32, most: u32) -> Arg<'a>
    ensures rule { rule_of result ≡ number_rule id.entry.now least most }
    ensures local { result.global ≡ false }
{
    let within = ValueParser::Signed(i64::from(least), i64::from(most));
    Arg::new(alloc, id).required(true).value_parser(within)
}

/// A verb that IMAGE follows.
fn image_command<'a>(alloc: Global, verb: &'a str) -> Result<Command<'a>, AllocError>
    ensures line { IfOk result (λ c. app_of c ≡ image_line verb.entry.now) }
    ensures local { IfOk result (λ c. (out-Command c).has_globals ≡ false) }
{
    Command::new(alloc, verb).arg(image_arg(alloc))
}

/// A verb that IMAGE and PATH follow.
fn path_command<'a>(alloc: Global, verb: &'a str) -> Result<Command<'a>, AllocError>
    ensures line { IfOk result (λ c. app_of c ≡ path_line verb.entry.now) }
    ensures local { IfOk result (λ c. (out-Command c).has_globals ≡ false) }
{
    Command::new(alloc, verb)
        .arg(image_arg(alloc))?
        .arg(path_arg(alloc))
}

/// `format IMAGE SLOTS`.
fn format_command<'a>(alloc: Global) -> Result<Command<'a>, AllocError>
    ensures line { IfOk result (λ c. app_of c ≡ format_line) }
    ensures local { IfOk result (λ c. (out-Command c).has_globals ≡ false) }
{
    Command::new(alloc, "format")
        .arg(image_arg(alloc))?
        .arg(number_arg(alloc, "slots", MIN_SLOTS, MAX_SLOTS))
}

/// `fill IMAGE SEED COUNT`.
fn fill_command<'a>(alloc: Global) -> Result<Command<'a>, AllocError>
    ensures line { IfOk result (λ c. app_of c ≡ fill_line) }
    ensures local { IfOk result (λ c. (out-Command c).has_globals ≡ false) }
{
    Command::new(alloc, "fill")
        .arg(image_arg(alloc))?
        .arg(number_arg(alloc, "seed", 0, u32::MAX))?
        .arg(number_arg(alloc, "count", 0, MAX_FILL))
}

/// The command line `program` with one more verb, which IMAGE follows.
fn with_image_verb<'a>(
    program: Command<'a>,
    alloc: Global,
    verb: &'a str,
) -> Result<Command<'a>, AllocError>
    ensures line { IfOk result (λ c.
        app_of c ≡ with_verb (app_of program.entry) (image_line verb.entry.now)) }
{
    program.subcommand(image_command(alloc, verb)?)
}

/// The command line `program` with one more verb, which IMAGE and PATH follow.
fn with_path_verb<'a>(
    program: Command<'a>,
    alloc: Global,
    verb: &'a str,
) -> Result<Command<'a>, AllocError>
    ensures line { IfOk result (λ c.
        app_of c ≡ with_verb (app_of program.entry) (path_line verb.entry.now)) }
{
    program.subcommand(path_command(alloc, verb)?)
}

/// The command line `program` with `format IMAGE SLOTS`.
fn with_format<'a>(program: Command<'a>, alloc: Global) -> Result<Command<'a>, AllocError>
    ensures line { IfOk result (λ c.
        app_of c ≡ with_verb (app_of program.entry) format_line) }
{
    program.subcommand(format_command(alloc)?)
}

/// The command line `program` with `fill IMAGE SEED COUNT`.
fn with_fill<'a>(program: Command<'a>, alloc: Global) -> Result<Command<'a>, AllocError>
    ensures line { IfOk result (λ c. app_of c ≡ with_verb (app_of program.entry) fill_line) }
{
    program.subcommand(fill_command(alloc)?)
}

/// The program's command line with the subcommands `run`, `format` and `fill`.
fn first_commands<'a>(alloc: Global) -> Result<Command<'a>, AllocError>
    ensures line { IfOk result (λ c. app_of c ≡ first_line) }
{
    let program = Command::new(alloc, "betr").subcommand_required(true);
    let program = with_image_verb(program, alloc, "run")?;
    with_fill(with_format(program, alloc)?, alloc)
}

/// The program's command line, with a subcommand for each call.
fn command_line<'a>(alloc: Global) -> Result<Command<'a>, AllocError>
    ensures line { IfOk result (λ c. app_of c ≡ line) }
{
    let program = with_image_verb(first_commands(alloc)?, alloc, "check")?;
    let program = with_path_verb(program, alloc, "export")?;
    let program = with_path_verb(program, alloc, "import")?;
    with_image_verb(program, alloc, "serve")
}

/// The number that a parse found under `id`.
fn number_of(values: &ArgMatches<'_>, id: &str) -> Option<u32>
    ensures { (least most n : ℕ) (text : List ℕ) → most ≤ 4294967295
        → one_of id.now (rows_of (found_of values.now)) ≡ Some (without_minus text)
        → number_in least most text ≡ Some n → result ≡ Some n }
{
    values.get_one::<u32>(id)
}

/// The call of `run` with the values that a parse found.
fn run_in<'a>(values: &ArgMatches<'a>) -> Option<Call<'a>>
    ensures { (image : List ℕ) → HasRows (RunCall image) (rows_of (found_of values.now))
        → option_map asked result ≡ Some (RunCall image) }
{
    let image = values.get_str("image")?;
    Some(Call::Run { image })
}

/// The call of `format` with the values that a parse found.
fn format_in<'a>(values: &ArgMatches<'a>) -> Option<Call<'a>>
    ensures { (image : List ℕ) (slots : ℕ)
        → HasRows (FormatCall image slots) (rows_of (found_of values.now))
        → option_map asked result ≡ Some (FormatCall image slots) }
{
    let image = values.get_str("image")?;
    let slots = number_of(values, "slots")?;
    Some(Call::Format { image, slots })
}

/// The call of `fill` with the values that a parse found.
fn fill_in<'a>(values: &ArgMatches<'a>) -> Option<Call<'a>>
    ensures { (image : List ℕ) (seed count : ℕ)
        → HasRows (FillCall image seed count) (rows_of (found_of values.now))
        → option_map asked result ≡ Some (FillCall image seed count) }
{
    let image = values.get_str("image")?;
    let seed = number_of(values, "seed")?;
    let count = number_of(values, "count")?;
    Some(Call::Fill { image, seed, count })
}

/// The call of `check` with the values that a parse found.
fn check_in<'a>(values: &ArgMatches<'a>) -> Option<Call<'a>>
    ensures { (image : List ℕ) → HasRows (CheckCall image) (rows_of (found_of values.now))
        → option_map asked result ≡ Some (CheckCall image) }
{
    let image = values.get_str("image")?;
    Some(Call::Check { image })
}

/// The call of `export` with the values that a parse found.
fn export_in<'a>(values: &ArgMatches<'a>) -> Option<Call<'a>>
    ensures { (image path : List ℕ)
        → HasRows (ExportCall image path) (rows_of (found_of values.now))
        → option_map asked result ≡ Some (ExportCall image path) }
{
    let image = values.get_str("image")?;
    let path = values.get_str("path")?;
    Some(Call::Export { image, path })
}

/// The call of `import` with the values that a parse found.
fn import_in<'a>(values: &ArgMatches<'a>) -> Option<Call<'a>>
    ensures { (image path : List ℕ)
        → HasRows (ImportCall image path) (rows_of (found_of values.now))
        → option_map asked result ≡ Some (ImportCall image path) }
{
    let image = values.get_str("image")?;
    let path = values.get_str("path")?;
    Some(Call::Import { image, path })
}

/// The call of `serve` with the values that a parse found.
fn serve_in<'a>(values: &ArgMatches<'a>) -> Option<Call<'a>>
    ensures { (image : List ℕ) → HasRows (ServeCall image) (rows_of (found_of values.now))
        → option_map asked result ≡ Some (ServeCall image) }
{
    let image = values.get_str("image")?;
    Some(Call::Serve { image })
}

/// The call that a parse found.
fn call_in<'a>(matches: &ArgMatches<'a>) -> Option<Call<'a>>
    ensures { (call : _) → HasRead call (subcommand_rows_of matches.now)
        → option_map asked result ≡ Some call }
{
    let (verb, values) = matches.subcommand()?;
    match verb {
        "run" => run_in(values),
        "format" => format_in(values),
        "fill" => fill_in(values),
        "check" => check_in(values),
        "export" => export_in(values),
        "import" => import_in(values),
        "serve" => serve_in(values),
        _ => None,
    }
}

/// The call that the program's words make: `PROGRAM run IMAGE`, `PROGRAM format IMAGE SLOTS` with 24
/// to 65,536 slots, `PROGRAM fill IMAGE SEED COUNT` with a seed of 32 bits and at most 100,000 lines,
/// `PROGRAM check IMAGE`, `PROGRAM export IMAGE PATH`, `PROGRAM import IMAGE PATH` or `PROGRAM serve
/// IMAGE`. A PATH may be empty. Other words are refused, and so is a wish for help. Without memory
/// it is `NoMemory`.
pub fn read_words<'a>(alloc: Global, words: &'a [String]) -> Result<Call<'a>, WordsFault>
    ensures call { IfOk result (λ call. call_of (map string_bytes words.now) ≡ Some (asked call)) }
    ensures within { IfOk result IsWithinLimits }
    // Only words that make no call are refused.
    ensures refused { IfErr result (λ fault. fault ≡ WordsFault.Refused
        → call_of (map string_bytes words.now) ≡ None) }
    // So are just the words that `clap` refuses.
    ensures clap_takes { IfOk result (λ _. AreTaken (map string_bytes words.now)) }
    ensures clap_refuses { IfErr result (λ fault. fault ≡ WordsFault.Refused
        → AreTaken (map string_bytes words.now) → ⊥) }
{
    let line = command_line(alloc)?;
    match line.try_get_matches_from(words) {
        Ok(matches) => call_in(&matches).ok_or(WordsFault::Refused),
        Err(error) => Err(WordsFault::of_parse(&error)),
    }
}
