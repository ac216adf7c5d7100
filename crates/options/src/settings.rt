// The options after all edits.
ghost use Rattle.std.specs.Prelude.{◌≡◌, ◌≤◌, true, false, IfOk};
ghost use Rattle.option_words.specs.OptionNames.{kind};
ghost use Rattle.options.specs.Edits.{are_allowed, given};
ghost use Rattle.options.specs.Settings.{hundredths_or, is_in_range, number_or, options_of, texts_or, truth_or, workers};
ghost use Rattle.options.specs.Switches.{is_on};

use crate::edits::given;
use crate::switches::{Switch, is_on, switches_of};
use crate::{Edit, Edits};
use lint_messages::Code;
use lint_values::{Memory, Texts};
use option_words::{Kind, OptionName, hundredths, is_no, number, parts};
use std::alloc::Global;
use std::marker::Model;

/// The options. A field bears its option's long name, with `_` for `-`.
#[derive(Debug, Drop)]
pub struct Options {
    /// Only errors and fatal messages are shown.
    pub errors_only: bool,
    /// How many workers lint side by side: 1 to 64.
    pub jobs: u32,
    /// Whether the score is printed.
    pub score: bool,
    /// Names of files and folders in a walked folder that are passed over.
    pub ignore: Texts,
    /// Whether folders without `__init__.py` are walked.
    pub recursive: bool,
    /// The least score of the status 0, in hundredths: 0 to 1000.
    pub fail_under: u32,
    /// Names of messages that make the status fail, whatever the score is.
    pub fail_on: Texts,
    /// Whether the status is always 0.
    pub exit_zero: bool,
    /// Classes whose members are not asked for.
    pub ignored_classes: Texts,
    /// Names that count as builtins.
    pub additional_builtins: Texts,
    /// The most values that are kept of an expression: 1 to 1000.
    pub limit_inference_results: u32,
    /// The most characters that a line may have: up to 1000000, as each limit below.
    pub max_line_length: u32,
    /// The most physical lines that a module may have.
    pub max_module_lines: u32,
    /// The most parameters of a function.
    pub max_args: u32,
    /// The most local names of a function.
    pub max_locals: u32,
    /// The most `return` statements of a function.
    pub max_returns: u32,
    /// The most branches of a function.
    pub max_branches: u32,
    /// The most statements of a function.
    pub max_statements: u32,
    /// The most attributes of a class.
    pub max_attributes: u32,
    /// The most public methods of a class.
    pub max_public_methods: u32,
    /// The fewest public methods of a class.
    pub min_public_methods: u32,
    /// The most classes above a class.
    pub max_parents: u32,
    switches: Vec<Switch>,
}

impl Model for Options {
    ghost use Rattle.options.specs.Options.{are_in_range, settings_in};
    ghost use Rattle.options.specs.Settings.{Settings};

    ghost Value = { Settings };

    ghost view = { settings_in };

    ghost invariant = { are_in_range };
}

// A whole number, or the default where none is given.
fn number_or(option: OptionName, default: u32, file: &[Edit], line: &[Edit]) -> u32
    requires file { are_allowed file.now ≡ true }
    requires line { are_allowed line.now ≡ true }
    requires default { is_in_range (kind option) default ≡ true }
    requires whole { kind option ≡ Kind.Hundredths → ⊥ }
    ensures value { result ≡ number_or default (given option file.now line.now) }
    ensures range { is_in_range (kind option) result ≡ true }
{
    match given(option, file, line) {
        Some(value) => number(value),
        None => default,
    }
}

// A number in hundredths, or the default where none is given.
fn hundredths_or(default: u32, file: &[Edit], line: &[Edit]) -> u32
    requires file { are_allowed file.now ≡ true }
    requires line { are_allowed line.now ≡ true }
    requires default { default ≤ 1000 }
    ensures value { result ≡ hundredths_or default (given OptionName.FailUnder file.now line.now) }
    ensures range { is_in_range (kind OptionName.FailUnder) result ≡ true }
{
    match given(OptionName::FailUnder, file, line) {
        Some(value) => hundredths(value),
        None => default,
    }
}

// A yes or no, or the default where none is given. A flag that is given is on, unless the options file says no.
fn truth_or(option: OptionName, default: bool, file: &[Edit], line: &[Edit]) -> bool
    ensures { result ≡ truth_or default (given option file.now line.now) }
{
    match given(option, file, line) {
        Some(value) => !is_no(value),
        None => default,
    }
}

// A list, or the default where none is given.
fn texts_or(
    alloc: Global,
    option: OptionName,
    default: &str,
    file: &[Edit],
    line: &[Edit],
) -> Result<Texts, Memory>
    ensures { IfOk result (λ texts. texts ≡ texts_or default.now (given option file.now line.now)) }
{
    match given(option, file, line) {
        Some(value) => parts(alloc, value),
        None => parts(alloc, default),
    }
}

fn workers(jobs: u32) -> u32
    ensures { result ≡ workers jobs }
{
    if jobs == 0 { 4 } else { jobs }
}

const IGNORED_CLASSES: &str = "optparse.Values,thread._local,_thread._local,argparse.Namespace";

impl Options {
    /// The defaults, with the file's edits and then the line's. In each of the two the lists of `disable` and `enable`
    /// that hold `all` act before all others.
    pub fn of(alloc: Global, file: &Edits, line: &Edits) -> Result<Options, Memory>
        ensures { IfOk result (λ options. options ≡ options_of file.now line.now) }
    {
        let (file, line) = (file.as_slice(), line.as_slice());
        Ok(Options {
            errors_only: truth_or(OptionName::ErrorsOnly, false, file, line),
            jobs: workers(number_or(OptionName::Jobs, 1, file, line)),
            score: truth_or(OptionName::Score, true, file, line),
            ignore: texts_or(alloc, OptionName::Ignore, "CVS", file, line)?,
            recursive: truth_or(OptionName::Recursive, false, file, line),
            fail_under: hundredths_or(1000, file, line),
            fail_on: texts_or(alloc, OptionName::FailOn, "", file, line)?,
            exit_zero: truth_or(OptionName::ExitZero, false, file, line),
            ignored_classes: texts_or(
                alloc,
                OptionName::IgnoredClasses,
                IGNORED_CLASSES,
                file,
                line,
            )?,
            additional_builtins: texts_or(alloc, OptionName::AdditionalBuiltins, "", file, line)?,
            limit_inference_results: number_or(OptionName::LimitInferenceResults, 100, file, line),
            max_line_length: number_or(OptionName::MaxLineLength, 100, file, line),
            max_module_lines: number_or(OptionName::MaxModuleLines, 1000, file, line),
            max_args: number_or(OptionName::MaxArgs, 5, file, line),
            max_locals: number_or(OptionName::MaxLocals, 15, file, line),
            max_returns: number_or(OptionName::MaxReturns, 6, file, line),
            max_branches: number_or(OptionName::MaxBranches, 12, file, line),
            max_statements: number_or(OptionName::MaxStatements, 50, file, line),
            max_attributes: number_or(OptionName::MaxAttributes, 7, file, line),
            max_public_methods: number_or(OptionName::MaxPublicMethods, 20, file, line),
            min_public_methods: number_or(OptionName::MinPublicMethods, 2, file, line),
            max_parents: number_or(OptionName::MaxParents, 7, file, line),
            switches: switches_of(alloc, file, line)?,
        })
    }

    /// Whether messages of a code are on, as far as the options say.
    pub fn on(&self, code: Code) -> bool
        ensures { result ≡ is_on self.now.switches code }
    {
        is_on(&self.switches, code)
    }
}
