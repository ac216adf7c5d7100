// The options: the one table of their long names and of what their values may be.
ghost use Rattle.std.specs.Prelude.{◌≡◌};
ghost use Rattle.option_words.specs.OptionNames.{is_named, kind, lettered, long_name, named_option};

/// An option.
#[derive(Clone, Copy, Debug, PartialEq, Eq)]
pub enum OptionName {
    Disable,
    Enable,
    ErrorsOnly,
    Jobs,
    Score,
    Rcfile,
    Ignore,
    Recursive,
    FailUnder,
    FailOn,
    ExitZero,
    IgnoredClasses,
    AdditionalBuiltins,
    LimitInferenceResults,
    MaxLineLength,
    MaxModuleLines,
    MaxArgs,
    MaxLocals,
    MaxReturns,
    MaxBranches,
    MaxStatements,
    MaxAttributes,
    MaxPublicMethods,
    MinPublicMethods,
    MaxParents,
}

/// What the value of an option may be.
#[derive(Clone, Copy, Debug, PartialEq, Eq)]
pub enum Kind {
    /// None: the option is set by its name alone.
    Flag,
    /// A list of message names.
    MessageNames,
    YesOrNo,
    /// A whole number between two, both included.
    Number { low: u64, high: u64 },
    /// A number from 0 to 10 of at most two decimals.
    Hundredths,
    /// A list of texts.
    Texts,
    /// The path of a file.
    Path,
}

/// All options, in the order of the table.
pub const ALL_OPTIONS: [OptionName; 25] = [
    OptionName::Disable,
    OptionName::Enable,
    OptionName::ErrorsOnly,
    OptionName::Jobs,
    OptionName::Score,
    OptionName::Rcfile,
    OptionName::Ignore,
    OptionName::Recursive,
    OptionName::FailUnder,
    OptionName::FailOn,
    OptionName::ExitZero,
    OptionName::IgnoredClasses,
    OptionName::AdditionalBuiltins,
    OptionName::LimitInferenceResults,
    OptionName::MaxLineLength,
    OptionName::MaxModuleLines,
    OptionName::MaxArgs,
    OptionName::MaxLocals,
    OptionName::MaxReturns,
    OptionName::MaxBranches,
    OptionName::MaxStatements,
    OptionName::MaxAttributes,
    OptionName::MaxPublicMethods,
    OptionName::MinPublicMethods,
    OptionName::MaxParents,
];

impl OptionName {
    /// The long name without its dashes.
    pub fn long_name(self) -> &'static str
        ensures { result.now ≡ long_name self }
    {
        match self {
            OptionName::Disable => "disable",
            OptionName::Enable => "enable",
            OptionName::ErrorsOnly => "errors-only",
            OptionName::Jobs => "jobs",
            OptionName::Score => "score",
            OptionName::Rcfile => "rcfile",
            OptionName::Ignore => "ignore",
            OptionName::Recursive => "recursive",
            OptionName::FailUnder => "fail-under",
            OptionName::FailOn => "fail-on",
            OptionName::ExitZero => "exit-zero",
            OptionName::IgnoredClasses => "ignored-classes",
            OptionName::AdditionalBuiltins => "additional-builtins",
            OptionName::LimitInferenceResults => "limit-inference-results",
            OptionName::MaxLineLength => "max-line-length",
            OptionName::MaxModuleLines => "max-module-lines",
            OptionName::MaxArgs => "max-args",
            OptionName::MaxLocals => "max-locals",
            OptionName::MaxReturns => "max-returns",
            OptionName::MaxBranches => "max-branches",
            OptionName::MaxStatements => "max-statements",
            OptionName::MaxAttributes => "max-attributes",
            OptionName::MaxPublicMethods => "max-public-methods",
            OptionName::MinPublicMethods => "min-public-methods",
            OptionName::MaxParents => "max-parents",
        }
    }

    pub fn kind(self) -> Kind
        ensures { result ≡ kind self }
    {
        match self {
            OptionName::Disable | OptionName::Enable | OptionName::FailOn => Kind::MessageNames,
            OptionName::ErrorsOnly | OptionName::ExitZero => Kind::Flag,
            OptionName::Jobs => Kind::Number { low: 0, high: 64 },
            OptionName::Score | OptionName::Recursive => Kind::YesOrNo,
            OptionName::Rcfile => Kind::Path,
            OptionName::Ignore | OptionName::IgnoredClasses | OptionName::AdditionalBuiltins => {
                Kind::Texts
            }
            OptionName::FailUnder => Kind::Hundredths,
            OptionName::LimitInferenceResults => Kind::Number { low: 1, high: 1000 },
            OptionName::MaxLineLength
            | OptionName::MaxModuleLines
            | OptionName::MaxArgs
            | OptionName::MaxLocals
            | OptionName::MaxReturns
            | OptionName::MaxBranches
            | OptionName::MaxStatements
            | OptionName::MaxAttributes
            | OptionName::MaxPublicMethods
            | OptionName::MinPublicMethods
            | OptionName::MaxParents => Kind::Number {
                low: 0,
                high: 1000000,
            },
        }
    }

    /// The option of a long name.
    pub fn named(name: &str) -> Option<OptionName>
        ensures { result ≡ named_option name.now }
    {
        ALL_OPTIONS
            .iter()
            .copied()
            .find(|option| is_named(name, *option))
    }

    /// The option of a short letter, which a word gives behind one dash.
    pub fn lettered(letter: &str) -> Option<OptionName>
        ensures { result ≡ lettered letter.now }
    {
        match letter {
            "d" => Some(OptionName::Disable),
            "e" => Some(OptionName::Enable),
            "E" => Some(OptionName::ErrorsOnly),
            "j" => Some(OptionName::Jobs),
            "s" => Some(OptionName::Score),
            _ => None,
        }
    }
}

fn is_named(name: &str, option: OptionName) -> bool
    ensures { result ≡ is_named name.now option }
{
    name == option.long_name()
}
