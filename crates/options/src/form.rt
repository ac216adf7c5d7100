// What a word of the command line is by itself.
ghost use Rattle.std.specs.Prelude.{◌≡◌};
ghost use Rattle.std.specs.Option.{option_copied};
ghost use Rattle.options.specs.Edits.{is_flag};
ghost use Rattle.options.specs.Seen.{seen};
ghost use Rattle.options.specs.Words.{alone, attached, behind_dash, double_dashed, form_of, lettered_form, long_form, short_form};

use option_words::{Kind, OptionName};

// What a word is: `--`, a file, no option that there is, an option by its name alone, or an option with its value.
pub(crate) enum WordForm<'w> {
    Ends,
    File,
    Unknown,
    Alone(OptionName),
    Attached(OptionName, &'w str),
}

pub(crate) fn is_flag(kind: Kind) -> bool
    ensures { result ≡ is_flag kind }
{
    match kind {
        Kind::Flag => true,
        Kind::MessageNames
        | Kind::YesOrNo
        | Kind::Number { .. }
        | Kind::Hundredths
        | Kind::Texts
        | Kind::Path => false,
    }
}

// What stands behind the dash at the front of a text.
fn behind_dash(text: &str) -> Option<&str>
    ensures { option_copied result ≡ behind_dash text.now }
{
    text.strip_prefix('-')
}

fn alone<'w>(option: Option<OptionName>) -> WordForm<'w>
    ensures { seen result ≡ alone option }
{
    match option {
        Some(option) => WordForm::Alone(option),
        None => WordForm::Unknown,
    }
}

fn attached(option: Option<OptionName>, value: &str) -> WordForm<'_>
    ensures { seen result ≡ attached option value.now }
{
    match option {
        Some(option) => WordForm::Attached(option, value),
        None => WordForm::Unknown,
    }
}

// Behind two dashes: a long name, or a long name, `=` and a value.
fn long_form(text: &str) -> WordForm<'_>
    ensures { seen result ≡ long_form text.now }
{
    match text.split_once('=') {
        Some((name, value)) => attached(OptionName::named(name), value),
        None => alone(OptionName::named(text)),
    }
}

// A letter alone, or with its value attached, which a flag does not take.
fn lettered_form(option: Option<OptionName>, value: &str) -> WordForm<'_>
    ensures { seen result ≡ lettered_form option value.now }
{
    match option {
        None => WordForm::Unknown,
        Some(option) if value.is_empty() => WordForm::Alone(option),
        Some(option) if is_flag(option.kind()) => WordForm::Unknown,
        Some(option) => WordForm::Attached(option, value),
    }
}

// Behind one dash: a short letter, and maybe its value.
fn short_form(text: &str) -> WordForm<'_>
    ensures { seen result ≡ short_form text.now }
{
    match text.split_at_checked(1) {
        Some((letter, value)) => lettered_form(OptionName::lettered(letter), value),
        None => WordForm::Unknown,
    }
}

// Behind two dashes, where `--` itself is the end of the options.
fn double_dashed(text: &str) -> WordForm<'_>
    ensures { seen result ≡ double_dashed text.now }
{
    if text.is_empty() {
        WordForm::Ends
    } else {
        long_form(text)
    }
}

// What a word is by itself.
pub(crate) fn read_form(word: &str) -> WordForm<'_>
    ensures { seen result ≡ form_of word.now }
{
    let Some(text) = behind_dash(word) else {
        return WordForm::File;
    };
    match behind_dash(text) {
        Some(long) => double_dashed(long),
        None => short_form(text),
    }
}
