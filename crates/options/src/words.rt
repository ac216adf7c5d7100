// The words of the command line.
ghost use Rattle.std.specs.Prelude.{◌≡◌, ◌++◌, ◌≤◌, [], ◌∷◌, None, true, false, length, Ok, Err, IfOk, IfErr, IfSome, OnOk};
ghost use Rattle.std.specs.Option.{option_copied};
ghost use Rattle.option_words.specs.OptionNames.{kind};
ghost use Rattle.options.specs.Behind.{behind};
ghost use Rattle.options.specs.Edits.{allows, edit_of};
ghost use Rattle.options.specs.Lines.{Reading, line_of, said_by, with_edit, with_file, with_value, words_line};
ghost use Rattle.options.specs.Usage.{is_memory};
ghost use Rattle.options.specs.Words.{Alone, form_of};

use crate::edits::last_value;
use crate::form::{WordForm, is_flag, read_form};
use crate::generate::sole_line;
use crate::{Edits, Line, UsageFault};
use lint_values::{Memory, Text, Texts};
use option_words::{OptionName, fits};
use std::alloc::Global;

// What words said.
#[derive(Drop)]
pub(crate) struct Said {
    edits: Edits,
    files: Texts,
}

pub(crate) fn copy(alloc: Global, text: &Text) -> Result<Text, Memory>
    ensures { IfOk result (λ made. made ≡ text.now) }
{
    Text::from_str(alloc, text.as_str())
}

// Adds a file.
fn take_file(alloc: Global, said: &mut Said, word: &Text) -> Result<(), Memory>
    ensures { OnOk result ((rest : Reading) → behind said.old (with_file word.now rest) ≡ behind said.new rest) }
{
    said.files.push(copy(alloc, word)?)?;
    Ok(())
}

// Adds all words as files.
fn take_files(alloc: Global, said: &mut Said, words: &[Text]) -> Result<(), Memory>
    ensures edits { OnOk result (said.new.edits ≡ said.old.edits) }
    ensures files { OnOk result (said.new.files ≡ said.old.files ++ words.now) }
{
    for word in words {
        said.files.push(copy(alloc, word)?)?;
    }
    Ok(())
}

// Adds an edit.
fn take_edit(alloc: Global, said: &mut Said, option: OptionName, value: &str) -> Result<(), Memory>
    requires { allows (kind option) value.now ≡ true }
    ensures { OnOk result ((rest : Reading) → behind said.old (with_edit (edit_of option value.now) rest) ≡ behind said.new rest) }
{
    said.edits.push(alloc, option, value)?;
    Ok(())
}

// Adds an option with its value, where it may have that value. `word` is the word in which the value stands.
fn read_value(
    alloc: Global,
    said: &mut Said,
    option: OptionName,
    value: &str,
    word: &Text,
) -> Result<(), UsageFault>
    ensures ok { OnOk result ((rest : Reading) → behind said.old (with_value option value.now word.now rest) ≡ behind said.new rest) }
    ensures refused { IfErr result (λ fault. is_memory fault ≡ false → (rest : Reading) → with_value option value.now word.now rest ≡ Err fault) }
{
    if fits(option, value) {
        take_edit(alloc, said, option, value)?;
        Ok(())
    } else {
        Err(UsageFault::BadValue(copy(alloc, word)?))
    }
}

// Reads an option by its name alone: a flag, or an option whose value is the next word. Gives the words behind it.
fn read_alone<'w>(
    alloc: Global,
    said: &mut Said,
    option: OptionName,
    word: &Text,
    words: &'w [Text],
) -> Result<&'w [Text], UsageFault>
    requires { form_of word.now ≡ Alone option }
    ensures ok { IfOk result (λ rest. behind said.old (said_by (word.now ∷ words.now)) ≡ behind said.new (said_by rest.now)) }
    ensures refused { IfErr result (λ fault. is_memory fault ≡ false → said_by (word.now ∷ words.now) ≡ Err fault) }
    ensures shorter { IfOk result (λ rest. length rest.now ≤ length words.now) }
{
    if is_flag(option.kind()) {
        take_edit(alloc, said, option, "")?;
        return Ok(words);
    }
    match words {
        [] => Err(UsageFault::NeedsValue(copy(alloc, word)?)),
        [value, words @ ..] => {
            read_value(alloc, said, option, value.as_str(), value)?;
            Ok(words)
        }
    }
}

// Reads a word, with the next one where that is its value. Gives the words behind.
fn read_word<'w>(
    alloc: Global,
    said: &mut Said,
    word: &Text,
    words: &'w [Text],
) -> Result<&'w [Text], UsageFault>
    ensures ok { IfOk result (λ rest. behind said.old (said_by (word.now ∷ words.now)) ≡ behind said.new (said_by rest.now)) }
    ensures refused { IfErr result (λ fault. is_memory fault ≡ false → said_by (word.now ∷ words.now) ≡ Err fault) }
    ensures shorter { IfOk result (λ rest. length rest.now ≤ length words.now) }
{
    match read_form(word.as_str()) {
        WordForm::Ends => {
            take_files(alloc, said, words)?;
            Ok(&[])
        }
        WordForm::File => {
            take_file(alloc, said, word)?;
            Ok(words)
        }
        WordForm::Unknown => Err(UsageFault::UnknownOption(copy(alloc, word)?)),
        WordForm::Alone(option) => read_alone(alloc, said, option, word, words),
        WordForm::Attached(option, value) => {
            read_value(alloc, said, option, value, word)?;
            Ok(words)
        }
    }
}

// Reads all words.
fn read_all(alloc: Global, words: &[Text]) -> Result<Said, UsageFault>
    ensures said { IfOk result (λ said. said_by words.now ≡ Ok said) }
    ensures refused { IfErr result (λ fault. is_memory fault ≡ false → said_by words.now ≡ Err fault) }
{
    let mut said = Said {
        edits: Edits::new(alloc),
        files: Texts::new(alloc),
    };
    let mut rest = words;
    while let [word, behind @ ..] = rest {
        rest = read_word(alloc, &mut said, word, behind)?;
    }
    Ok(said)
}

fn copy_value(alloc: Global, value: Option<&str>) -> Result<Option<Text>, Memory>
    ensures { IfOk result (λ made. made ≡ option_copied value.entry) }
{
    match value {
        Some(value) => Ok(Some(Text::from_str(alloc, value)?)),
        None => Ok(None),
    }
}

// The line of edits and files that words are. That no word is a file is a fault where no other stands.
pub(crate) fn words_line(alloc: Global, words: &[Text]) -> Result<Line, UsageFault>
    ensures line { IfOk result (λ line. words_line words.now ≡ Ok line) }
    ensures refused { IfErr result (λ fault. is_memory fault ≡ false → words_line words.now ≡ Err fault) }
    ensures plain { IfOk result (λ line. line.generate ≡ None) }
{
    let Said { edits, files } = read_all(alloc, words)?;
    if files.as_slice().is_empty() {
        return Err(UsageFault::NoFile);
    }
    let rcfile = copy_value(alloc, last_value(OptionName::Rcfile, edits.as_slice()))?;
    Ok(Line {
        edits,
        files,
        rcfile,
        generate: None,
    })
}

/// Reads the words: the edits and the files that they say, or the number of a made text, or the first fault from the
/// left, with the word that has it.
pub fn read_words(alloc: Global, words: &[Text]) -> Result<Line, UsageFault>
    ensures line { IfOk result (λ line. line_of words.now ≡ Ok line) }
    ensures refused { IfErr result (λ fault. is_memory fault ≡ false → line_of words.now ≡ Err fault) }
    ensures few { IfOk result (λ line. IfSome line.generate (λ classes. classes ≤ 20000)) }
{
    match words {
        [word] => sole_line(alloc, word, words),
        _ => words_line(alloc, words),
    }
}
