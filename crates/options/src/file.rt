// The options file.
ghost use Rattle.std.specs.Prelude.{◌≡◌, ◌++◌, [], ◌∷◌, false, List, Ok, Err, option_map, string_bytes, IfOk, IfErr, OnOk};
ghost use Rattle.std.specs.List.{flat_map};
ghost use Rattle.std.specs.Str.{bytes_eq};
ghost use Rattle.toml.specs.Data.{as_array, as_bool, as_integer, as_str};
ghost use Rattle.toml.specs.View.{items_view, table_view, view};
ghost use Rattle.option_words.specs.OptionNames.{kind};
ghost use Rattle.options.specs.File.{Key, boolean_text, dash, dashed, edits_in, edits_of, file_edits, is_key, joined, keys_below, keys_in, keys_of, keys_of_option, list_text, number_text, pylint_table, table_at, text_of, texts_in};
ghost use Rattle.options.specs.BehindEdits.{behind_edits};
ghost use Rattle.options.specs.Usage.{is_memory};

use crate::edits::allows;
use crate::form::is_flag;
use crate::{Edits, UsageFault};
use lint_values::{Memory, Text, Texts};
use option_words::{Kind, OptionName};
use std::alloc::Global;
use toml::{Table, Value};

// The options that a file may set, in the ascending order of their names.
const FILE_OPTIONS: [OptionName; 23] = [
    OptionName::AdditionalBuiltins,
    OptionName::Disable,
    OptionName::Enable,
    OptionName::ExitZero,
    OptionName::FailOn,
    OptionName::FailUnder,
    OptionName::Ignore,
    OptionName::IgnoredClasses,
    OptionName::Jobs,
    OptionName::LimitInferenceResults,
    OptionName::MaxArgs,
    OptionName::MaxAttributes,
    OptionName::MaxBranches,
    OptionName::MaxLineLength,
    OptionName::MaxLocals,
    OptionName::MaxModuleLines,
    OptionName::MaxParents,
    OptionName::MaxPublicMethods,
    OptionName::MaxReturns,
    OptionName::MaxStatements,
    OptionName::MinPublicMethods,
    OptionName::Recursive,
    OptionName::Score,
];

fn boolean_text(alloc: Global, value: &Value) -> Result<Option<Text>, Memory>
    ensures { IfOk result (λ text. text ≡ boolean_text (as_bool (view value.now))) }
{
    match value.as_bool() {
        Some(true) => Ok(Some(Text::from_str(alloc, "yes")?)),
        Some(false) => Ok(Some(Text::from_str(alloc, "no")?)),
        None => Ok(None),
    }
}

fn number_text(alloc: Global, value: &Value) -> Result<Option<Text>, Memory>
    ensures { IfOk result (λ text. text ≡ number_text (as_integer (view value.now))) }
{
    match value.as_integer() {
        Some(number) => Ok(Some(Text::from_string(format!(in alloc; "{number}")?))),
        None => Ok(None),
    }
}

fn plain_text(alloc: Global, value: &Value) -> Result<Option<Text>, Memory>
    ensures { IfOk result (λ text. text ≡ as_str (view value.now)) }
{
    match value.as_str() {
        Some(text) => Ok(Some(Text::from_str(alloc, text)?)),
        None => Ok(None),
    }
}

// The texts of an array, where it has nothing else.
fn texts_in(alloc: Global, array: &[Value]) -> Result<Option<Texts>, Memory>
    ensures { IfOk result (λ texts. texts ≡ texts_in (items_view array.now)) }
{
    let mut texts = Texts::new(alloc);
    for value in array {
        match plain_text(alloc, value)? {
            Some(text) => texts.push(text)?,
            None => return Ok(None),
        }
    }
    Ok(Some(texts))
}

// Adds each text behind a comma.
fn push_behind_commas(out: &mut String, texts: &[Text]) -> Result<(), Memory>
    ensures { OnOk result (string_bytes out.new ≡ string_bytes out.old ++ flat_map (λ t. 44 ∷ t) texts.now) }
{
    for text in texts {
        out.push_str(",")?;
        out.push_str(text.as_str())?;
    }
    Ok(())
}

fn joined(alloc: Global, texts: &[Text]) -> Result<Text, Memory>
    ensures { IfOk result (λ text. text ≡ joined texts.now) }
{
    let mut out = String::new(alloc);
    if let [first, texts @ ..] = texts {
        out.push_str(first.as_str())?;
        push_behind_commas(&mut out, texts)?;
    }
    Ok(Text::from_string(out))
}

fn list_text(alloc: Global, value: &Value) -> Result<Option<Text>, Memory>
    ensures { IfOk result (λ text. text ≡ list_text (as_array (view value.now))) }
{
    let Some(array) = value.as_array() else {
        return Ok(None);
    };
    match texts_in(alloc, array.as_slice())? {
        Some(texts) => Ok(Some(joined(alloc, texts.as_slice())?)),
        None => Ok(None),
    }
}

// A value as it would stand in a word, where the kind takes it.
fn value_text(alloc: Global, kind: Kind, value: &Value) -> Result<Option<Text>, Memory>
    ensures { IfOk result (λ text. text ≡ text_of kind (view value.now)) }
{
    if is_flag(kind) {
        return boolean_text(alloc, value);
    }
    if let Some(text) = plain_text(alloc, value)? {
        return Ok(Some(text));
    }
    match kind {
        Kind::Flag | Kind::Path => Ok(None),
        Kind::YesOrNo => boolean_text(alloc, value),
        Kind::Number { .. } | Kind::Hundredths => number_text(alloc, value),
        Kind::MessageNames | Kind::Texts => list_text(alloc, value),
    }
}

// Reads the value of an option.
fn read_value(
    alloc: Global,
    option: OptionName,
    value: &Value,
    edits: &mut Edits,
) -> Result<(), UsageFault>
    ensures ok { OnOk result ((keys : List Key) → behind_edits edits.old (edits_of ((option, view value.now) ∷ keys)) ≡ behind_edits edits.new (edits_of keys)) }
    ensures refused { IfErr result (λ fault. is_memory fault ≡ false → (keys : List Key) → edits_of ((option, view value.now) ∷ keys) ≡ Err fault) }
{
    match value_text(alloc, option.kind(), value)? {
        Some(text) if allows(option, text.as_str()) => {
            edits.push(alloc, option, text.as_str())?;
            Ok(())
        }
        _ => Err(UsageFault::BadValue(Text::from_str(alloc, option.long_name())?)),
    }
}

fn dash(byte: u8) -> u8
    ensures { result ≡ dash byte }
{
    if byte == b'_' { b'-' } else { byte }
}

// Whether a key is a name, with `-` for each `_`.
fn is_written(key: &[u8], name: &[u8]) -> bool
    ensures { result ≡ bytes_eq (dashed key.now) name.now }
{
    key.len() == name.len() && key.iter().zip(name).all(|(k, n)| dash(*k) == *n)
}

// Whether a key names the option. A table is no value of a key.
fn is_key(option: OptionName, key: &str, value: &Value) -> bool
    ensures { result ≡ is_key option key.now (view value.now) }
{
    is_written(key.as_bytes(), option.long_name().as_bytes()) && !value.is_table()
}

// Reads the values of an option in a table.
fn read_table(
    alloc: Global,
    option: OptionName,
    table: &Table,
    edits: &mut Edits,
) -> Result<(), UsageFault>
    ensures ok { OnOk result ((keys : List Key) → behind_edits edits.old (edits_of (keys_in option (table_view table.now) ++ keys)) ≡ behind_edits edits.new (edits_of keys)) }
    ensures refused { IfErr result (λ fault. is_memory fault ≡ false → (keys : List Key) → edits_of (keys_in option (table_view table.now) ++ keys) ≡ Err fault) }
{
    for (key, value) in table {
        if is_key(option, key.as_str(), value) {
            read_value(alloc, option, value, edits)?;
        }
    }
    Ok(())
}

// Reads the values of an option in the tables directly below a table.
fn read_below(
    alloc: Global,
    option: OptionName,
    table: &Table,
    edits: &mut Edits,
) -> Result<(), UsageFault>
    ensures ok { OnOk result ((keys : List Key) → behind_edits edits.old (edits_of (keys_below option (table_view table.now) ++ keys)) ≡ behind_edits edits.new (edits_of keys)) }
    ensures refused { IfErr result (λ fault. is_memory fault ≡ false → (keys : List Key) → edits_of (keys_below option (table_view table.now) ++ keys) ≡ Err fault) }
{
    for (_, value) in table {
        if let Some(table) = value.as_table() {
            read_table(alloc, option, table, edits)?;
        }
    }
    Ok(())
}

// Reads the values of an option, first those in the table itself.
fn read_option(
    alloc: Global,
    option: OptionName,
    table: &Table,
    edits: &mut Edits,
) -> Result<(), UsageFault>
    ensures ok { OnOk result ((keys : List Key) → behind_edits edits.old (edits_of (keys_of_option (table_view table.now) option ++ keys)) ≡ behind_edits edits.new (edits_of keys)) }
    ensures refused { IfErr result (λ fault. is_memory fault ≡ false → (keys : List Key) → edits_of (keys_of_option (table_view table.now) option ++ keys) ≡ Err fault) }
{
    read_table(alloc, option, table, edits)?;
    read_below(alloc, option, table, edits)?;
    Ok(())
}

fn read_options(
    alloc: Global,
    options: &[OptionName],
    table: &Table,
    edits: &mut Edits,
) -> Result<(), UsageFault>
    ensures ok { OnOk result (behind_edits edits.old (edits_of (flat_map (keys_of_option (table_view table.now)) options.now)) ≡ Ok edits.new) }
    ensures refused { IfErr result (λ fault. is_memory fault ≡ false → edits_of (flat_map (keys_of_option (table_view table.now)) options.now) ≡ Err fault) }
{
    for option in options {
        read_option(alloc, *option, table, edits)?;
    }
    Ok(())
}

// Reads the table `tool.pylint`.
fn read_pylint(alloc: Global, table: &Table) -> Result<Edits, UsageFault>
    ensures edits { IfOk result (λ edits. edits_of (keys_of (table_view table.now)) ≡ Ok edits) }
    ensures refused { IfErr result (λ fault. is_memory fault ≡ false → edits_of (keys_of (table_view table.now)) ≡ Err fault) }
{
    let mut edits = Edits::new(alloc);
    read_options(alloc, &FILE_OPTIONS, table, &mut edits)?;
    Ok(edits)
}

fn table_at<'t>(table: &'t Table, name: &str) -> Option<&'t Table>
    ensures { option_map (λ t. table_view t.now) result ≡ table_at name.now (table_view table.now) }
{
    match table.get(name) {
        Some(value) => value.as_table(),
        None => None,
    }
}

// The table `tool.pylint`.
fn pylint_table(document: &Table) -> Option<&Table>
    ensures { option_map (λ t. table_view t.now) result ≡ pylint_table (table_view document.now) }
{
    match table_at(document, "tool") {
        Some(tool) => table_at(tool, "pylint"),
        None => None,
    }
}

fn read_document(alloc: Global, document: &Table) -> Result<Edits, UsageFault>
    ensures edits { IfOk result (λ edits. edits_in (pylint_table (table_view document.now)) ≡ Ok edits) }
    ensures refused { IfErr result (λ fault. is_memory fault ≡ false → edits_in (pylint_table (table_view document.now)) ≡ Err fault) }
{
    match pylint_table(document) {
        Some(table) => read_pylint(alloc, table),
        None => Ok(Edits::new(alloc)),
    }
}

/// Reads an options file: the edits that its keys say in the table `tool.pylint` and in the tables directly below it, or
/// the first fault. The path stands in the fault of a file that is no TOML, the key in that of a value.
pub fn read_toml(alloc: Global, path: &Text, bytes: &[u8]) -> Result<Edits, UsageFault>
    ensures edits { IfOk result (λ edits. file_edits path.now bytes.now ≡ Ok edits) }
    ensures refused { IfErr result (λ fault. is_memory fault ≡ false → file_edits path.now bytes.now ≡ Err fault) }
{
    match toml::table_from_slice(alloc, bytes) {
        Ok(document) => read_document(alloc, &document),
        Err(fault) if fault.is_memory() => Err(UsageFault::Memory),
        Err(_) => Err(UsageFault::BadToml(Text::from_str(alloc, path.as_str())?)),
    }
}
