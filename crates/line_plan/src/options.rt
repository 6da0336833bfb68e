//! Options that change a description: `--set KEY=VALUE` and `--seed N`.
ghost use Rattle.std.specs.Prelude.{◌≡◌, ◌<◌, ◌||◌, not, IfOk, Some, option_map};
ghost use Rattle.toml.specs.Data.{as_table, get_member, table};
ghost use Rattle.toml.specs.Parse.{parse_value};
ghost use Rattle.toml.specs.View.{view, table_view};
ghost use Rattle.line_plan.specs.Options.{is_option, are_options, split_at_first, parts_of, with_member, inner_of, with_inner, with_path};
ghost use Rattle.line_plan.specs.Options.{with_option, with_options, IsChange};

use std::alloc::{AllocError, Global};
use toml::{Table, Value};

/// Why an option does not change the description. The place is that of its second word among the options, from 0 on.
#[derive(Clone, Copy, Debug, PartialEq, Eq)]
pub enum OptionFault {
    /// The word is not of the form `KEY=VALUE`.
    Form(usize),
    /// The value is none of TOML.
    NoValue(usize),
    /// What stands before the point of the key is no table.
    NoTable(usize),
    Memory,
}

impl From<AllocError> for OptionFault {
    ghost use Rattle.line_plan.specs.declared.options.OptionFault.TheVariants.{Memory};

    ghost from_gives = { λ _ fault. fault ≡ Memory };

    fn from(_: AllocError) -> OptionFault {
        OptionFault::Memory
    }
}

fn is_option(name: &str) -> bool
    ensures { result ≡ is_option name.now }
{
    name == "--set" || name == "--seed"
}

// Whether a word may come next, where a name does or else any word.
fn is_expected(is_name: bool, word: &str) -> bool
    ensures { result ≡ (not is_name || is_option word.now) }
{
    !is_name || is_option(word)
}

/// Whether words are options, each with its value: `--set` or `--seed`, and a word.
pub fn are_options(words: &[String]) -> bool
    ensures { result ≡ are_options words.now }
{
    let mut is_name = true;
    for word in words {
        if !is_expected(is_name, word.as_str()) {
            return false;
        }
        is_name = !is_name;
    }
    is_name
}

// What stands before the first of such characters, and after it.
fn split_at_first(text: &str, mark: char) -> Option<(&str, &str)>
    requires { mark < 128 }
    ensures { option_map (λ p. (p.0.now, p.1.now)) result ≡ split_at_first mark text.now }
{
    text.split_once(mark)
}

// The path and the value of an option.
#[tactic(auto, unfolding(crate::specs::Options::parts_of))]
fn parts<'a>(name: &str, word: &'a str) -> Option<(&'a str, &'a str)>
    ensures { option_map (λ p. (p.0.now, p.1.now)) result ≡ parts_of name.now word.now }
{
    if name == "--seed" {
        return Some(("seed", word));
    }
    split_at_first(word, '=')
}

// The table that a value is.
fn table_of(value: Value) -> Option<Table>
    ensures { option_map (λ t. table_view t) result ≡ as_table (view value) }
{
    match value {
        Value::Table(table) => Some(table),
        Value::String(_) => None,
        Value::Integer(_) => None,
        Value::Float(_) => None,
        Value::Boolean(_) => None,
        Value::Datetime(_) => None,
        Value::Array(_) => None,
    }
}

// A copy of the table at a name: one without members where nothing is there, and None where what is there is no table.
fn inner(alloc: Global, table: &Table, name: &str) -> Result<Option<Table>, AllocError>
    ensures { IfOk result (λ inner. option_map (λ t. table_view t) inner ≡ inner_of (get_member name.now (table_view table.now))) }
{
    match table.get(name) {
        None => Ok(Some(Table::new(alloc))),
        Some(value) => {
            let copy = value.clone()?;
            Ok(table_of(copy))
        }
    }
}

// A table with a value at a key.
fn with_key(alloc: Global, mut table: Table, key: &str, value: Value) -> Result<Table, AllocError>
    ensures { IfOk result (λ more. table_view more ≡ with_member key.now (view value) (table_view table)) }
{
    let key = String::from_str(alloc, key)?;
    table.insert(key, value)?;
    Ok(table)
}

// A table with another at a name, which has a value at a key.
fn with_both(
    alloc: Global,
    outer: Table,
    name: &str,
    inner: Table,
    key: &str,
    value: Value,
) -> Result<Option<Table>, AllocError>
    ensures { IfOk result (λ more. option_map (λ t. table_view t) more
        ≡ Some (with_member name.now (table (with_member key.now (view value) (table_view inner))) (table_view outer))) }
{
    let within = with_key(alloc, inner, key, value)?;
    let whole = with_key(alloc, outer, name, Value::Table(within))?;
    Ok(Some(whole))
}

// A table with a value at a key of the table of a name. None where what is there is no table.
fn with_inner(
    alloc: Global,
    table: Table,
    name: &str,
    key: &str,
    value: Value,
) -> Result<Option<Table>, AllocError>
    ensures { IfOk result (λ more. option_map (λ t. table_view t) more ≡ with_inner name.now key.now (view value) (table_view table)) }
{
    match inner(alloc, &table, name) {
        Ok(Some(inner)) => with_both(alloc, table, name, inner, key, value),
        Ok(None) => Ok(None),
        Err(error) => Err(error),
    }
}

// A table with a value at a path: a key, or a name, a point and a key. None where there is no table at the name.
fn with_path(
    alloc: Global,
    table: Table,
    path: &str,
    value: Value,
) -> Result<Option<Table>, AllocError>
    ensures { IfOk result (λ more. option_map (λ t. table_view t) more ≡ with_path path.now (view value) (table_view table)) }
{
    match split_at_first(path, '.') {
        None => {
            let more = with_key(alloc, table, path, value)?;
            Ok(Some(more))
        }
        Some((name, key)) => with_inner(alloc, table, name, key, value),
    }
}

// The value that a text is, if it is one.
fn value_of(alloc: Global, text: &str) -> Result<Option<Value>, AllocError>
    ensures { IfOk result (λ value. option_map view value ≡ parse_value text.now) }
{
    match Value::from_str(alloc, text) {
        Ok(value) => Ok(Some(value)),
        Err(error) => {
            if error.is_memory() {
                return Err(AllocError);
            }
            Ok(None)
        }
    }
}

// A table as an option changes it, whose value is the word at this place.
#[tactic(auto, unfolding(crate::specs::Options::with_option))]
fn with_option(
    alloc: Global,
    table: Table,
    name: &str,
    word: &str,
    place: usize,
) -> Result<Table, OptionFault>
    ensures { IsChange (with_option place name.now word.now (table_view table)) result }
{
    let Some((path, text)) = parts(name, word) else {
        return Err(OptionFault::Form(place));
    };
    let Some(value) = value_of(alloc, text)? else {
        return Err(OptionFault::NoValue(place));
    };
    match with_path(alloc, table, path, value)? {
        Some(table) => Ok(table),
        None => Err(OptionFault::NoTable(place)),
    }
}

/// A table as options change it, one after the other.
///
/// The first option is refused that is invalid, has no value of TOML, or gives a key to what is no table.
pub fn with_options(
    alloc: Global,
    mut table: Table,
    options: &[String],
) -> Result<Table, OptionFault>
    ensures { IsChange (with_options 0 options.now (table_view table)) result }
{
    for nth in 0..options.len() / 2 {
        let (name, word) = (options[2 * nth].as_str(), options[2 * nth + 1].as_str());
        table = match with_option(alloc, table, name, word, 2 * nth + 1) {
            Ok(table) => table,
            Err(fault) => return Err(fault),
        };
    }
    Ok(table)
}
