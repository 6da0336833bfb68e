//! The plan of a description with options.
ghost use Rattle.std.specs.Prelude.{◌≡◌, IfOk, IfErr, string_bytes};
ghost use Rattle.toml.specs.View.{table_view};
ghost use Rattle.line_plan.specs.Descriptions.{IsPlanOf};
ghost use Rattle.line_plan.specs.OptionDescriptions.{IsPlanBy, IsPlanWith, IsDescribed, IsBadBy, IsBadWith, IsRefused, IsBadText, IsFaultLine, IsOptionLine};
ghost use Rattle.line_plan.specs.OptionDescriptions.{long_line, no_text_line, cause_line, word_at, quoted_at, no_plan, table_place};

use crate::Plan;
use crate::input::{InputFault, read_text};
use crate::options::{OptionFault, with_options};
use plan_tables::{Cause, Key, PlanFault, Section, TextPlace, place_of};
use plc_base::Source;
use std::alloc::{AllocError, Global};
use text_signs::quoted;
use toml::Table;

/// What a description says.
#[derive(Drop)]
pub struct Description {
    /// The plan, as options change it.
    pub plan: Plan,
    /// Where the text has the table of the place, or a key of it. None with options: once they have changed a description, places say nothing of its text.
    pub place: Option<TextPlace>,
}

/// Why there is no plan.
#[derive(Drop, Debug)]
pub enum NoPlan {
    /// What is wrong with the description, as a line.
    Bad(String),
    /// The source failed.
    Read,
    Memory,
}

// A line that says what is wrong, if there is memory for it.
type Wrong = Result<String, AllocError>;

fn no_plan(wrong: Wrong) -> NoPlan
    ensures { result ≡ no_plan wrong }
{
    match wrong {
        Ok(line) => NoPlan::Bad(line),
        Err(AllocError) => NoPlan::Memory,
    }
}

fn wrong_text(alloc: Global, fault: &PlanFault) -> Wrong
    ensures { IfOk result (λ line. IsFaultLine fault.now (string_bytes line)) }
{
    match fault {
        PlanFault::Memory => Err(AllocError),
        PlanFault::At(_, _) => format!(in alloc; "bad description: {fault}\n"),
    }
}

// Once options have changed a description, places say nothing of its text.
fn wrong_with_options(alloc: Global, cause: &Cause) -> Wrong
    ensures { IfOk result (λ line. string_bytes line ≡ cause_line cause.now) }
{
    format!(in alloc; "bad description with these options: {cause}\n")
}

fn long_text(alloc: Global, place: TextPlace) -> Wrong
    ensures { IfOk result (λ line. string_bytes line ≡ long_line place) }
{
    format!(in alloc; "bad description: {place}: it has more than 16777216 octets\n")
}

fn no_text(alloc: Global, place: TextPlace) -> Wrong
    ensures { IfOk result (λ line. string_bytes line ≡ no_text_line place) }
{
    format!(in alloc; "bad description: {place}: it is no UTF-8\n")
}

// The word at a place among options.
fn word_at(options: &[String], place: usize) -> &str
    ensures { result.now ≡ word_at options.now place }
{
    match options.get(place) {
        Some(word) => word.as_str(),
        None => "",
    }
}

// The same, as a message quotes it.
fn quoted_at(alloc: Global, options: &[String], place: usize) -> Wrong
    ensures { IfOk result (λ word. string_bytes word ≡ quoted_at options.now place) }
{
    quoted(alloc, word_at(options, place).as_bytes())
}

fn wrong_option(alloc: Global, options: &[String], fault: OptionFault) -> Wrong
    ensures { IfOk result (λ line. IsOptionLine options.now fault (string_bytes line)) }
{
    match fault {
        OptionFault::Form(place) => {
            let word = quoted_at(alloc, options, place)?;
            format!(in alloc; "bad option: `{word}` is no KEY=VALUE\n")
        }
        OptionFault::NoValue(place) => {
            let word = quoted_at(alloc, options, place)?;
            format!(in alloc; "bad option: no value of TOML in `{word}`\n")
        }
        OptionFault::NoTable(place) => {
            let word = quoted_at(alloc, options, place)?;
            format!(in alloc; "bad option: no table is named before the point in `{word}`\n")
        }
        OptionFault::Memory => Err(AllocError),
    }
}

// The plan of a text without options.
fn plan_alone(alloc: Global, text: &str) -> Result<Plan, Wrong>
    ensures plan { IfOk result (λ plan. IsPlanOf text.now plan) }
    ensures wrong { IfErr result (λ wrong. IfOk wrong (λ line. IsBadText text.now (string_bytes line))) }
{
    match Plan::read(alloc, text) {
        Ok(plan) => Ok(plan),
        Err(fault) => Err(wrong_text(alloc, &fault)),
    }
}

// The plan of a table as options change it.
fn plan_changed(alloc: Global, table: Table, options: &[String]) -> Result<Plan, Wrong>
    ensures plan { IfOk result (λ plan. IsPlanBy (table_view table) options.now plan) }
    ensures wrong { IfErr result (λ wrong. IfOk wrong (λ line. IsBadBy (table_view table) options.now (string_bytes line))) }
{
    let table = match with_options(alloc, table, options) {
        Ok(table) => table,
        Err(fault) => return Err(wrong_option(alloc, options, fault)),
    };
    match Plan::of_table(alloc, &table) {
        Ok(Ok(plan)) => Ok(plan),
        Ok(Err(cause)) => Err(wrong_with_options(alloc, &cause)),
        Err(AllocError) => Err(Err(AllocError)),
    }
}

// The plan of a text, as options change it. The text has to be right by itself.
fn plan_of(alloc: Global, text: &str, options: &[String]) -> Result<Plan, Wrong>
    ensures plan { IfOk result (λ plan. IsPlanWith text.now options.now plan) }
    ensures wrong { IfErr result (λ wrong. IfOk wrong (λ line. IsBadWith text.now options.now (string_bytes line))) }
{
    let alone = match plan_alone(alloc, text) {
        Ok(alone) => alone,
        Err(wrong) => return Err(wrong),
    };
    if options.is_empty() {
        return Ok(alone);
    }
    match toml::table_from_str(alloc, text) {
        Ok(table) => plan_changed(alloc, table, options),
        Err(_) => Err(Err(AllocError)),
    }
}

// Where a text has the table of the place, unless options changed what it says.
fn table_place(
    alloc: Global,
    text: &str,
    options: &[String],
) -> Result<Option<TextPlace>, AllocError>
    ensures { IfOk result (λ place. place ≡ table_place text.now options.now) }
{
    if !options.is_empty() {
        return Ok(None);
    }
    let place = place_of(alloc, text.as_bytes(), Section::Top, Key::Place.word())?;
    Ok(Some(place))
}

/// Reads the description that a source gives, and answers its plan with the values that options give: pairs of `--set` and `KEY=VALUE`, or `--seed` and a
/// number.
pub fn read_plan<S: Source>(
    alloc: Global,
    source: &mut S,
    options: &[String],
) -> Result<Description, NoPlan>
    // The text that the source gave is right by itself. Its members, as the options change them, give the plan.
    ensures plan { IfOk result (λ it. IsDescribed (S.state source.old) (S.state source.new) options.now it) }
    // A line says what is wrong first, and a fault of reading comes only where the source failed.
    ensures refused { IfErr result (λ it. IsRefused (S.state source.old) (S.state source.new) options.now it) }
{
    let text = match read_text(alloc, source) {
        Ok(text) => text,
        Err(InputFault::Read) => return Err(NoPlan::Read),
        Err(InputFault::Memory) => return Err(NoPlan::Memory),
        Err(InputFault::Long(place)) => return Err(no_plan(long_text(alloc, place))),
        Err(InputFault::Text(place)) => return Err(no_plan(no_text(alloc, place))),
    };
    let plan = match plan_of(alloc, text.as_str(), options) {
        Ok(plan) => plan,
        Err(wrong) => return Err(no_plan(wrong)),
    };
    match table_place(alloc, text.as_str(), options) {
        Ok(place) => Ok(Description { plan, place }),
        Err(AllocError) => Err(NoPlan::Memory),
    }
}
