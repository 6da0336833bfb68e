//! The reading of a description.
ghost use Rattle.std.specs.Prelude.{◌≡◌, None, IfOk, IfErr};
ghost use Rattle.toml.specs.Errors.{IsMemory};
ghost use Rattle.toml.specs.Parse.{parse_document};
ghost use Rattle.toml.specs.View.{table_view};
ghost use Rattle.line_plan.specs.Descriptions.{IsPlanOf, IsFaultOf, IsReadIn, IsUnknownAt, cause_place};
ghost use Rattle.line_plan.specs.Unknowns.{unknown_view};

use crate::plan::{Plan, plan_at};
use crate::unknown::{Unknown, meant_by, unknown_in};
use plan_tables::{
    Cause, Fields, PlanFault, Section, TextPlace, UnknownKey, octet_place, place_of,
};
use std::alloc::{AllocError, Global};
use text_signs::quoted;
use toml::Table;

// A key that its table may not have, with the one that may be meant.
fn unknown_key(alloc: Global, unknown: &Unknown<'_>) -> Result<UnknownKey, AllocError>
    ensures { IfOk result (λ key. IsUnknownAt (unknown_view unknown.now) key) }
{
    let meant = meant_by(alloc, unknown.known, unknown.key)?;
    let key = String::from_str(alloc, unknown.key)?;
    let shown = quoted(alloc, unknown.key.as_bytes())?;
    Ok(UnknownKey {
        section: unknown.section,
        key,
        shown,
        known: unknown.known,
        meant,
    })
}

// The place of the key that a cause is about.
fn cause_place(alloc: Global, text: &str, cause: &Cause) -> Result<TextPlace, AllocError>
    ensures { IfOk result (λ place. place ≡ cause_place text.now cause.now) }
{
    let octets = text.as_bytes();
    match cause {
        Cause::Syntax(_) => Ok(TextPlace { line: 1, column: 1 }),
        Cause::Unknown(unknown) => place_of(alloc, octets, unknown.section, unknown.key.as_str()),
        Cause::Wrong(wrong) => place_of(alloc, octets, wrong.section, wrong.key.word()),
    }
}

// The fault of a text that is no TOML.
fn syntax(alloc: Global, text: &str, error: &toml::de::Error) -> PlanFault
    requires { ¬ IsMemory error.now → parse_document text.now ≡ None }
    ensures { IsFaultOf text.now result }
{
    if error.is_memory() {
        return PlanFault::Memory;
    }
    let start = match error.span() {
        Some(span) => span.start,
        None => 0,
    };
    let octets = text.as_bytes();
    match String::from_str(alloc, error.message()) {
        Ok(message) => PlanFault::At(
            octet_place(octets, start.min(octets.len())),
            Cause::Syntax(message),
        ),
        Err(_) => PlanFault::Memory,
    }
}

impl Plan {
    /// The description that a table gives, with the defaults filled in.
    ///
    /// The first thing that is wrong is refused: a key that its table may not have, or a value that does not fit its key.
    pub fn of_table(alloc: Global, table: &Table) -> Result<Result<Plan, Cause>, AllocError>
        ensures { IfOk result (λ read. IsReadIn (table_view table.now) read) }
    {
        if let Some(unknown) = unknown_in(table) {
            let unknown = unknown_key(alloc, &unknown)?;
            return Ok(Err(Cause::Unknown(unknown)));
        }
        match plan_at(alloc, &Fields::of(Section::Top, table))? {
            Ok(plan) => Ok(Ok(plan)),
            Err(wrong) => Ok(Err(Cause::Wrong(wrong))),
        }
    }

    /// The description that a text gives.
    ///
    /// The first thing that is wrong is refused: that the text is no TOML, a key that its table may not have, or a value that does not fit its key.
    pub fn read(alloc: Global, text: &str) -> Result<Plan, PlanFault>
        ensures plan { IfOk result (λ plan. IsPlanOf text.now plan) }
        ensures fault { IfErr result (λ fault. IsFaultOf text.now fault) }
    {
        let table = match toml::table_from_str(alloc, text) {
            Ok(table) => table,
            Err(error) => return Err(syntax(alloc, text, &error)),
        };
        match Plan::of_table(alloc, &table)? {
            Ok(plan) => Ok(plan),
            Err(cause) => {
                let place = cause_place(alloc, text, &cause)?;
                Err(PlanFault::At(place, cause))
            }
        }
    }
}
