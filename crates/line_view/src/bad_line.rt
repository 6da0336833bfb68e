//! The line at which a run ends because it is bad.
ghost use Rattle.std.specs.Prelude.{◌≡◌, ◌++◌, ◌≤◌, IfOk, OnOk, length, string_bytes};
ghost use Rattle.line_view.specs.BadLines.{bad_line_text, bad_text, bad_words};
ghost use Rattle.line_view.specs.Checked.{bad_line};

use line_script::Reason;
use script_faults::word_of_reason;
use script_lines::StopReason;
use sentence_parts::{number, push_parts, words};
use std::alloc::{AllocError, Global};

/// A bad line: its number, and why it is bad.
#[derive(Clone, Copy)]
pub struct BadLine {
    /// Its number, from 1.
    pub row: u32,
    /// Why it is bad.
    pub reason: Reason,
}

/// Appends that the run ends at a bad line, and why that is bad. It fails only where memory runs out.
#[tactic(auto, unfolding(crate::specs::BadLines::bad_text))]
pub fn push_bad(text: &mut String, alloc: Global, bad: BadLine) -> Result<(), AllocError>
    ensures text { OnOk result (string_bytes text.new ≡ string_bytes text.old ++ bad_text bad) }
    ensures bound { length (bad_text bad) ≤ 2000 }
{
    let reason = word_of_reason(bad.reason);
    push_parts(
        text,
        alloc,
        &[
            words("The run ends at line "),
            number(bad.row as usize),
            words(", which is bad: "),
            words(reason),
            words(". `line_view check` says why."),
        ],
    )
}

/// Appends the same as a line, no line where there is no bad one. It fails only where memory runs out.
pub fn push_bad_line(
    text: &mut String,
    alloc: Global,
    bad: Option<BadLine>,
) -> Result<(), AllocError>
    ensures { OnOk result (string_bytes text.new ≡ string_bytes text.old ++ bad_line_text bad) }
{
    match bad {
        None => Ok(()),
        Some(bad) => {
            push_bad(text, alloc, bad)?;
            text.push_str("\n")
        }
    }
}

/// What is said of the bad line at which a run ends, no words where there is none. It fails only where memory runs out.
pub fn bad_words(alloc: Global, bad: Option<BadLine>) -> Result<String, AllocError>
    ensures text { IfOk result (λ text. string_bytes text ≡ bad_words bad) }
    ensures bound { IfOk result (λ text. length (string_bytes text) ≤ 2000) }
{
    let mut text = String::new(alloc);
    let Some(bad) = bad else {
        return Ok(text);
    };
    push_bad(&mut text, alloc, bad)?;
    Ok(text)
}

/// What a bad line answers, once its text was written or not.
pub fn bad_line(written: Result<(), StopReason>) -> Result<(), StopReason>
    ensures { result ≡ bad_line written }
{
    match written {
        Ok(()) => Err(StopReason::BadLine),
        Err(reason) => Err(reason),
    }
}
