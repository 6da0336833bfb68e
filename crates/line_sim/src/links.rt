//! The links of a place as lines of CSV.
ghost use Rattle.std.specs.Prelude.{◌≡◌, ◌++◌, string_bytes, IfOk, OnOk};
ghost use Rattle.line_place.specs.Rows.{hearers};
ghost use Rattle.line_sim.specs.Links.{ends_text, percent_text, cost_text, link_text, row_text, rows_text, links_text};

use line_place::{Link, Place};
use std::alloc::{AllocError, Global};

#[tactic(auto, unfolding(crate::specs::Links::ends_text))]
fn push_ends(text: &mut String, from: u32, to: u32) -> Result<(), AllocError>
    ensures { OnOk result (string_bytes text.new ≡ string_bytes text.old ++ ends_text from to) }
{
    match write!(text, "{from},{to},") {
        Ok(()) => Ok(()),
        Err(_) => Err(AllocError),
    }
}

// Appends a chance of ten-thousandths in per cent.
#[tactic(auto, unfolding(crate::specs::Links::percent_text))]
fn push_percent(text: &mut String, loss: u32) -> Result<(), AllocError>
    ensures { OnOk result (string_bytes text.new ≡ string_bytes text.old ++ percent_text loss) }
{
    let whole = loss / 100;
    let tenths = loss / 10 % 10;
    let hundredths = loss % 10;
    match write!(text, "{whole}.{tenths}{hundredths}") {
        Ok(()) => Ok(()),
        Err(_) => Err(AllocError),
    }
}

#[tactic(auto, unfolding(crate::specs::Links::cost_text))]
fn push_cost(text: &mut String, cost: u8) -> Result<(), AllocError>
    ensures { OnOk result (string_bytes text.new ≡ string_bytes text.old ++ cost_text cost) }
{
    match write!(text, ",{cost}\n") {
        Ok(()) => Ok(()),
        Err(_) => Err(AllocError),
    }
}

#[tactic(auto, unfolding(crate::specs::Links::link_text))]
fn push_link(text: &mut String, from: u32, link: Link) -> Result<(), AllocError>
    ensures { OnOk result (string_bytes text.new ≡ string_bytes text.old ++ link_text from link) }
{
    push_ends(text, from, link.to)?;
    push_percent(text, link.loss)?;
    push_cost(text, link.cost)
}

// Appends the links of a node.
fn push_row(text: &mut String, from: u32, links: &[Link]) -> Result<(), AllocError>
    ensures { OnOk result (string_bytes text.new ≡ string_bytes text.old ++ row_text from links.now) }
{
    for link in links {
        push_link(text, from, *link)?;
    }
    Ok(())
}

// Appends the links of the first this many nodes.
fn push_rows(text: &mut String, place: &Place, nodes: u32) -> Result<(), AllocError>
    ensures { OnOk result (string_bytes text.new ≡ string_bytes text.old ++ rows_text place.now nodes) }
{
    for from in 0..nodes {
        push_row(text, from, place.hearers(from))?;
    }
    Ok(())
}

/// The links of this many nodes of a place as lines of CSV: who sends, who hears it, the loss in per cent, the cost.
pub fn links_text(alloc: Global, place: &Place, nodes: u32) -> Result<String, AllocError>
    ensures { IfOk result (λ text. string_bytes text ≡ links_text place.now nodes) }
{
    let mut text = String::from_str(alloc, "from,to,loss,cost\n")?;
    push_rows(&mut text, place, nodes)?;
    Ok(text)
}
