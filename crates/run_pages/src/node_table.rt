//! The table of the nodes of a run: what each is at the end, and what is counted of it.
ghost use Rattle.std.specs.Prelude.{◌≡◌, ◌++◌, ◌<◌, IfOk, IfSome, OnOk, length, position, slice_get};
ghost use Rattle.markup.specs.Markups.{markup_text};
ghost use Rattle.run_pages.specs.NodeTables as tables;

use crate::counting::{is_kind, is_yes};
use crate::node_counts::{NodeCount, add_addresses, add_datagram, add_events, no_count};
use frame_facts::push_short;
use line_record::{Change, Mode, Pasts, Story, StoryKind, is_good};
use markup::{Attribute, Element, count, end, given, open, push_heading, push_pieces, start, text};
use plc_base::Eui;
use run_charts::ChartRun;
use std::alloc::{AllocError, Global};
use story_accounts::Account;

// What addresses and events say of each node.
fn counts_before(account: &Account<'_>) -> Result<Vec<NodeCount>, AllocError>
    ensures { IfOk result (λ counts. counts.items ≡ tables.counts_before account.now) }
{
    let mut counts = Vec::new(account.alloc);
    counts.resize(account.euis.len(), no_count())?;
    add_addresses(&mut counts, account.homes);
    add_events(&mut counts, account.run_record.events.as_slice());
    Ok(counts)
}

// What a story says of its node, where it is about a datagram.
fn add_story(counts: &mut Vec<NodeCount>, account: &Account<'_>, number: usize, story: &Story)
    ensures { counts.new.items ≡ tables.story_added account.now number story.now counts.old.items }
{
    if !is_kind(story.kind, StoryKind::Datagram) {
        return;
    }
    add_datagram(
        counts,
        story.person,
        is_yes(is_good(&account.verdict(number))),
    );
}

fn add_stories(counts: &mut Vec<NodeCount>, account: &Account<'_>, stories: &[Story])
    ensures { counts.new.items ≡ tables.stories_added account.now 0 stories.now counts.old.items }
{
    for (i, story) in stories.iter().enumerate() {
        add_story(counts, account, i + 1, story);
    }
}

// What is counted of each node.
fn node_counts(account: &Account<'_>) -> Result<Vec<NodeCount>, AllocError>
    ensures { IfOk result (λ counts. counts.items ≡ tables.node_counts account.now) }
{
    let mut counts = counts_before(account)?;
    add_stories(&mut counts, account, account.stories);
    Ok(counts)
}

fn count_at(counts: &[NodeCount], node: usize) -> NodeCount
    ensures { result ≡ tables.count_or_none (slice_get counts.now node) }
{
    match counts.get(node) {
        None => no_count(),
        Some(counted) => *counted,
    }
}

fn is_joined(mode: Mode) -> bool
    ensures { result ≡ tables.is_joined mode }
{
    match mode {
        Mode::Key0 => true,
        Mode::Key1 => true,
        Mode::Out => false,
        Mode::Halted => false,
    }
}

fn joined_place(changes: &[Change]) -> Option<usize>
    ensures value { result ≡ position tables.joins changes.now }
    ensures bound { IfSome result (λ p. p < length changes.now) }
{
    changes.iter().position(|change| is_joined(change.mode))
}

// Whether a node was ever joined.
fn was_joined(changes: &[Change]) -> bool
    ensures { result ≡ tables.was_joined changes.now }
{
    joined_place(changes).is_some()
}

fn out_words(joined: bool) -> &'static str
    ensures { result.now ≡ tables.out_words joined }
{
    if joined {
        return "not joined any more";
    }
    "never joined"
}

fn mode_words(mode: Mode, joined: bool) -> &'static str
    ensures { result.now ≡ tables.mode_words mode joined }
{
    match mode {
        Mode::Out => out_words(joined),
        Mode::Key0 => "joined, key 0",
        Mode::Key1 => "joined, key 1",
        Mode::Halted => "halted",
    }
}

// What a node is at the end of a run.
fn end_words(changes: &[Change]) -> &'static str
    ensures { result.now ≡ tables.end_words changes.now }
{
    match changes.last() {
        None => "",
        Some(change) => mode_words(change.mode, was_joined(changes)),
    }
}

#[tactic(auto, unfolding(crate::specs::NodeTables::text_cell))]
fn push_text_cell(out: &mut Vec<u8>, words: &str) -> Result<(), AllocError>
    ensures { OnOk result (out.new.items ≡ out.old.items ++ markup_text (tables.text_cell words.now)) }
{
    push_pieces(
        out,
        &[
            start(Element::Cell),
            open(),
            text(words),
            end(Element::Cell),
        ],
    )
}

#[tactic(auto, unfolding(crate::specs::NodeTables::number_cell))]
fn push_number_cell(out: &mut Vec<u8>, number: usize) -> Result<(), AllocError>
    ensures { OnOk result (out.new.items ≡ out.old.items ++ markup_text (tables.number_cell number)) }
{
    push_pieces(
        out,
        &[
            start(Element::Cell),
            open(),
            count(number),
            end(Element::Cell),
        ],
    )
}

#[tactic(auto, unfolding(crate::specs::NodeTables::head_cell))]
fn push_head_cell(out: &mut Vec<u8>, words: &str) -> Result<(), AllocError>
    ensures { OnOk result (out.new.items ≡ out.old.items ++ markup_text (tables.head_cell words.now)) }
{
    push_pieces(
        out,
        &[
            start(Element::HeadCell),
            open(),
            text(words),
            end(Element::HeadCell),
        ],
    )
}

// A short address, as reports have it.
fn push_short_cell(out: &mut Vec<u8>, alloc: Global, address: usize) -> Result<(), AllocError>
    ensures { OnOk result (out.new.items ≡ out.old.items ++ markup_text (tables.short_cell address)) }
{
    let mut digits = String::new(alloc);
    push_short(&mut digits, alloc, address.min(0xffff) as u16)?;
    push_text_cell(out, digits.as_str())
}

fn push_address_cell(
    out: &mut Vec<u8>,
    alloc: Global,
    address: Option<usize>,
) -> Result<(), AllocError>
    ensures { OnOk result (out.new.items ≡ out.old.items ++ markup_text (tables.address_cell address)) }
{
    match address {
        None => push_text_cell(out, ""),
        Some(address) => push_short_cell(out, alloc, address),
    }
}

fn push_eui_cell(out: &mut Vec<u8>, alloc: Global, eui: &Eui) -> Result<(), AllocError>
    ensures { OnOk result (out.new.items ≡ out.old.items ++ markup_text (tables.eui_cell eui.now)) }
{
    let digits = hex::encode(alloc, eui.0.as_slice())?;
    push_text_cell(out, digits.as_str())
}

// Who a node is.
#[tactic(auto, unfolding(crate::specs::NodeTables::who_cells))]
fn push_who_cells(
    out: &mut Vec<u8>,
    alloc: Global,
    node: usize,
    eui: &Eui,
    changes: &[Change],
    address: Option<usize>,
) -> Result<(), AllocError>
    ensures { OnOk result (out.new.items ≡ out.old.items ++ markup_text (tables.who_cells node eui.now changes.now address)) }
{
    push_number_cell(out, node)?;
    push_address_cell(out, alloc, address)?;
    push_eui_cell(out, alloc, eui)?;
    push_text_cell(out, end_words(changes))
}

// What is counted of it.
#[tactic(auto, unfolding(crate::specs::NodeTables::count_cells))]
fn push_count_cells(out: &mut Vec<u8>, counted: &NodeCount) -> Result<(), AllocError>
    ensures { OnOk result (out.new.items ≡ out.old.items ++ markup_text (tables.count_cells counted.now)) }
{
    push_number_cell(out, counted.datagrams)?;
    push_number_cell(out, counted.came)?;
    push_number_cell(out, counted.refusals)?;
    push_number_cell(out, counted.forged)
}

// Whether somebody should look at a node: it never joined, a datagram of it did not come, or an event of it is forged.
fn is_amiss(joined: bool, counted: &NodeCount) -> bool
    ensures { result ≡ tables.is_amiss joined counted.now }
{
    if joined {
        return counted.came < counted.datagrams || 0 < counted.forged;
    }
    true
}

fn row_class(amiss: bool) -> &'static str
    ensures { result.now ≡ tables.row_class amiss }
{
    if amiss {
        return "b";
    }
    "g"
}

#[tactic(auto, unfolding(crate::specs::NodeTables::row))]
fn push_row(
    out: &mut Vec<u8>,
    alloc: Global,
    node: usize,
    eui: &Eui,
    changes: &[Change],
    counted: &NodeCount,
) -> Result<(), AllocError>
    ensures { OnOk result (out.new.items ≡ out.old.items ++ markup_text (tables.row node eui.now changes.now counted.now)) }
{
    let class = row_class(is_amiss(was_joined(changes), counted));
    push_pieces(
        out,
        &[start(Element::Row), given(Attribute::Class, class), open()],
    )?;
    push_who_cells(out, alloc, node, eui, changes, counted.address)?;
    push_count_cells(out, counted)?;
    push_pieces(out, &[end(Element::Row)])
}

fn push_row_of(
    out: &mut Vec<u8>,
    alloc: Global,
    pasts: &Pasts,
    counts: &[NodeCount],
    node: usize,
    eui: &Eui,
) -> Result<(), AllocError>
    ensures { OnOk result (out.new.items ≡ out.old.items ++ markup_text (tables.row_of pasts.now counts.now node eui.now)) }
{
    push_row(
        out,
        alloc,
        node,
        eui,
        pasts.changes(node),
        &count_at(counts, node),
    )
}

fn push_rows(
    out: &mut Vec<u8>,
    alloc: Global,
    pasts: &Pasts,
    counts: &[NodeCount],
    euis: &[Eui],
) -> Result<(), AllocError>
    ensures { OnOk result (out.new.items ≡ out.old.items ++ markup_text (tables.rows pasts.now counts.now 0 euis.now)) }
{
    for (i, eui) in euis.iter().enumerate() {
        push_row_of(out, alloc, pasts, counts, i, eui)?;
    }
    Ok(())
}

#[tactic(auto, unfolding(crate::specs::NodeTables::who_heads))]
fn push_who_heads(out: &mut Vec<u8>) -> Result<(), AllocError>
    ensures { OnOk result (out.new.items ≡ out.old.items ++ markup_text tables.who_heads) }
{
    push_head_cell(out, "node")?;
    push_head_cell(out, "address")?;
    push_head_cell(out, "EUI-64")?;
    push_head_cell(out, "at the end")
}

#[tactic(auto, unfolding(crate::specs::NodeTables::count_heads))]
fn push_count_heads(out: &mut Vec<u8>) -> Result<(), AllocError>
    ensures { OnOk result (out.new.items ≡ out.old.items ++ markup_text tables.count_heads) }
{
    push_head_cell(out, "datagrams")?;
    push_head_cell(out, "came")?;
    push_head_cell(out, "refusals")?;
    push_head_cell(out, "forged")
}

#[tactic(auto, unfolding(crate::specs::NodeTables::head_row))]
fn push_head_row(out: &mut Vec<u8>) -> Result<(), AllocError>
    ensures { OnOk result (out.new.items ≡ out.old.items ++ markup_text tables.head_row) }
{
    push_pieces(out, &[start(Element::Row), open()])?;
    push_who_heads(out)?;
    push_count_heads(out)?;
    push_pieces(out, &[end(Element::Row)])
}

#[tactic(auto, unfolding(crate::specs::NodeTables::table))]
fn push_table(
    out: &mut Vec<u8>,
    alloc: Global,
    pasts: &Pasts,
    counts: &[NodeCount],
    euis: &[Eui],
) -> Result<(), AllocError>
    ensures { OnOk result (out.new.items ≡ out.old.items ++ markup_text (tables.table pasts.now counts.now euis.now)) }
{
    push_pieces(out, &[start(Element::Table), open()])?;
    push_head_row(out)?;
    push_rows(out, alloc, pasts, counts, euis)?;
    push_pieces(out, &[end(Element::Table)])
}

#[tactic(auto, unfolding(crate::specs::NodeTables::table_card))]
fn push_table_card(
    out: &mut Vec<u8>,
    alloc: Global,
    pasts: &Pasts,
    counts: &[NodeCount],
    euis: &[Eui],
) -> Result<(), AllocError>
    ensures { OnOk result (out.new.items ≡ out.old.items ++ markup_text (tables.table_card pasts.now counts.now euis.now)) }
{
    push_pieces(
        out,
        &[
            start(Element::Division),
            given(Attribute::Class, "card high"),
            open(),
        ],
    )?;
    push_table(out, alloc, pasts, counts, euis)?;
    push_pieces(out, &[end(Element::Division)])
}

// The card over what is known of the nodes of a run.
fn push_card_of(
    out: &mut Vec<u8>,
    run: &ChartRun<'_>,
    counts: &[NodeCount],
    euis: &[Eui],
) -> Result<(), AllocError>
    ensures { OnOk result (out.new.items ≡ out.old.items ++ markup_text (tables.table_card run.now.pasts counts.now euis.now)) }
{
    push_table_card(out, run.alloc, run.pasts, counts, euis)
}

/// Appends the table of the nodes.
///
/// It fails only where memory runs out; `out` may end anywhere within the table then.
#[tactic(auto, unfolding(crate::specs::NodeTables::nodes_table))]
pub fn push_nodes_table(
    out: &mut Vec<u8>,
    account: &Account<'_>,
    run: &ChartRun<'_>,
) -> Result<(), AllocError>
    ensures { OnOk result (out.new.items ≡ out.old.items ++ markup_text (tables.nodes_table account.now run.now)) }
{
    let counts = node_counts(account)?;
    push_heading(out, "The nodes")?;
    push_card_of(out, run, counts.as_slice(), account.euis)
}
