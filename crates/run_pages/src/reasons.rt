//! Why stories failed: the reasons that `explain` counts, with links to the first stories of each.
ghost use Rattle.std.specs.Prelude.{◌≡◌, ◌++◌, IfOk, OnOk, string_bytes};
ghost use Rattle.markup.specs.Markups.{markup_text};
ghost use Rattle.run_pages.specs.Reasons as spec_reasons;

use markup::{
    Attribute, Element, count, end, given, open, push_heading, push_pieces, push_span,
    push_subheading, start, text,
};
use sentence_parts::{number, sentence, words};
use std::alloc::{AllocError, Global};
use story_accounts::{Account, Group, SECTIONS, Section, section_title};

/// This many stories of a reason have a link.
const MOST: usize = 8;

// The place of a story on the page.
#[tactic(auto, unfolding(crate::specs::Reasons::target))]
fn target(alloc: Global, story: usize) -> Result<String, AllocError>
    ensures { IfOk result (λ text. string_bytes text ≡ spec_reasons.target story) }
{
    sentence(alloc, &[words("#"), number(story)])
}

// To a place of the page, by the event that its story begins with.
#[tactic(auto, unfolding(crate::specs::Reasons::link_to))]
fn push_link_to(out: &mut Vec<u8>, target: &str, event: usize) -> Result<(), AllocError>
    ensures { OnOk result (out.new.items ≡ out.old.items ++ markup_text (spec_reasons.link_to target.now event)) }
{
    push_pieces(
        out,
        &[
            text(" "),
            start(Element::Link),
            given(Attribute::Target, target),
            open(),
            text("event "),
            count(event),
            end(Element::Link),
        ],
    )
}

#[tactic(auto, unfolding(crate::specs::Reasons::link))]
fn push_link(out: &mut Vec<u8>, account: &Account<'_>, story: usize) -> Result<(), AllocError>
    ensures { OnOk result (out.new.items ≡ out.old.items ++ markup_text (spec_reasons.link account.now story)) }
{
    let target = target(account.alloc, story)?;
    push_link_to(out, target.as_str(), account.first_of(story))
}

fn push_links(out: &mut Vec<u8>, account: &Account<'_>, stories: &[usize]) -> Result<(), AllocError>
    ensures { OnOk result (out.new.items ≡ out.old.items ++ markup_text (spec_reasons.links account.now stories.now)) }
{
    for story in stories {
        push_link(out, account, *story)?;
    }
    Ok(())
}

#[tactic(auto, unfolding(crate::specs::Reasons::more))]
fn push_more(out: &mut Vec<u8>, stories: usize) -> Result<(), AllocError>
    ensures { OnOk result (out.new.items ≡ out.old.items ++ markup_text (spec_reasons.more stories)) }
{
    push_pieces(out, &[text(" and "), count(stories), text(" more")])
}

// How many stories have no link.
fn push_more_if(out: &mut Vec<u8>, stories: usize) -> Result<(), AllocError>
    ensures { OnOk result (out.new.items ≡ out.old.items ++ markup_text (spec_reasons.more_if stories)) }
{
    if stories == 0 {
        return Ok(());
    }
    push_more(out, stories)
}

#[tactic(auto, unfolding(crate::specs::Reasons::row_links))]
fn push_row_links(
    out: &mut Vec<u8>,
    account: &Account<'_>,
    stories: &[usize],
) -> Result<(), AllocError>
    ensures { OnOk result (out.new.items ≡ out.old.items ++ markup_text (spec_reasons.row_links account.now stories.now)) }
{
    push_links(out, account, &stories[..stories.len().min(MOST)])?;
    push_more_if(out, stories.len().saturating_sub(MOST))
}

#[tactic(auto, unfolding(crate::specs::Reasons::count_of))]
fn push_count(out: &mut Vec<u8>, stories: usize) -> Result<(), AllocError>
    ensures { OnOk result (out.new.items ≡ out.old.items ++ markup_text (spec_reasons.count_of stories)) }
{
    push_pieces(
        out,
        &[
            start(Element::Strong),
            open(),
            count(stories),
            end(Element::Strong),
        ],
    )
}

// How many stories failed for a reason, and what it is.
#[tactic(auto, unfolding(crate::specs::Reasons::row_head))]
fn push_row_head(out: &mut Vec<u8>, group: &Group) -> Result<(), AllocError>
    ensures { OnOk result (out.new.items ≡ out.old.items ++ markup_text (spec_reasons.row_head group.now)) }
{
    push_count(out, group.members().len())?;
    push_span(out, "t", group.word())
}

#[tactic(auto, unfolding(crate::specs::Reasons::row))]
fn push_row(out: &mut Vec<u8>, account: &Account<'_>, group: &Group) -> Result<(), AllocError>
    ensures { OnOk result (out.new.items ≡ out.old.items ++ markup_text (spec_reasons.row account.now group.now)) }
{
    push_pieces(out, &[start(Element::Item), open()])?;
    push_row_head(out, group)?;
    push_row_links(out, account, group.members())?;
    push_pieces(out, &[end(Element::Item)])
}

fn push_rows(out: &mut Vec<u8>, account: &Account<'_>, groups: &[Group]) -> Result<(), AllocError>
    ensures { OnOk result (out.new.items ≡ out.old.items ++ markup_text (spec_reasons.rows account.now groups.now)) }
{
    for group in groups {
        push_row(out, account, group)?;
    }
    Ok(())
}

#[tactic(auto, unfolding(crate::specs::Reasons::row_list))]
fn push_row_list(
    out: &mut Vec<u8>,
    account: &Account<'_>,
    groups: &[Group],
) -> Result<(), AllocError>
    ensures { OnOk result (out.new.items ≡ out.old.items ++ markup_text (spec_reasons.row_list account.now groups.now)) }
{
    push_pieces(
        out,
        &[start(Element::List), given(Attribute::Class, "why"), open()],
    )?;
    push_rows(out, account, groups)?;
    push_pieces(out, &[end(Element::List)])
}

#[tactic(auto, unfolding(crate::specs::Reasons::section_of))]
fn push_section_of(
    out: &mut Vec<u8>,
    account: &Account<'_>,
    section: Section,
    groups: &[Group],
) -> Result<(), AllocError>
    ensures { OnOk result (out.new.items
        ≡ out.old.items ++ markup_text (spec_reasons.section_of account.now section groups.now)) }
{
    push_subheading(out, section_title(section))?;
    push_row_list(out, account, groups)
}

// Of a section none of whose stories failed there is nothing.
#[tactic(auto, unfolding(crate::specs::Reasons::section_part))]
fn push_section(
    out: &mut Vec<u8>,
    account: &Account<'_>,
    section: Section,
) -> Result<(), AllocError>
    ensures { OnOk result (out.new.items ≡ out.old.items ++ markup_text (spec_reasons.section_part account.now section)) }
{
    let groups = account.section_reasons(section)?;
    if groups.is_empty() {
        return Ok(());
    }
    push_section_of(out, account, section, groups.as_slice())
}

fn push_sections(
    out: &mut Vec<u8>,
    account: &Account<'_>,
    sections: &[Section],
) -> Result<(), AllocError>
    ensures { OnOk result (out.new.items
        ≡ out.old.items ++ markup_text (spec_reasons.section_parts account.now sections.now)) }
{
    for section in sections {
        push_section(out, account, *section)?;
    }
    Ok(())
}

#[tactic(auto, unfolding(crate::specs::Reasons::all_parts))]
fn push_all_sections(out: &mut Vec<u8>, account: &Account<'_>) -> Result<(), AllocError>
    ensures { OnOk result (out.new.items ≡ out.old.items ++ markup_text (spec_reasons.all_parts account.now)) }
{
    push_sections(out, account, &SECTIONS)
}

#[tactic(auto, unfolding(crate::specs::Reasons::reason_card))]
fn push_reason_card(out: &mut Vec<u8>, account: &Account<'_>) -> Result<(), AllocError>
    ensures { OnOk result (out.new.items ≡ out.old.items ++ markup_text (spec_reasons.reason_card account.now)) }
{
    push_pieces(
        out,
        &[
            start(Element::Division),
            given(Attribute::Class, "card"),
            open(),
        ],
    )?;
    push_all_sections(out, account)?;
    push_pieces(out, &[end(Element::Division)])
}

/// Appends why what failed did so, section by section as `explain` has them.
///
/// It fails only where memory runs out; `out` may end anywhere within that then.
#[tactic(auto, unfolding(crate::specs::Reasons::reasons))]
pub fn push_reasons(out: &mut Vec<u8>, account: &Account<'_>) -> Result<(), AllocError>
    ensures { OnOk result (out.new.items ≡ out.old.items ++ markup_text (spec_reasons.reasons account.now)) }
{
    push_heading(out, "Reasons for failure")?;
    push_reason_card(out, account)
}
