//! The file of a capture.
ghost use Rattle.std.specs.Prelude.{◌≡◌, ◌<◌, ◌≤◌, ◌++◌, ◌∷◌, [], IfOk, OnOk, length, Some};
ghost use Rattle.pcapng.specs.Blocks.{capture, options_spelling};
ghost use Rattle.pcapng.specs.Reader.{blocks_in};
ghost use Rattle.line_capture.specs.Captures as captures;
ghost use Rattle.line_capture.specs.Captures.{Adds, IsRun, run_of};
ghost use Rattle.line_capture.specs.Fates.{fates_of};
ghost use Rattle.line_capture.specs.Sentences.{AreFew};

use crate::fate::{Fate, fates_of};
use crate::notes::Notes;
use crate::packets::Packets;
use crate::recording::Recording;
use line_script::Totals;
use pcapng::{append_interface, append_section};
use plc_base::Eui;
use sentence_parts::{Who, count_of, number, place, words};
use std::alloc::{AllocError, Global};

// IEEE 802.15.4 without a frame check sequence, bare and after a head of its own (TAP).
const BARE: u16 = 230;

const TAP: u16 = 283;

fn note_totals(notes: &mut Notes, totals: &Totals) -> Result<(), AllocError>
    ensures options { OnOk result (notes.new.options ≡ notes.old.options ++ options_spelling (captures.totals_notes totals.now)) }
    ensures few { AreFew 1 (captures.totals_notes totals.now) }
{
    notes.comment(&[
        words("run of script: "),
        count_of(totals.events as usize, "event"),
        words(", "),
        count_of(totals.flights as usize, "flight"),
        words(", "),
        count_of(totals.sends as usize, "send"),
        words(", "),
        number(totals.ups as usize),
        words(" handed up, "),
        number(totals.forged as usize),
        words(" forged"),
    ])
}

// A further comment, where there is one.
fn note_remark(notes: &mut Notes, remark: &str) -> Result<(), AllocError>
    requires { length remark.now ≤ 2000 }
    ensures options { OnOk result (notes.new.options ≡ notes.old.options ++ options_spelling (captures.remark_notes remark.now)) }
    ensures few { OnOk result (AreFew 1 (captures.remark_notes remark.now)) }
{
    if remark.is_empty() {
        return Ok(());
    }
    notes.options.comment(remark)
}

#[tactic(auto, using(crate::proofs::Options::options_append))]
fn note_section(notes: &mut Notes, totals: &Totals, remark: &str) -> Result<(), AllocError>
    requires { length remark.now ≤ 2000 }
    ensures options { OnOk result (notes.new.options ≡ options_spelling (captures.section_notes totals.now remark.now)) }
    ensures few { OnOk result (AreFew 60 (captures.section_notes totals.now remark.now)) }
{
    notes.options.clear();
    note_totals(notes, totals)?;
    note_remark(notes, remark)?;
    notes.options.application("line_view")?;
    Ok(())
}

fn push_section(
    out: &mut Vec<u8>,
    notes: &mut Notes,
    totals: &Totals,
    remark: &str,
) -> Result<(), AllocError>
    requires { length remark.now ≤ 2000 }
    ensures { OnOk result (Adds out.old.items out.new.items (captures.section totals.now remark.now ∷ [])) }
{
    note_section(notes, totals, remark)?;
    append_section(out, &notes.options)?;
    Ok(())
}

fn note_coordinator(notes: &mut Notes, eui: Eui) -> Result<(), AllocError>
    ensures options { OnOk result (notes.new.options ≡ notes.old.options ++ options_spelling (captures.coordinator_notes eui)) }
    ensures few { OnOk result (AreFew 1 (captures.coordinator_notes eui)) }
{
    notes.description(&[words("coordinator, "), place(Who::Device { eui })])
}

fn note_meter(notes: &mut Notes, node: usize, eui: Eui) -> Result<(), AllocError>
    ensures options { OnOk result (notes.new.options ≡ notes.old.options ++ options_spelling (captures.meter_notes node eui)) }
    ensures few { OnOk result (AreFew 1 (captures.meter_notes node eui)) }
{
    notes.description(&[
        words("meter "),
        number(node),
        words(", "),
        place(Who::Device { eui }),
    ])
}

// What a node is.
fn note_description(notes: &mut Notes, node: usize, eui: Eui) -> Result<(), AllocError>
    ensures options { OnOk result (notes.new.options ≡ notes.old.options ++ options_spelling (captures.description_notes node eui)) }
    ensures few { OnOk result (AreFew 1 (captures.description_notes node eui)) }
{
    if node == 0 {
        return note_coordinator(notes, eui);
    }
    note_meter(notes, node, eui)
}

fn note_interface(notes: &mut Notes, node: usize, eui: Eui) -> Result<(), AllocError>
    ensures options { OnOk result (notes.new.options ≡ options_spelling (captures.interface_notes node eui)) }
    ensures few { OnOk result (AreFew 60 (captures.interface_notes node eui)) }
{
    notes.options.clear();
    notes.name(&[words("node "), number(node)])?;
    note_description(notes, node, eui)?;
    notes.options.in_nanoseconds()?;
    Ok(())
}

fn link_type(tap: bool) -> u16
    ensures { result ≡ captures.link_type tap }
{
    if tap { TAP } else { BARE }
}

fn push_interface(
    out: &mut Vec<u8>,
    notes: &mut Notes,
    tap: bool,
    node: usize,
    eui: Eui,
) -> Result<(), AllocError>
    ensures { OnOk result (Adds out.old.items out.new.items (captures.interface_of tap node eui ∷ [])) }
{
    note_interface(notes, node, eui)?;
    append_interface(out, link_type(tap), &notes.options)?;
    Ok(())
}

fn push_interfaces(
    out: &mut Vec<u8>,
    notes: &mut Notes,
    tap: bool,
    euis: &[Eui],
) -> Result<(), AllocError>
    ensures { OnOk result (Adds out.old.items out.new.items (captures.interfaces_from tap 0 euis.now)) }
{
    for (node, eui) in euis.iter().enumerate() {
        push_interface(out, notes, tap, node, *eui)?;
    }
    Ok(())
}

// The blocks of the capture of a run, by what became of its flights.
fn push_blocks(
    packets: &mut Packets,
    run: &Recording<'_>,
    fates: &[Fate],
    remark: &str,
) -> Result<(), AllocError>
    requires run { IsRun (run_of run.now) }
    requires remark { length remark.now ≤ 2000 }
    requires fates { fates.now ≡ fates_of (length run.now.run_record.now.flights.items) run.now.run_record.now.events.items }
    ensures { OnOk result (Adds packets.old.out.items packets.new.out.items
        (captures.blocks packets.old.tap run.now.totals remark.now run.now.euis.now (run_of run.now))) }
{
    let tap = packets.tap;
    push_section(&mut packets.out, &mut packets.notes, &run.totals, remark)?;
    push_interfaces(&mut packets.out, &mut packets.notes, tap, run.euis)?;
    packets.push_events(run, fates)?;
    Ok(())
}

// The capture of a run, and that its blocks were added to nothing.
fn written(
    alloc: Global,
    heard: bool,
    run: &Recording<'_>,
    remark: &str,
) -> Result<Vec<u8>, AllocError>
    requires run { IsRun (run_of run.now) }
    requires remark { length remark.now ≤ 2000 }
    ensures { IfOk result (λ file. Adds [] file.items
        (captures.blocks heard run.now.totals remark.now run.now.euis.now (run_of run.now))) }
{
    let fates = fates_of(
        alloc,
        run.run_record.flights.len(),
        run.run_record.events.as_slice(),
    )?;
    let mut packets = Packets::new(alloc, heard);
    push_blocks(&mut packets, run, fates.as_slice(), remark)?;
    Ok(packets.out)
}

/// The file of the capture of a run: each flight as it goes out, what no node sent as it is heard, and with `heard` each flight as it is heard
/// too, the quality of its link before its octets. A remark that is not empty is a comment of the file, and has at most 2,000 octets.
///
/// It fails only where memory runs out.
pub fn capture_file(
    alloc: Global,
    heard: bool,
    run: &Recording<'_>,
    remark: &str,
) -> Result<Vec<u8>, AllocError>
    requires run { IsRun (run_of run.now) }
    requires remark { length remark.now ≤ 2000 }
    ensures file { IfOk result (λ file. file.items
        ≡ capture (captures.blocks heard run.now.totals remark.now run.now.euis.now (run_of run.now))) }
    ensures reads_back { IfOk result (λ file. blocks_in file.items
        ≡ Some (captures.blocks heard run.now.totals remark.now run.now.euis.now (run_of run.now))) }
{
    let file = written(alloc, heard, run, remark)?;
    Ok(file)
}
