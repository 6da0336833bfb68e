//! What a node is, by what it shows.
ghost use Rattle.std.specs.Prelude.{◌≡◌};
ghost use Rattle.line_record.specs.Pasts as spec_pasts;

use node_rules::Shown;
use plc_base::KeyIndex;

/// What a node is, as far as it has a colour.
#[derive(Clone, Copy, Debug, PartialEq, Eq)]
pub enum Mode {
    /// It is not joined.
    Out,
    /// It is joined, and seals with key 0.
    Key0,
    /// It is joined, and seals with key 1.
    Key1,
    /// It takes nothing until it restarts, since a write failed.
    Halted,
}

fn keyed(active: Option<KeyIndex>) -> Mode
    ensures { result ≡ spec_pasts.keyed active }
{
    match active {
        None => Mode::Out,
        Some(index) => key_mode(index.number()),
    }
}

fn key_mode(index: u8) -> Mode
    ensures { result ≡ spec_pasts.key_mode index }
{
    if index == 0 {
        return Mode::Key0;
    }
    Mode::Key1
}

/// What a node is that shows this.
pub fn mode_of(shown: &Shown) -> Mode
    ensures { result ≡ spec_pasts.mode_of shown.now }
{
    if shown.halted {
        return Mode::Halted;
    }
    match shown.address {
        None => Mode::Out,
        Some(_) => keyed(shown.active),
    }
}

/// Whether two are the same.
pub fn is_same(mode: Mode, other: Mode) -> bool
    ensures { result ≡ spec_pasts.is_same mode other }
{
    match mode {
        Mode::Out => other == Mode::Out,
        Mode::Key0 => other == Mode::Key0,
        Mode::Key1 => other == Mode::Key1,
        Mode::Halted => other == Mode::Halted,
    }
}
