//! The options of a block.
ghost use Rattle.std.specs.Prelude.{◌≡◌, ◌++◌, ◌∷◌, ◌<◌, ◌^◌, [], OnOk, length};
ghost use Rattle.byteorder.specs.Endian.{little_bytes};
ghost use Rattle.pcapng.specs.Blocks.{COMMENT, APPLICATION, NAME, DESCRIPTION, RESOLUTION, FLAGS, direction_number, option_spelling};

use crate::numbers::{push_padded, push_two};
use byteorder::{ByteOrder, LittleEndian};
use std::alloc::{AllocError, Global};
use std::marker::Model;

/// Which way a packet went, as its interface saw it.
#[derive(Clone, Copy, Debug, PartialEq, Eq)]
pub enum Direction {
    /// It was heard.
    Inbound,
    /// It was sent.
    Outbound,
}

/// The options of the block that is written next. A contract sees their octets, without the end of the options.
///
/// One value is kept for all blocks, and cleared before each. After an error it may end anywhere within an option.
#[derive(Drop)]
pub struct Options {
    octets: Vec<u8>,
}

impl Model for Options {
    ghost use Rattle.std.specs.Prelude.{ℕ, List};

    ghost Value = { List ℕ };

    ghost view = { λ s. s.octets.items };
}

// The number that stands for a direction in the flags of a packet.
fn direction_number(direction: Direction) -> u32
    ensures { result ≡ direction_number direction }
{
    match direction {
        Direction::Inbound => 1,
        Direction::Outbound => 2,
    }
}

impl Options {
    /// No option. It takes no memory.
    pub fn new(alloc: Global) -> Options
        ensures { result ≡ [] }
    {
        Options {
            octets: Vec::new(alloc),
        }
    }

    /// Takes all options away, and keeps their memory.
    pub fn clear(&mut self)
        ensures { self.new ≡ [] }
    {
        self.octets.clear();
    }

    /// The octets of the options, without the end of the options.
    pub fn octets(&self) -> &[u8]
        ensures { result.now ≡ self.now }
    {
        &self.octets
    }

    #[tactic(auto, unfolding(crate::specs::Blocks::option_spelling))]
    // Appends an option: its code, its length, and what it says.
    fn push(&mut self, code: u16, octets: &[u8]) -> Result<(), AllocError>
        requires { length octets.now < 2 ^ 16 }
        ensures { OnOk result (self.new ≡ self.old ++ option_spelling code octets.now) }
    {
        push_two(&mut self.octets, code)?;
        push_two(&mut self.octets, octets.len() as u16)?;
        push_padded(&mut self.octets, octets)
    }

    /// A comment in UTF-8 of fewer than 65,536 octets. A block can have many. (Section 3.5, `opt_comment`.)
    pub fn comment(&mut self, text: &str) -> Result<(), AllocError>
        requires { length text.now < 2 ^ 16 }
        ensures { OnOk result (self.new ≡ self.old ++ option_spelling COMMENT text.now) }
    {
        self.push(1, text.as_bytes())
    }

    /// Of a section: the program that wrote it. (Section 4.1, `shb_userappl`.)
    pub fn application(&mut self, text: &str) -> Result<(), AllocError>
        requires { length text.now < 2 ^ 16 }
        ensures { OnOk result (self.new ≡ self.old ++ option_spelling APPLICATION text.now) }
    {
        self.push(4, text.as_bytes())
    }

    /// Of an interface: its name. (Section 4.2, `if_name`.)
    pub fn name(&mut self, text: &str) -> Result<(), AllocError>
        requires { length text.now < 2 ^ 16 }
        ensures { OnOk result (self.new ≡ self.old ++ option_spelling NAME text.now) }
    {
        self.push(2, text.as_bytes())
    }

    /// Of an interface: what it is. (Section 4.2, `if_description`.)
    pub fn description(&mut self, text: &str) -> Result<(), AllocError>
        requires { length text.now < 2 ^ 16 }
        ensures { OnOk result (self.new ≡ self.old ++ option_spelling DESCRIPTION text.now) }
    {
        self.push(3, text.as_bytes())
    }

    /// Of an interface: its packets' times count nanoseconds. (Section 4.2, `if_tsresol`.)
    pub fn in_nanoseconds(&mut self) -> Result<(), AllocError>
        ensures { OnOk result (self.new ≡ self.old ++ option_spelling RESOLUTION (9 ∷ [])) }
    {
        self.push(9, &[9])
    }

    /// Of a packet: which way it went. (Section 4.3, `epb_flags`.)
    pub fn direction(&mut self, direction: Direction) -> Result<(), AllocError>
        ensures { OnOk result (self.new
            ≡ self.old ++ option_spelling FLAGS (little_bytes 4 (direction_number direction))) }
    {
        let mut flags = [0; 4];
        LittleEndian::write_u32(&mut flags, direction_number(direction));
        self.push(2, &flags)
    }
}
