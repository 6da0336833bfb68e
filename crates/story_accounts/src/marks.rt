//! The marks of nodes: of each sender the greatest counter that it accepted.
ghost use Rattle.std.specs.Prelude.{◌≡◌, [], OnOk};
ghost use Rattle.std.specs.List.{find};
ghost use Rattle.std.specs.Option.{option_copied};
ghost use Rattle.story_accounts.specs.PeerMarks as peer_marks;

use node_rules::ShownPeer;
use std::alloc::{AllocError, Global};
use std::marker::Model;

/// The marks that a node showed last, none where it showed none.
#[derive(Drop)]
pub struct Marks {
    peers: Vec<ShownPeer>,
}

impl Model for Marks {
    ghost use Rattle.std.specs.Prelude.{List};
    ghost use Rattle.node_rules.specs.declared.shown.ShownPeer.{ShownPeer};

    ghost Value = { List ShownPeer };

    ghost view = { λ m. m.peers.items };
}

fn peer_of(peers: &[ShownPeer], from: u16) -> Option<&ShownPeer>
    ensures { option_copied result ≡ find (peer_marks.is_from from) peers.now }
{
    peers.iter().find(|peer| peer.from.number() == from)
}

impl Marks {
    /// None. It takes no memory.
    pub fn new(alloc: Global) -> Marks
        ensures { result ≡ [] }
    {
        Marks {
            peers: Vec::new(alloc),
        }
    }

    /// Takes those that a node shows.
    ///
    /// It fails only where memory runs out; what is left then is not said.
    pub fn set(&mut self, peers: &[ShownPeer]) -> Result<(), AllocError>
        ensures { OnOk result (self.new ≡ peers.now) }
    {
        self.peers.clear();
        self.peers.extend_from_slice(peers)?;
        Ok(())
    }

    /// The mark of a sender, by its short address. None if there is none.
    pub fn of(&self, from: u16) -> Option<u32>
        ensures { result ≡ peer_marks.mark_in from self.now }
    {
        match peer_of(self.peers.as_slice(), from) {
            Some(peer) => Some(peer.mark),
            None => None,
        }
    }
}
