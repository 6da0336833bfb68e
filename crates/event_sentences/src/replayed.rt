//! Sentences of counters that were refused, since one as great was accepted before.
ghost use Rattle.std.specs.Prelude.{◌≡◌, IfOk, string_bytes};
ghost use Rattle.std.specs.List.{find};
ghost use Rattle.std.specs.Option.{option_copied};
ghost use Rattle.event_sentences.specs.Scenes.{scene_of};
ghost use Rattle.event_sentences.specs.Replayed as spec_replayed;

use crate::heard::Heard;
use crate::moment::Moment;
use crate::watch::Coming;
use node_rules::ShownPeer;
use sentence_parts::{node, number, place, words};
use std::alloc::AllocError;

fn peer_of(peers: &[ShownPeer], from: u16) -> Option<&ShownPeer>
    ensures { option_copied result ≡ find (spec_replayed.is_from from) peers.now }
{
    peers.iter().find(|peer| peer.from.number() == from)
}

impl<'a> Moment<'a> {
    // The greatest counter that was accepted from a sender.
    fn mark(&self, from: u16) -> Option<u32>
        ensures { result ≡ spec_replayed.mark from (scene_of self.now) }
    {
        match peer_of(self.shown.peers.peers(), from) {
            Some(peer) => Some(peer.mark),
            None => None,
        }
    }

    fn coming(&self, flight: u32) -> Coming
        ensures { result ≡ spec_replayed.coming_by flight (option_copied self.now.watch) }
    {
        match self.watch {
            Some(watch) => watch.coming(flight),
            None => Coming { first: 0, taken: 0 },
        }
    }

    fn restarted(&self) -> usize
        ensures { result ≡ spec_replayed.restart_by (option_copied self.now.watch) }
    {
        match self.watch {
            Some(watch) => watch.restarted(),
            None => 0,
        }
    }

    // The event at which a flight came first, 0 where it never did or has no number of 32 bits.
    fn first_coming(&self, flight: usize) -> usize
        ensures { result ≡ spec_replayed.first_coming flight (scene_of self.now) }
    {
        if flight == 0 || flight as u64 >= 1 << 32 {
            return 0;
        }
        self.coming(flight as u32).first
    }

    fn seen(&self, mark: u32) -> Result<String, AllocError>
        ensures { IfOk result (λ text. string_bytes text ≡ spec_replayed.seen_text mark) }
    {
        self.say(&[words(": its mark is "), number(mark as usize)])
    }

    fn since_restart(&self, restart: usize, mark: u32) -> Result<String, AllocError>
        ensures { IfOk result (λ text. string_bytes text ≡ spec_replayed.since_restart_text restart mark) }
    {
        self.say(&[
            words(": since its restart (event "),
            number(restart),
            words(") it takes none up to "),
            number(mark as usize),
        ])
    }

    // The mark that the store gave at the last restart, or the counter that was accepted last.
    fn stored(&self, mark: u32) -> Result<String, AllocError>
        ensures { IfOk result (λ text. string_bytes text ≡ spec_replayed.stored_text mark (scene_of self.now)) }
    {
        let restart = self.restarted();
        if restart == 0 {
            return self.seen(mark);
        }
        self.since_restart(restart, mark)
    }

    fn overtaken(&self, from: u16, mark: u32) -> Result<String, AllocError>
        ensures { IfOk result (λ text. string_bytes text ≡ spec_replayed.overtaken_text from mark (scene_of self.now)) }
    {
        let other = self.counters.flight(from, mark) as usize;
        let came = self.first_coming(other);
        if came == 0 {
            return self.stored(mark);
        }
        self.say(&[
            words(": its mark is "),
            number(mark as usize),
            words(" (flight "),
            number(other),
            words(", event "),
            number(came),
            words(", overtook it)"),
        ])
    }

    fn came_already(&self, before: usize, mark: u32) -> Result<String, AllocError>
        ensures { IfOk result (λ text. string_bytes text ≡ spec_replayed.came_already_text before mark) }
    {
        self.say(&[
            words(": its mark is "),
            number(mark as usize),
            words(" (this flight came at event "),
            number(before),
            words(" already)"),
        ])
    }

    fn came_before(&self, heard: &Heard, mark: u32) -> Result<String, AllocError>
        ensures { IfOk result (λ text. string_bytes text ≡ spec_replayed.came_before_text heard.now mark (scene_of self.now)) }
    {
        let before = self.coming(heard.flight).taken;
        if before == 0 {
            return self.overtaken(heard.more.from, mark);
        }
        self.came_already(before, mark)
    }

    // Which frame has raised the mark so far.
    fn who_raised(&self, heard: &Heard, mark: u32) -> Result<String, AllocError>
        ensures { IfOk result (λ text. string_bytes text ≡ spec_replayed.who_raised_text heard.now mark (scene_of self.now)) }
    {
        if heard.flight == 0 {
            return self.seen(mark);
        }
        self.came_before(heard, mark)
    }

    fn why_replayed(&self, heard: &Heard) -> Result<String, AllocError>
        ensures { IfOk result (λ text. string_bytes text ≡ spec_replayed.why_replayed_text heard.now (scene_of self.now)) }
    {
        match self.mark(heard.more.from) {
            Some(mark) => self.who_raised(heard, mark),
            None => self.say(&[]),
        }
    }

    /// A counter that is refused, the mark, and which frame raised that.
    pub fn replayed(&self, heard: &Heard) -> Result<String, AllocError>
        ensures { IfOk result (λ text. string_bytes text ≡ spec_replayed.replayed_text heard.now (scene_of self.now)) }
    {
        let why = self.why_replayed(heard)?;
        self.say(&[
            node(self.node),
            words(" refuses counter "),
            number(heard.more.counter as usize),
            words(" of "),
            place(heard.by),
            words(why.as_str()),
        ])
    }
}
