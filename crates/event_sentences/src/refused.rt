//! Sentences of events that were refused.
ghost use Rattle.std.specs.Prelude.{◌≡◌, IfOk, is_some, string_bytes};
ghost use Rattle.event_sentences.specs.Scenes.{scene_of};
ghost use Rattle.event_sentences.specs.Refused as spec_refused;

use crate::heard::Heard;
use crate::moment::Moment;
use crate::reasons::{held_keys, plain_reason, plain_refusal};
use frame_facts::{Detail, Gist, kind_word};
use line_events::Answer;
use line_record::Act;
use node_rules::ShownRoute;
use plc_base::{Key, Short};
use sentence_parts::{Part, node, number, place, words};
use std::alloc::AllocError;

fn is_same(held: &[u8; 16], key: &[u8; 16]) -> bool
    ensures { result ≡ spec_refused.is_same held.now key.now }
{
    held == key
}

fn is_key(held: &Option<Key>, key: &Key) -> bool
    ensures { result ≡ spec_refused.is_key held.now key.now }
{
    match held {
        None => false,
        Some(held) => is_same(&held.0, &key.0),
    }
}

// The node that a refused send, or another event with two nodes, is for.
fn second_node(act: &Act) -> Option<u32>
    ensures { result ≡ spec_refused.second_node act.now }
{
    match act {
        Act::Send { to, .. } => Some(*to),
        Act::Join { agent, .. } => Some(*agent),
        Act::Break { next, .. } => Some(*next),
        Act::Path { to, .. } => Some(*to),
        _ => None,
    }
}

// The cost of the link over which a frame came.
fn link_cost(act: &Act) -> u8
    ensures { result ≡ spec_refused.link_cost act.now }
{
    match act {
        Act::Deliver { cost, .. } => *cost,
        Act::Inject { cost, .. } => *cost,
        _ => 0,
    }
}

fn origin_of(gist: &Gist) -> u16
    ensures { result ≡ spec_refused.origin_of gist.now }
{
    match gist {
        Gist::Seeks { origin, .. } => *origin,
        Gist::Replies { origin, .. } => *origin,
        _ => 0,
    }
}

fn is_own(address: Option<Short>, origin: u16) -> bool
    ensures { result ≡ spec_refused.is_own address origin }
{
    match address {
        Some(address) => address.number() == origin,
        None => false,
    }
}

// The number of a request or a reply.
fn number_of(detail: Detail) -> u16
    ensures { result ≡ spec_refused.number_of detail }
{
    match detail {
        Detail::Route { number, .. } => number,
        _ => 0,
    }
}

// What a request or a reply has cost so far.
fn cost_of(detail: Detail) -> u16
    ensures { result ≡ spec_refused.cost_of detail }
{
    match detail {
        Detail::Route { cost, .. } => cost,
        _ => 0,
    }
}

impl<'a> Moment<'a> {
    fn not_for_me(&self, to: Option<u16>) -> Result<String, AllocError>
        ensures { IfOk result (λ text. string_bytes text ≡ spec_refused.not_for_me_text self.now.node to) }
    {
        match to {
            Some(address) => self.say(&[
                node(self.node),
                words(" does not take it: it has no address any more, and the frame goes to "),
                Part::Short { address },
            ]),
            None => self.say(&[
                node(self.node),
                words(" does not take it: it is joined, and the frame goes to its EUI"),
            ]),
        }
    }

    fn no_key(&self, index: u8) -> Result<String, AllocError>
        ensures { IfOk result (λ text. string_bytes text ≡ spec_refused.no_key_text index (scene_of self.now)) }
    {
        let held = held_keys(self.shown.key0.is_some(), self.shown.key1.is_some());
        self.say(&[
            node(self.node),
            words(" holds no key at index "),
            number(index as usize),
            words(held),
        ])
    }

    fn holds(&self, index: u8, key: &Key) -> bool
        ensures { result ≡ spec_refused.holds index key.now (scene_of self.now) }
    {
        if index == 0 {
            return is_key(&self.shown.key0, key);
        }
        is_key(&self.shown.key1, key)
    }

    fn other_key(&self, index: u8, key: &Key) -> &'static str
        ensures { result.now ≡ spec_refused.other_key index key.now (scene_of self.now) }
    {
        if self.holds(index, key) {
            return "";
        }
        ": it holds another key there than the one that sealed the frame"
    }

    fn wrong_key(&self, index: u8, key: &Option<Key>) -> &'static str
        ensures { result.now ≡ spec_refused.wrong_key index key.now (scene_of self.now) }
    {
        match key {
            Some(key) => self.other_key(index, key),
            None => ", and no key of the script opens the frame: its octets were changed or forged",
        }
    }

    fn bad_tag(&self, heard: &Heard) -> Result<String, AllocError>
        ensures { IfOk result (λ text. string_bytes text ≡ spec_refused.bad_tag_text heard.now (scene_of self.now)) }
    {
        self.say(&[
            node(self.node),
            words(" finds the tag wrong under its key at index "),
            number(heard.more.index as usize),
            words(self.wrong_key(heard.more.index, &heard.key)),
        ])
    }

    fn kept_by(&self, next: Option<u16>) -> Result<String, AllocError>
        ensures { IfOk result (λ text. string_bytes text ≡ spec_refused.kept_by_text next (scene_of self.now)) }
    {
        match next {
            Some(next) => self.say(&[words(" by "), self.at(next), words(": no better")]),
            None => self.say(&[words(", broken: no better")]),
        }
    }

    fn kept_rank(&self, route: &ShownRoute) -> Result<String, AllocError>
        ensures { IfOk result (λ text. string_bytes text ≡ spec_refused.kept_rank_text route.now (scene_of self.now)) }
    {
        let by = self.kept_by(route.next)?;
        self.say(&[
            words(", and has number "),
            number(route.number as usize),
            words(" at cost "),
            number(route.cost as usize),
            words(by.as_str()),
        ])
    }

    // The rank that is kept of an origin.
    fn kept(&self, origin: u16) -> Result<String, AllocError>
        ensures { IfOk result (λ text. string_bytes text ≡ spec_refused.kept_text origin (scene_of self.now)) }
    {
        match self.route(origin) {
            Some(route) => self.kept_rank(&route),
            None => self.say(&[words(": no better than what it knows")]),
        }
    }

    fn would_reach(&self, origin: u16, detail: Detail) -> Result<String, AllocError>
        ensures { IfOk result (λ text. string_bytes text ≡ spec_refused.would_reach_text origin detail (scene_of self.now)) }
    {
        let kept = self.kept(origin)?;
        self.say(&[
            node(self.node),
            words(" would reach "),
            self.at(origin),
            words(" with number "),
            number(number_of(detail) as usize),
            words(" at cost "),
            number(cost_of(detail) as usize + link_cost(&self.recorded.act) as usize),
            words(kept.as_str()),
        ])
    }

    fn not_better(&self, heard: &Heard) -> Result<String, AllocError>
        ensures { IfOk result (λ text. string_bytes text ≡ spec_refused.not_better_text heard.now (scene_of self.now)) }
    {
        let origin = origin_of(&heard.gist);
        if is_own(self.shown.address, origin) {
            return self.say(&[
                node(self.node),
                words(" hears its own "),
                words(kind_word(heard.kind)),
                words(" again"),
            ]);
        }
        self.would_reach(origin, heard.more.detail)
    }

    fn no_route(&self, gist: &Gist) -> Result<String, AllocError>
        ensures { IfOk result (λ text. string_bytes text ≡ spec_refused.no_route_text gist.now (scene_of self.now)) }
    {
        match gist {
            Gist::Replies { to, .. } => self.say(&[
                node(self.node),
                words(" has no way back to "),
                self.at(*to),
                words(" for this reply"),
            ]),
            _ => self.say(&[node(self.node), words(" has no route for it")]),
        }
    }

    fn no_random(&self) -> Result<String, AllocError>
        ensures { IfOk result (λ text. string_bytes text ≡ spec_refused.no_random_text self.now.node) }
    {
        self.say(&[
            node(self.node),
            words(" refuses: no random value is held: `rand "),
            number(self.node as usize),
            words("` is missing"),
        ])
    }

    // Of a frame that says nothing of its own.
    fn refused_plainly(&self) -> Result<String, AllocError>
        ensures { IfOk result (λ text. string_bytes text ≡ spec_refused.refused_plainly_text self.now.recorded.answer self.now.node) }
    {
        match self.recorded.answer {
            Answer::Malformed => self.say(&[node(self.node), words(": no frame")]),
            Answer::Halted => {
                self.say(&[node(self.node), words(" is halted and hears nothing")])
            }
            Answer::Store => self.say(&[
                node(self.node),
                words(" loses power in a write to its store: it halts, and nothing goes out"),
            ]),
            Answer::NoRandom => self.no_random(),
            _ => self.say(&[
                node(self.node),
                words(" refuses: "),
                words(plain_reason(self.recorded.answer)),
            ]),
        }
    }

    /// Of a frame that was refused.
    pub fn refused_frame(&self, heard: &Heard) -> Result<String, AllocError>
        ensures { IfOk result (λ text. string_bytes text ≡ spec_refused.refused_frame_text self.now.recorded.answer heard.now (scene_of self.now)) }
    {
        match self.recorded.answer {
            Answer::NotForMe => self.not_for_me(heard.to_address),
            Answer::NoKey => self.no_key(heard.more.index),
            Answer::BadTag => self.bad_tag(heard),
            Answer::Replayed => self.replayed(heard),
            Answer::NotBetter => self.not_better(heard),
            Answer::NoRoute => self.no_route(&heard.gist),
            _ => self.refused_plainly(),
        }
    }

    fn no_address(&self) -> Result<String, AllocError>
        ensures { IfOk result (λ text. string_bytes text ≡ spec_refused.no_address_text (spec_refused.second_node self.now.recorded.act)) }
    {
        match second_node(&self.recorded.act) {
            Some(to) => self.say(&[
                words("refused: "),
                node(to),
                words(" is halted or not joined"),
            ]),
            None => self.say(&[words("refused: "), words("no address")]),
        }
    }

    /// Of what somebody asked for and was refused.
    pub fn refused_order(&self) -> Result<String, AllocError>
        ensures { IfOk result (λ text. string_bytes text ≡ spec_refused.refused_order_text self.now.recorded.answer (scene_of self.now)) }
    {
        match self.recorded.answer {
            Answer::NoAddress => self.no_address(),
            Answer::NotJoined => self.say(&[
                words("refused: "),
                node(self.node),
                words(" is not joined"),
            ]),
            Answer::Halted => {
                self.say(&[words("refused: "), node(self.node), words(" is halted")])
            }
            Answer::AlreadyJoined => self.say(&[
                words("refused: "),
                node(self.node),
                words(" has an address already"),
            ]),
            Answer::Store => self.say(&[
                words("refused: "),
                node(self.node),
                words(" loses power in a write: it halts"),
            ]),
            _ => self.say(&[
                words("refused: "),
                words(plain_refusal(self.recorded.answer)),
            ]),
        }
    }
}
