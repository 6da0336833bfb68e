//! Receptions of what a node heard: a word, and what came up with it.
ghost use Rattle.std.specs.Prelude.{◌≡◌, false, None, Ok};
ghost use Rattle.line_rules.specs.Answers as rules;
ghost use Rattle.line_world.specs.Receptions.{ReportsReception};

use crate::nodes::reception::{HandedUp, Reception};
use line_events::Answer;
use node_rules::{CoordinatorHeard, Dropped, Heard, MeterHeard, Reply};
use plc_base::OctetRef;

// A word, the reply that the station sent last, and nothing beside them.
pub(crate) fn reception_of(answer: Answer, replied: Option<Reply>) -> Reception<'static>
    ensures value { result ≡ record { answer = answer; up = None; took = false; done = None; replied = replied } }
    ensures reports { ReportsReception result (rules.only answer) }
{
    Reception {
        answer,
        up: None,
        took: false,
        done: None,
        replied,
    }
}

// The word of a frame that was accepted and dropped.
pub(crate) fn drop_word(reason: Dropped) -> Answer
    ensures { result ≡ rules.drop_word reason }
{
    match reason {
        Dropped::BadUnit => Answer::BadUnit,
        Dropped::NoRoute => Answer::NoRoute,
        Dropped::HopsSpent => Answer::HopsSpent,
        Dropped::NotBetter => Answer::NotBetter,
        Dropped::CostSpent => Answer::CostSpent,
        Dropped::RoutesFull => Answer::RoutesFull,
        Dropped::NotAllowed => Answer::NotAllowed,
        Dropped::NoSession => Answer::NoSession,
        Dropped::SessionsFull => Answer::SessionsFull,
        Dropped::NoRandom => Answer::NoRandom,
        Dropped::Form => Answer::Form,
        Dropped::OtherSession => Answer::OtherSession,
        Dropped::BadMac => Answer::BadMac,
        Dropped::BadChannel => Answer::BadChannel,
        Dropped::NoSuccess => Answer::NoSuccess,
        Dropped::NotHeld => Answer::NotHeld,
        Dropped::BufferFull => Answer::BufferFull,
        Dropped::SeqSpent => Answer::SeqSpent,
        Dropped::CounterSpent => Answer::CounterSpent,
        Dropped::Store => Answer::Store,
    }
}

// What a station made of a frame.
fn reception_of_station<'a>(heard: &Heard<'a>, replied: Option<Reply>) -> Reception<'a>
    ensures reports { ReportsReception result (rules.station_reception heard.now) }
    ensures replied { result.replied ≡ replied }
{
    match heard {
        Heard::Up { note, octets, .. } => Reception {
            answer: Answer::Up,
            up: Some(HandedUp {
                note: *note,
                octets: OctetRef::new(octets.octets()),
            }),
            took: false,
            done: None,
            replied,
        },
        Heard::Held => reception_of(Answer::Held, replied),
        Heard::Relayed => reception_of(Answer::Relayed, replied),
        Heard::Answered => reception_of(Answer::Answered, replied),
        Heard::Learned => reception_of(Answer::Learned, replied),
        Heard::Broken => reception_of(Answer::Broken, replied),
        Heard::Reported => reception_of(Answer::Reported, replied),
        // A node reads each joining command by itself, and no line of a script sends the commands 03, 04 and 05.
        Heard::Joining { .. } => reception_of(Answer::BadUnit, replied),
        Heard::Local { .. } => reception_of(Answer::BadUnit, replied),
    }
}

// What a meter made of a frame that it did not drop.
fn meter_words<'a>(heard: &MeterHeard<'a>, replied: Option<Reply>) -> Reception<'a>
    ensures reports { ReportsReception result (rules.meter_reception (Ok heard.now)) }
    ensures replied { result.replied ≡ replied }
{
    match heard {
        MeterHeard::Station(heard) => reception_of_station(heard, replied),
        MeterHeard::Carried => reception_of(Answer::Carried, replied),
        MeterHeard::Replied => reception_of(Answer::Replied, replied),
        MeterHeard::Took(_) => Reception {
            answer: Answer::Took,
            up: None,
            took: true,
            done: None,
            replied,
        },
        MeterHeard::Noted => reception_of(Answer::Noted, replied),
        MeterHeard::Declined => reception_of(Answer::Declined, replied),
        MeterHeard::Left => reception_of(Answer::Left, replied),
        MeterHeard::Activated => reception_of(Answer::Activated, replied),
    }
}

// What a meter made of a frame.
pub(crate) fn reception_of_meter<'a>(
    heard: &Result<MeterHeard<'a>, Dropped>,
    replied: Option<Reply>,
) -> Reception<'a>
    ensures reports { ReportsReception result (rules.meter_reception heard.now) }
    ensures replied { result.replied ≡ replied }
{
    match heard {
        Ok(heard) => meter_words(heard, replied),
        Err(reason) => reception_of(drop_word(*reason), replied),
    }
}

// What the coordinator made of a frame that it did not drop.
fn coordinator_words<'a>(heard: &CoordinatorHeard<'a>, replied: Option<Reply>) -> Reception<'a>
    ensures reports { ReportsReception result (rules.coordinator_reception (Ok heard.now)) }
    ensures replied { result.replied ≡ replied }
{
    match heard {
        CoordinatorHeard::Station(heard) => reception_of_station(heard, replied),
        CoordinatorHeard::Challenged => reception_of(Answer::Challenged, replied),
        CoordinatorHeard::Keyed { .. } => reception_of(Answer::Keyed, replied),
        CoordinatorHeard::Done { eui, .. } => Reception {
            answer: Answer::Done,
            up: None,
            took: false,
            done: Some(*eui),
            replied,
        },
        CoordinatorHeard::Declined => reception_of(Answer::Declined, replied),
    }
}

// What the coordinator made of a frame.
pub(crate) fn reception_of_coordinator<'a>(
    heard: &Result<CoordinatorHeard<'a>, Dropped>,
    replied: Option<Reply>,
) -> Reception<'a>
    ensures reports { ReportsReception result (rules.coordinator_reception heard.now) }
    ensures replied { result.replied ≡ replied }
{
    match heard {
        Ok(heard) => coordinator_words(heard, replied),
        Err(reason) => reception_of(drop_word(*reason), replied),
    }
}
