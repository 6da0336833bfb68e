//! What payloads say that stories do not go by.
ghost use Rattle.std.specs.Prelude.{◌≡◌, ◌≤◌, length};
ghost use Rattle.std.specs.Option.{ForSome, option_copied};
ghost use Rattle.plc_base.specs.declared.limits.TheConstants.{LONGEST_FRAME};
ghost use Rattle.frame_facts.specs.Details as spec_details;

use joining_messages::{JoinBody, read_join};
use loadng_messages::{Message, read_message};
use mac_frames::{MacHead, read_frame};
use mesh_header::{Piece, Unit, read_unit};

/// What a payload says beside its gist.
#[derive(Clone, Copy)]
pub enum Detail {
    /// Nothing.
    Nothing,
    /// The number of a route request or a route reply, and its cost so far.
    Route { number: u16, cost: u16 },
    /// A piece of a datagram: its octets from `start` to before `end`, of `size`.
    Piece { start: u32, end: u32, size: u32 },
    /// A joining message on its way to the coordinator.
    Up,
    /// A joining message on its way to a meter.
    Down,
    /// An order to seal with the key at an index.
    Activate { index: u8 },
}

/// What is kept of a flight beside the tale.
#[derive(Clone, Copy)]
pub struct FlightMore {
    /// Whether it is sealed; `from`, `counter` and `index` are 0 else.
    pub sealed: bool,
    /// The short address of its sender.
    pub from: u16,
    /// Its frame counter.
    pub counter: u32,
    /// The index of its key.
    pub index: u8,
    /// What its payload says.
    pub detail: Detail,
}

fn message_detail(message: &Message) -> Detail
    ensures { result ≡ spec_details.message_detail message.now }
{
    match message {
        Message::Rreq { number, cost, .. } => Detail::Route {
            number: *number,
            cost: *cost,
        },
        Message::Rrep { number, cost, .. } => Detail::Route {
            number: *number,
            cost: *cost,
        },
        Message::Rerr { .. } => Detail::Nothing,
    }
}

fn route_detail(body: &[u8]) -> Detail
    ensures { result ≡ spec_details.route_detail body.now }
{
    match read_message(body) {
        Ok(message) => message_detail(&message),
        Err(_) => Detail::Nothing,
    }
}

fn body_detail(body: &JoinBody) -> Detail
    ensures { result ≡ spec_details.body_detail body.now }
{
    match body {
        JoinBody::Join { .. } => Detail::Up,
        JoinBody::Activate { index } => Detail::Activate {
            index: index.number(),
        },
        _ => Detail::Down,
    }
}

fn joining_detail(body: &[u8]) -> Detail
    ensures { result ≡ spec_details.joining_detail body.now }
{
    match read_join(body) {
        Ok(message) => body_detail(&message.body),
        Err(_) => Detail::Nothing,
    }
}

fn piece_detail(piece: &Piece<'_>) -> Detail
    ensures { result ≡ spec_details.piece_detail piece.now }
{
    let start = u32::from(piece.offset()) * 8;
    Detail::Piece {
        start,
        end: start + piece.octets().len() as u32,
        size: u32::from(piece.size()),
    }
}

fn command_detail(code: u8, body: &[u8]) -> Detail
    ensures { result ≡ spec_details.command_detail code body.now }
{
    match code {
        1 => route_detail(body),
        2 => joining_detail(body),
        _ => Detail::Nothing,
    }
}

fn unit_detail(unit: &Unit<'_>) -> Detail
    ensures { result ≡ spec_details.unit_detail unit.now }
{
    match unit {
        Unit::Whole { .. } => Detail::Nothing,
        Unit::Part { piece, .. } => piece_detail(piece),
        Unit::Carried { body, .. } => joining_detail(body.octets()),
        Unit::Local { code, body } => command_detail(*code, body.octets()),
    }
}

/// What a payload says beside its gist. It has at most 400 octets.
pub fn payload_detail(payload: Option<&[u8]>) -> Detail
    requires { ForSome payload (λ p. length p.now ≤ LONGEST_FRAME) }
    ensures { result ≡ spec_details.payload_detail (option_copied payload.entry) }
{
    let Some(octets) = payload else {
        return Detail::Nothing;
    };
    match read_unit(octets) {
        Ok(unit) => unit_detail(&unit),
        Err(_) => Detail::Nothing,
    }
}

fn plain_more(detail: Detail) -> FlightMore
    ensures { result ≡ spec_details.plain_more detail }
{
    FlightMore {
        sealed: false,
        from: 0,
        counter: 0,
        index: 0,
        detail,
    }
}

fn head_more(head: &MacHead, detail: Detail) -> FlightMore
    ensures { result ≡ spec_details.head_more head.now detail }
{
    match head {
        MacHead::Sealed {
            from,
            counter,
            index,
            ..
        } => FlightMore {
            sealed: true,
            from: from.number(),
            counter: *counter,
            index: index.number(),
            detail,
        },
        _ => plain_more(detail),
    }
}

/// What is kept of a frame beside the tale: by its octets, and by its payload where that is known, which has at most 400 octets.
pub fn more_of(octets: &[u8], payload: Option<&[u8]>) -> FlightMore
    requires { ForSome payload (λ p. length p.now ≤ LONGEST_FRAME) }
    ensures { result ≡ spec_details.more_of octets.now (option_copied payload.entry) }
{
    let detail = payload_detail(payload);
    match read_frame(octets) {
        Ok(raw) => head_more(&raw.head, detail),
        Err(_) => plain_more(detail),
    }
}
