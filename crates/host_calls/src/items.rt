//! Items as octets.
ghost use Rattle.std.specs.Prelude.{◌≡◌, ◌≤◌, ◌<◌, length};
ghost use Rattle.plc_base.specs.Streams.{SourceFaults, HasWritten};
ghost use Rattle.host_calls.specs.Items.{spelling};
ghost use Rattle.host_calls.specs.ItemReader.{IsOctetRead, IsFilled, IsItemRead};

use plc_base::{Failed, Octets, Sink, Source, write_all};
use thiserror::Error;

/// How many octets an item has at most: a datagram of 1,280, and what stands before it.
pub const MOST_OCTETS: usize = 2000;

/// The octets of an item.
pub type ItemOctets = Octets<MOST_OCTETS>;

/// Why no item was read.
#[derive(Clone, Copy, Debug, PartialEq, Eq, Drop, Error)]
pub enum ItemFault {
    /// A read failed.
    #[error("a read failed")]
    Failed,
    /// The input ends within an item.
    #[error("the input ends within an item")]
    Torn,
    /// An item has more than 2,000 octets.
    #[error("an item is too long")]
    TooLong,
}

// An item as octets.
fn spelled(kind: u8, octets: &[u8]) -> Octets<2003>
    requires { length octets.now ≤ 2000 }
    ensures { result ≡ spelling (record { kind = kind; octets = octets.now }) }
{
    let count = octets.len();
    let mut text = Octets::new();
    text.push(kind);
    text.push((count / 256) as u8);
    text.push((count % 256) as u8);
    text.append(octets);
    text
}

/// Writes an item. Where the sink fails, a prefix of it was written.
pub fn write_item<K: Sink>(sink: &mut K, kind: u8, octets: &[u8]) -> Result<(), Failed>
    requires { length octets.now ≤ 2000 }
    ensures { HasWritten (K.state sink.old) (K.state sink.new) result (spelling (record { kind = kind; octets = octets.now })) }
{
    let text = spelled(kind, octets);
    write_all(sink, text.octets())
}

// Reads one octet, None at the end of input.
fn read_octet<S: Source>(source: &mut S) -> Result<Option<u8>, Failed>
    ensures read { IsOctetRead (S.state source.old) (S.state source.new) result }
    ensures faults { SourceFaults (S.state source.old) (S.state source.new) }
{
    let mut octet = [0; 1];
    match source.read(&mut octet) {
        Ok(0) => Ok(None),
        Ok(_) => Ok(Some(octet[0])),
        Err(failed) => Err(failed),
    }
}

// Reads this many octets, and answers whether there were this many: the input may end before.
fn fill<S: Source, const N: usize>(
    source: &mut S,
    octets: &mut Octets<N>,
    count: usize,
) -> Result<bool, Failed>
    requires { count ≤ N }
    ensures read { IsFilled (S.state source.old) (S.state source.new) count octets.new result }
    ensures faults { SourceFaults (S.state source.old) (S.state source.new) }
{
    octets.clear();
    for turn in 0..count {
        match read_octet(source) {
            Ok(Some(octet)) => octets.push(octet),
            Ok(None) => return Ok(false),
            Err(failed) => return Err(failed),
        }
    }
    Ok(true)
}

/// Reads an item: its kind, and its octets into `octets`; None where the input ended before one.
///
/// Failed where a read failed, Torn where the input ends within an item, TooLong where an item has more than [`MOST_OCTETS`] octets. What `octets`
/// holds after None or after an error does not count.
pub fn read_item<S: Source>(
    source: &mut S,
    octets: &mut ItemOctets,
) -> Result<Option<u8>, ItemFault>
    ensures read { IsItemRead (S.state source.old) (S.state source.new) octets.new result }
    ensures faults { SourceFaults (S.state source.old) (S.state source.new) }
{
    let mut head = Octets::<3>::new();
    let Ok(whole) = fill(source, &mut head, 3) else {
        return Err(ItemFault::Failed);
    };
    if head.is_empty() {
        return Ok(None);
    }
    if !whole {
        return Err(ItemFault::Torn);
    }
    let head = head.octets();
    let count = usize::from(head[1]) * 256 + usize::from(head[2]);
    if count > MOST_OCTETS {
        return Err(ItemFault::TooLong);
    }
    let Ok(whole) = fill(source, octets, count) else {
        return Err(ItemFault::Failed);
    };
    if !whole {
        return Err(ItemFault::Torn);
    }
    Ok(Some(head[0]))
}
