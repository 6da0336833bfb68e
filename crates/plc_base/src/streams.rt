//! The two traits of the outside.
ghost use Rattle.std.specs.Prelude.{◌<◌, ◌≤◌, length, IfOk};
ghost use Rattle.std.specs.Io.{ReadsAtMost};
ghost use Rattle.plc_base.specs.Streams.{SourceState, SinkState, Reads, Writes, HasWritten};

use thiserror::Error;

/// A store or a stream failed to read or to write, and counted it.
#[derive(Clone, Copy, Debug, PartialEq, Eq, Error)]
#[error("a read or a write failed")]
pub struct Failed;

/// Where octets come from.
pub trait Source {
    /// The octets that its reads have answered so far and, where they are known, those that are left; whether it has ended, how
    /// often it has failed, and, where it is known, how it answers. A source whose octets are not in memory keeps them as
    /// [`PassedOctets`](crate::PassedOctets).
    ghost state: { Self → SourceState };

    /// Moves the first octets to the front of `buf` and answers how many. An answer of 0 is the end of input.
    ///
    /// `Failed` where the object failed, which it has counted. It has then taken nothing.
    fn read(&mut self, buf: &mut [u8]) -> Result<usize, Failed>
        requires { 0 < length buf.old }
        ensures bound { ReadsAtMost result buf.new }
        ensures read { Reads (state self.old) (state self.new) result buf.new };
}

/// Where text goes.
pub trait Sink {
    /// The octets that its writes have taken so far, where it keeps them, how often it has failed, and, where it is known, how it
    /// answers.
    ghost state: { Self → SinkState };

    /// Takes the first octets of `piece`, at least one, and answers how many.
    ///
    /// `Failed` where the object failed, which it has counted. It has then taken nothing.
    fn write(&mut self, piece: &[u8]) -> Result<usize, Failed>
        requires { 0 < length piece.now }
        ensures bound { IfOk result (λ n. (0 < n) × (n ≤ length piece.now)) }
        ensures written { Writes (state self.old) (state self.new) result piece.now };
}

/// Writes the whole text. Where the sink fails, a prefix of it was written.
pub fn write_all<K: Sink>(sink: &mut K, text: &[u8]) -> Result<(), Failed>
    ensures { HasWritten (K.state sink.old) (K.state sink.new) result text.now }
{
    let mut rest = text;
    while !rest.is_empty() {
        let count = sink.write(rest)?;
        rest = &rest[count..];
    }
    Ok(())
}
