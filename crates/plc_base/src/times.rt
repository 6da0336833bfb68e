//! Times, in seconds of one clock.
ghost use Rattle.std.specs.Prelude.{◌≡◌};
ghost use Rattle.plc_base.specs.Times as times;

/// Whether fewer than this many seconds have passed since a time. They have not where that time is still to come.
pub fn is_within(seconds: u64, now: u64, since: u64) -> bool
    ensures { result ≡ times.is_within seconds now since }
{
    now < since || now - since < seconds
}

/// The earlier of a time and of this many seconds after another one.
pub fn earlier_end(seconds: u64, time: u64, since: u64) -> u64
    ensures { result ≡ times.earlier_end seconds time since }
{
    time.min(since.saturating_add(seconds))
}
