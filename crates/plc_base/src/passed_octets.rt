//! The octets that went through a stream, for contracts alone.
ghost use Rattle.std.specs.Prelude.{◌≡◌, ◌++◌, ℕ, List, []};
ghost use Rattle.std.specs.Borrow.{ftrue};

use std::marker::{Model, PhantomData};

/// The octets that went through a stream so far, in order. It takes no memory, and its calls do nothing at run time: only contracts see it.
///
/// Nothing says what the system gives and takes. So a stream of the system notes here what each of its reads answered, and what each of its writes
/// took. No memory holds these octets, so what they are is what the two calls here say, of a value that nobody else makes or changes.
#[derive(Drop)]
pub struct PassedOctets {
    marker: PhantomData<u8>,
    pub ghost octets: { List ℕ },
}

impl Model for PassedOctets {
    ghost also_owns = { λ _. ftrue };
}

impl PassedOctets {
    /// None so far.
    pub fn new() -> PassedOctets
        ensures { result.octets ≡ [] }
    {
        PassedOctets {
            marker: PhantomData,
        }
    }

    /// These octets went through after those before.
    pub fn note(&mut self, _octets: &[u8])
        ensures { self.new.octets ≡ self.old.octets ++ _octets.now }
    {}
}
