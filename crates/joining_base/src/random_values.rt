//! The random values of a node.
ghost use Rattle.std.specs.Prelude.{◌≡◌, ◌≤◌, ◌++◌, ◌∷◌, [], drop, length, nat_lt, slice_get, true, false, MatchResult, OnErr, OnOk};

use arrayvec::ArrayVec;
use node_rules::RandomFault;
use plc_base::RandomOctets;
use std::marker::Model;

/// The random values that a node was given and has not used yet, at most 8, the oldest first. A contract sees the list of them.
#[derive(Drop)]
pub struct RandomValues {
    items: ArrayVec<RandomOctets, 8>,
}

impl Model for RandomValues {
    ghost use Rattle.std.specs.Prelude.{List};
    ghost use Rattle.plc_base.specs.declared.key.RandomOctets.{RandomOctets};

    ghost Value = { List RandomOctets };

    ghost view = { λ r. r.items.items };
}

impl RandomValues {
    /// No value.
    pub fn new() -> RandomValues
        ensures { result ≡ [] }
    {
        RandomValues {
            items: ArrayVec::new(),
        }
    }

    /// Takes a value in, after the others. RandomsFull exactly where 8 are held; nothing has changed then.
    pub fn give(&mut self, value: RandomOctets) -> Result<(), RandomFault>
        ensures taken { OnOk result (self.new ≡ self.old ++ value ∷ []) }
        ensures full { MatchResult result (λ _. nat_lt 7 (length self.old) ≡ false)
            (λ e. (e ≡ RandomFault.RandomsFull) × (nat_lt 7 (length self.old) ≡ true)) }
        ensures same { OnErr result (self.new ≡ self.old) }
    {
        if self.items.len() > 7 {
            return Err(RandomFault::RandomsFull);
        }
        self.items.push(value);
        Ok(())
    }

    /// How many values are held, at most 8.
    pub fn count(&self) -> usize
        ensures value { result ≡ length self.now }
        ensures few { length self.now ≤ 8 }
    {
        self.items.len()
    }

    /// The oldest value, None where none is held.
    pub fn oldest(&self) -> Option<RandomOctets>
        ensures { result ≡ slice_get self.now 0 }
    {
        self.items.as_slice().get(0).copied()
    }

    /// Drops the oldest value.
    pub fn drop_oldest(&mut self)
        requires { 1 ≤ length self.old }
        ensures { self.new ≡ drop 1 self.old }
    {
        let _oldest = self.items.remove(0);
    }

    /// Drops all values.
    pub fn clear(&mut self)
        ensures { self.new ≡ [] }
    {
        self.items.clear();
    }
}
