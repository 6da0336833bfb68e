//! The values of one table of a description, each with its default.
ghost use Rattle.std.specs.Prelude.{◌≡◌, ◌<◌, ◌≤◌, option_map, IfOk};
ghost use Rattle.toml.specs.View.{view, table_view};
ghost use Rattle.plan_tables.specs.Members.{table_of};
ghost use Rattle.plan_tables.specs.Faults.{get_at, wrong_at, checked_at, number_at, positive_at, seconds_at, chance_at, flag_at, inner_at, read_as};
ghost use Rattle.plan_tables.specs.Values.{longest};

use crate::fault::{Section, Wanted, WrongValue};
use crate::keys::Key;
use crate::values::{chance_in, number_from_one_to, number_up_to, seconds_in};
use toml::{Table, Value};

/// A table of a description, or the defaults alone where the text has none of that name.
#[derive(Clone, Copy)]
pub struct Fields<'a> {
    /// Its name.
    pub section: Section,
    /// The table, where the text has it.
    pub table: Option<&'a Table>,
}

impl<'a> Fields<'a> {
    /// A table of this name.
    pub fn of(section: Section, table: &'a Table) -> Fields<'a>
        ensures { table_of result ≡ record { section = section; members = table_view table.now } }
    {
        Fields {
            section,
            table: Some(table),
        }
    }

    /// The value of a key.
    pub fn get(&self, key: Key) -> Option<&'a Value>
        ensures { option_map (λ v. view v.now) result ≡ get_at (table_of self.now) key }
    {
        match self.table {
            Some(table) => table.get(key.word()),
            None => None,
        }
    }

    /// The fault that a value does not fit its key.
    pub fn wrong(&self, key: Key, wanted: Wanted) -> WrongValue
        ensures { result ≡ wrong_at (table_of self.now) key wanted }
    {
        WrongValue {
            section: self.section,
            key,
            wanted,
        }
    }

    /// What was read, or that it does not fit.
    pub fn checked<T: Drop>(
        &self,
        key: Key,
        wanted: Wanted,
        read: Option<T>,
    ) -> Result<T, WrongValue>
        ensures { result ≡ checked_at (table_of self.now) key wanted read }
    {
        match read {
            Some(value) => Ok(value),
            None => Err(self.wrong(key, wanted)),
        }
    }

    /// The table of a name within this one, which has to be a table where it is there.
    pub fn inner(&self, key: Key, section: Section) -> Result<Fields<'a>, WrongValue>
        ensures { read_as table_of result ≡ inner_at (table_of self.now) key section }
    {
        let Some(value) = self.get(key) else {
            return Ok(Fields {
                section,
                table: None,
            });
        };
        match value.as_table() {
            Some(table) => Ok(Fields::of(section, table)),
            None => Err(self.wrong(key, Wanted::Table)),
        }
    }

    /// A number up to another one.
    pub fn number(&self, key: Key, default: u64, most: u64) -> Result<u64, WrongValue>
        requires { default ≤ most }
        ensures value { result ≡ number_at (table_of self.now) key default most }
        ensures within { IfOk result (λ n. n ≤ most) }
    {
        match self.get(key) {
            None => Ok(default),
            Some(value) => self.checked(key, Wanted::UpTo(most), number_up_to(most, value)),
        }
    }

    /// A number from 1 to another one.
    pub fn positive(&self, key: Key, default: u16, most: u16) -> Result<u16, WrongValue>
        requires some { 0 < default }
        requires low { default ≤ most }
        ensures value { result ≡ positive_at (table_of self.now) key default most }
        ensures within { IfOk result (λ n. (0 < n) × (n ≤ most)) }
    {
        let most = u64::from(most);
        match self.get(key) {
            None => Ok(default),
            Some(value) => {
                let read = number_from_one_to(most, value);
                Ok(self.checked(key, Wanted::FromOneTo(most), read)? as u16)
            }
        }
    }

    /// A time, in seconds.
    pub fn seconds(&self, key: Key, default: u64) -> Result<u64, WrongValue>
        requires { default ≤ longest }
        ensures value { result ≡ seconds_at (table_of self.now) key default }
        ensures within { IfOk result (λ n. n ≤ longest) }
    {
        match self.get(key) {
            None => Ok(default),
            Some(value) => self.checked(key, Wanted::Time, seconds_in(value)),
        }
    }

    /// Per cent, as ten-thousandths.
    pub fn chance(&self, key: Key, default: u16) -> Result<u16, WrongValue>
        requires { default ≤ 10000 }
        ensures value { result ≡ chance_at (table_of self.now) key default }
        ensures within { IfOk result (λ n. n ≤ 10000) }
    {
        match self.get(key) {
            None => Ok(default),
            Some(value) => self.checked(key, Wanted::Chance, chance_in(value)),
        }
    }

    /// True or false.
    pub fn flag(&self, key: Key, default: bool) -> Result<bool, WrongValue>
        ensures { result ≡ flag_at (table_of self.now) key default }
    {
        match self.get(key) {
            None => Ok(default),
            Some(value) => self.checked(key, Wanted::Flag, value.as_bool()),
        }
    }
}
