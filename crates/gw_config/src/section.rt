//! A table of a configuration, and its keys by their forms.
ghost use Rattle.std.specs.Prelude.{◌≡◌, ◌≢◌, ◌≤◌, [], ◌∷◌, ◌++◌, option_map, IfOk, MatchResult};
ghost use Rattle.toml.specs.Data.{get_member};
ghost use Rattle.toml.specs.View.{view, table_view};
ghost use Rattle.gw_config.specs.declared.fault.ConfigFault.TheVariants.{Memory, Missing, Wrong};
ghost use Rattle.gw_config.specs.Form.{short_text, identifier, integer_from, currency_code, six_digits, some_tables};
ghost use Rattle.gw_config.specs.Keys.{key_fault, key_rule, required, optional};
ghost use Rattle.gw_config.specs.inner.Decode.{GivesValue, Reports, tables_of};

use crate::{ConfigFault, form};
use gw_base::{Currency, Ident, Text};
use std::alloc::{AllocError, Global};
use toml::{Table, Value};

/// A table of a configuration.
#[derive(Clone, Copy)]
pub(crate) struct Section<'a> {
    pub(crate) table: &'a Table,
    /// What precedes the name of a key where a fault names it.
    pub(crate) prefix: &'static str,
}

impl<'a> Section<'a> {
    /// A text of 1 to 255 bytes, which has to be there.
    pub(crate) fn text(&self, alloc: Global, name: &str) -> Result<Text, ConfigFault>
        ensures { MatchResult result
            (GivesValue self.now.prefix.now (required name.now short_text) (table_view self.now.table.now))
            (Reports (key_fault self.now.prefix.now (required name.now short_text) (table_view self.now.table.now))) }
    {
        match find(self.table, name) {
            None => Err(missing(alloc, self.prefix, name)),
            Some(value) => match form::short_text(value) {
                None => Err(wrong(alloc, self.prefix, name)),
                Some(text) => Ok(Text::new(String::from_str(alloc, text)?)),
            },
        }
    }

    /// A text of 1 to 40 printable ASCII bytes; `default` where the key is absent, if there is one.
    pub(crate) fn identifier(
        &self,
        alloc: Global,
        name: &str,
        default: Option<Ident<40>>,
    ) -> Result<Ident<40>, ConfigFault>
        ensures { MatchResult result
            (GivesValue self.now.prefix.now (key_rule name.now default identifier) (table_view self.now.table.now))
            (Reports (key_fault self.now.prefix.now (key_rule name.now default identifier) (table_view self.now.table.now))) }
    {
        match find(self.table, name) {
            None => match default {
                None => Err(missing(alloc, self.prefix, name)),
                Some(identifier) => Ok(identifier),
            },
            Some(value) => match form::identifier(value) {
                None => Err(wrong(alloc, self.prefix, name)),
                Some(identifier) => Ok(identifier),
            },
        }
    }

    /// An integer from `low` to `high`; `default` where the key is absent.
    pub(crate) fn integer(
        &self,
        alloc: Global,
        name: &str,
        low: u32,
        high: u32,
        default: u32,
    ) -> Result<u32, ConfigFault>
        requires least { low ≤ default }
        requires most { default ≤ high }
        ensures within { IfOk result (λ number. (low ≤ number) × (number ≤ high)) }
        ensures reads { MatchResult result
            (GivesValue self.now.prefix.now (optional name.now (integer_from low high) default) (table_view self.now.table.now))
            (Reports (key_fault self.now.prefix.now (optional name.now (integer_from low high) default)
            (table_view self.now.table.now))) }
    {
        match find(self.table, name) {
            None => Ok(default),
            Some(value) => match form::integer_from(value, low, high) {
                None => Err(wrong(alloc, self.prefix, name)),
                Some(number) => Ok(number),
            },
        }
    }

    /// The three letters of a currency, which have to be there.
    pub(crate) fn currency(&self, alloc: Global, name: &str) -> Result<Currency, ConfigFault>
        ensures { MatchResult result
            (GivesValue self.now.prefix.now (required name.now currency_code) (table_view self.now.table.now))
            (Reports (key_fault self.now.prefix.now (required name.now currency_code) (table_view self.now.table.now))) }
    {
        match find(self.table, name) {
            None => Err(missing(alloc, self.prefix, name)),
            Some(value) => match form::currency(value) {
                None => Err(wrong(alloc, self.prefix, name)),
                Some(currency) => Ok(currency),
            },
        }
    }

    /// Six digits, two in each byte; zeros where the key is absent.
    pub(crate) fn six_digits(&self, alloc: Global, name: &str) -> Result<[u8; 3], ConfigFault>
        ensures { MatchResult result
            (GivesValue self.now.prefix.now (optional name.now six_digits (0 ∷ 0 ∷ 0 ∷ [])) (table_view self.now.table.now))
            (Reports (key_fault self.now.prefix.now (optional name.now six_digits (0 ∷ 0 ∷ 0 ∷ []))
            (table_view self.now.table.now))) }
    {
        match find(self.table, name) {
            None => Ok([0; 3]),
            Some(value) => match form::six_digits(value) {
                None => Err(wrong(alloc, self.prefix, name)),
                Some(password) => Ok(password),
            },
        }
    }

    /// An array of 1 to 32 tables, which has to be there.
    pub(crate) fn tables(&self, alloc: Global, name: &str) -> Result<&'a [Value], ConfigFault>
        ensures { MatchResult result
            (λ values. GivesValue self.now.prefix.now (required name.now some_tables) (table_view self.now.table.now)
            (tables_of values.now))
            (Reports (key_fault self.now.prefix.now (required name.now some_tables) (table_view self.now.table.now))) }
    {
        match find(self.table, name) {
            None => Err(missing(alloc, self.prefix, name)),
            Some(value) => match form::some_tables(value) {
                None => Err(wrong(alloc, self.prefix, name)),
                Some(values) => Ok(values),
            },
        }
    }
}

/// The fault of a key that is absent.
fn missing(alloc: Global, prefix: &str, name: &str) -> ConfigFault
    ensures { result ≢ Memory → result ≡ Missing (prefix.now ++ name.now) }
{
    match full_name(alloc, prefix, name) {
        Ok(key) => ConfigFault::Missing { key },
        Err(_) => ConfigFault::Memory,
    }
}

/// The fault of a key whose value is of another form, or that isn't known.
pub(crate) fn wrong(alloc: Global, prefix: &str, name: &str) -> ConfigFault
    ensures { result ≢ Memory → result ≡ Wrong (prefix.now ++ name.now) }
{
    match full_name(alloc, prefix, name) {
        Ok(key) => ConfigFault::Wrong { key },
        Err(_) => ConfigFault::Memory,
    }
}

/// The value at a key.
fn find<'a>(table: &'a Table, name: &str) -> Option<&'a Value>
    ensures { option_map (λ value. view value.now) result ≡ get_member name.now (table_view table.now) }
{
    table.get(name)
}

/// The name of a key as a fault names it.
fn full_name(alloc: Global, prefix: &str, name: &str) -> Result<Text, AllocError>
    ensures { IfOk result (λ key. key ≡ prefix.now ++ name.now) }
{
    Ok(Text::new(format!(in alloc; "{prefix}{name}")?))
}
