ghost use Rattle.std.specs.Prelude.{◌≡◌, None, Err, IfOk, OnErr, option_and_then};
ghost use Rattle.std.specs.Str.{IsUtf8};
ghost use Rattle.forest_model.specs.declared.refusal.Refusal.TheVariants.{NoMemory};
ghost use Rattle.toml.specs.Data.{get_member};
ghost use Rattle.toml.specs.Parse.{parse_document};
ghost use Rattle.toml.specs.View.{table_view, view};
ghost use Rattle.store_settings.specs.Settings.{daemon_of, has_known_keys, is_key, number_in, said_or, settings_of, values_of};

use crate::number::is_within;
use forest_model::Refusal;
use std::alloc::Global;
use toml::de::Error;
use toml::{Table, Value};

/// How a server runs.
#[derive(Clone, Copy, Debug, PartialEq, Eq)]
pub struct Settings {
    /// A commit flushes from so many entries on: 1 to 65,536.
    pub wal: u64,
    /// The greatest number of blocks of a file: 16 to 2^32.
    pub max_blocks: u64,
    /// Whether the server compacts by itself.
    pub daemon: bool,
    /// It does from so many percent above the floor on: 1 to 99.
    pub compact_percent: u64,
}

/// Whether this is one of the four keys.
fn is_key(key: &str) -> bool
    ensures { result ≡ is_key key.now }
{
    key == "wal" || key == "max_blocks" || key == "daemon" || key == "compact_percent"
}

/// Whether every key is one of the four.
fn has_known_keys(table: &Table) -> bool
    ensures { result ≡ has_known_keys (table_view table.now) }
{
    for (key, _value) in table.iter() {
        if !is_key(key.as_str()) {
            return false;
        }
    }
    true
}

/// A value's number, where it is one in this range.
fn number_in(least: u64, most: u64, value: &Value) -> Option<u64>
    ensures { result ≡ number_in least most (view value.now) }
{
    let number = match value.as_integer() {
        Some(number) if number >= 0 => number as u64,
        _ => return None,
    };
    if is_within(least, most, number) {
        Some(number)
    } else {
        None
    }
}

/// The number at a key, or a default where the key isn't there.
fn number_at(table: &Table, key: &str, least: u64, most: u64, default: u64) -> Option<u64>
    ensures { result ≡ said_or default (number_in least most) (get_member key.now (table_view table.now)) }
{
    match table.get(key) {
        Some(value) => number_in(least, most, value),
        None => Some(default),
    }
}

/// Whether the server is to compact by itself.
fn daemon_of(table: &Table) -> Option<bool>
    ensures { result ≡ daemon_of (table_view table.now) }
{
    match table.get("daemon") {
        Some(value) => value.as_bool(),
        None => Some(false),
    }
}

/// The values of the four keys.
fn values_of(table: &Table) -> Option<Settings>
    ensures { result ≡ values_of (table_view table.now) }
{
    let wal = number_at(table, "wal", 1, 65_536, 4096)?;
    let max_blocks = number_at(table, "max_blocks", 16, 1 << 32, 1 << 32)?;
    let daemon = daemon_of(table)?;
    let compact_percent = number_at(table, "compact_percent", 1, 99, 30)?;
    Some(Settings {
        wal,
        max_blocks,
        daemon,
        compact_percent,
    })
}

/// The settings of a table.
fn table_settings(table: &Table) -> Option<Settings>
    ensures { result ≡ settings_of (table_view table.now) }
{
    if has_known_keys(table) {
        values_of(table)
    } else {
        None
    }
}

/// The settings that a text says, or none where it is refused: where it isn't TOML, has another key than the four, or a
/// value of another kind or out of its range. What it doesn't say has its default.
pub fn settings_of(alloc: Global, text: &[u8]) -> Result<Option<Settings>, Refusal>
    ensures text { IfOk result (λ settings. IsUtf8 text.now → settings ≡ option_and_then settings_of (parse_document text.now)) }
    ensures other { IfOk result (λ settings. ¬ (IsUtf8 text.now) → settings ≡ None) }
    ensures memory { OnErr result (result ≡ Err NoMemory) }
{
    let Ok(text) = std::str::from_utf8(text) else {
        return Ok(None);
    };
    match toml::table_from_str(alloc, text) {
        Ok(table) => Ok(table_settings(&table)),
        Err(error) if error.is_memory() => Err(Refusal::NoMemory),
        Err(_) => Ok(None),
    }
}
