//! Reads the five numbers of a settings file.
ghost use Rattle.std.specs.Prelude.{◌≡◌, None, Err, IfOk, IfSome, IsUtf8};
ghost use Rattle.toml.specs.Errors.{IsBlank};
ghost use Rattle.toml.specs.View.{table_view};
ghost use Rattle.settings.specs.Reading.{Holds, Has, integer_at, number_at};

use std::alloc::Global;
use thiserror::Error;
use toml::Table;

/// The limits of a disk, and the size of its journal. Each is any number from 0 to 4,294,967,295. Whether a disk can be
/// made with them is not judged here.
#[derive(Clone, Copy, Debug, PartialEq, Eq)]
pub struct Settings {
    /// The most rules.
    pub rules: u32,
    /// The most radios.
    pub radios: u32,
    /// The most waiting messages and reports.
    pub mail: u32,
    /// The most stations.
    pub stations: u32,
    /// The number of sectors in each half of the journal.
    pub journal: u32,
}

/// Why a text gives no settings.
#[derive(Clone, Copy, Debug, PartialEq, Eq, Drop, Error)]
pub enum SettingsFault {
    /// The text is no UTF-8 or no TOML; or one of the five keys is missing, or its value is not an integer from 0 to
    /// 4,294,967,295.
    #[error("the settings are not five numbers in TOML")]
    BadSettings,
    /// Memory ran out.
    #[error("out of memory")]
    NoMemory,
}

/// The settings in a TOML text: the keys `rules`, `radios`, `mail`, `stations` and `journal` of its table, each an
/// integer from 0 to 4,294,967,295. Other keys are ignored.
///
/// # Errors
/// `BadSettings` where the text has no settings. `NoMemory` where memory ran out before the text was read; then it may
/// have settings or not. A text that is no UTF-8, or has only white space and comments, never gives `NoMemory`.
pub fn read_settings(alloc: Global, text: &[u8]) -> Result<Settings, SettingsFault>
    ensures read { IfOk result (Holds text.now) }
    ensures refused { result ≡ Err SettingsFault.BadSettings → (settings : Settings) → ¬ Holds text.now settings }
    ensures memory { result ≡ Err SettingsFault.NoMemory → IsUtf8 text.now × ¬ IsBlank text.now }
{
    let Ok(text) = std::str::from_utf8(text) else {
        return Err(SettingsFault::BadSettings);
    };
    match toml::table_from_str(alloc, text) {
        Ok(table) => settings_of(&table).ok_or(SettingsFault::BadSettings),
        Err(fault) if fault.is_memory() => Err(SettingsFault::NoMemory),
        Err(_) => Err(SettingsFault::BadSettings),
    }
}

/// The five numbers of a table, where it has them all.
fn settings_of(table: &Table) -> Option<Settings>
    ensures has { IfSome result (Has (table_view table.now)) }
    ensures lacks { result ≡ None → (settings : Settings) → ¬ Has (table_view table.now) settings }
{
    Some(Settings {
        rules: number_at(table, "rules")?,
        radios: number_at(table, "radios")?,
        mail: number_at(table, "mail")?,
        stations: number_at(table, "stations")?,
        journal: number_at(table, "journal")?,
    })
}

/// The number of 32 bits under a key.
fn number_at(table: &Table, key: &str) -> Option<u32>
    ensures { result ≡ number_at key.now (table_view table.now) }
{
    let number = integer_at(table, key)?;
    u32::try_from(number).ok()
}

/// The integer under a key.
fn integer_at(table: &Table, key: &str) -> Option<i64>
    ensures { result ≡ integer_at key.now (table_view table.now) }
{
    match table.get(key) {
        Some(value) => value.as_integer(),
        None => None,
    }
}
