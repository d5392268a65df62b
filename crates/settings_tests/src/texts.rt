//! Texts with settings, and texts without.

use settings::{Settings, SettingsFault, read_settings};
use std::alloc::Global;

/// Rules, radios, mail, stations and journal of examples/settings.toml.
const SAMPLE: [u32; 5] = [16, 16, 256, 4, 39];

/// Texts, each with its settings.
const HELD: [(&str, [u32; 5]); 7] = [
    // examples/settings.toml, and its five lines alone.
    (
        "# What a disk is made for (docs/formats/disk.md, \"Settings\").\nrules = 16     # rules that the register holds\n\
         radios = 16    # radios\nmail = 256     # waiting messages and reports\nstations = 4   # stations\n\
         journal = 39   # sectors in each half of the journal\n",
        SAMPLE,
    ),
    (
        "rules = 16\nradios = 16\nmail = 256\nstations = 4\njournal = 39\n",
        SAMPLE,
    ),
    // Another order, CR LF, comments, keys in quotes, no last line end.
    (
        "# a disk\r\njournal=39\r\n'stations'=4 # four\r\n\r\n\"mail\" = 256\r\nradios = 16\r\nrules = 16",
        SAMPLE,
    ),
    // Other keys, also of the same names in another table.
    (
        "rules = 16\nname = \"north\"\nradios = 16\nmail = 256\nstations = 4\njournal = 39\nrow.rules = 1\n[old]\nrules = 7\njournal = \"none\"\n",
        SAMPLE,
    ),
    // Integers as TOML writes them.
    (
        "rules = 0x10\nradios = 0o20\nmail = 0b1_0000_0000\nstations = +4\njournal = 39",
        SAMPLE,
    ),
    // The ends of the range.
    (
        "rules = 0\nradios = 4294967295\nmail = 4_294_967_295\nstations = 0xFFFFFFFF\njournal = -0",
        [0, 4_294_967_295, 4_294_967_295, 4_294_967_295, 0],
    ),
    (
        "rules = 4294967295\nradios = 0\nmail = 0\nstations = 0\njournal = 4294967295",
        [4_294_967_295, 0, 0, 0, 4_294_967_295],
    ),
];

/// Texts without settings.
const NOT_HELD: [&str; 22] = [
    // Nothing, or not all keys.
    "",
    "# rules = 16\n",
    "radios = 16\nmail = 256\nstations = 4\njournal = 39\n",
    "rules = 16\nmail = 256\nstations = 4\njournal = 39\n",
    "rules = 16\nradios = 16\nstations = 4\njournal = 39\n",
    "rules = 16\nradios = 16\nmail = 256\njournal = 39\n",
    "rules = 16\nradios = 16\nmail = 256\nstations = 4\n",
    "Rules = 16\nradios = 16\nmail = 256\nstations = 4\njournal = 39\n",
    "[disk]\nrules = 16\nradios = 16\nmail = 256\nstations = 4\njournal = 39\n",
    // Past the ends of the range.
    "rules = 4294967296\nradios = 16\nmail = 256\nstations = 4\njournal = 39\n",
    "rules = 16\nradios = 16\nmail = 256\nstations = 4\njournal = 4294967296\n",
    "rules = 16\nradios = -1\nmail = 256\nstations = 4\njournal = 39\n",
    "rules = 16\nradios = 16\nmail = -4294967295\nstations = 4\njournal = 39\n",
    "rules = 16\nradios = 16\nmail = 256\nstations = 9223372036854775808\njournal = 39\n",
    // Other types.
    "rules = \"16\"\nradios = 16\nmail = 256\nstations = 4\njournal = 39\n",
    "rules = 16\nradios = 16.0\nmail = 256\nstations = 4\njournal = 39\n",
    "rules = 16\nradios = 16\nmail = [256]\nstations = 4\njournal = 39\n",
    "rules = 16\nradios = 16\nmail = 256\nstations = true\njournal = 39\n",
    "rules = 16\nradios = 16\nmail = 256\nstations = 4\njournal = { sectors = 39 }\n",
    // No TOML.
    "rules = 16\nradios = 16\nmail = 256\nstations = 4\njournal = 39\nrules = 16\n",
    "rules = 16\nradios = 16\nmail = 256\nstations = 4\njournal = 039\n",
    "rules 16\nradios = 16\nmail = 256\nstations = 4\njournal = 39\n",
];

fn five(numbers: [u32; 5]) -> Settings {
    let [rules, radios, mail, stations, journal] = numbers;
    Settings {
        rules,
        radios,
        mail,
        stations,
        journal,
    }
}

/// The first text that is not read as its settings.
fn first_misread(alloc: Global) -> Option<&'static str> {
    for (text, numbers) in HELD {
        if read_settings(alloc, text.as_bytes()) != Ok(five(numbers)) {
            return Some(text);
        }
    }
    None
}

/// The first text that is read though it has no settings.
fn first_taken(alloc: Global) -> Option<&'static str> {
    for text in NOT_HELD {
        if read_settings(alloc, text.as_bytes()) != Err(SettingsFault::BadSettings) {
            return Some(text);
        }
    }
    None
}

/// Whether the byte FF is refused: alone, and in a comment after settings.
fn refuses_no_text(alloc: Global) -> bool {
    let in_comment = b"rules = 16\nradios = 16\nmail = 256\nstations = 4\njournal = 39\n# \xFF\n";
    let alone = read_settings(alloc, b"\xFF");
    alone == Err(SettingsFault::BadSettings) && read_settings(alloc, in_comment) == alone
}

#[test]
fn texts_that_hold_settings(rt: HostRuntime) {
    assert_eq!(rt; first_misread(rt.alloc()), None);
}

#[test]
fn texts_that_hold_none(rt: HostRuntime) {
    assert_eq!(rt; first_taken(rt.alloc()), None);
}

#[test]
fn bytes_that_are_no_text(rt: HostRuntime) {
    assert!(rt; refuses_no_text(rt.alloc()));
}
