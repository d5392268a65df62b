//! What the program does with the disks and files that it is named: it makes a disk for an empty register or for one
//! that is loaded from a dump, serves stations' lines over the register that is kept on a disk, answers a query of one, dumps it,
//! and checks a disk. It opens files, prints to writers and to standard error, and knows nothing of the program's words.
#![tactic(auto)]

mod checking;
mod counted;
mod disk_files;
mod doorbell;
mod dumping;
mod fault;
mod files;
pub mod laws;
mod loading;
mod losses;
mod making;
mod notice;
mod opening;
mod pace;
mod pairs;
mod port_names;
mod printing;
mod progress;
mod refused;
mod rest;
mod running;
mod service_watch;
mod serving;
mod showing;
mod showing_disk;
mod showing_figures;
mod station_files;
mod tally;
mod watched;

pub use checking::{CheckReport, check_disk, check_on, print_checked};
pub use counted::{CountedDisk, CountedReader, CountedWriter, SyncedDisk};
pub use disk_files::DiskFiles;
pub use dumping::{DiskDumpFault, dump_disk, dump_on};
pub use fault::Fault;
pub use files::{
    FilePort, check_names, check_orders, check_stations, file_names, not_read, open_files,
};
pub use loading::load_register;
pub use making::{format_disk, layout_of, make_disk_with};
pub use opening::open_disk;
pub use pairs::{
    Pair, PairPort, PairReader, PairWriter, check_pairs, inputs_of, name_ended, names_of, pairs_of,
    ports_of, stream_pair,
};
pub use port_names::PortNames;
pub use printing::{print_formatted, print_loaded, print_station};
pub use progress::ProgressReport;
pub use refused::Refused;
pub use rest::{RestReport, rest_disk, rest_on};
pub use running::serve_stations;
pub use service_watch::{Manner, ServiceWatch};
pub use serving::{Served, TURNS, outcome, print_stations, service_outcome};
pub use showing::{Shown, show};
pub use showing_disk::{show_disk, show_on};
pub use station_files::StationFiles;
pub use tally::Tally;
pub use watched::{WatchedDesk, WatchedReader};
