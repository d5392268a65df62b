//! What the program needs before it serves: the settings of a disk, and the files of its stations.
//! It reads texts and names that it is given. It opens no file, and knows nothing of registers and disks.
#![tactic(auto)]

mod naming;
mod reading;

pub use naming::{NameFault, Places, name_files};
pub use reading::{Settings, SettingsFault, read_settings};
