//! A Maildir folder: the names of its files, its meta file, and folders in memory and on a disk.
#![tactic(auto)]

pub mod acted_folder;
mod changes;
pub mod disk_call;
pub mod disk_folder;
pub mod disk_laws;
pub mod disk_record;
pub mod disk_stop;
mod entries;
pub mod file_acts;
pub mod file_list;
pub mod folder;
mod found_names;
mod kinds;
pub mod laws;
pub mod letters;
mod mem_files;
pub mod mem_folder;
pub mod meta;
pub mod name;
mod name_index;
mod recorded_disk;
pub mod standing;
mod sure_names;
pub mod visited_folder;
