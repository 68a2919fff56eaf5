//! Where a folder on a disk stopped, and which of its files were left out.

use device::trouble::Trouble;
use maildir::disk_folder::DiskFolder;
use maildir::disk_stop::Part;
use maildir::folder::FileName;
use test_scripts::reported::Reported;

/// Prints where a folder on a disk stopped and what the system said, and which files it left out, if any.
pub fn print_notes(reported: &mut Reported, folder: &DiskFolder<HostRuntime>) {
    if let Some(stop) = folder.stop() {
        reported.text(", at ");
        print_part(reported, &stop.part);
        reported.text(": ");
        reported.text(word_of(stop.trouble));
    }
    for file in folder.left_out() {
        reported.text("; left out: ");
        print_file(reported, file);
    }
}

fn print_part(reported: &mut Reported, part: &Part) {
    match part {
        Part::Whole => reported.text("."),
        Part::Own(path) => reported.text(path),
        Part::Mail(file) => print_file(reported, file),
    }
}

fn print_file(reported: &mut Reported, file: &FileName) {
    reported.text(file.place.folder());
    reported.text("/");
    reported.bytes(file.name.as_slice());
}

fn word_of(trouble: Trouble) -> &'static str {
    match trouble {
        Trouble::NoPermission => "no permission",
        Trouble::DiskFull => "disk full",
        Trouble::ReadOnly => "read only",
        Trouble::BadName => "bad name",
        Trouble::NoFile => "no file",
        Trouble::Missing => "missing",
        Trouble::Renamed => "renamed",
        Trouble::Other => "other",
    }
}
