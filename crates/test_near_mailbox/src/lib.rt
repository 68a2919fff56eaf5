//! Scripts of the near mailbox: what its calls answer, and what they leave in its folder.
//!
//! Bytes stand between quotes and are escaped as in worlds (docs/FORMATS.md). FLAGS are letters, or `-` for none. A line `case NAME`
//! begins anew, without a folder.
//!
//! A folder:
//!
//! | Line | Answer |
//! |---|---|
//! | `folder memory` | an empty folder in memory |
//! | `folder memory stops STOP` | the same, where one call of the folder stops: STOP is `before CALL K`, `after CALL K` or `following B CALL K`, in the K-th call of this name, after B bytes of it |
//! | `folder visited` | an empty folder in memory, to which others add files |
//! | `folder disk` | an empty folder on a disk, among the temporary files. Paths are read from it from now on |
//! | `folder at PATH` | a folder that stands on a disk already; nothing of it is changed by that |
//! | `name NAME` | what the name of a file says, and how it is written |
//! | `beginnings name NAME` | what each beginning of the name says, held against a rule: the lines after this one, up to `.` |
//! | `beginnings meta V "BYTES"` | the same of a meta file: what a mailbox without messages is opened with that has this beginning of it, or, in the row `missing`, has none, so that its validity is V |
//!
//! A row of a rule is `N: ANSWER` or `N to N: ANSWER` for the beginnings of so many bytes. The rows name all of them in order. One that
//! holds is printed as it stands; else each beginning that is read otherwise is.
//!
//! What stands in a folder in memory before its mailbox is opened:
//!
//! | Line | Effect |
//! |---|---|
//! | `put PATH "BYTES"` | a file, as `cur/NAME`, `new/NAME` or `.uidvalidity` |
//! | `hide` | `cur`, `new` and `tmp` are missing |
//!
//! What others add to a folder, said before its mailbox is opened, and what stands there at the end:
//!
//! | Line | Effect or answer |
//! |---|---|
//! | `comes CALL K NAME "BYTES"` | a file comes to `cur` before the K-th call of this name |
//! | `leave` | the files of the folder with all that has come |
//!
//! What stands on a disk, at any time:
//!
//! | Line | Effect or answer |
//! |---|---|
//! | `put PATH "BYTES"`, `take PATH` | a file; it goes |
//! | `mkdir PATH`, `rmdir PATH` | an empty folder; it goes |
//! | `create` | `cur`, `new` and `tmp` are made, as far as they are not there |
//! | `socket PATH` | a socket |
//! | `symlink PATH TARGET` | a symlink at PATH that leads to TARGET, as it is read from there |
//! | `link PATH TARGET` | a second name, PATH, of the file at TARGET |
//! | `kind PATH` | what stands there, and of a file or a folder the permissions in octal digits |
//!
//! The mailbox of the folder:
//!
//! | Line | Answer |
//! |---|---|
//! | `open V` | the mailbox is opened, with validity V where there is no meta file: its validity and next UID, or the fault |
//! | `list` | validity, next UID, and each message with its flags; `unfit` where it is not fit to be copied |
//! | `count`, `count above UID`, `count above UID except UID,UID` | how many messages a listing has that asks all of them whether they are fit, or those above UID alone, but for some |
//! | `fetch UID`, `find MARK FROM` | the bytes of a message; the UID of the copy with this mark |
//! | `find N marks` | how many of the marks `000000000001` to N are found, sought one after another |
//! | `append FLAGS "BYTES"` | the UID of the new message |
//! | `append N copies` | N copies of a far message are appended, and then the names are synced: `ok`, or the fault |
//! | `admit`, `add UID FLAGS`, `remove UID FLAGS`, `expunge UID,UID` | `ok`, or the fault; `-` stands for no UID |
//!
//! The folder again; each of these lines closes the mailbox:
//!
//! | Line | Answer |
//! |---|---|
//! | `arrive NAME "BYTES"` | a file comes to `cur` of a folder in memory, as another program adds it: `ok`, or the fault |
//! | `sync` | the names in the folder are synced |
//! | `reopen` | the folder is opened again after a stop |
//! | `show` | the files in the folder, the calls that were made of it since the mailbox was opened, and how many calls have stopped so far; of a folder on a disk also where it stopped since it was opened (`, at PATH: WHY`) and which files were left out (`; left out: PATH`) |
//!
//! In memory, in new folders in which the same files stand, and which stop otherwise:
//!
//! | Line | Answer |
//! |---|---|
//! | `try V OPERATION`, `try V open` | a stop before and after each call of the folder that the operation makes, and after each byte of a copy, each in a folder of its own: what is answered, how the files differ from those before (`-PATH` has gone, `+PATH "BYTES"` has come), what a new mailbox lists, and the same once the operation was called again |
#![tactic(auto)]

mod beginnings;
mod disk;
mod files;
mod ground;
mod many;
mod memory;
mod name;
mod noted_folder;
mod operation;
pub mod play;
mod seat;
mod stop;
mod stopped_at;
mod trial;
mod visited;
