//! The place of the folder on a disk.

use maildir::disk_folder::DiskFolder;
use std::path::PathBuf;
use std::{env, fs, process};
use test_scripts::failure::Failure;

/// A place among the temporary files. What stands there goes with the value, and the process stands again where it stood before.
pub struct Ground {
    rt: HostRuntime,
    path: String,
    before: PathBuf,
}

impl Drop for Ground {
    fn drop(self) {
        let _ = env::set_current_dir(&self.rt, self.before.as_path());
        self.clear();
        let Ground {
            rt: _,
            path: _,
            before: _,
        } = self;
    }
}

impl Ground {
    /// A place where nothing stands yet.
    pub fn new(rt: &HostRuntime) -> Result<Ground, Failure> {
        Ok(Ground {
            rt: *rt,
            path: path_of(rt)?,
            before: env::current_dir(rt)?,
        })
    }

    /// A new folder with `cur`, `new` and `tmp` in place of the last one. The process stands in it.
    pub fn new_folder(&self) -> Result<DiskFolder<HostRuntime>, Failure> {
        let path = self.path.as_str();
        self.clear();
        let folder = DiskFolder::create(self.rt, path)?;
        match env::set_current_dir(&self.rt, path) {
            Ok(()) => Ok(folder),
            Err(fault) => {
                drop(folder);
                Err(Failure::from(fault))
            }
        }
    }

    /// Takes away what stands there. Where memory runs out, it may be there the second time.
    fn clear(&self) {
        let path = self.path.as_str();
        if fs::remove_dir_all(&self.rt, path).is_err() {
            let _ = fs::remove_dir_all(&self.rt, path);
        }
    }
}

/// Where the folder stands; the process's number keeps it apart from those of other runs.
fn path_of(rt: &HostRuntime) -> Result<String, Failure> {
    let root = env::temp_dir(rt)?;
    let root = root.as_path().as_str();
    let id = process::id(rt.process());
    Ok(format!(in rt.alloc(); "{root}/test_near_mailbox_{id}")?)
}
