//! The folder in which a script is played.

use std::path::PathBuf;
use std::{env, fs, io, process};

/// A folder among the temporary files, in which the process stands. It goes with the value, and the process stands again where it
/// stood before.
pub struct Ground {
    rt: HostRuntime,
    path: String,
    before: PathBuf,
}

impl Drop for Ground {
    fn drop(self) {
        let _ = env::set_current_dir(&self.rt, self.before.as_path());
        self.remove();
        let Ground {
            rt: _,
            path: _,
            before: _,
        } = self;
    }
}

impl Ground {
    /// A new folder; the process's number keeps it apart from those of other runs.
    pub fn new(rt: &HostRuntime) -> io::Result<Ground> {
        let before = env::current_dir(rt)?;
        let root = env::temp_dir(rt)?;
        let root = root.as_path().as_str();
        let id = process::id(rt.process());
        let path = format!(in rt.alloc(); "{root}/test_near_places_{id}")?;
        let ground = Ground {
            rt: *rt,
            path,
            before,
        };
        ground.clear()?;
        Ok(ground)
    }

    /// Takes away all that stands in the folder.
    pub fn clear(&self) -> io::Result<()> {
        let path = self.path.as_str();
        self.remove();
        fs::create_dir(&self.rt, path)?;
        env::set_current_dir(&self.rt, path)
    }

    /// Takes away the folder. Where memory runs out, it may be there the second time.
    fn remove(&self) {
        let path = self.path.as_str();
        if fs::remove_dir_all(&self.rt, path).is_err() {
            let _ = fs::remove_dir_all(&self.rt, path);
        }
    }
}
