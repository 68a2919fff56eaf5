//! What a run reads before it begins: its configuration, the home folder, random bytes and the clock.

use crate::failure::StartFailure;
use config::config::Config;
use config::read::read_config;
use near_places::fresh::fresh_validity;
use std::env::VarError;
use std::io::Read;
use std::num::NonZeroU32;
use std::rt::{Clock, Env, Files};
use std::time::{SystemTime, UNIX_EPOCH};
use std::{env, fs};

/// The configuration file where the command line names none: in the home folder.
const CONFIG_FILE: &str = ".mbsyncrc";

/// Why it is not found where HOME is not set.
const NO_HOME: &str = "HOME is not set; name the file with -c";

/// Where random bytes come from.
const RANDOM: &str = "/dev/urandom";

/// The path of the home folder, if HOME is set.
pub(crate) fn read_home<R: Env + AllocGlobal>(rt: &R) -> Result<Option<String>, StartFailure> {
    match env::var(rt, "HOME") {
        Ok(home) => Ok(Some(home)),
        Err(VarError::OutOfMemory) => Err(StartFailure::NoMemory),
        Err(_) => Ok(None),
    }
}

/// The configuration of the file that the command line names, or else of the one in the home folder.
pub(crate) fn open_config<R: Files + AllocGlobal>(
    rt: &R,
    file: Option<&str>,
    home: Option<&str>,
) -> Result<Config, StartFailure> {
    let alloc = rt.alloc();
    let path = match (file, home) {
        (Some(file), _) => String::from_str(alloc, file)?,
        (None, Some(home)) => format!(in alloc; "{home}/{CONFIG_FILE}")?,
        (None, None) => return Err(StartFailure::cannot_open(alloc, CONFIG_FILE, NO_HOME)),
    };
    let text = match fs::read(rt, path.as_str()) {
        Ok(text) => text,
        Err(error) => return Err(StartFailure::at(alloc, path.as_str(), &error)),
    };
    match read_config(alloc, &text) {
        Ok(config) => Ok(config),
        Err(fault) => Err(StartFailure::config(alloc, path.as_str(), &text, fault)),
    }
}

/// 32 random bytes.
pub(crate) fn read_seed<R: Files + AllocGlobal>(rt: &R) -> Result<[u8; 32], StartFailure> {
    let mut seed = [0; 32];
    let mut source = match fs::open(rt, RANDOM) {
        Ok(source) => source,
        Err(error) => return Err(StartFailure::at(rt.alloc(), RANDOM, &error)),
    };
    match source.read_exact(&mut seed) {
        Ok(()) => Ok(seed),
        Err(error) => Err(StartFailure::at(rt.alloc(), RANDOM, &error)),
    }
}

/// The UIDVALIDITY of near mailboxes that have none yet, by the clock.
pub(crate) fn read_fresh<R: Clock + AllocGlobal>(rt: &R) -> Result<NonZeroU32, StartFailure> {
    let Ok(now) = SystemTime::now(rt) else {
        return Err(StartFailure::Clock);
    };
    match now.duration_since(UNIX_EPOCH) {
        Ok(since) => Ok(fresh_validity(since.as_secs())),
        Err(_) => Err(StartFailure::Clock),
    }
}
