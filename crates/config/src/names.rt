//! Names that stand for one thing only.

ghost use Rattle.std.specs.Prelude.{◌≡◌, map, string_bytes};
ghost use Rattle.config.specs.Names.{IsClaimed, is_taken};

use config_words::fault::FaultKind;

/// Adds a name to others. `DefinedTwice`: it is one of them. `NoMemory`. After either nothing was added.
pub(crate) fn claim(names: &mut Vec<String>, name: String) -> Result<(), FaultKind>
    ensures { IsClaimed (map string_bytes names.old.items) (string_bytes name) (map string_bytes names.new.items) result }
{
    if stands_among(names, &name) {
        return Err(FaultKind::DefinedTwice);
    }
    names.push(name)?;
    Ok(())
}

/// Whether a name is one of these.
fn stands_among(names: &[String], name: &str) -> bool
    ensures { result ≡ is_taken name.now (map string_bytes names.now) }
{
    names.iter().any(|other| other.as_str() == name)
}
