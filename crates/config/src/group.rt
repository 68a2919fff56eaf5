//! Groups of a configuration while they are read. Their channels are names, since a line may name a channel of later lines.

ghost use Rattle.std.specs.Prelude.{◌≡◌, ◌++◌, ℕ, List, [], IfOk, IfSome, None, OnOk, Some, map, string_bytes};
ghost use Rattle.config.specs.Configurations.{group_value, placed};
ghost use Rattle.config.specs.Lines.{IsUpTo};
ghost use Rattle.config.specs.Named.{group_named, member_name};
ghost use Rattle.config.specs.Outlines.{Reports};
ghost use Rattle.config.specs.Readings.{AreLines, HasLines, IsLine};
ghost use Rattle.config.specs.Sections.{place_among};

use crate::config::Group;
use crate::first::unknown_first;
use config_words::fault::ConfigFault;
use std::alloc::{AllocError, Global};

/// A channel of a group, as a line names it.
#[derive(Drop)]
pub(crate) struct Member {
    /// The name of the channel.
    pub name: String,
    /// The number of the line.
    pub line: usize,
}

/// A group without its name.
#[derive(Drop)]
pub(crate) struct GroupDraft {
    /// Its channels so far.
    pub members: Vec<Member>,
}

impl GroupDraft {
    /// A group without channels.
    pub fn new(alloc: Global) -> Self
        ensures { result.members.items ≡ [] }
    {
        GroupDraft {
            members: Vec::new(alloc),
        }
    }

    /// Takes the channels that a line names.
    pub fn add(&mut self, line: usize, names: Vec<String>) -> Result<(), AllocError>
        ensures names { OnOk result (map member_name self.new.members.items ≡ map member_name self.old.members.items ++ map string_bytes names.items) }
        ensures lines { (last : ℕ) → IsLine last line → AreLines last self.old.members.items → AreLines last self.new.members.items }
    {
        for name in names {
            self.members.push(Member { name, line })?;
        }
        Ok(())
    }
}

/// A group that has ended.
#[derive(Drop)]
pub(crate) struct NamedGroup {
    /// Its name.
    pub name: String,
    /// Its channels.
    pub members: Vec<Member>,
}

/// The groups with the places of their channels among the channels of these names. A line that names none of them is
/// faulty: `first` becomes the first faulty line of all.
pub(crate) fn place_groups(
    alloc: Global,
    channels: &[String],
    groups: Vec<NamedGroup>,
    first: &mut Option<ConfigFault>,
) -> Result<Vec<Group>, AllocError>
    ensures lines { (last : ℕ) → HasLines last groups.items → IfSome first.old (IsUpTo last) → OnOk result (IfSome first.new (IsUpTo last)) }
    ensures again { (again : List ConfigFault) → Reports again first.old → OnOk result (Reports again first.new) }
    ensures none { OnOk result (first.new ≡ None → first.old ≡ None) }
    ensures placed { IfOk result (λ found. first.new ≡ None →
        map group_value found.items ≡ map (placed (map string_bytes channels.now)) (map group_named groups.items)) }
{
    let mut placed = Vec::new(alloc);
    for group in groups {
        let channels = places(alloc, channels, &group.members, first)?;
        placed.push(Group {
            name: group.name,
            channels,
        })?;
    }
    Ok(placed)
}

/// The places of a group's channels.
fn places(
    alloc: Global,
    channels: &[String],
    members: &[Member],
    first: &mut Option<ConfigFault>,
) -> Result<Vec<usize>, AllocError>
    ensures lines { (last : ℕ) → AreLines last members.now → IfSome first.old (IsUpTo last) → OnOk result (IfSome first.new (IsUpTo last)) }
    ensures again { (again : List ConfigFault) → Reports again first.old → OnOk result (Reports again first.new) }
    ensures none { OnOk result (first.new ≡ None → first.old ≡ None) }
    ensures placed { IfOk result (λ places. first.new ≡ None →
        map Some places.items ≡ map (place_among (map string_bytes channels.now)) (map member_name members.now)) }
{
    let mut places = Vec::new(alloc);
    for member in members {
        match place_of(channels, &member.name) {
            Some(place) => places.push(place)?,
            None => *first = Some(unknown_first(*first, member.line)),
        }
    }
    Ok(places)
}

/// The place of a name among others.
fn place_of(names: &[String], name: &str) -> Option<usize>
    ensures { result ≡ place_among (map string_bytes names.now) name.now }
{
    names.iter().position(|other| other.as_str() == name)
}
