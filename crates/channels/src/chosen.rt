//! The channels that a command line names.

ghost use Rattle.std.specs.Prelude.{◌≡◌, not, IfOk, OnOk, option_map, string_bytes};
ghost use Rattle.std.specs.List.{find, flat_map, range_with_len};
ghost use Rattle.channels.specs.Chosen.{channel_of, chosen_among, each_once, group_of, is_known, named, unknown_among};
ghost use Rattle.channels.specs.Places.{with_place, with_places};

use config::config::{Config, Group};
use config::request::Chosen;
use std::alloc::{AllocError, Global};

/// The first name that is neither a channel nor a group. It takes no memory.
pub fn unknown_name<'a>(config: &Config, wanted: &'a Chosen) -> Option<&'a str>
    ensures { option_map (λ name. name.now) result ≡ unknown_among config.now wanted.now }
{
    match wanted {
        Chosen::All => None,
        Chosen::Named(names) => first_unknown(config, names),
    }
}

fn first_unknown<'a>(config: &Config, names: &'a [String]) -> Option<&'a str>
    ensures { option_map (λ name. name.now) result ≡ option_map string_bytes
        (find (λ name. not (is_known config.now (string_bytes name))) names.now) }
{
    for name in names {
        if !is_known(config, name.as_str()) {
            return Some(name.as_str());
        }
    }
    None
}

/// Whether a channel or a group has this name.
fn is_known(config: &Config, name: &str) -> bool
    ensures { result ≡ is_known config.now name.now }
{
    channel_of(config, name).is_some() || group_of(config, name).is_some()
}

/// The place of the channel of this name.
fn channel_of(config: &Config, name: &str) -> Option<usize>
    ensures { result ≡ channel_of config.now name.now }
{
    config
        .channels
        .iter()
        .position(|channel| channel.name.as_str() == name)
}

/// The group of this name.
fn group_of<'a>(config: &'a Config, name: &str) -> Option<&'a Group>
    ensures { option_map (λ group. group.now) result ≡ group_of config.now name.now }
{
    config
        .groups
        .iter()
        .find(|group| group.name.as_str() == name)
}

/// The places of the channels that are named, in the order in which they run: each once, where it comes first. A name that is unknown
/// stands for none. `AllocError`: memory ran out.
pub fn chosen_places(
    alloc: Global,
    config: &Config,
    wanted: &Chosen,
) -> Result<Vec<usize>, AllocError>
    ensures { IfOk result (λ places. places.items ≡ chosen_among config.now wanted.now) }
{
    match wanted {
        Chosen::All => all_places(alloc, config.channels.len()),
        Chosen::Named(names) => named_places(alloc, config, names),
    }
}

/// So many places, from 0 on.
#[tactic(auto, using(crate::proofs::PlaceLemmas::range_more))]
fn all_places(alloc: Global, count: usize) -> Result<Vec<usize>, AllocError>
    ensures { IfOk result (λ places. places.items ≡ range_with_len 0 count) }
{
    let mut places = Vec::with_capacity(alloc, count)?;
    for place in 0..count {
        places.push(place)?;
    }
    Ok(places)
}

fn named_places(alloc: Global, config: &Config, names: &[String]) -> Result<Vec<usize>, AllocError>
    ensures { IfOk result (λ places. places.items ≡ each_once (flat_map (λ name. named config.now (string_bytes name)) names.now)) }
{
    let mut places = Vec::new(alloc);
    for name in names {
        add_named(&mut places, config, name.as_str())?;
    }
    Ok(places)
}

/// Adds the places that a name stands for, each that is not there yet.
fn add_named(places: &mut Vec<usize>, config: &Config, name: &str) -> Result<(), AllocError>
    ensures { OnOk result (places.new.items ≡ with_places places.old.items (named config.now name.now)) }
{
    if let Some(place) = channel_of(config, name) {
        return add_place(places, place);
    }
    match group_of(config, name) {
        Some(group) => add_places(places, &group.channels),
        None => Ok(()),
    }
}

#[tactic(auto, using(crate::proofs::PlaceLemmas::place_steps))]
fn add_places(places: &mut Vec<usize>, more: &[usize]) -> Result<(), AllocError>
    ensures { OnOk result (places.new.items ≡ with_places places.old.items more.now) }
{
    for place in more {
        add_place(places, *place)?;
    }
    Ok(())
}

/// Adds a place, if it is not there yet.
fn add_place(places: &mut Vec<usize>, place: usize) -> Result<(), AllocError>
    ensures { OnOk result (places.new.items ≡ with_place places.old.items place) }
{
    if !places.contains(&place) {
        places.push(place)?;
    }
    Ok(())
}
