//! Where the files of a list stand, by place and name.

ghost use Rattle.std.specs.Prelude.{◌≡◌, ◌<◌, ◌≤◌, cond, List, nat_eq, None, OnOk, Some, ℕ};
ghost use Rattle.std.specs.Cmp.Lexicographic.{pointwise};
ghost use Rattle.std.specs.HashMap.{spare};
ghost use Rattle.maildir.specs.declared.folder.Place.{Place};
ghost use Rattle.std.specs.Option.{option_map};
ghost use Rattle.maildir.specs.NameIndexes.{found_at, found_in, HasRoom, is_named, KeepsRoom, named, SaysSame};

use crate::folder::Place;
use std::alloc::{AllocError, Global};
use std::collections::HashMap;

type Spots = HashMap<Vec<u8>, usize>;

// For each place, its names with the index of the file in a list.
#[derive(Drop)]
pub(crate) struct NameIndex {
    pub(crate) fresh: Spots,
    pub(crate) current: Spots,
}

impl NameIndex {
    // An index of no file.
    pub(crate) fn new(alloc: Global) -> Self
        ensures { (place : Place) (name : List ℕ) → found_at place name result ≡ None }
    {
        NameIndex {
            fresh: HashMap::new(alloc),
            current: HashMap::new(alloc),
        }
    }

    // Where the file at this place under this name stands.
    pub(crate) fn get(&self, place: Place, name: &[u8]) -> Option<usize>
        ensures { result ≡ found_at place name.now self.now }
    {
        match place {
            Place::New => self.fresh.get(name).copied(),
            Place::Cur => self.current.get(name).copied(),
        }
    }

    // Takes memory for one more name at each place.
    pub(crate) fn reserve(&mut self) -> Result<(), AllocError>
        ensures same { SaysSame self.old self.new }
        ensures room { OnOk result (HasRoom self.new) }
    {
        reserve_spot(&mut self.fresh)?;
        reserve_spot(&mut self.current)
    }

    // Says that the file of this place and name, which has no other index, stands here.
    pub(crate) fn note(&mut self, place: Place, name: Vec<u8>, spot: usize)
        requires { HasRoom self.old }
        ensures { (p : Place) (n : List ℕ) → found_at p n self.new ≡ cond (is_named (named place name.items) p n) (Some spot)
            (found_at p n self.old) }
    {
        match place {
            Place::New => insert_spot(&mut self.fresh, name, spot),
            Place::Cur => insert_spot(&mut self.current, name, spot),
        }
    }

    // Forgets the file of this place and name.
    pub(crate) fn forget(&mut self, place: Place, name: &[u8])
        ensures gone { (p : Place) (n : List ℕ) → found_at p n self.new ≡ cond (is_named (named place name.now) p n) None (found_at p n self.old) }
        ensures room { KeepsRoom self.old self.new }
    {
        match place {
            Place::New => remove_spot(&mut self.fresh, name),
            Place::Cur => remove_spot(&mut self.current, name),
        }
    }

    // Says that the file of this place and name, if it has an index, stands here.
    pub(crate) fn renumber(&mut self, place: Place, name: &[u8], spot: usize)
        ensures moved { (p : Place) (n : List ℕ) → found_at p n self.new ≡ cond (is_named (named place name.now) p n)
            (option_map (λ before. spot) (found_at p n self.old)) (found_at p n self.old) }
        ensures room { KeepsRoom self.old self.new }
    {
        match place {
            Place::New => renumber_spot(&mut self.fresh, name, spot),
            Place::Cur => renumber_spot(&mut self.current, name, spot),
        }
    }
}

fn reserve_spot(spots: &mut Spots) -> Result<(), AllocError>
    ensures same { (name : List ℕ) → found_in name spots.new ≡ found_in name spots.old }
    ensures room { OnOk result (0 < spare spots.new) }
{
    spots.reserve(1)
}

fn insert_spot(spots: &mut Spots, name: Vec<u8>, spot: usize)
    requires { 0 < spare spots.old }
    ensures { (n : List ℕ) → found_in n spots.new ≡ cond (pointwise nat_eq n name.items) (Some spot) (found_in n spots.old) }
{
    match spots.insert(name, spot) {
        Ok(_) => {}
        Err(_) => unreachable!(),
    }
}

fn remove_spot(spots: &mut Spots, name: &[u8])
    ensures gone { (n : List ℕ) → found_in n spots.new ≡ cond (pointwise nat_eq n name.now) None (found_in n spots.old) }
    ensures room { spare spots.old ≤ spare spots.new }
{
    let _ = spots.remove(name);
}

fn renumber_spot(spots: &mut Spots, name: &[u8], spot: usize)
    ensures moved { (n : List ℕ) → found_in n spots.new ≡ cond (pointwise nat_eq n name.now) (option_map (λ before. spot) (found_in n spots.old))
        (found_in n spots.old) }
    ensures room { spare spots.old ≤ spare spots.new }
{
    if let Some(before) = spots.get_mut(name) {
        *before = spot;
    }
}
