//! The mailboxes of a channel with patterns.

ghost use Rattle.std.specs.Prelude.{◌≡◌, ◌≤◌, Bool, List, [], ℕ, None, Some, length, IfOk, IfSome, MatchResult, OnOk};
ghost use Rattle.std.specs.List.{filter, insert};
ghost use Rattle.std.specs.Cmp.Lexicographic.{slice_cmp};
ghost use Rattle.std.specs.List.Sorted.{IsSearchInRange};
ghost use Rattle.std.specs.Ordering.{nat_cmp};
ghost use Rattle.std.specs.Result.{is_ok};
ghost use Rattle.channels.specs.Boxes.{Rises, Reports, boxes_among, place_from, put_name, put_names, stands_in};

use config_words::patterns::{Patterns, matches};
use mailcore::mailbox_name::MailboxName;
use std::alloc::{AllocError, Global};
use std::cmp::Ordering;

/// The names of either list that the patterns choose, each once, in the order of their bytes. `AllocError`: memory ran out.
pub fn boxes_among(
    alloc: Global,
    patterns: &Patterns,
    far: &[MailboxName],
    near: &[MailboxName],
) -> Result<Vec<MailboxName>, AllocError>
    ensures rising { IfOk result (λ boxes. Rises boxes.items) }
    ensures boxes { IfOk result (λ boxes. (is_chosen : List ℕ → Bool) → Reports is_chosen patterns.now
        → boxes.items ≡ boxes_among is_chosen far.now near.now) }
{
    let mut boxes = Vec::new(alloc);
    add_chosen(alloc, &mut boxes, patterns, far)?;
    add_chosen(alloc, &mut boxes, patterns, near)?;
    Ok(boxes)
}

/// These names, each once, in the order of their bytes. `AllocError`: memory ran out.
pub fn in_order(alloc: Global, names: &[MailboxName]) -> Result<Vec<MailboxName>, AllocError>
    ensures rising { IfOk result (λ ordered. Rises ordered.items) }
    ensures names { IfOk result (λ ordered. ordered.items ≡ put_names [] names.now) }
{
    let mut ordered = Vec::new(alloc);
    for name in names {
        put_name(alloc, &mut ordered, name)?;
    }
    Ok(ordered)
}

/// Puts those of these names that the patterns choose among names that rise.
fn add_chosen(
    alloc: Global,
    boxes: &mut Vec<MailboxName>,
    patterns: &Patterns,
    names: &[MailboxName],
) -> Result<(), AllocError>
    requires rises { Rises boxes.old.items }
    ensures rising { OnOk result (Rises boxes.new.items) }
    ensures boxes { OnOk result ((is_chosen : List ℕ → Bool) → Reports is_chosen patterns.now
        → boxes.new.items ≡ put_names boxes.old.items (filter is_chosen names.now)) }
{
    for name in names {
        if matches(patterns, name.as_str()) {
            put_name(alloc, boxes, name)?;
        }
    }
    Ok(())
}

/// Puts a name among names that rise, if it is not there.
#[tactic(auto, using(crate::proofs::BoxLemmas::put_steps))]
fn put_name(
    alloc: Global,
    boxes: &mut Vec<MailboxName>,
    name: &MailboxName,
) -> Result<(), AllocError>
    requires rises { Rises boxes.old.items }
    ensures rising { OnOk result (Rises boxes.new.items) }
    ensures put { OnOk result (boxes.new.items ≡ put_name name.now boxes.old.items) }
{
    match place_for(boxes, name) {
        Some(place) => insert_name(alloc, boxes, place, name),
        None => Ok(()),
    }
}

/// Puts a name at a place.
fn insert_name(
    alloc: Global,
    boxes: &mut Vec<MailboxName>,
    place: usize,
    name: &MailboxName,
) -> Result<(), AllocError>
    requires { place ≤ length boxes.old.items }
    ensures { OnOk result (boxes.new.items ≡ insert boxes.old.items place name.now) }
{
    let name = name.copy(alloc)?;
    boxes.insert(place, name)?;
    Ok(())
}

/// Where a name goes among names that rise, or none if it is there.
fn place_for(names: &[MailboxName], name: &MailboxName) -> Option<usize>
    requires rising { Rises names.now }
    ensures found { result ≡ place_from 0 name.now names.now }
    ensures within { IfSome result (λ place. place ≤ length names.now) }
{
    match search(names, name) {
        Ok(_) => None,
        Err(place) => Some(place),
    }
}

/// Whether a name stands among others, which rise.
pub fn stands_in(names: &[MailboxName], name: &MailboxName) -> bool
    requires rising { Rises names.now }
    ensures { result ≡ stands_in names.now name.now }
{
    search(names, name).is_ok()
}

/// Where a name is among names that rise, or else where it goes.
fn search(names: &[MailboxName], name: &MailboxName) -> Result<usize, usize>
    requires rising { Rises names.now }
    ensures within { IsSearchInRange result (length names.now) }
    ensures place { MatchResult result (λ _. place_from 0 name.now names.now ≡ None) (λ place. place_from 0 name.now names.now ≡ Some place) }
    ensures stands { stands_in names.now name.now ≡ is_ok result }
{
    names.binary_search_by(|other| order_of(other, name))
}

/// How a name stands to another, by the order of their bytes.
fn order_of(name: &MailboxName, other: &MailboxName) -> Ordering
    ensures { result ≡ slice_cmp nat_cmp name.now other.now }
{
    name.as_str().cmp(other.as_str())
}
