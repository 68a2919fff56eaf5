//! What calls send.

ghost use Rattle.std.specs.Prelude.{◌≡◌, ◌<◌, ◌∷◌, [], true, length, IfOk};
ghost use Rattle.std.specs.List.{list_all};
ghost use Rattle.wire_strings.specs.Texts.{is_text};
ghost use Rattle.imap_session.specs.SessionCommands.{REV2};
ghost use Rattle.imap_client.specs.Calls.{request_of, CanAsk, from_on, each_one};

use imap_commands::command::{FetchItems, Request, StoreMode};
use imap_commands::pattern::ListPattern;
use mailcore::flags::Flags;
use mailcore::keywords::Keywords;
use mailcore::uid::Uid;
use std::alloc::{AllocError, Global};
use wire_strings::text::Text;
use wire_tokens::atom::Atom;
use wire_tokens::flag_list::FlagList;
use wire_tokens::names::{NameList, Names};
use wire_tokens::number::NonZero;
use wire_tokens::uid_set::{SetEnd, SetItem, UidSet};

/// What a call sends.
#[derive(Clone, Copy)]
pub(crate) enum Call<'a> {
    /// What the server can do.
    Capability,
    /// The name of a user and a password.
    Login(&'a [u8], &'a [u8]),
    /// That IMAP4rev2 be used.
    Enable,
    /// The names of all mailboxes.
    Names,
    /// A new mailbox of this name.
    Create(&'a [u8]),
    /// The mailbox of this name, for the calls that follow.
    Select(&'a [u8]),
    /// UIDs, flags and sizes of all messages.
    Listing,
    /// The bytes of this message.
    Body(Uid),
    /// The first bytes of the messages from this UID on.
    Heads(u32),
    /// That this message get these flags, or lose them, by their names.
    Store(Uid, StoreMode, Flags, &'a Keywords),
    /// That those of these messages that are marked as deleted be removed; there is at least one.
    Expunge(&'a [Uid]),
}

impl<'a> Call<'a> {
    /// Its request. `AllocError`: memory ran out.
    pub(crate) fn request(&self, alloc: Global) -> Result<Request, AllocError>
        requires { CanAsk self.now }
        ensures { IfOk result (λ request. request ≡ request_of self.now) }
    {
        match *self {
            Call::Capability => Ok(Request::Capability),
            Call::Login(user, password) => {
                let user = word(alloc, user)?;
                let password = word(alloc, password)?;
                Ok(Request::Login(user, password))
            }
            Call::Enable => Ok(Request::Enable(rev2(alloc)?)),
            Call::Names => Ok(Request::List(all_names(alloc)?)),
            Call::Create(name) => Ok(Request::Create(word(alloc, name)?)),
            Call::Select(name) => Ok(Request::Select(word(alloc, name)?)),
            Call::Listing => Ok(Request::Fetch(from_on(alloc, 1)?, FetchItems::Listing)),
            Call::Body(uid) => Ok(Request::Fetch(UidSet::one(alloc, uid)?, FetchItems::Body)),
            Call::Heads(from) => Ok(Request::Fetch(from_on(alloc, from)?, FetchItems::Head)),
            Call::Store(uid, mode, flags, keywords) => {
                let set = UidSet::one(alloc, uid)?;
                let flags = FlagList::of(alloc, flags, keywords)?;
                Ok(Request::Store(set, mode, flags))
            }
            Call::Expunge(uids) => Ok(Request::Expunge(each_one(alloc, uids)?)),
        }
    }
}

/// A text of bytes that can be quoted.
fn word(alloc: Global, bytes: &[u8]) -> Result<Text, AllocError>
    requires { list_all is_text bytes.now ≡ true }
    ensures { IfOk result (λ text. text ≡ bytes.now) }
{
    match Text::from_vec(Vec::from_slice(alloc, bytes)?) {
        Some(text) => Ok(text),
        None => unreachable!(),
    }
}

/// The name of the second revision.
fn rev2(alloc: Global) -> Result<NameList, AllocError>
    ensures { IfOk result (λ names. names ≡ REV2 ∷ []) }
{
    match Atom::read(b"IMAP4rev2") {
        Some(atom) => NameList::copy_of(alloc, &Names::one(&atom)),
        None => unreachable!(),
    }
}

/// The pattern that every name matches.
fn all_names(alloc: Global) -> Result<ListPattern, AllocError>
    ensures { IfOk result (λ pattern. pattern ≡ 42 ∷ []) }
{
    match ListPattern::new(Vec::from_slice(alloc, b"*")?) {
        Some(pattern) => Ok(pattern),
        None => unreachable!(),
    }
}

/// The UIDs from this number on, or from 1 on where it is 0.
fn from_on(alloc: Global, from: u32) -> Result<UidSet, AllocError>
    ensures { IfOk result (λ set. set ≡ from_on from) }
{
    let first = match NonZero::new(from) {
        Some(first) => first,
        None => NonZero::from(first_uid()),
    };
    let mut items = Vec::new(alloc);
    items.push(SetItem::Range(SetEnd::Number(first), SetEnd::Greatest))?;
    match UidSet::new(items) {
        Some(set) => Ok(set),
        None => unreachable!(),
    }
}

/// The least UID.
fn first_uid() -> Uid
    ensures { result ≡ 1 }
{
    match Uid::new(1) {
        Some(uid) => uid,
        None => unreachable!(),
    }
}

/// Each of these UIDs.
fn each_one(alloc: Global, uids: &[Uid]) -> Result<UidSet, AllocError>
    requires { 0 < length uids.now }
    ensures { IfOk result (λ set. set ≡ each_one uids.now) }
{
    let mut items = Vec::with_capacity(alloc, uids.len())?;
    for uid in uids {
        items.push(SetItem::One(SetEnd::Number(NonZero::from(*uid))))?;
    }
    match UidSet::new(items) {
        Some(set) => Ok(set),
        None => unreachable!(),
    }
}
