//! Which replies of the profile a client hears as they came.

ghost use Rattle.std.specs.Prelude.{◌≡◌};
ghost use Rattle.std.specs.List.{list_any};
ghost use Rattle.link_face.specs.Hearing.{text_in, is_same_byte, is_same_near, hides, is_uid, is_flags, is_size, is_octets, is_escaped, has_values, is_row, is_heard};

use imap_replies::fetch::FetchItem;
use imap_replies::reply::Reply;
use wire_strings::astring::AString;
use wire_strings::string::WireString;
use wire_tokens::flag_list::FlagNames;

/// Whether a client hears the reply as it came: not a mailbox that cannot be selected, nor one whose name is another near; and of
/// FETCH replies those alone that have all items of one of its commands, with octets that need no resolving (RFC 9051, sections
/// 5.1, 7.3.1 and 7.5.2).
pub(crate) fn is_heard(reply: &Reply<'_>) -> bool
    ensures { result ≡ is_heard reply.now }
{
    match reply {
        Reply::List(attributes, _, name) => !hides(attributes) && is_same_near(text_of(name)),
        Reply::Fetch(_, items) => is_row(items.items()),
        _ => true,
    }
}

/// Whether a mailbox with these attributes cannot be selected.
pub(crate) fn hides(attributes: &FlagNames<'_>) -> bool
    ensures { result ≡ hides attributes.now }
{
    attributes.contains(b"\\Noselect") || attributes.contains(b"\\NonExistent")
}

/// The bytes of a name, as they stand in the reply.
fn text_of<'n>(name: &'n AString<'_>) -> &'n [u8]
    ensures { result.now ≡ text_in name.now }
{
    match name {
        AString::Atom(atom) => atom.text(),
        AString::Quoted(quoted) => quoted.raw(),
        AString::Literal(octets) => octets.bytes(),
    }
}

/// Whether a name stands for itself in modified UTF-7: it is ASCII, and has no `&`.
fn is_same_near(name: &[u8]) -> bool
    ensures { result ≡ is_same_near name.now }
{
    name.iter().all(|b| is_same_byte(*b))
}

fn is_same_byte(b: u8) -> bool
    ensures { result ≡ is_same_byte b }
{
    b < 128 && b != b'&'
}

/// Whether these are all items of one of the commands of a client, with octets that need no resolving.
fn is_row(items: &[FetchItem<'_>]) -> bool
    ensures { result ≡ is_row items.now }
{
    has_uid(items) && has_values(items) && !has_escaped(items)
}

/// Whether octets of the message are among them, or its flags and its size.
fn has_values(items: &[FetchItem<'_>]) -> bool
    ensures { result ≡ has_values items.now }
{
    has_octets(items) || (has_flags(items) && has_size(items))
}

fn has_uid(items: &[FetchItem<'_>]) -> bool
    ensures { result ≡ list_any is_uid items.now }
{
    items.iter().any(|item| is_uid(item))
}

fn has_flags(items: &[FetchItem<'_>]) -> bool
    ensures { result ≡ list_any is_flags items.now }
{
    items.iter().any(|item| is_flags(item))
}

fn has_size(items: &[FetchItem<'_>]) -> bool
    ensures { result ≡ list_any is_size items.now }
{
    items.iter().any(|item| is_size(item))
}

fn has_octets(items: &[FetchItem<'_>]) -> bool
    ensures { result ≡ list_any is_octets items.now }
{
    items.iter().any(|item| is_octets(item))
}

fn has_escaped(items: &[FetchItem<'_>]) -> bool
    ensures { result ≡ list_any is_escaped items.now }
{
    items.iter().any(|item| is_escaped(item))
}

fn is_uid(item: &FetchItem<'_>) -> bool
    ensures { result ≡ is_uid item.now }
{
    matches!(item, FetchItem::Uid(_))
}

fn is_flags(item: &FetchItem<'_>) -> bool
    ensures { result ≡ is_flags item.now }
{
    matches!(item, FetchItem::Flags(_))
}

fn is_size(item: &FetchItem<'_>) -> bool
    ensures { result ≡ is_size item.now }
{
    matches!(item, FetchItem::Size(_))
}

fn is_octets(item: &FetchItem<'_>) -> bool
    ensures { result ≡ is_octets item.now }
{
    matches!(item, FetchItem::Body(_) | FetchItem::Head(_))
}

/// Whether the item is a quoted string with a backslash.
fn is_escaped(item: &FetchItem<'_>) -> bool
    ensures { result ≡ is_escaped item.now }
{
    match item {
        FetchItem::Body(Some(WireString::Quoted(quoted)))
        | FetchItem::Head(Some(WireString::Quoted(quoted))) => quoted.has_escapes(),
        _ => false,
    }
}
