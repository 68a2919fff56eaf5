//! The address of an IMAP store's server.

ghost use Rattle.std.specs.Prelude.{◌≡◌, IfOk, string_bytes};
ghost use Rattle.mail_stores.specs.Addresses.{address_of, has_colon, is_in_brackets, wants_brackets};

use config::config::ImapStore;
use std::alloc::{AllocError, Global};

/// The address of a store's server: its host and its port. An IPv6 address stands in brackets.
pub(crate) fn address_of(alloc: Global, store: &ImapStore) -> Result<String, AllocError>
    ensures { IfOk result (λ address. string_bytes address ≡ address_of store.now) }
{
    let (host, port) = (&store.host, store.port);
    if wants_brackets(host.as_bytes()) {
        format!(in alloc; "[{host}]:{port}")
    } else {
        format!(in alloc; "{host}:{port}")
    }
}

/// Whether a host is an IPv6 address that stands in no brackets yet.
fn wants_brackets(host: &[u8]) -> bool
    ensures { result ≡ wants_brackets host.now }
{
    has_colon(host) && !is_in_brackets(host)
}

/// Whether a host has a colon.
fn has_colon(host: &[u8]) -> bool
    ensures { result ≡ has_colon host.now }
{
    host.iter().any(|&byte| byte == b':')
}

/// Whether a host stands in brackets.
fn is_in_brackets(host: &[u8]) -> bool
    ensures { result ≡ is_in_brackets host.now }
{
    matches!(host, [b'[', ..])
}
