//! Keywords of isync 1.5 and earlier that are none here, and what stands in their place.

/// What the connection lacks.
const NO_TLS: &str =
    "the connection is not encrypted; over a network use a tunnel (manual page, TLS)";

/// What is set where the tunnel begins.
const IN_TUNNEL: &str = "set it in the tunnel (manual page, TLS), and remove it here";

/// What a store has of an account.
const OF_ACCOUNT: &str = "put its Host, Port, User and Pass into the IMAPStore";

/// What is left out without a loss.
const REMOVE: &str = "remove it";

/// Keywords of an account.
const ACCOUNT: [(&str, &str); 27] = [
    ("IMAPAccount", OF_ACCOUNT),
    (
        "Account",
        "put Host, Port, User and Pass of that IMAPAccount here",
    ),
    ("UserCmd", "write User"),
    (
        "PassCmd",
        "write Pass, and keep the file private (chmod 600)",
    ),
    (
        "UseKeychain",
        "write Pass, and keep the file private (chmod 600)",
    ),
    (
        "Tunnel",
        "start it yourself, and write its end here as Host and Port",
    ),
    ("AuthMech", "the password is sent with LOGIN; remove it"),
    ("AuthMechs", "the password is sent with LOGIN; remove it"),
    ("RequireCRAM", "the password is sent with LOGIN; remove it"),
    ("SSLType", NO_TLS),
    ("TLSType", NO_TLS),
    ("RequireSSL", NO_TLS),
    ("UseIMAPS", NO_TLS),
    ("SSLVersion", IN_TUNNEL),
    ("SSLVersions", IN_TUNNEL),
    ("TLSVersions", IN_TUNNEL),
    ("CertificateFile", IN_TUNNEL),
    ("SystemCertificates", IN_TUNNEL),
    ("ClientCertificate", IN_TUNNEL),
    ("ClientKey", IN_TUNNEL),
    ("CipherString", IN_TUNNEL),
    ("Timeout", "a silent server is waited for; remove it"),
    ("PipelineDepth", REMOVE),
    ("DisableExtension", REMOVE),
    ("DisableExtensions", REMOVE),
    (
        "UseNamespace",
        "mailboxes have the names that the server lists; remove it",
    ),
    (
        "PathDelimiter",
        "mailboxes have the names that the server lists; remove it",
    ),
];

/// Keywords of stores and channels, and those before any section.
const OTHERS: [(&str, &str); 22] = [
    ("SubscribedOnly", "name the mailboxes in Patterns"),
    ("Master", "write Far"),
    ("Slave", "write Near"),
    ("MapInbox", "write Inbox in the MaildirStore"),
    (
        "Flatten",
        "mailbox a/b is the folder a/b below Path; remove it",
    ),
    (
        "AltMap",
        "UIDs stand in the names of files; remove it, and start over (manual page)",
    ),
    ("InfoDelimiter", "it is always a colon; remove it"),
    ("FieldDelimiter", REMOVE),
    ("Trash", "what is expunged is not kept; remove it"),
    ("TrashNewOnly", "what is expunged is not kept; remove it"),
    ("TrashRemoteNew", "what is expunged is not kept; remove it"),
    (
        "MaxSize",
        "messages of up to 16 MiB are synchronised; remove it",
    ),
    ("MaxMessages", "no message expires; remove it"),
    ("ExpireUnread", "no message expires; remove it"),
    ("ExpireSide", "no message expires; remove it"),
    ("ExpungeSolo", "write Expunge, or leave it out"),
    ("Remove", "no mailbox is removed; remove it"),
    (
        "CopyArrivalDate",
        "dates of arrival are not copied; remove it",
    ),
    (
        "FSync",
        "what is written is always put on the disk; remove it",
    ),
    ("BufferLimit", REMOVE),
    ("Delete", "write Sync Gone"),
    ("ReNew", "write Sync New"),
];

/// What replaces a keyword of isync. None: isync has none of this name, or it is one here too.
pub(crate) fn in_place_of(word: &[u8]) -> Option<&'static str> {
    find(&ACCOUNT, word).or(find(&OTHERS, word))
}

/// What this table says of a word.
fn find(table: &'static [(&'static str, &'static str)], word: &[u8]) -> Option<&'static str> {
    let row = table
        .iter()
        .find(|row| row.0.as_bytes().eq_ignore_ascii_case(word))?;
    Some(row.1)
}
