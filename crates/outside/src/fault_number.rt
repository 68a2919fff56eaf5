//! The numbers of the faults that a mailbox has of its own, as `mbsync` prints them: `store fault far 3` (docs/MBSYNC.md).

/// Far: the server said no to a command that is about no message, such as SELECT or CREATE. A mailbox reports it as
/// `BoxFault::Refused`; it has this number where no step of a run is refused.
pub const FAR_REFUSED: u8 = 2;

/// Far: the server's answer is not known; or it did not report the UID of a copy, and no message bears the copy's mark.
pub const FAR_UNKNOWN_ANSWER: u8 = 3;

/// Far: a reply has more than 65536 bytes, or a literal of more than 16 MiB.
pub const FAR_TOO_LONG: u8 = 4;

/// Far: the server does not announce IMAP4rev2 (RFC 9051, section 7.2.2).
pub const FAR_NO_REV2: u8 = 5;

/// Far: the mailbox is read-only, or does not store a flag or keyword (RFC 9051, section 7.1).
pub const FAR_READ_ONLY: u8 = 6;

/// Near: `cur`, `new` or `tmp` is missing.
pub const NEAR_ABSENT: u8 = 2;

/// Near: two files have one UID.
pub const NEAR_TWO_WITH_ONE_UID: u8 = 3;

/// Near: `.uidvalidity` is damaged, too low, or missing beside files with UIDs.
pub const NEAR_BAD_META: u8 = 4;

/// Near: no UID is left.
pub const NEAR_UIDS_EXHAUSTED: u8 = 5;
