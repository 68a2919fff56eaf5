//! Whether a pattern matches the name of a mailbox (RFC 9051, section 6.3.9.1).

ghost use Rattle.std.specs.Prelude.{◌≡◌, ◌↔◌, ◌+◌, ◌∷◌, [], ℕ, List, length, IsTrue};
ghost use Rattle.mailcore.specs.MailboxPatterns.{IsMatched, matches};
ghost use Rattle.mailcore.specs.PatternRows.{IsRow, reaches, reaches_end};

/// Whether the pattern matches the name: `*` stands for any characters, none included, `%` for the same without `/`, any other for
/// itself. It takes time that grows with the product of their lengths, and `row` as room to work in, which is one longer than the
/// pattern, whatever it has.
pub fn matches(pattern: &[u8], name: &[u8], row: &mut [bool]) -> bool
    requires { length row.old ≡ length pattern.now + 1 }
    ensures matched { IsTrue result ↔ IsMatched pattern.now name.now }
    ensures computed { result ≡ matches pattern.now name.now }
{
    fill_row(pattern, name, row);
    row[0]
}

/// Finds out which ends of the pattern match the name.
fn fill_row(pattern: &[u8], name: &[u8], row: &mut [bool])
    requires { length row.old ≡ length pattern.now + 1 }
    ensures { IsRow pattern.now name.now row.new }
{
    put_end(pattern, row);
    for done in 0..name.len() {
        let c = name[name.len() - 1 - done];
        put_before(pattern, c, row);
    }
}

/// Makes the row that of an empty name.
fn put_end(pattern: &[u8], row: &mut [bool])
    requires { length row.old ≡ length pattern.now + 1 }
    ensures { IsRow pattern.now [] row.new }
{
    let end = pattern.len();
    row[end] = true;
    for done in 0..end {
        let place = end - 1 - done;
        row[place] = reaches_end(pattern[place], row[place + 1]);
    }
}

/// Makes the row of a name that of the name with one more character before it.
fn put_before(pattern: &[u8], c: u8, row: &mut [bool])
    requires { length row.old ≡ length pattern.now + 1 }
    ensures { (cs : List ℕ) → IsRow pattern.now cs row.old → IsRow pattern.now (c ∷ cs) row.new }
{
    let end = pattern.len();
    let mut after = row[end];
    row[end] = false;
    for done in 0..end {
        let place = end - 1 - done;
        let next = row[place];
        row[place] = reaches(pattern[place], c, row[place + 1], after, next);
        after = next;
    }
}

/// Whether a pattern with this character before it matches at a character of a name: `here` and `after` say whether the
/// pattern without it matches here and one place on, and `next` whether the pattern with it matches one place on.
fn reaches(p: u8, c: u8, here: bool, after: bool, next: bool) -> bool
    ensures { result ≡ reaches p c here after next }
{
    match p {
        b'*' => here || next,
        b'%' => here || (c != b'/' && next),
        _ => c == p && after,
    }
}

/// The same after the name.
fn reaches_end(p: u8, here: bool) -> bool
    ensures { result ≡ reaches_end p here }
{
    (p == b'*' || p == b'%') && here
}
