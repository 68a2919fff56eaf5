//! Moves of bytes within a vector.

ghost use Rattle.std.specs.Prelude.{◌≡◌, ◌≤◌, ◌-◌, ◌+◌, ◌++◌, length, take, drop};

/// Keeps the bytes from `start` to `end`, and those from `next` on.
pub(crate) fn keep(bytes: &mut Vec<u8>, start: usize, end: usize, next: usize)
    requires some { start ≤ end }
    requires apart { end ≤ next }
    requires within { next ≤ length bytes.old.items }
    ensures { bytes.new.items ≡ take (end - start) (drop start bytes.old.items) ++ drop next bytes.old.items }
{
    let len = end - start;
    let left = bytes.len() - next;
    move_down(bytes, start, 0, len);
    move_down(bytes, next, len, left);
    bytes.truncate(len + left);
}

/// Moves so many bytes from one place down to another.
pub(crate) fn move_down(bytes: &mut Vec<u8>, from: usize, to: usize, len: usize)
    requires down { to ≤ from }
    requires within { from + len ≤ length bytes.old.items }
    ensures front { take (to + len) bytes.new.items ≡ take to bytes.old.items ++ take len (drop from bytes.old.items) }
    ensures following { drop (from + len) bytes.new.items ≡ drop (from + len) bytes.old.items }
    ensures long { length bytes.new.items ≡ length bytes.old.items }
{
    if to < from {
        bytes.copy_within(from..from + len, to);
    }
}
