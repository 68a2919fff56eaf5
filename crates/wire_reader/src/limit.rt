//! The limit on bytes outside literals, counted apart from the grammar.

ghost use Rattle.std.specs.Prelude.{◌≡◌};
ghost use Rattle.wire_reader.specs.Lexical.{limit_from};
ghost use Rattle.wire_reader.specs.declared.lexical.Phase.TheVariants.{Plain};

use crate::scanner::Scanner;

/// The greatest number of bytes of a line outside literals (docs/FORMATS.md).
pub const LINE_MAX: u32 = 65536;

/// The greatest number of octets of a literal: those of the longest message, and its mark line (docs/FORMATS.md).
pub const LITERAL_MAX: u32 = 16777238;

/// The end of the bytes up to and with the first one outside literals that is too many: `LINE_MAX` may stand there.
pub fn limit_end(bytes: &[u8]) -> Option<usize>
    ensures { result ≡ limit_from Plain 65536 0 bytes.now }
{
    if bytes.len() <= LINE_MAX as usize {
        return None;
    }
    let mut scanner = Scanner::new();
    let mut done = 0;
    while let Some(count) = scanner.advance(&bytes[done..]) {
        done += count;
        if scanner.is_over() {
            return Some(done);
        }
    }
    None
}
