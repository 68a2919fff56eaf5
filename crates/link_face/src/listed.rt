//! LIST replies (RFC 9051, section 7.3.1), written anew.

ghost use Rattle.std.specs.Prelude.{◌≡◌, true, codes, IfOk, IfSome, OnOk};
ghost use Rattle.std.specs.List.{list_all};
ghost use Rattle.wire_strings.specs.Texts.{is_text};
ghost use Rattle.wire_tokens.specs.Writing.{Extended};
ghost use Rattle.link_face.specs.Heads.{BeginsWith};
ghost use Rattle.link_face.specs.Listing.{IsNearName};

use crate::head::after_space;
use crate::names::to_near;
use crate::token::{Token, read_list, read_token};
use mailcore::mailbox_name::is_mailbox_name;
use std::alloc::{AllocError, Global};
use wire_strings::line_text::all_text;
use wire_strings::string_writing::write_quoted;
use wire_tokens::appending::append;

/// The most bytes of a name that is handed out, and of one that is reported as skipped.
const NAME_MAX: usize = 255;

/// A mailbox that a server lists.
#[derive(Clone, Copy)]
pub(crate) struct Listed<'a> {
    /// Its attributes, with spaces between.
    attributes: &'a [u8],
    /// What stands between the parts of its name.
    delimiter: Token<'a>,
    /// Its name.
    name: Token<'a>,
}

impl<'a> Listed<'a> {
    /// Reads what follows LIST; extended data after the name is skipped (RFC 9051, section 6.3.9.1).
    pub(crate) fn read(bytes: &'a [u8]) -> Option<Listed<'a>> {
        let (attributes, rest) = read_list(after_space(bytes))?;
        let (delimiter, rest) = read_token(after_space(rest))?;
        let (name, _) = read_token(after_space(rest))?;
        Some(Listed {
            attributes,
            delimiter,
            name,
        })
    }

    /// The reply with the name quoted, in modified UTF-7. None: nothing can be selected there, or the name is not handed out.
    ///
    /// `AllocError`: memory ran out.
    #[tactic(auto, using(crate::proofs::Extending::list_begun))]
    pub(crate) fn written(&self, alloc: Global) -> Result<Option<Vec<u8>>, AllocError>
        ensures { IfOk result (λ found. IfSome found (λ out. BeginsWith (codes "* LIST") out.items)) }
    {
        if self.is_hidden() {
            return Ok(None);
        }
        let Some(name) = self.near_name(alloc)? else {
            return Ok(None);
        };
        let mut out = Vec::from_slice(alloc, b"* LIST () ")?;
        self.append_rest(alloc, &name, &mut out)?;
        Ok(Some(out))
    }

    /// Appends the delimiter, this name, and the line end.
    #[tactic(auto, using(crate::proofs::Extending::then_appended, crate::proofs::Extending::then_is_if))]
    fn append_rest(&self, alloc: Global, name: &[u8], out: &mut Vec<u8>) -> Result<(), AllocError>
        requires { list_all is_text name.now ≡ true }
        ensures { OnOk result (Extended out.old.items out.new.items) }
    {
        self.append_delimiter(alloc, out)?;
        append(b" ", out)?;
        write_quoted(name, out)?;
        append(b"\r\n", out)
    }

    /// The name in modified UTF-7. None: it is not UTF-8, has a control character, is empty, or has more than 255 bytes then.
    fn near_name(&self, alloc: Global) -> Result<Option<Vec<u8>>, AllocError>
        ensures { IfOk result (λ found. IfSome found (λ name. IsNearName name.items)) }
    {
        let far = self.name.value(alloc)?;
        let Some(name) = to_near(alloc, &far)? else {
            return Ok(None);
        };
        let is_fit = 0 < name.len() && name.len() <= NAME_MAX && all_text(&name);
        Ok(if is_fit { Some(name) } else { None })
    }

    /// The name, of at most 255 bytes, if a mailbox can be selected under it that is not synchronised: its name is not handed out,
    /// or is beyond the limits of the names of mailboxes.
    ///
    /// `AllocError`: memory ran out.
    pub(crate) fn skipped_name(&self, alloc: Global) -> Result<Option<Vec<u8>>, AllocError> {
        if self.is_hidden() {
            return Ok(None);
        }
        if let Some(name) = self.near_name(alloc)?
            && is_mailbox_name(&name)
        {
            return Ok(None);
        }
        let mut far = self.name.value(alloc)?;
        far.truncate(NAME_MAX);
        Ok(Some(far))
    }

    /// Whether no mailbox can be selected under the name.
    fn is_hidden(&self) -> bool {
        self.attributes
            .split(|b| *b == b' ')
            .any(|attribute| hides(attribute))
    }

    #[tactic(auto, using(crate::proofs::Extending::appended_extends_if))]
    fn append_delimiter(&self, alloc: Global, out: &mut Vec<u8>) -> Result<(), AllocError>
        ensures { OnOk result (Extended out.old.items out.new.items) }
    {
        match self.delimiter {
            Token::Quoted(_) => {
                let delimiter = self.delimiter.value(alloc)?;
                if all_text(&delimiter) {
                    write_quoted(&delimiter, out)
                } else {
                    append(b"NIL", out)
                }
            }
            _ => append(b"NIL", out),
        }
    }
}

/// Whether a mailbox with this attribute cannot be selected.
fn hides(attribute: &[u8]) -> bool {
    attribute.eq_ignore_ascii_case(b"\\Noselect")
        || attribute.eq_ignore_ascii_case(b"\\NonExistent")
}
