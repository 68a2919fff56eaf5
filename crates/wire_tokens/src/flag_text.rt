//! The names of the flags of a set, as a text.

ghost use Rattle.std.specs.Prelude.{◌≡◌, IfOk, OnOk};
ghost use Rattle.std.specs.List.{fold};
ghost use Rattle.mailcore.specs.KeywordNames.{IsMap, names_of as names_of_set, written_order};
ghost use Rattle.wire_tokens.specs.FlagLists.{spaced_out, with_name, with_flag_name, with_keyword_name};

use mailcore::flags::{Flag, Flags};
use mailcore::keywords::Keywords;
use std::alloc::{AllocError, Global};

/// The names, with a space between: those of the six, and then those of keywords.
pub(crate) fn spaced_names(
    alloc: Global,
    flags: Flags,
    keywords: &Keywords,
) -> Result<Vec<u8>, AllocError>
    ensures text { IfOk result (λ text. text.items ≡ spaced_out (names_of_set keywords.now flags)) }
    ensures map { OnOk result (IsMap keywords.now) }
{
    let mut text = Vec::new(alloc);
    append_six(flags, &mut text)?;
    append_keywords(flags, keywords, &mut text)?;
    Ok(text)
}

fn append_six(flags: Flags, text: &mut Vec<u8>) -> Result<(), AllocError>
    ensures { OnOk result (text.new.items ≡ fold (with_flag_name flags) text.old.items written_order) }
{
    for flag in Flag::WRITTEN {
        if flags.has(flag) {
            append_name(flag.imap_name(), text)?;
        }
    }
    Ok(())
}

fn append_keywords(flags: Flags, keywords: &Keywords, text: &mut Vec<u8>) -> Result<(), AllocError>
    ensures text { OnOk result (text.new.items ≡ fold (with_keyword_name flags) text.old.items keywords.now) }
    ensures map { OnOk result (IsMap keywords.now) }
{
    for keyword in keywords.as_slice() {
        if flags.has_keyword(keyword.letter) {
            append_name(keyword.name.as_slice(), text)?;
        }
    }
    Ok(())
}

fn append_name(name: &[u8], text: &mut Vec<u8>) -> Result<(), AllocError>
    ensures { OnOk result (text.new.items ≡ with_name text.old.items name.now) }
{
    if !text.is_empty() {
        text.push(b' ')?;
    }
    text.extend_from_slice(name)
}
