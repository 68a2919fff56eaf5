//! The cells that the Sync words of a command line choose.

ghost use Rattle.std.specs.Prelude.{◌≡◌, IfOk, IfErr, map};
ghost use Rattle.rules.specs.SyncWords.{word_text};
ghost use Rattle.config.specs.Cells.{line_cells, IsRefusal};

use rules::options::Cells;
use rules::sync_words::{SyncFault, SyncWord, sync_ops};
use std::alloc::{AllocError, Global};
use thiserror::Error;

/// Why Sync words choose no cells.
#[derive(Clone, Copy, Debug, PartialEq, Eq, Error)]
pub enum CellsFault {
    /// They are refused.
    #[error("sync words: {0}")]
    Refused(SyncFault),
    /// Memory ran out.
    #[error("no memory")]
    NoMemory,
}

impl From<AllocError> for CellsFault {
    ghost use Rattle.std.specs.Prelude.{◌≡◌};
    ghost use Rattle.config.specs.declared.cells.CellsFault.TheVariants.{NoMemory};

    ghost from_gives = { λ _ e. e ≡ NoMemory };

    fn from(_fault: AllocError) -> CellsFault {
        CellsFault::NoMemory
    }
}

/// How the words are written, in order.
fn written(alloc: Global, words: &[SyncWord]) -> Result<Vec<&'static [u8]>, AllocError>
    ensures { IfOk result (λ texts. map (λ t. t.now) texts.items ≡ map word_text words.now) }
{
    let mut texts = Vec::with_capacity(alloc, words.len())?;
    for word in words {
        texts.push(word.text())?;
    }
    Ok(texts)
}

/// The cells that the Sync words of a command line choose in place of every channel's. `None`: there is no word.
///
/// `Refused`: the words of Sync refuse them (`sync_ops`). `NoMemory`: memory ran out.
pub fn cells(alloc: Global, words: &[SyncWord]) -> Result<Option<Cells>, CellsFault>
    ensures ok { IfOk result (λ cells. line_cells words.now ≡ Ok cells) }
    ensures err { IfErr result (IsRefusal words.now) }
{
    if words.is_empty() {
        return Ok(None);
    }
    let texts = written(alloc, words)?;
    match sync_ops(texts.as_slice()) {
        Ok(cells) => Ok(Some(cells)),
        Err(fault) => Err(CellsFault::Refused(fault)),
    }
}
