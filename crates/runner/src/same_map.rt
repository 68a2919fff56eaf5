//! The map of keywords that a run goes by: that of its plan.

ghost use Rattle.std.specs.Prelude.{◌≡◌, IfErr, OnOk};
ghost use Rattle.outside.specs.Opened.{IsRead};
ghost use Rattle.runner.specs.Maps.{HasMapIn, HasOtherMapIn};

use crate::fault::RunFault;
use outside::outside::Outside;
use rules::options::Options;

/// A plan that is pending has to be one by the map handed in. `KeywordsChanged`: it was made by another.
pub(crate) fn same_map<O: Outside>(outside: &O, options: &Options) -> Result<(), RunFault>
    requires read { IsRead (O.opened outside.now) }
    ensures same { OnOk result (HasMapIn options.now.keywords (O.opened outside.now)) }
    ensures other { IfErr result (λ fault. (fault ≡ RunFault.KeywordsChanged)
        × HasOtherMapIn options.now.keywords (O.opened outside.now)) }
{
    match outside.pending() {
        Some(journal) if !journal.plan.keywords.is_same(&options.keywords) => {
            Err(RunFault::KeywordsChanged)
        }
        _ => Ok(()),
    }
}
