// Which slots have open intents.
ghost use Rattle.std.specs.Prelude.{◌≡◌, false, IsTrue, is_some};
ghost use Rattle.beldi_region.specs.Region.{find};
ghost use Rattle.beldi_region.specs.Ids.{ids_of};
ghost use Rattle.beldi_region.specs.SlotOrder.{IsListed, IsListedBut, IsWithin};

use crate::order::{Entry, Order};
use crate::region::{Region, SlotId};
use beldi_table::is_open;

/// After the row in a slot was put or changed, which may have opened or closed an intent.
#[inline(always)]
pub(crate) fn follow(opened: &mut Order, region: &Region<Entry>, id: SlotId, switched: bool)
    requires taken { IsTrue (is_some (find region.now id)) }
    requires within { IsWithin region.now opened.old.room }
    requires listed { IsListedBut id region.now (ids_of opened.old) }
    requires stays { switched ≡ false → IsListed region.now (ids_of opened.old) }
    ensures listed { IsListed region.now (ids_of opened.new) }
    ensures room { opened.new.room ≡ opened.old.room }
{
    if switched {
        list(opened, region, id);
    }
}

// The slot is listed where its row is that of an open intent, and else it is not.
fn list(opened: &mut Order, region: &Region<Entry>, id: SlotId)
    requires taken { IsTrue (is_some (find region.now id)) }
    requires within { IsWithin region.now opened.old.room }
    requires listed { IsListedBut id region.now (ids_of opened.old) }
    ensures listed { IsListed region.now (ids_of opened.new) }
    ensures room { opened.new.room ≡ opened.old.room }
{
    match region.get(id) {
        Ok(entry) => {
            let wanted = is_open(entry.key.kind(), &entry.row);
            match opened.place_of(region, &entry.key) {
                Ok(spot) => {
                    if !wanted {
                        opened.remove(spot);
                    }
                }
                Err(spot) => {
                    if wanted {
                        opened.insert(spot, id);
                    }
                }
            }
        }
        Err(_) => unreachable!(),
    }
}
