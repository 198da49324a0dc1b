// A region of one slot.
use beldi_region::{Region, RegionErr, SlotId};
use std::test::Fail;

const FIRST: SlotId = SlotId {
    slot: 0,
    generation: 0,
};

const SECOND: SlotId = SlotId {
    slot: 0,
    generation: 1,
};

#[test]
fn a_slot_is_used_again_with_the_next_generation(rt: HostRuntime) -> Result<(), Fail> {
    let mut region = Region::open(rt.alloc(), 1)?;
    assert_eq!(rt; region.put(5), Ok(FIRST));
    assert_eq!(rt; region.put(7), Err((7, RegionErr::NoSlot)));
    assert_eq!(rt; region.take(FIRST), Ok(5));
    assert_eq!(rt; region.put(6), Ok(SECOND));
    assert_eq!(rt; region.get(FIRST), Err(RegionErr::Stale(FIRST)));
    assert_eq!(rt; region.get(SECOND), Ok(&6));
    assert_eq!(rt; region.room(), 1);
    drop(region);
    Ok(())
}
