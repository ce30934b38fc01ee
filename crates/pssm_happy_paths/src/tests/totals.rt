//! Totals of a few machines.
use pssm_totals::totals_of;
use std::test::Fail;

#[test]
fn each_machine_is_counted_once(rt: HostRuntime) -> Result<(), Fail> {
    let extends = [None, Some(0), Some(1), Some(4), Some(3), Some(4), Some(0)];
    let own = [1, 2, 3, 10, 20, 5, 65_535];
    let totals = totals_of(rt.alloc(), &extends, &own)?;
    assert!(rt; totals.len() == 7);
    assert!(rt; totals[0] == 1);
    assert!(rt; totals[2] == 6);
    assert!(rt; totals[3] == 30);
    assert!(rt; totals[4] == 30);
    assert!(rt; totals[5] == 35);
    assert!(rt; totals[6] == 65_536);
    Ok(())
}
