//! How a fault is told.

use fm_machine::Outside;
use std::test::Fail;

#[test]
fn an_address_is_told_in_hexadecimal(rt: HostRuntime) -> Result<(), Fail> {
    let told = Outside { address: 0x1a2b }.to_string(rt.alloc())?;
    assert_eq!(rt; told.as_str(), "address 0x00001a2b is outside the window");
    Ok(())
}
