//! Any number of 32 bits is a moment.

use mailbox::Moment;
use std::test::Fail;

#[test]
fn a_moment_is_any_number_of_32_bits(rt: HostRuntime) -> Result<(), Fail> {
    for number in [0, 100, u32::MAX] {
        assert_eq!(rt; Moment::new(number).number(), number);
    }
    Ok(())
}
