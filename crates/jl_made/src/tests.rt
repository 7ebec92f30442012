use crate::Made;
use std::test::Fail;

// How many items there are, where these are few.
fn count(made: &mut Made) -> Result<u32, Fail> {
    for i in 0..5000u32 {
        if !made.advance()? {
            return Ok(i);
        }
    }
    Ok(5000)
}

// Items of all sorts come one after another in the same memory.
#[test]
fn made_many(rt: HostRuntime) -> Result<(), Fail> {
    let mut made = Made::new(rt.alloc(), 18_446_744_073_709_551_615, 2100);
    assert_eq!(rt; count(&mut made)?, 2100);
    Ok(())
}
