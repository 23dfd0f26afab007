//! The line and the status of a fault that no command comes to here: `tests/memory` has commands that do.

use std::test::Fail;
use turn_program::{ProgramError, report};

#[test]
fn out_of_memory_has_a_line_and_a_status(rt: HostRuntime) -> Result<(), Fail> {
    let mut err = Vec::new(rt.alloc());
    assert!(rt; report(ProgramError::Memory, &mut err) == 5);
    assert_eq!(rt; err.as_slice(), b"turn: memory\n".as_slice());
    Ok(())
}
