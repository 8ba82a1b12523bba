//! One text.

use crate::{functions_of, generate};
use std::alloc::AllocError;

/// The lines up to the first function's, of the number 0.
const FRONT: &[u8] = b"#include <multiverse.h>
__attribute__((multiverse(0, 1, 2, 3))) int s0, s1, s2, s3;
__attribute__((multiverse)) int f0(int a) { return a + s2 * 243; }
";

#[test]
fn first_function_of_zero(rt: HostRuntime) -> Result<(), AllocError> {
    let text = generate(rt.alloc(), 0)?;
    assert!(rt; text.as_slice().starts_with(FRONT));
    assert!(rt; functions_of(0) == 8);
    Ok(())
}
