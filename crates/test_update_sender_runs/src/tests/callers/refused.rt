// What a caller writes for want of memory: each crate whose calls answer it has the name.

use std::alloc::AllocError;
use std::test::Fail;

/// Returns whether `answer` says that memory was refused, as each crate names it.
fn is_refused(answer: &Result<(), AllocError>) -> [bool; 11] {
    [
        matches!(answer, Err(region::OutOfMemory)),
        matches!(answer, Err(span_arena::OutOfMemory)),
        matches!(answer, Err(copy_schedule::OutOfMemory)),
        matches!(answer, Err(pixel_translate::OutOfMemory)),
        matches!(answer, Err(encode_raw::OutOfMemory)),
        matches!(answer, Err(encode_rre::OutOfMemory)),
        matches!(answer, Err(encode_hextile::OutOfMemory)),
        matches!(answer, Err(messages::OutOfMemory)),
        matches!(answer, Err(screen::OutOfMemory)),
        matches!(answer, Err(update_sender::OutOfMemory)),
        matches!(answer, Err(input_queue::OutOfMemory)),
    ]
}

#[test]
fn want_of_memory_has_one_name(rt: HostRuntime) -> Result<(), Fail> {
    assert!(rt; is_refused(&Err(AllocError)) == [true; 11]);
    assert!(rt; is_refused(&Ok(())) == [false; 11]);
    Ok(())
}
