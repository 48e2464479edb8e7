//! Shares out the pieces of memory that a run takes among tests. `rt try --test --fail-alloc N`
//! refuses one piece, counted from the test's beginning, and builds the program anew for each N. So
//! a test takes pieces of its own first, which are not those that are refused: then one N refuses
//! another piece of the run in each test. A script goes through the pieces of a share
//! (`tools/refused_memory.sh`).
use asn_core::OutOfMemory;
use std::alloc::Global;

/// The words by which a test says that memory was refused.
pub const REFUSED: &str = "memory was refused";

/// How many pieces of a run one test is there for.
const SHARE: usize = 40;

/// Which pieces of a run a test is there for.
#[derive(Drop)]
pub enum Share {
    First,
    Second,
    Third,
    Fourth,
    Fifth,
    Sixth,
    Seventh,
    Eighth,
}

/// Takes as many pieces of memory as bring the pieces of the share to the place of the last share,
/// and gives them back.
///
/// # Errors
///
/// `OutOfMemory` alone.
pub fn take_pieces_before(alloc: Global, share: Share) -> Result<(), OutOfMemory> {
    let before: usize = match share {
        Share::First => 7 * SHARE,
        Share::Second => 6 * SHARE,
        Share::Third => 5 * SHARE,
        Share::Fourth => 4 * SHARE,
        Share::Fifth => 3 * SHARE,
        Share::Sixth => 2 * SHARE,
        Share::Seventh => SHARE,
        Share::Eighth => 0,
    };
    for _ in 0..before {
        let _piece = Vec::<u8>::with_capacity(alloc, 1)?;
    }
    Ok(())
}
