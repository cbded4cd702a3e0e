// Page files: words of 64 bits, the lowest byte first, 512 words to a page.
#![tactic(auto)]

ghost use Rattle.std.specs.Prelude.{◌≡◌};
ghost use Rattle.pagefile.specs.declared.PageFileError.TheVariants.{OutOfMemory};
ghost use Rattle.pagefile.specs.Decoded.{Decoded};

use std::alloc::{AllocError, AllocFailed, Global};

const PAGE_BYTES: usize = 4096;

#[derive(Clone, Copy, PartialEq, Eq, Debug)]
pub enum PageFileError {
    // The file's length isn't a whole number of pages.
    NotWhole,
    OutOfMemory,
}

// Two impls, since a failed push and a failed collect are two errors; here only a collect may fail.
impl From<AllocError> for PageFileError {
    ghost from_gives = { λ _ r. r ≡ OutOfMemory };

    fn from(_error: AllocError) -> Self {
        PageFileError::OutOfMemory
    }
}

impl<T: Drop> From<AllocFailed<T>> for PageFileError {
    ghost from_gives = { λ _ r. r ≡ OutOfMemory };

    fn from(_error: AllocFailed<T>) -> Self {
        PageFileError::OutOfMemory
    }
}

// The words of a page file.
pub fn decode(heap: Global, bytes: &[u8]) -> Result<Vec<u64>, PageFileError>
    ensures { Decoded bytes.now result }
{
    if bytes.len() % PAGE_BYTES != 0 {
        return Err(PageFileError::NotWhole);
    }
    let (chunks, _) = bytes.as_chunks::<8>();
    let words = chunks.iter().map(|chunk| u64::from_le_bytes(*chunk));
    Ok(words.collect(heap)?)
}
