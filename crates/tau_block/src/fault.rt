// Why an image has no content.
ghost use Rattle.std.specs.Prelude.{◌≡◌};
ghost use Rattle.tau_block.specs.declared.fault.ImageRefusal.TheVariants.{Bad, NoMemory};

use std::alloc::AllocError;
use thiserror::Error;

/// Why an image holds no log. The numbers are those of reports.
#[derive(Clone, Copy, Debug, PartialEq, Eq, Error)]
pub enum ImageFault {
    /// The first 12 bytes are not those of a log.
    #[error("bad magic")]
    BadMagic = 1,
    /// The number of streams is 0, or above what the format has room for.
    #[error("bad count")]
    BadCount,
    /// The index is not that of the stream, or not below the number of streams.
    #[error("bad index")]
    BadIndex,
    /// An open gate has no whole block after it.
    #[error("open gate without a block")]
    OpenGateWithoutBlock,
}

/// Why `contents_of` gives no content.
#[derive(Clone, Copy, Debug, PartialEq, Eq, Error)]
pub enum ImageRefusal {
    #[error("out of memory")]
    NoMemory,
    #[error(transparent)]
    Bad(ImageFault),
}

impl From<AllocError> for ImageRefusal {
    ghost from_gives = { λ _ refusal. refusal ≡ NoMemory };

    fn from(_e: AllocError) -> ImageRefusal {
        ImageRefusal::NoMemory
    }
}

impl From<ImageFault> for ImageRefusal {
    ghost from_gives = { λ fault refusal. refusal ≡ Bad fault };

    fn from(fault: ImageFault) -> ImageRefusal {
        ImageRefusal::Bad(fault)
    }
}
