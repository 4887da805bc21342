// What a call over files or a sink answers where it did not succeed.
ghost use Rattle.std.specs.Prelude.{◌≡◌};
ghost use Rattle.enc_io.specs.declared.failed.ReadFail.TheVariants.{Failed, Memory};

use std::alloc::{AllocError, AllocFailed};
use thiserror::Error;

/// The outside refused a call. The object that was called has counted the fault.
#[derive(Clone, Copy, Debug, PartialEq, Eq)]
pub struct Failed;

/// Why a file was not read as a whole.
#[derive(Clone, Copy, Debug, PartialEq, Eq, Error)]
pub enum ReadFail {
    /// The file could not be begun, or one of its reads failed. No file is begun any more.
    #[error("cannot read")]
    Failed,
    /// Memory ran out. The file may be begun and partly read.
    #[error("out of memory")]
    Memory,
}

impl From<Failed> for ReadFail {
    ghost from_gives = { λ _ e. e ≡ Failed };

    fn from(_: Failed) -> Self {
        ReadFail::Failed
    }
}

impl From<AllocError> for ReadFail {
    ghost from_gives = { λ _ e. e ≡ Memory };

    fn from(_: AllocError) -> Self {
        ReadFail::Memory
    }
}
