use std::alloc::AllocError;
use thiserror::Error;

/// Why a call refused. After a refusal what it was given is unchanged. Its text is the name alone.
#[derive(Clone, Copy, Debug, PartialEq, Eq, Error)]
pub enum ShaperError {
    /// A growth was refused.
    #[error("Memory")]
    Memory,
    /// The result would be longer than `max_len`.
    #[error("TooLong")]
    TooLong,
    /// A syllable is of unknown kind: the first place of the first one.
    #[error("UnknownSyllable")]
    UnknownSyllable(usize),
    /// A span is empty, or the lengths don't add up to the buffer's.
    #[error("SpansDontCover")]
    SpansDontCover,
    /// A sum of the stretch rule doesn't fit its type.
    #[error("StretchOverflow")]
    StretchOverflow,
}

impl From<AllocError> for ShaperError {
    ghost use Rattle.std.specs.Prelude.{◌≡◌};
    ghost use Rattle.shapers_buffer.specs.declared.buffer.refusal.ShaperError.TheVariants.{Memory};

    ghost from_gives = { λ _ e. e ≡ Memory };

    #[inline]
    fn from(_e: AllocError) -> Self {
        ShaperError::Memory
    }
}
