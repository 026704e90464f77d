ghost use Rattle.std.specs.Prelude.{◌≡◌};

/// A tag of the OpenType registry: four bytes.
#[repr(transparent)]
#[derive(Clone, Copy, Debug, PartialEq, Eq)]
pub struct hb_tag_t(pub [u8; 4]);

impl hb_tag_t {
    /// The tag of four bytes, as `*b"rlig"` (OpenType, tags).
    #[inline]
    pub fn from_bytes(bytes: [u8; 4]) -> Self
        ensures { result.0 ≡ bytes }
    {
        hb_tag_t(bytes)
    }

    /// Its four bytes.
    #[inline]
    pub fn to_bytes(self) -> [u8; 4]
        ensures { result ≡ self.0 }
    {
        self.0
    }
}

/// A script, by its ISO 15924 code: four bytes, as `Thai`.
#[repr(transparent)]
#[derive(Clone, Copy, Debug, PartialEq, Eq)]
pub struct Script(pub [u8; 4]);

impl Script {
    /// The script whose ISO 15924 code has these bytes.
    #[inline]
    pub fn from_bytes(bytes: [u8; 4]) -> Self
        ensures { result.0 ≡ bytes }
    {
        Script(bytes)
    }

    /// The four bytes of its code.
    #[inline]
    pub fn to_bytes(self) -> [u8; 4]
        ensures { result ≡ self.0 }
    {
        self.0
    }
}
