//! Tables of classes, with what was made of them.
ghost use Rattle.std.specs.Prelude.{◌≡◌};
ghost use Rattle.std.specs.Option.{ForSome};
ghost use Rattle.opentype_face.specs.Glyphs.{class_in};

use opentype_face::glyph_sets::class;
use opentype_face::glyph_tables::PreparedClassDef;

/// A table of classes, with the classes of its glyphs beside it, if these were made.
#[derive(Clone, Copy, Debug)]
pub struct ClassRef<'a> {
    /// Its bytes.
    pub bytes: &'a [u8],
    table: Option<&'a PreparedClassDef<'a>>,
    ghost fits: { ForSome table (λ it. it.now.bytes.now ≡ bytes.now) },
}

impl<'a> ClassRef<'a> {
    /// A table by its bytes alone.
    #[inline]
    pub fn of(bytes: &'a [u8]) -> Self
        ensures { result.bytes.now ≡ bytes.now }
    {
        ClassRef { bytes, table: None }
    }

    /// A table whose classes were made.
    #[inline]
    pub(crate) fn prepared(table: &'a PreparedClassDef<'a>) -> Self
        ensures { result.bytes.now ≡ table.now.bytes.now }
    {
        ClassRef {
            bytes: table.bytes,
            table: Some(table),
        }
    }

    /// The class of a glyph.
    #[inline]
    pub fn class(&self, glyph: u16) -> u16
        ensures { result ≡ class_in self.now.bytes.now glyph }
    {
        match self.table {
            Some(table) => table.class(glyph),
            None => class(self.bytes, glyph),
        }
    }
}
