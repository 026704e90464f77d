ghost use Rattle.std.specs.Prelude.{◌≡◌};
ghost use Rattle.shapers_buffer.specs.Properties.{component, with_component};

/// The ligature that the glyph is or belongs to (HarfBuzz's `lig_props`): its number in the high
/// three bits, below it whether the glyph is the ligature itself, and in the low four bits a
/// component.
#[repr(transparent)]
#[derive(Clone, Copy, Debug, PartialEq, Eq)]
pub struct LigProps(pub u8);

impl LigProps {
    /// No ligature.
    pub const NONE: Self = LigProps(0);

    /// The component that a mark is attached to, or which part of several the glyph is, 0 to 15: 0
    /// for a ligature itself.
    #[inline]
    pub fn component(self) -> u8
        ensures { result ≡ component self }
    {
        if self.0 / 16 % 2 == 1 { 0 } else { self.0 % 16 }
    }

    /// Sets the component, of which the low four bits count; the glyph isn't a ligature itself then.
    #[inline]
    pub fn set_component(&mut self, component: u8)
        ensures { self.new ≡ with_component component self.old }
    {
        self.0 = self.0 / 32 * 32 + component % 16;
    }
}
