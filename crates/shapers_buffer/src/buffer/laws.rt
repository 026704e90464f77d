//! Laws of bits, places and syllables.
ghost use Rattle.shapers_buffer.specs.Properties.{BitsAreSetAlone, PropertiesAreSet};
ghost use Rattle.shapers_buffer.specs.Places.{PartsChangePlaces, PlacesAreWritten};
ghost use Rattle.shapers_buffer.specs.SyllableLaws.{SyllablesAreLongest};

/// A setter of one bit changes its own and no other.
pub fn bits_are_set_alone()
    ensures { BitsAreSetAlone }
{}

/// A category, a high byte and a bit are read as they were set, and each setter keeps the others.
pub fn properties_are_set()
    ensures { PropertiesAreSet }
{}

/// A place of the placement list reads what was written there last, or 0.
pub fn places_are_written()
    ensures { PlacesAreWritten }
{}

/// A stretch that a placement brings forward changes places with what it passes, and the rest stays.
pub fn parts_change_places()
    ensures { PartsChangePlaces }
{}

/// The first syllable of a text is the longest sequence of its byte, and the others are the
/// syllables of what follows it.
pub fn syllables_are_longest()
    ensures { SyllablesAreLongest }
{}
