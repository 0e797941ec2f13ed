//! Laws of control texts.
ghost use Rattle.control_stanza.specs.Series.{SeriesAreRead};

/// A text of stanzas, each with an empty line behind it, is made of exactly these stanzas, with the numbers of their first
/// lines, where each has a field and keeps the bound. So [`read_stanzas`](crate::read_stanzas) gives them back where each
/// has at most 4,194,304 bytes, and [`read_stored`](crate::read_stored) always. The last empty line may be missing.
pub fn series_are_read()
    ensures { SeriesAreRead }
{}
