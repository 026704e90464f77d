ghost use Rattle.std.specs.Prelude.{◌≡◌, option_map};
ghost use Rattle.shapers_plan.specs.FontFeatures.{FontTables};

use shapers_base::buffer::hb_tag_t;
use shapers_base::map::TableIndex;

/// The features of a font's GSUB and GPOS, in the script and language that the caller chose for the
/// text. They are functions: the same question has the same result.
pub trait FontFeatures {
    /// The two tables as a value: their results.
    ghost tables: { Self → FontTables };

    /// Whether the font has the table.
    fn has_table(&self, table: TableIndex) -> bool
        ensures { result ≡ (tables self.now).there table };

    /// The tag of the chosen script, or none where the table has no script to choose.
    fn chosen_script(&self, table: TableIndex) -> Option<hb_tag_t>
        ensures { result ≡ (tables self.now).chosen table };

    /// Whether the chosen script is one that the text's script has a tag for, and no default.
    fn found_script(&self, table: TableIndex) -> bool
        ensures { result ≡ (tables self.now).found table };

    /// The lookups of a feature, by their numbers in the table; none where the chosen script lacks
    /// the feature.
    fn feature_lookups(&self, table: TableIndex, tag: hb_tag_t) -> Option<&[u16]>
        ensures { option_map (λ list. list.now) result ≡ (tables self.now).lookups table tag };

    /// The lookups of a feature by this tag in any script of the table.
    fn any_feature_lookups(&self, table: TableIndex, tag: hb_tag_t) -> Option<&[u16]>
        ensures { option_map (λ list. list.now) result ≡ (tables self.now).anywhere table tag };

    /// The tag of the feature that the chosen script requires, whatever is requested.
    fn required_feature(&self, table: TableIndex) -> Option<hb_tag_t>
        ensures { result ≡ (tables self.now).required table };

    /// The lookups of that feature; empty where there is none.
    fn required_lookups(&self, table: TableIndex) -> &[u16]
        ensures { result.now ≡ (tables self.now).required_lookups table };
}
