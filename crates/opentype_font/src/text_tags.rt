//! The tags by which a font's tables are asked for a text: those of its script and of its language.
ghost use Rattle.std.specs.Prelude.{◌≡◌, slice_index, take};
ghost use Rattle.opentype_font.specs.TextTags.{number_by, tags_in, tags_of_script};

use opentype_layout::features::script_tags;
use shapers_base::buffer::{Script, hb_tag_t};

/// At most three tags, the best first.
#[derive(Clone, Copy, Debug)]
pub struct TagList {
    tags: [u32; 3],
    count: usize,
}

impl TagList {
    /// The first three of these tags.
    pub fn new(tags: &[u32]) -> Self
        ensures { tags_in result ≡ take 3 tags.now }
    {
        TagList {
            tags: [tag_at(tags, 0), tag_at(tags, 1), tag_at(tags, 2)],
            count: tags.len().min(3),
        }
    }

    /// The tags.
    pub fn as_slice(&self) -> &[u32]
        ensures { result.now ≡ tags_in self.now }
    {
        &self.tags[..self.count.min(3)]
    }
}

// The tag at a place; 0 where there is none.
#[inline]
fn tag_at(tags: &[u32], place: usize) -> u32
    ensures { result ≡ slice_index tags.now place }
{
    if place < tags.len() { tags[place] } else { 0 }
}

/// The tags of a text's script and of its language.
#[derive(Clone, Copy, Debug)]
pub struct TextTags {
    /// Those of the script.
    pub scripts: TagList,
    /// Those of the language.
    pub languages: TagList,
}

// The number of a tag's four bytes.
#[inline]
pub(crate) fn number_of(tag: hb_tag_t) -> u32
    ensures { result ≡ number_by tag.0 }
{
    let bytes = tag.to_bytes();
    u32::from(bytes[0]) * 0x100_0000
        + u32::from(bytes[1]) * 0x1_0000
        + u32::from(bytes[2]) * 256
        + u32::from(bytes[3])
}

/// The tags of a script, the newest first; none where there is no script.
pub fn tags_of_script(script: Option<Script>) -> TagList
    ensures { tags_in result ≡ tags_of_script script }
{
    let number = match script {
        Some(script) => number_of(hb_tag_t(script.to_bytes())),
        None => 0,
    };
    TagList::new(script_tags(number).as_slice())
}
