//! Marks of a text in a font without GPOS.
ghost use Rattle.std.specs.Prelude.{ℕ, ◌≡◌, ◌<◌, ◌≤◌, ◌+◌, ◌-◌, length, slice_set};
ghost use Rattle.opentype_gpos.specs.Moved.{position_at};
ghost use Rattle.std.specs.List.{prefix_len};
ghost use Rattle.opentype_gpos.specs.Fallback.{at_class, at_component, box_for_marks, brought_back, class_of_character, class_of_script, component_under, components_of, first_around, first_pen, glyph_around, mark_class, mark_font, mark_upon, marks_around, marks_character, marks_placed, marks_stepped, marks_without_box, pen_past, placed_around, stays_with_base, upon_box, with_offsets, without_box};
ghost use Rattle.opentype_gpos.specs.Along.{applied_along};
ghost use Rattle.opentype_layout.specs.Text.{glyph_at};

use crate::finish::is_backward;
use crate::mark_boxes::{GlyphBox, across_place, component_box, upright_place};
use crate::moved::flag_up_to;
use crate::nearby::ligature_number;
use shapers_buffer::buffer::{
    Direction, GlyphPosition, PositionedWalk, hb_buffer_t, hb_glyph_info_t,
};

/// What a font says of its glyphs where marks are placed without GPOS.
pub trait MarkMetrics {
    ghost use Rattle.std.specs.Prelude.{ℕ, ◌≡◌, ℤ, Option};
    ghost use Rattle.opentype_gpos.specs.declared.mark_boxes.GlyphBox.{GlyphBox};

    /// The boxes of glyphs, by their numbers.
    ghost box_of: { Self → ℕ → Option GlyphBox };

    /// How far glyphs move the pen to the right.
    ghost advance_of: { Self → ℕ → ℤ };

    /// The box of a glyph, if it has one.
    fn glyph_box(&self, glyph: u32) -> Option<GlyphBox>
        ensures { result ≡ box_of self.now glyph };

    /// How far a glyph moves the pen to the right, in font units.
    fn glyph_advance(&self, glyph: u32) -> i32
        ensures { result ≡ advance_of self.now glyph };
}

/// How marks are placed.
#[derive(Clone, Copy, Debug)]
pub struct MarkSettings {
    /// The gap between a mark and its base: a sixteenth of the em.
    pub gap: u16,
    /// The direction of the line.
    pub direction: Direction,
    /// Whether the components of a ligature come from right to left: the direction that the text was to
    /// be shaped in does, or of a vertical line the script.
    pub from_right: bool,
}

/// How far it is from the pen back to where a base began.
#[derive(Clone, Copy, Debug)]
pub struct PenWay {
    /// To the right.
    pub x: i32,
    /// Upwards.
    pub y: i32,
}

/// What the marks of a base so far leave to the next one.
#[derive(Clone, Copy, Debug)]
pub struct Around {
    /// The way back to the base.
    pub pen: PenWay,
    /// The component that the mark before was of, from 1 on.
    pub component: u8,
    /// Its class.
    pub class: u8,
    /// The box of that component.
    pub table_at: GlyphBox,
    /// What is left of it for marks of that class.
    pub rest: GlyphBox,
}

// A glyph around which marks come.
#[derive(Drop)]
struct Base<'a> {
    // Its place.
    at: usize,
    glyph: &'a hb_glyph_info_t,
    // Its box for marks.
    whole: GlyphBox,
}

// How many components a glyph has.
#[inline]
fn component_count(glyph: &hb_glyph_info_t) -> u8
    ensures value { result ≡ components_of glyph.now }
{
    if glyph.glyph_props.0 & 4 == 4 && glyph.lig_props.0 / 16 % 2 == 1 {
        glyph.lig_props.0 % 16
    } else {
        1
    }
}

// The component of a base that a mark is of.
#[inline]
fn component_under(base: &hb_glyph_info_t, mark: &hb_glyph_info_t) -> u8
    ensures { result ≡ component_under base.now mark.now }
{
    let count = component_count(base);
    let own = mark.lig_props.component();
    if ligature_number(base) == 0 || ligature_number(base) != ligature_number(mark) || count < own {
        count
    } else {
        own
    }
}

#[tactic(auto, unfolding(crate::specs::Fallback::at_component))]
fn at_component(
    from_right: bool,
    base: &hb_glyph_info_t,
    whole: &GlyphBox,
    mark: &hb_glyph_info_t,
    around: Around,
) -> Around
    ensures { result
        ≡ at_component from_right base.now whole.now mark.now around }
{
    let (count, component) = (component_count(base), component_under(base, mark));
    if count <= 1 || component == around.component {
        return around;
    }
    Around {
        component,
        class: 255,
        table_at: component_box(from_right, count, component, whole),
        ..around
    }
}

#[inline]
#[tactic(auto, unfolding(crate::specs::Fallback::at_class))]
fn at_class(class: u8, around: Around) -> Around
    ensures { result ≡ at_class class around }
{
    if class == around.class {
        return around;
    }
    Around {
        class,
        rest: around.table_at,
        ..around
    }
}

#[inline]
#[tactic(auto, unfolding(crate::specs::Fallback::brought_back))]
fn bring_back(around: &Around, position: GlyphPosition) -> GlyphPosition
    ensures { result ≡ brought_back around.now position }
{
    GlyphPosition {
        x_advance: 0,
        y_advance: 0,
        x_offset: position.x_offset.saturating_add(around.pen.x),
        y_offset: position.y_offset.saturating_add(around.pen.y),
        ..position
    }
}

#[inline]
fn with_offsets(x_offset: i32, y_offset: i32, position: GlyphPosition) -> GlyphPosition
    ensures { result ≡ with_offsets x_offset y_offset position }
{
    GlyphPosition {
        x_offset,
        y_offset,
        ..position
    }
}

#[inline]
fn with_rest(rest: GlyphBox, around: Around) -> Around
    ensures { result ≡ record around { rest = rest } }
{
    Around { rest, ..around }
}

// A mark of a class whose glyph has a box, by what the marks before it left.
#[tactic(auto, unfolding(crate::specs::Fallback::upon_box))]
fn upon_box(
    settings: &MarkSettings,
    class: u8,
    around: Around,
    position: GlyphPosition,
    own: &GlyphBox,
) -> (GlyphPosition, Around)
    ensures { let s = settings.now in
        result ≡ upon_box s.direction s.gap class around position own.now }
{
    let x = across_place(settings.direction, class, &around.rest, own);
    let height = upright_place(settings.gap, class, &around.rest, own);
    let placed = bring_back(&around, with_offsets(x, height.y, position));
    (placed, with_rest(height.rest, around))
}

// A mark of a class.
#[tactic(auto, unfolding(crate::specs::Fallback::mark_upon))]
fn upon<M: MarkMetrics>(
    font: &M,
    settings: &MarkSettings,
    class: u8,
    around: Around,
    position: GlyphPosition,
    glyph: u32,
) -> (GlyphPosition, Around)
    ensures { let f = mark_font (M.box_of font.now) (M.advance_of font.now) settings.now in
        result ≡ mark_upon f class around position (f.box glyph) }
{
    match font.glyph_box(glyph) {
        Some(own) => upon_box(settings, class, around, position, &own),
        None => (bring_back(&around, position), around),
    }
}

#[inline]
#[tactic(auto, unfolding(crate::specs::Fallback::pen_past))]
fn pen_past(direction: Direction, position: &GlyphPosition, pen: PenWay) -> PenWay
    ensures { result ≡ pen_past direction position.now pen }
{
    if is_backward(direction) {
        return PenWay {
            x: pen.x.saturating_add(position.x_advance),
            y: pen.y.saturating_add(position.y_advance),
        };
    }
    PenWay {
        x: pen.x.saturating_sub(position.x_advance),
        y: pen.y.saturating_sub(position.y_advance),
    }
}

#[inline]
fn with_pen(pen: PenWay, around: Around) -> Around
    ensures { result ≡ record around { pen = pen } }
{
    Around { pen, ..around }
}

// A glyph behind a base: a mark, or one that the pen goes past.
#[tactic(auto, unfolding(crate::specs::Fallback::glyph_around))]
fn place_glyph<M: MarkMetrics>(
    font: &M,
    settings: &MarkSettings,
    base: &hb_glyph_info_t,
    whole: &GlyphBox,
    glyph: &hb_glyph_info_t,
    position: GlyphPosition,
    around: Around,
) -> (GlyphPosition, Around)
    ensures { let f = mark_font (M.box_of font.now) (M.advance_of font.now) settings.now in
        result ≡ glyph_around f base.now whole.now glyph.now position around }
{
    let class = glyph.unicode_props.modified_combining_class();
    if class == 0 {
        let pen = pen_past(settings.direction, &position, around.pen);
        return (position, with_pen(pen, around));
    }
    let around = at_component(settings.from_right, base, whole, glyph, around);
    upon(
        font,
        settings,
        class,
        at_class(class, around),
        position,
        glyph.glyph_id,
    )
}

// The glyph at a place behind a base; returns what it leaves to the next one.
fn place_at<M: MarkMetrics>(
    font: &M,
    settings: &MarkSettings,
    glyphs: &[hb_glyph_info_t],
    base: &Base<'_>,
    i: usize,
    around: Around,
    positions: &mut [GlyphPosition],
) -> Around
    requires within { i < length glyphs.now }
    requires paired { length positions.old ≡ length glyphs.now }
    ensures place { let f = mark_font (M.box_of font.now) (M.advance_of font.now) settings.now in
        let it = glyph_around f base.now.glyph.now base.now.whole (glyph_at glyphs.now i) (position_at positions.old i) around in
        positions.new ≡ slice_set positions.old i it.0 }
    ensures around { let f = mark_font (M.box_of font.now) (M.advance_of font.now) settings.now in
        let it = glyph_around f base.now.glyph.now base.now.whole (glyph_at glyphs.now i) (position_at positions.old i) around in
        result ≡ it.1 }
{
    let placed = place_glyph(
        font,
        settings,
        base.glyph,
        &base.whole,
        &glyphs[i],
        positions[i],
        around,
    );
    positions[i] = placed.0;
    placed.1
}

// The glyphs behind a base whose glyph has a box.
fn place_marks<M: MarkMetrics>(
    font: &M,
    settings: &MarkSettings,
    glyphs: &[hb_glyph_info_t],
    base: &Base<'_>,
    end: usize,
    around: Around,
    positions: &mut [GlyphPosition],
)
    requires base { base.now.at < end }
    requires within { end ≤ length glyphs.now }
    requires paired { length positions.old ≡ length glyphs.now }
    ensures { let f = mark_font (M.box_of font.now) (M.advance_of font.now) settings.now in
        positions.new ≡ marks_around (end - (base.now.at + 1)) f glyphs.now base.now.glyph.now
        base.now.whole (base.now.at + 1) around positions.old }
{
    let mut around = around;
    for i in base.at + 1..end {
        around = place_at(font, settings, glyphs, base, i, around, positions);
    }
}

#[inline]
#[tactic(auto, unfolding(crate::specs::Fallback::without_box))]
fn without_box(
    direction: Direction,
    glyph: &hb_glyph_info_t,
    position: GlyphPosition,
) -> GlyphPosition
    ensures { result ≡ without_box direction glyph.now position }
{
    if glyph.unicode_props.0 % 32 != 12 {
        return position;
    }
    if is_backward(direction) {
        return GlyphPosition {
            x_advance: 0,
            y_advance: 0,
            ..position
        };
    }
    GlyphPosition {
        x_advance: 0,
        y_advance: 0,
        x_offset: position.x_offset.saturating_sub(position.x_advance),
        y_offset: position.y_offset.saturating_sub(position.y_advance),
        ..position
    }
}

// The glyphs behind a base whose glyph has none.
fn zero_marks(
    direction: Direction,
    glyphs: &[hb_glyph_info_t],
    start: usize,
    end: usize,
    positions: &mut [GlyphPosition],
)
    requires within { end ≤ length glyphs.now }
    requires paired { length positions.old ≡ length glyphs.now }
    ensures { positions.new ≡ marks_without_box (end - start) direction glyphs.now start positions.old }
{
    for i in start..end {
        positions[i] = without_box(direction, &glyphs[i], positions[i]);
    }
}

#[inline]
fn box_for_marks(own: &GlyphBox, advance: i32, position: &GlyphPosition) -> GlyphBox
    ensures { result ≡ box_for_marks own.now advance position.now }
{
    GlyphBox {
        x_bearing: 0,
        y_bearing: own.y_bearing.saturating_add(position.y_offset),
        width: advance,
        height: own.height,
    }
}

#[inline]
fn first_pen(direction: Direction, position: &GlyphPosition) -> PenWay
    ensures { result ≡ first_pen direction position.now }
{
    if is_backward(direction) {
        return PenWay { x: 0, y: 0 };
    }
    PenWay {
        x: 0_i32.saturating_sub(position.x_advance),
        y: 0_i32.saturating_sub(position.y_advance),
    }
}

#[inline]
fn first_around(direction: Direction, whole: &GlyphBox, position: &GlyphPosition) -> Around
    ensures { result ≡ first_around direction whole.now position.now }
{
    Around {
        pen: first_pen(direction, position),
        component: 0,
        class: 255,
        table_at: *whole,
        rest: *whole,
    }
}

// The glyphs behind a base, up to an end.
#[tactic(auto, unfolding(crate::specs::Fallback::placed_around))]
fn place_around<M: MarkMetrics>(
    font: &M,
    settings: &MarkSettings,
    glyphs: &[hb_glyph_info_t],
    base: usize,
    end: usize,
    positions: &mut [GlyphPosition],
)
    requires base { base < end }
    requires within { end ≤ length glyphs.now }
    requires paired { length positions.old ≡ length glyphs.now }
    ensures { let f = mark_font (M.box_of font.now) (M.advance_of font.now) settings.now in
        let number = (glyph_at glyphs.now base).glyph_id in
        positions.new ≡ placed_around f glyphs.now base end positions.old (f.box number) }
{
    let (glyph, position) = (&glyphs[base], positions[base]);
    match font.glyph_box(glyph.glyph_id) {
        Some(own) => {
            let whole = box_for_marks(&own, font.glyph_advance(glyph.glyph_id), &position);
            let around = first_around(settings.direction, &whole, &position);
            let base = Base {
                at: base,
                glyph,
                whole,
            };
            place_marks(font, settings, glyphs, &base, end, around, positions);
        }
        None => zero_marks(settings.direction, glyphs, base + 1, end, positions),
    }
}

#[inline]
fn is_mark(glyph: &hb_glyph_info_t) -> bool
    ensures { result ≡ marks_character glyph.now }
{
    glyph.unicode_props.general_category().is_mark()
}

#[inline]
fn stays_with_base(glyph: &hb_glyph_info_t) -> bool
    ensures { result ≡ stays_with_base glyph.now }
{
    is_mark(glyph)
        || glyph.unicode_props.is_hidden()
        || (glyph.unicode_props.is_ignorable() && !glyph.glyph_props.is_substituted())
}

// How many glyphs at the front stay with the one before them.
#[inline]
fn follower_count(glyphs: &[hb_glyph_info_t]) -> usize
    ensures len { result ≡ prefix_len stays_with_base glyphs.now }
    ensures within { result ≤ length glyphs.now }
{
    glyphs
        .iter()
        .take_while(|glyph| stays_with_base(glyph))
        .count()
}

// How many marks begin a text.
#[inline]
fn leading_count(glyphs: &[hb_glyph_info_t]) -> usize
    ensures len { result ≡ prefix_len marks_character glyphs.now }
    ensures within { result ≤ length glyphs.now }
{
    glyphs.iter().take_while(|glyph| is_mark(glyph)).count()
}

// The glyphs from a place on that stay together; returns the place behind them.
#[tactic(auto, unfolding(crate::specs::Fallback::marks_stepped))]
fn step<M: MarkMetrics>(
    font: &M,
    settings: &MarkSettings,
    glyphs: &mut [hb_glyph_info_t],
    positions: &mut [GlyphPosition],
    at: usize,
) -> usize
    requires here { at < length glyphs.old }
    requires paired { length positions.old ≡ length glyphs.old }
    ensures { let f = mark_font (M.box_of font.now) (M.advance_of font.now) settings.now in
        marks_stepped f glyphs.old positions.old at
        ≡ record { glyphs = glyphs.new; positions = positions.new; next = result } }
{
    let end = at + 1 + follower_count(&glyphs[at + 1..]);
    let base = at + leading_count(&glyphs[at..]);
    if base < end {
        place_around(font, settings, glyphs, base, end, positions);
        flag_up_to(true, base, end - 1, glyphs);
    }
    end
}

// Places the marks of a text.
fn place_along<M: MarkMetrics>(
    font: &M,
    settings: &MarkSettings,
    glyphs: &mut [hb_glyph_info_t],
    positions: &mut [GlyphPosition],
)
    requires { length positions.old ≡ length glyphs.old }
    ensures glyphs { let f = mark_font (M.box_of font.now) (M.advance_of font.now) settings.now in
        let end = applied_along (length glyphs.old) (marks_stepped f) glyphs.old positions.old 0 in
        glyphs.new ≡ end.glyphs }
    ensures positions { let f = mark_font (M.box_of font.now) (M.advance_of font.now) settings.now in
        let end = applied_along (length glyphs.old) (marks_stepped f) glyphs.old positions.old 0 in
        positions.new ≡ end.positions }
{
    let mut at = 0;
    for _ in 0..glyphs.len() {
        if at >= glyphs.len() {
            return;
        }
        at = step(font, settings, glyphs, positions, at);
    }
}

// A walk that places marks.
#[derive(Drop)]
struct Placing<'a, M: MarkMetrics> {
    font: &'a M,
    settings: MarkSettings,
}

impl<'a, M: MarkMetrics> PositionedWalk for Placing<'a, M> {
    ghost use Rattle.std.specs.Prelude.{◌≡◌, length};
    ghost use Rattle.opentype_gpos.specs.Fallback.{mark_font, marks_stepped};
    ghost use Rattle.opentype_gpos.specs.Along.{applied_along};

    ghost can_walk = { λ w gs ps. length ps ≡ length gs };

    ghost walks = { λ w gs ps hs qs.
        let f = mark_font (M.box_of w.font.now) (M.advance_of w.font.now) w.settings in
        let end = applied_along (length gs) (marks_stepped f) gs ps 0 in
        (hs ≡ end.glyphs) × (qs ≡ end.positions) };

    fn walk(&self, glyphs: &mut [hb_glyph_info_t], positions: &mut [GlyphPosition]) {
        place_along(self.font, &self.settings, glyphs, positions);
    }
}

/// Places the marks of a text in a font without GPOS, behind everything else: each by its class, and
/// by the boxes of its glyph and of its base's. It writes positions and glyph flags alone.
#[tactic(auto, unfolding(crate::specs::Fallback::marks_placed))]
pub fn place_marks_by_boxes<M: MarkMetrics>(
    font: &M,
    settings: MarkSettings,
    buffer: &mut hb_buffer_t,
)
    requires { length buffer.old.positions ≡ length buffer.old.glyphs }
    ensures { let f = mark_font (M.box_of font.now) (M.advance_of font.now) settings in
        buffer.new ≡ marks_placed f buffer.old }
{
    let placing = Placing { font, settings };
    buffer.walk_positioned(&placing);
}

// The class of a mark that has none, by its character.
fn class_of_character(character: u32) -> u8
    ensures { result ≡ class_of_character character }
{
    match character {
        0x0E31 | 0x0E34..=0x0E37 | 0x0E47 | 0x0E4C..=0x0E4E => 232,
        0x0EB1 | 0x0EB4..=0x0EB7 | 0x0EBB | 0x0ECC | 0x0ECD => 230,
        0x0EBC => 220,
        _ => 0,
    }
}

// The class of a mark of one script, by where it comes.
fn class_of_script(class: u8) -> u8
    ensures { result ≡ class_of_script class }
{
    match class {
        15..=25 | 30 | 33 | 118 | 129 | 131 => 220,
        26..=29 | 31 | 32 | 34..=36 | 122 | 132 => 230,
        13 => 214,
        10 | 107 => 232,
        11 | 14 => 228,
        3 => 222,
        _ => class,
    }
}

/// The class by which a nonspacing mark is placed without GPOS, of a character and its class: HarfBuzz
/// gives the glyph this one before characters are mapped to glyphs.
#[tactic(auto, unfolding(crate::specs::Fallback::mark_class))]
pub fn mark_class(character: u32, class: u8) -> u8
    ensures { result ≡ mark_class character class }
{
    if class >= 200 {
        return class;
    }
    if class == 0 {
        return class_of_character(character);
    }
    if character == 0x0E3A {
        return 222;
    }
    class_of_script(class)
}
