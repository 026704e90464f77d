//! Where a caret may stand in a shaped text.
ghost use Rattle.std.specs.Prelude.{◌≡◌, ◌<◌, ◌≤◌, List, ◌∷◌, [], ℕ, length, nat_lt, reverse, vec_capacity, IsOk, IsOkUnless, OnErr, OnOk};
ghost use Rattle.std.specs.List.{list_all};
ghost use Rattle.shapers_buffer.specs.declared.buffer.refusal.ShaperError.TheVariants.{Memory};
ghost use Rattle.shapers_buffer.specs.Glyph.{clusters};
ghost use Rattle.shapers_editing.specs.Carets.{BordersWereBorders, EachClusterStops, StopsMapText, caret_stops, lesser};

use shapers_buffer::buffer::{Direction, ShaperError, hb_glyph_info_t};

/// Fills the list with the places of the text where a caret may stand before a glyph: the borders
/// of clusters, in the order of the text. The glyphs are a shaped text, as they are drawn from left
/// to right or from top to bottom, so the clusters of one that goes backward fall along them.
///
/// A caret also stands behind the text. A glyph stands for the text from the last stop that isn't
/// above its cluster up to the next one, or to the text's end. Where clusters don't keep to the
/// order of the text, as the reorderings of Indic may leave them, a cluster is a stop only if all
/// behind it are greater, so that stops always rise.
///
/// A list that has room for the stops takes no memory.
///
/// # Errors
///
/// `Memory`; the list is empty then.
///
/// Source: HarfBuzz's manual, "Clusters".
pub fn caret_stops(
    glyphs: &[hb_glyph_info_t],
    direction: Direction,
    stops: &mut Vec<u32>,
) -> Result<(), ShaperError>
    ensures stops { OnOk result (stops.new.items ≡ caret_stops direction glyphs.now) }
    ensures refusal { IsOkUnless result Memory }
    ensures room { length (caret_stops direction glyphs.now) ≤ vec_capacity stops.old → IsOk result }
    ensures err { OnErr result (stops.new.items ≡ []) }
{
    stops.clear();
    let pushed = match direction {
        Direction::RightToLeft | Direction::BottomToTop => push_from_start(glyphs, stops),
        _ => push_from_end(glyphs, stops),
    };
    if pushed.is_err() {
        stops.clear();
    }
    stops.reverse();
    pushed
}

// Pushes the stops of a text whose last glyph is the list's first, the last stop first.
fn push_from_start(glyphs: &[hb_glyph_info_t], stops: &mut Vec<u32>) -> Result<(), ShaperError>
    requires { stops.old.items ≡ [] }
    ensures stops { OnOk result
        (stops.new.items ≡ reverse (lesser (reverse (clusters glyphs.now)))) }
    ensures refusal { IsOkUnless result Memory }
    ensures full { OnErr result
        (vec_capacity stops.old < length (lesser (reverse (clusters glyphs.now)))) }
{
    for glyph in glyphs {
        push_lesser(glyph.cluster, stops)?;
    }
    Ok(())
}

// Pushes the stops of a text whose last glyph is the list's last, the last stop first.
fn push_from_end(glyphs: &[hb_glyph_info_t], stops: &mut Vec<u32>) -> Result<(), ShaperError>
    requires { stops.old.items ≡ [] }
    ensures stops { OnOk result (stops.new.items ≡ reverse (lesser (clusters glyphs.now))) }
    ensures refusal { IsOkUnless result Memory }
    ensures full { OnErr result (vec_capacity stops.old < length (lesser (clusters glyphs.now))) }
{
    let mut behind = glyphs.len();
    while behind > 0 {
        behind -= 1;
        push_lesser(glyphs[behind].cluster, stops)?;
    }
    Ok(())
}

// Pushes a cluster, if all behind it are greater.
fn push_lesser(cluster: u32, stops: &mut Vec<u32>) -> Result<(), ShaperError>
    ensures stops { OnOk result ((behind : List ℕ) → stops.old.items ≡ reverse (lesser behind) →
        stops.new.items ≡ reverse (lesser (cluster ∷ behind))) }
    ensures refusal { IsOkUnless result Memory }
    ensures full { OnErr result ((behind : List ℕ) → stops.old.items ≡ reverse (lesser behind) →
        vec_capacity stops.old < length (lesser (cluster ∷ behind))) }
    ensures capacity { vec_capacity stops.old ≤ vec_capacity stops.new }
{
    if is_lesser(cluster, stops) {
        stops.push(cluster).map_err(|_| ShaperError::Memory)?;
    }
    Ok(())
}

// Whether all clusters behind this one are greater: the last stop is the least of them.
fn is_lesser(cluster: u32, stops: &[u32]) -> bool
    ensures { (behind : List ℕ) → stops.now ≡ reverse (lesser behind) →
        result ≡ list_all (λ d. nat_lt cluster d) behind }
{
    match stops.last() {
        Some(least) => cluster < *least,
        None => true,
    }
}

/// The stops of a shaped text are a map of it for a caret: they rise, each is one place of the
/// text, and each glyph stands for one of the intervals between them, which cover the text from the
/// least cluster on without gap or overlap. Where no cluster is new and clusters rose along the
/// text before it was shaped, borders of clusters were borders before; and where they rise after
/// it, each of them is a stop.
pub fn caret_law()
    ensures map { StopsMapText }
    ensures borders { BordersWereBorders }
    ensures each { EachClusterStops }
{}
