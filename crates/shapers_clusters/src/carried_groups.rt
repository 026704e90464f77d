//! Ranges of glyphs in front of a place where merges go on, each in one cluster, which are written
//! once.
ghost use Rattle.std.specs.Prelude.{◌≡◌, ◌<◌, ◌≤◌, ◌+◌, ◌-◌, ◌^◌, ◌++◌, [], OnOk, OnErr, drop, get_or, length, map, take, true};
ghost use Rattle.shapers_buffer.specs.Clusters.{in_cluster, with_stretch};
ghost use Rattle.shapers_clusters.specs.CarriedGroups.{AreCarried, AreShown, CanTakeBack, GroupsApart, GroupsGuarded, GroupsTakenBack, StillSame, first_group_cluster, grouped, joined_end, len_of, no_group, put_before, read_back, shown_groups, with_groups};

use shapers_buffer::buffer::{
    ClusterGroup, GroupRoom, change_each_by_in, hb_glyph_info_t, least_cluster, put_into_cluster,
};
use std::alloc::{AllocError, Global};

/// Groups of glyphs, one behind the other, up to the place where merges go on. The clusters rise
/// from each group to the next one: a group before one of a lower cluster can't be flooded from
/// behind it any more, and is written.
#[derive(Drop)]
pub struct CarriedGroups {
    start: usize,
    end: usize,
    groups: Vec<ClusterGroup>,
    kept: Vec<hb_glyph_info_t>,
}

impl CarriedGroups {
    /// No groups, and no room for any.
    #[inline]
    pub fn new(alloc: Global) -> Self
        ensures start { result.start ≡ 0 }
        ensures end { result.end ≡ 0 }
        ensures none { result.groups.items ≡ [] }
    {
        CarriedGroups::with_room(GroupRoom::new(alloc))
    }

    /// No groups, with room that a buffer lends. Where it is enough for the text, carrying takes no
    /// memory.
    #[inline]
    pub fn with_room(room: GroupRoom) -> Self
        ensures start { result.start ≡ 0 }
        ensures end { result.end ≡ 0 }
        ensures none { result.groups.items ≡ [] }
    {
        let mut groups = room.groups;
        groups.clear();
        CarriedGroups {
            start: 0,
            end: 0,
            groups,
            kept: room.glyphs,
        }
    }

    /// The room, for the buffer that lent it.
    #[inline]
    pub fn into_room(self) -> GroupRoom {
        GroupRoom {
            groups: self.groups,
            glyphs: self.kept,
        }
    }

    /// Writes all groups, and has none then.
    #[inline]
    pub fn write(&mut self, glyphs: &mut [hb_glyph_info_t])
        requires fits { AreCarried self.old glyphs.old }
        ensures written { glyphs.new ≡ with_groups self.old glyphs.old }
        ensures none { self.new.groups.items ≡ [] }
        ensures start { self.new.start ≡ self.old.end }
        ensures end { self.new.end ≡ self.old.end }
        ensures same_length { length glyphs.new ≡ length glyphs.old }
    {
        write_groups(self.groups.as_slice(), glyphs, self.start);
        self.groups.truncate(0);
        self.start = self.end;
    }

    /// Before merges from `first` to `end`: lets one glyph stand for each of the last groups that
    /// they could flood, behind one that they can't, and returns how many these are. Where it is
    /// 0, all is written.
    #[inline]
    pub fn guard(&mut self, glyphs: &mut [hb_glyph_info_t], first: usize, end: usize) -> usize
        requires fits { AreCarried self.old glyphs.old }
        requires in_order { first ≤ end }
        requires in_range { end ≤ length glyphs.old }
        ensures { GroupsGuarded first end self.old glyphs.old self.new result glyphs.new }
    {
        let count = self.try_guard(glyphs, first, end);
        if count == 0 {
            self.write(glyphs);
            self.start = first;
            self.end = first;
        }
        count
    }

    // The same, but 0 where that is not to be, and then all is as before.
    #[inline]
    fn try_guard(&mut self, glyphs: &mut [hb_glyph_info_t], first: usize, end: usize) -> usize
        requires fits { AreCarried self.old glyphs.old }
        requires in_order { first ≤ end }
        requires in_range { end ≤ length glyphs.old }
        ensures none { result ≡ 0 → StillSame self.old glyphs.old self.new glyphs.new }
        ensures some { 0 < result →
            GroupsGuarded first end self.old glyphs.old self.new result glyphs.new }
        ensures same_length { length glyphs.new ≡ length glyphs.old }
    {
        if first == end || first < self.end {
            return 0;
        }
        if !self.add_groups_to(glyphs, first) {
            return 0;
        }
        if !self.is_apart(glyphs) {
            return 0;
        }
        let count = self.count_from(least_cluster(&glyphs[first..end]));
        match self.represent_groups(glyphs, count) {
            Ok(()) => count,
            Err(_) => 0,
        }
    }

    /// Behind these merges: takes back the glyphs that stood for `count` groups, and puts the
    /// groups into their clusters.
    #[inline]
    pub fn take_back(&mut self, glyphs: &mut [hb_glyph_info_t], count: usize)
        requires fits { CanTakeBack self.old count glyphs.old }
        ensures settled { GroupsTakenBack self.old count glyphs.old self.new glyphs.new }
        ensures same_length { length glyphs.new ≡ length glyphs.old }
    {
        if count == 0 {
            return;
        }
        let place = self.end - count;
        let index = self.group_count() - count;
        self.read_from(&glyphs[place..self.end], index);
        put_back(
            self.kept.as_slice(),
            glyphs,
            place.saturating_sub(1),
            self.end,
        );
        self.join(glyphs);
    }

    // Puts the groups from one on into the clusters of glyphs, unless these are above their own.
    #[inline]
    fn read_from(&mut self, glyphs: &[hb_glyph_info_t], index: usize)
        requires { index + length glyphs.now ≡ length self.old.groups.items }
        ensures groups { let read = read_back glyphs.now (drop index self.old.groups.items) in
            self.new.groups.items ≡ take index self.old.groups.items ++ read }
        ensures start { self.new.start ≡ self.old.start }
        ensures end { self.new.end ≡ self.old.end }
        ensures kept { self.new.kept ≡ self.old.kept }
    {
        read_groups(glyphs, &mut self.groups.as_mut_slice()[index..]);
    }

    // How many groups there are.
    #[inline]
    fn group_count(&self) -> usize
        ensures { result ≡ length self.now.groups.items }
    {
        self.groups.len()
    }

    // A group.
    #[inline]
    fn group(&self, index: usize) -> ClusterGroup
        requires { index < length self.now.groups.items }
        ensures { result ≡ get_or self.now.groups.items index no_group }
    {
        self.groups.as_slice()[index]
    }

    // Adds the glyphs up to a place, each as a group or to one. False where there is no memory, or
    // no group.
    #[inline]
    fn add_groups_to(&mut self, glyphs: &mut [hb_glyph_info_t], place: usize) -> bool
        requires fits { AreCarried self.old glyphs.old }
        requires further { self.old.end ≤ place }
        requires in_range { place ≤ length glyphs.old }
        ensures same { with_groups self.new glyphs.new ≡ with_groups self.old glyphs.old }
        ensures fits { AreCarried self.new glyphs.new }
        ensures within { self.new.end ≤ place }
        ensures end { result ≡ true → self.new.end ≡ place }
        ensures some { result ≡ true → 0 < length self.new.groups.items }
        ensures same_length { length glyphs.new ≡ length glyphs.old }
    {
        while self.end < place {
            if self.add(glyphs).is_err() {
                return false;
            }
        }
        self.group_count() > 0
    }

    // Adds the glyph behind the groups.
    #[inline]
    fn add(&mut self, glyphs: &mut [hb_glyph_info_t]) -> Result<(), AllocError>
        requires fits { AreCarried self.old glyphs.old }
        requires inside { self.old.end < length glyphs.old }
        ensures same { with_groups self.new glyphs.new ≡ with_groups self.old glyphs.old }
        ensures fits { AreCarried self.new glyphs.new }
        ensures end { OnOk result (self.new.end ≡ self.old.end + 1) }
        ensures err { OnErr result (self.new.end ≡ self.old.end) }
        ensures same_length { length glyphs.new ≡ length glyphs.old }
    {
        let group = ClusterGroup {
            len: 1,
            cluster: glyphs[self.end].cluster,
        };
        self.groups.push(group)?;
        self.end += 1;
        self.join(glyphs);
        Ok(())
    }

    // Whether what stands before the groups ends in a cluster above that of the first one; and
    // there is one above that.
    #[inline]
    fn is_apart(&self, glyphs: &[hb_glyph_info_t]) -> bool
        requires some { 0 < length self.now.groups.items }
        requires in_range { self.now.start ≤ length glyphs.now }
        ensures { result ≡ true → GroupsApart self.now glyphs.now }
    {
        let cluster = self.group(0).cluster;
        cluster < u32::MAX && (self.start == 0 || glyphs[self.start - 1].cluster > cluster)
    }

    // How many groups from the last one back to the first one of a cluster below `least`, or all.
    #[inline]
    fn count_from(&self, least: u32) -> usize
        requires { 0 < length self.now.groups.items }
        ensures some { 0 < result }
        ensures within { result ≤ length self.now.groups.items }
        ensures stops { result < length self.now.groups.items →
            first_group_cluster (drop (length self.now.groups.items - result) self.now.groups.items) < least }
    {
        let mut index = self.group_count() - 1;
        while index > 0 && self.group(index).cluster >= least {
            index -= 1;
        }
        self.group_count() - index
    }

    // Lets one glyph stand for each of the last `count` groups, and one with another cluster before
    // these.
    #[inline]
    fn represent_groups(
        &mut self,
        glyphs: &mut [hb_glyph_info_t],
        count: usize,
    ) -> Result<(), AllocError>
        requires some { 0 < count }
        requires within { count ≤ length self.old.groups.items }
        requires fits { AreCarried self.old glyphs.old }
        requires apart { GroupsApart self.old glyphs.old }
        ensures shown { OnOk result (AreShown count self.old glyphs.old self.new glyphs.new) }
        ensures err { OnErr result (glyphs.new ≡ glyphs.old) }
        ensures groups { self.new.groups ≡ self.old.groups }
        ensures start { self.new.start ≡ self.old.start }
        ensures end { self.new.end ≡ self.old.end }
    {
        let place = self.end - count;
        self.kept.truncate(0);
        self.kept
            .extend_from_slice(&glyphs[place.saturating_sub(1)..self.end])?;
        self.show_from(glyphs, self.group_count() - count, place);
        put_before(glyphs, place, self.group(0).cluster + 1);
        Ok(())
    }

    // Lets one glyph stand for each group from one on, the first of them at this place.
    #[inline]
    fn show_from(&self, glyphs: &mut [hb_glyph_info_t], index: usize, place: usize)
        requires some { index ≤ length self.now.groups.items }
        requires in_range { self.now.end ≤ length glyphs.old }
        requires room { place + (length self.now.groups.items - index) ≡ self.now.end }
        ensures { let groups = drop index self.now.groups.items in
            glyphs.new ≡ with_stretch place self.now.end (shown_groups groups) glyphs.old }
    {
        show_groups(self.groups_from(index), &mut glyphs[place..self.end]);
    }

    // The groups from one on.
    #[inline]
    fn groups_from(&self, index: usize) -> &[ClusterGroup]
        requires { index ≤ length self.now.groups.items }
        ensures { result.now ≡ drop index self.now.groups.items }
    {
        &self.groups.as_slice()[index..]
    }

    // Joins the last groups that are in one cluster, and writes those that stand before one of a
    // lower cluster.
    #[inline]
    fn join(&mut self, glyphs: &mut [hb_glyph_info_t])
        requires fits { AreCarried self.old glyphs.old }
        ensures same { with_groups self.new glyphs.new ≡ with_groups self.old glyphs.old }
        ensures fits { AreCarried self.new glyphs.new }
        ensures end { self.new.end ≡ self.old.end }
        ensures same_length { length glyphs.new ≡ length glyphs.old }
    {
        while self.group_count() >= 2 {
            let count = self.group_count();
            let before = self.group(count - 2);
            let last = self.group(count - 1);
            if before.cluster < last.cluster {
                return;
            }
            if before.cluster > last.cluster {
                self.write_before(glyphs);
                return;
            }
            self.join_last();
        }
    }

    // Makes one group of the last two, which are in one cluster.
    #[inline]
    fn join_last(&mut self)
        requires two { 2 ≤ length self.old.groups.items }
        requires room { len_of self.old.groups.items < 2 ^ 64 }
        ensures groups { self.new.groups.items ≡ joined_end self.old.groups.items }
        ensures start { self.new.start ≡ self.old.start }
        ensures end { self.new.end ≡ self.old.end }
    {
        let count = self.group_count();
        let last = self.group(count - 1);
        let before = self.group(count - 2);
        self.groups.truncate(count - 1);
        self.groups[count - 2] = ClusterGroup {
            len: before.len + last.len,
            ..before
        };
    }

    // Writes all groups but the last one.
    #[inline]
    fn write_before(&mut self, glyphs: &mut [hb_glyph_info_t])
        requires fits { AreCarried self.old glyphs.old }
        requires some { 0 < length self.old.groups.items }
        ensures same { with_groups self.new glyphs.new ≡ with_groups self.old glyphs.old }
        ensures fits { AreCarried self.new glyphs.new }
        ensures end { self.new.end ≡ self.old.end }
        ensures same_length { length glyphs.new ≡ length glyphs.old }
    {
        let before = self.group_count() - 1;
        write_groups(&self.groups.as_slice()[..before], glyphs, self.start);
        let last = self.group(before);
        self.groups[0] = last;
        self.groups.truncate(1);
        self.start = self.end - last.len;
    }
}

// Puts the glyphs of groups, which begin at a place, into their clusters.
#[inline]
fn write_groups(groups: &[ClusterGroup], glyphs: &mut [hb_glyph_info_t], start: usize)
    requires { start + len_of groups.now ≤ length glyphs.old }
    ensures { let put = grouped groups.now (drop start glyphs.old) in
        glyphs.new ≡ take start glyphs.old
        ++ (put ++ drop (start + len_of groups.now) glyphs.old) }
{
    let mut place = start;
    for group in groups {
        let end = place + group.len;
        put_into(glyphs, place, end, group.cluster);
        place = end;
    }
}

// Puts glyphs into a cluster.
#[inline]
fn put_into(glyphs: &mut [hb_glyph_info_t], place: usize, end: usize, cluster: u32)
    requires in_order { place ≤ end }
    requires in_range { end ≤ length glyphs.old }
    ensures { glyphs.new ≡ with_stretch place end (map (in_cluster cluster)) glyphs.old }
{
    change_each_by_in(
        &mut glyphs[place..end],
        |glyph| put_into_cluster(glyph, cluster),
    );
}

// Puts other glyphs into a stretch.
#[inline]
fn put_back(kept: &[hb_glyph_info_t], glyphs: &mut [hb_glyph_info_t], place: usize, end: usize)
    requires in_order { place ≤ end }
    requires in_range { end ≤ length glyphs.old }
    requires long { length kept.now ≡ end - place }
    ensures { glyphs.new ≡ with_stretch place end (λ gs. kept.now) glyphs.old }
{
    glyphs[place..end].copy_from_slice(kept);
}

// Gives the glyph before a place, if there is one, another cluster.
#[inline]
fn put_before(glyphs: &mut [hb_glyph_info_t], place: usize, cluster: u32)
    requires { place ≤ length glyphs.old }
    ensures { glyphs.new ≡ put_before place cluster glyphs.old }
{
    if place > 0 {
        glyphs[place - 1].cluster = cluster;
    }
}

// Lets glyphs stand for groups, one for each.
#[inline]
fn show_groups(groups: &[ClusterGroup], glyphs: &mut [hb_glyph_info_t])
    requires { length groups.now ≤ length glyphs.old }
    ensures { glyphs.new ≡ shown_groups groups.now glyphs.old }
{
    for i in 0..groups.len() {
        glyphs[i].cluster = groups[i].cluster;
    }
}

// Puts groups into the clusters of glyphs, unless these are above their own.
#[inline]
fn read_groups(glyphs: &[hb_glyph_info_t], groups: &mut [ClusterGroup])
    requires { length glyphs.now ≡ length groups.old }
    ensures { groups.new ≡ read_back glyphs.now groups.old }
{
    for i in 0..glyphs.len() {
        groups[i].cluster = groups[i].cluster.min(glyphs[i].cluster);
    }
}
