ghost use Rattle.std.specs.Prelude.{◌≡◌, ℕ, ◌+◌, ◌<◌, ◌≤◌, ◌↔◌, false, true, IsTrue, OnOk, OnErr, IfOk, Any, [], ◌∷◌, ◌++◌, take, map, vec_len, vec_capacity};
ghost use Rattle.tre_pairs.specs.Pairs.{Either, Both, Lasting};
ghost use Rattle.tre_zone.specs.Interval.{LastsWithin};
ghost use Rattle.tre_zone.specs.Longest.{LastsUpTo, IsLongest};
ghost use Rattle.tre_zone.specs.Zone.{ZoneHolds, Includes, HasNoPair, EndsAt, row_of};
ghost use Rattle.tre_zone.specs.ZoneList.{SetHolds, IsApartFrom, AreCanonical, AreTight, HoldExactly};
ghost use Rattle.tre_index.specs.Turn.{AreInTurn};
ghost use Rattle.tre_zoneset.specs.ZoneSet.{IsZoneSet, Without, Stays, IsAdded, FoundHolds, IsThinned, IsKept};
ghost use Rattle.tre_zoneset.specs.Cut.{Leaves, IsCut, IsCutSet};

use crate::cut::{Cut, cut_each, leaves_all};
use crate::merge::{in_order, merged};
use crate::near::thin_near;
use crate::rise::{all_apart, all_rise};
use std::alloc::{AllocError, Global};
use std::marker::Model;
use tre_index::{ZoneIndex, are_in_turn, find_stretch, key_meeting};
use tre_pairs::TIME_MAX;
use tre_zone::{Interval, Zone};

mod into_zones;

/// So few zones are looked at one by one, without an index.
const FEW: usize = 8;

// Of so many zones each is compared with those before it sooner than an index over them is made.
const FEW_TO_COMPARE: usize = 24;

// How many looks for each zone are no dearer than an index.
const LOOKS_PER_ZONE: usize = 8;

/// A finite union of zones, none of which is included in another.
#[derive(Drop)]
pub struct ZoneSet {
    zones: Vec<Zone>,
}

impl Model for ZoneSet {
    ghost use Rattle.std.specs.Prelude.{List};
    ghost use Rattle.tre_zone.specs.declared.zone_bounds.ZoneBounds.{ZoneBounds};
    ghost use Rattle.tre_zoneset.specs.ZoneSet.{IsZoneSet};

    ghost Value = { List ZoneBounds };

    ghost view = { λ set. set.zones.items };

    ghost invariant = { λ set. IsZoneSet set.zones.items };
}

impl ZoneSet {
    /// The empty set.
    pub fn new(alloc: Global) -> ZoneSet
        ensures { result ≡ [] }
    {
        ZoneSet {
            zones: Vec::new(alloc),
        }
    }

    /// The set of what the zones hold: of them it has those that no other includes.
    pub fn of_zones(alloc: Global, zones: Vec<Zone>) -> Result<ZoneSet, AllocError>
        ensures { IfOk result (λ set. HoldExactly set (SetHolds zones.items)) }
    {
        if all_rise(&zones) {
            return Ok(ZoneSet { zones });
        }
        let zones = none_included(alloc, zones)?;
        Ok(ZoneSet { zones })
    }

    /// The zones as they stand: a zone that is added comes last.
    pub fn zones(&self) -> &[Zone]
        ensures same { result.now ≡ self.now }
        ensures set { IsZoneSet self.now }
        ensures tight { AreTight self.now }
    {
        &self.zones
    }

    /// Whether there is no zone, and so no pair.
    pub fn is_empty(&self) -> bool
        ensures { IsTrue result ↔ (self.now ≡ []) }
    {
        self.zones.is_empty()
    }

    /// Whether the pair of the times `a/n` and `b/n` is in one of the zones.
    pub fn holds(&self, a: u64, b: u64, n: u32) -> bool
        requires { 0 < n }
        ensures { IsTrue result ↔ SetHolds self.now a b n }
    {
        self.zones.iter().any(|zone| zone.holds(a, b, n))
    }

    /// Adds a zone, and says whether it was added: one that a member includes is not, and the set
    /// stays as it is. An added zone comes last, and the members that it includes go.
    pub fn add(&mut self, zone: Zone) -> Result<bool, AllocError>
        // A zone that is included needs no memory, and so is never refused for want of it.
        ensures included { (result ≡ Ok false) ↔ Any (λ member. Includes member zone) self.old }
        ensures unchanged { result ≡ Ok false → self.new ≡ self.old }
        ensures added { result ≡ Ok true → IsAdded self.old zone self.new }
        ensures err { OnErr result (self.new ≡ self.old) }

        ensures held { OnOk result
            (HoldExactly self.new (Either (SetHolds self.old) (ZoneHolds zone))) }
        ensures set { IsZoneSet self.new }
    {
        // For the proof: the call says that the zone is canonical.
        let _bounds = zone.bounds();
        if some_includes(&self.zones, &zone) {
            return Ok(false);
        }
        put_last(&mut self.zones, zone)?;
        Ok(true)
    }

    /// Adds the zone that was found, if there is one.
    pub fn add_found(&mut self, zone: Option<Zone>) -> Result<(), AllocError>
        ensures held { OnOk result
            (HoldExactly self.new (Either (SetHolds self.old) (FoundHolds zone))) }
        ensures err { OnErr result (self.new ≡ self.old) }
    {
        if let Some(zone) = zone {
            self.add(zone)?;
        }
        Ok(())
    }

    /// Adds a zone that is known to be apart from each member, in constant time.
    pub fn push_apart(&mut self, zone: Zone) -> Result<(), AllocError>
        requires { IsApartFrom zone self.old }
        ensures ok { OnOk result (self.new ≡ self.old ++ zone ∷ []) }
        ensures held { OnOk result
            (HoldExactly self.new (Either (SetHolds self.old) (ZoneHolds zone))) }
        ensures err { OnErr result (self.new ≡ self.old) }
    {
        // For the proof: the call says that the zone is canonical.
        let _bounds = zone.bounds();
        self.zones.push(zone)?;
        Ok(())
    }

    /// `push_apart`, for a zone that shares no pair with the set: as where its pairs all end later.
    pub fn push_disjoint(&mut self, zone: Zone) -> Result<(), AllocError>
        requires { HasNoPair (Both (SetHolds self.old) (ZoneHolds zone)) }
        ensures ok { OnOk result (self.new ≡ self.old ++ zone ∷ []) }
        ensures held { OnOk result
            (HoldExactly self.new (Either (SetHolds self.old) (ZoneHolds zone))) }
        ensures err { OnErr result (self.new ≡ self.old) }
    {
        // For the proof: what the set and the zone are before the call.
        let _zones = &self.zones;
        let _bounds = zone.bounds();
        self.push_apart(zone)
    }

    /// Adds the zones of `other`: the set then has the zones that adding one by one would leave, in
    /// the order of their begins where they were mixed.
    pub fn join(&mut self, other: &ZoneSet) -> Result<(), AllocError>
        ensures held { OnOk result
            (HoldExactly self.new (Either (SetHolds self.old) (SetHolds other.now))) }
        // Where memory ran out, a first part of them was added.
        ensures err { OnErr result ((k : ℕ)
            × HoldExactly self.new (Either (SetHolds self.old) (SetHolds (take k other.now)))) }
    {
        if other.is_empty() {
            return Ok(());
        }
        let joined = self.joined(other)?;
        *self = joined;
        Ok(())
    }

    /// `join`, for a set that shares no pair with this one: its zones come last, as they stand.
    pub fn join_disjoint(&mut self, other: &ZoneSet) -> Result<(), AllocError>
        requires { HasNoPair (Both (SetHolds self.old) (SetHolds other.now)) }
        ensures ok { OnOk result (self.new ≡ self.old ++ other.now) }
        ensures held { OnOk result
            (HoldExactly self.new (Either (SetHolds self.old) (SetHolds other.now))) }
        ensures err { OnErr result (self.new ≡ self.old) }
    {
        // For the proof: what the set is before the call.
        let _zones = &self.zones;
        self.zones.extend_from_slice(other.zones())?;
        Ok(())
    }

    /// The pairs in both sets.
    pub fn meet(&self, other: &ZoneSet) -> Result<ZoneSet, AllocError>
        ensures { IfOk result (λ set.
            HoldExactly set (Both (SetHolds self.now) (SetHolds other.now))) }
    {
        let alloc = *self.zones.allocator();
        let found = meets_of(alloc, self.zones(), other.zones())?;
        ZoneSet::of_zones(alloc, found)
    }

    /// The pairs whose duration is in the interval.
    pub fn within(&self, interval: &Interval) -> Result<ZoneSet, AllocError>
        ensures { IfOk result (λ set.
            HoldExactly set (Lasting (LastsWithin interval.now) (SetHolds self.now))) }
    {
        let cut = Cut::Within(*interval);
        if let Some(lasting) = self.cut_of(&cut)? {
            return Ok(lasting);
        }
        self.try_clone()
    }

    /// The same of a set that is not needed any more: the set itself where all of them are.
    pub fn into_within(self, interval: &Interval) -> Result<ZoneSet, AllocError>
        ensures { IfOk result (λ set.
            HoldExactly set (Lasting (LastsWithin interval.now) (SetHolds self))) }
    {
        let cut = Cut::Within(*interval);
        self.into_cut(&cut)
    }

    /// The pairs that last at most `longest`: the set itself where all of them do.
    pub fn up_to(self, longest: Option<u64>) -> Result<ZoneSet, AllocError>
        requires { IsLongest longest }
        ensures { IfOk result (λ set.
            HoldExactly set (Lasting (LastsUpTo longest) (SetHolds self))) }
    {
        let cut = Cut::UpTo(longest);
        self.into_cut(&cut)
    }

    /// The pairs that end at `time`; of zones that touch there, each stretch is one zone.
    pub fn ending_at(&self, time: u64) -> Result<ZoneSet, AllocError>
        requires { time ≤ TIME_MAX }
        ensures { IfOk result (λ set. HoldExactly set (Both (SetHolds self.now) (EndsAt time))) }
    {
        let alloc = *self.zones.allocator();
        let cut = Cut::EndingAt(time);
        let found = cut_each(alloc, self.zones(), &cut)?;
        ZoneSet::of_touching(alloc, found)
    }

    // What the cut leaves of a set that is not needed any more.
    fn into_cut(self, cut: &Cut) -> Result<ZoneSet, AllocError>
        requires { IsCut cut.now }
        ensures { IfOk result (λ set.
            HoldExactly set (Both (SetHolds self) (Leaves cut.now))) }
    {
        if let Some(set) = self.cut_of(cut)? {
            return Ok(set);
        }
        Ok(self)
    }

    // What the cut leaves of the pairs, None where it leaves all.
    fn cut_of(&self, cut: &Cut) -> Result<Option<ZoneSet>, AllocError>
        requires { IsCut cut.now }
        ensures { IfOk result (λ found. IsCutSet found cut.now self.now) }
    {
        if leaves_all(cut, self.zones()) {
            return Ok(None);
        }
        let alloc = *self.zones.allocator();
        let found = cut_each(alloc, self.zones(), cut)?;
        let set = ZoneSet::of_zones(alloc, found)?;
        Ok(Some(set))
    }

    // The pairs in either set.
    fn joined(&self, other: &ZoneSet) -> Result<ZoneSet, AllocError>
        ensures { IfOk result (λ set.
            HoldExactly set (Either (SetHolds self.now) (SetHolds other.now))) }
    {
        let alloc = *self.zones.allocator();
        let zones = merged(alloc, self.zones(), other.zones())?;
        ZoneSet::of_zones(alloc, zones)
    }

    /// The same zones in the same order.
    pub fn try_clone(&self) -> Result<ZoneSet, AllocError>
        ensures { IfOk result (λ set. set ≡ self.now) }
    {
        let zones = self.zones.clone()?;
        Ok(ZoneSet { zones })
    }
}

/// Whether there are so few zones that each is looked at, and no index is worth its making.
pub fn are_few(zones: &[Zone]) -> bool {
    zones.len() <= FEW
}

/// The zones with an index over them.
pub fn index_of(alloc: Global, zones: &[Zone]) -> Result<ZoneIndex, AllocError>
    ensures { IfOk result (λ index. index ≡ zones.now) }
{
    let list = Vec::from_slice(alloc, zones)?;
    ZoneIndex::of_list(alloc, list)
}

/// Adds the zone that was found to a list, if there is one: lists that are to become a set.
pub fn gather(found: &mut Vec<Zone>, zone: Option<Zone>) -> Result<(), AllocError>
    ensures { OnOk result (HoldExactly found.new.items
        (Either (SetHolds found.old.items) (FoundHolds zone))) }
{
    if let Some(zone) = zone {
        found.push(zone)?;
    }
    Ok(())
}

// What the zones have in common with the others, two by two.
fn meets_of(alloc: Global, zones: &[Zone], others: &[Zone]) -> Result<Vec<Zone>, AllocError>
    requires { AreCanonical others.now }
    ensures { IfOk result (λ found.
        HoldExactly found.items (Both (SetHolds zones.now) (SetHolds others.now))) }
{
    if are_in_turn(others) && is_short_pass(zones, others) {
        return meets_in_turn(alloc, zones, others);
    }
    meets_by_index(alloc, zones, others)
}

/// Whether one pass over both looks at few zones, for each of all. Where many begin together and
/// differ by their ends or durations alone, it would look at most of them in vain.
pub fn is_short_pass(zones: &[Zone], others: &[Zone]) -> bool
    requires { AreInTurn (map row_of others.now) }
{
    let few = zones
        .len()
        .saturating_add(others.len())
        .saturating_mul(LOOKS_PER_ZONE);
    let mut near = 0;
    let mut looks: usize = 0;
    for zone in zones {
        let stretch = find_stretch(others, near, &key_meeting(zone));
        looks = looks.saturating_add(stretch.to - stretch.from);
        if looks > few {
            return false;
        }
        near = stretch.from;
    }
    true
}

// What the zones have in common with the others, which stand in the order of time: one pass over
// both.
fn meets_in_turn(alloc: Global, zones: &[Zone], others: &[Zone]) -> Result<Vec<Zone>, AllocError>
    requires turn { AreInTurn (map row_of others.now) }
    requires others { AreCanonical others.now }
    ensures { IfOk result (λ found.
        HoldExactly found.items (Both (SetHolds zones.now) (SetHolds others.now))) }
{
    let mut found = Vec::new(alloc);
    let mut near = 0;
    for zone in zones {
        near = gather_near_meets(&mut found, zone, others, near)?;
    }
    Ok(found)
}

// Adds what the zone has in common with the others to a list: by looking at those around the place
// `near` that begin when it does. Gives the place of the first of them.
fn gather_near_meets(
    found: &mut Vec<Zone>,
    zone: &Zone,
    others: &[Zone],
    near: usize,
) -> Result<usize, AllocError>
    requires turn { AreInTurn (map row_of others.now) }
    requires others { AreCanonical others.now }
    ensures { OnOk result (HoldExactly found.new.items
        (Either (SetHolds found.old.items) (Both (ZoneHolds zone.now) (SetHolds others.now)))) }
{
    let key = key_meeting(zone);
    let stretch = find_stretch(others, near, &key);
    gather_each_meet(found, zone, &others[stretch.from..stretch.to])?;
    Ok(stretch.from)
}

// Adds what the zone has in common with each of the others to a list: by looking at each.
fn gather_each_meet(found: &mut Vec<Zone>, zone: &Zone, others: &[Zone]) -> Result<(), AllocError>
    ensures { OnOk result (HoldExactly found.new.items
        (Either (SetHolds found.old.items) (Both (ZoneHolds zone.now) (SetHolds others.now)))) }
{
    for other in others {
        gather(found, zone.meet(other))?;
    }
    Ok(())
}

// What the zones have in common with the others, by an index over these.
fn meets_by_index(alloc: Global, zones: &[Zone], others: &[Zone]) -> Result<Vec<Zone>, AllocError>
    requires { AreCanonical others.now }
    ensures { IfOk result (λ found.
        HoldExactly found.items (Both (SetHolds zones.now) (SetHolds others.now))) }
{
    let mut found = Vec::new(alloc);
    let index = index_of(alloc, others)?;
    for zone in zones {
        gather_meets(&mut found, zone, &index)?;
    }
    Ok(found)
}

// Adds what the zone has in common with each of the others to a list.
fn gather_meets(found: &mut Vec<Zone>, zone: &Zone, others: &ZoneIndex) -> Result<(), AllocError>
    requires { AreCanonical others.now }
    ensures { OnOk result (HoldExactly found.new.items
        (Either (SetHolds found.old.items) (Both (ZoneHolds zone.now) (SetHolds others.now)))) }
{
    let key = key_meeting(zone);
    let items = others.items();
    let count = items.len();
    let mut place = 0;
    while place < count {
        match others.next_at_least(place, &key) {
            Some(next) => {
                gather(found, zone.meet(&items[next]))?;
                place = next + 1;
            }
            None => return Ok(()),
        }
    }
    Ok(())
}

// Whether the zones are seen to be apart as they stand: all of them by their order, and a few by
// looking at each two.
fn stand_apart(zones: &[Zone]) -> bool
    ensures { IsTrue result → IsZoneSet zones.now }
{
    all_rise(zones) || are_few(zones) && all_apart(zones)
}

// Those of the zones that no other includes.
fn none_included(alloc: Global, zones: Vec<Zone>) -> Result<Vec<Zone>, AllocError>
    ensures held { IfOk result (λ kept. HoldExactly kept.items (SetHolds zones.items)) }
    ensures set { IfOk result (λ kept. IsZoneSet kept.items) }
{
    let zones = in_order(zones);
    if stand_apart(&zones) {
        return Ok(zones);
    }
    if are_soon_compared(&zones) {
        return few_apart(alloc, &zones);
    }
    let looks = zones.len().saturating_mul(LOOKS_PER_ZONE);
    if let Some(near) = thin_near(alloc, &zones, looks)? {
        return Ok(near.into_zones());
    }
    let mut turned = thin(alloc, &zones)?;
    drop(zones);
    turned.reverse();
    let mut kept = thin(alloc, &turned)?;
    kept.reverse();
    Ok(kept)
}

// Whether there are so few zones that comparing each with those before it is soon done.
fn are_soon_compared(zones: &[Zone]) -> bool {
    zones.len() <= FEW_TO_COMPARE
}

// The same of a few zones: each is looked at beside those before it, without an index.
fn few_apart(alloc: Global, zones: &[Zone]) -> Result<Vec<Zone>, AllocError>
    ensures held { IfOk result (λ kept. HoldExactly kept.items (SetHolds zones.now)) }
    ensures set { IfOk result (λ kept. IsZoneSet kept.items) }
{
    let mut kept = ZoneSet::new(alloc);
    for zone in zones {
        kept.add(*zone)?;
    }
    Ok(kept.into_zones())
}

// Those of the zones that none before them includes.
fn thin(alloc: Global, zones: &[Zone]) -> Result<Vec<Zone>, AllocError>
    ensures { IfOk result (λ kept. IsThinned zones.now kept.items) }
{
    let mut kept = ZoneIndex::new(alloc);
    for zone in zones {
        keep(&mut kept, zone)?;
    }
    Ok(kept.into_items())
}

// Keeps the zone too, where no kept one includes it.
fn keep(kept: &mut ZoneIndex, zone: &Zone) -> Result<(), AllocError>
    ensures { OnOk result (IsKept kept.old zone.now kept.new) }
{
    // For the proof: the call says that the zone is canonical.
    let _bounds = zone.bounds();
    if !kept.includes(zone) {
        kept.push(*zone)?;
    }
    Ok(())
}

// Whether one of the zones includes the other.
fn some_includes(zones: &[Zone], zone: &Zone) -> bool
    ensures { IsTrue result ↔ Any (λ member. Includes member zone.now) zones.now }
{
    zones.iter().any(|member| member.includes(zone))
}

// Adds the zone at the end, in place of those that it includes.
fn put_last(zones: &mut Vec<Zone>, zone: Zone) -> Result<(), AllocError>
    ensures ok { OnOk result (IsAdded zones.old.items zone zones.new.items) }
    ensures err { OnErr result (zones.new.items ≡ zones.old.items) }
{
    zones.reserve(1)?;
    drop_included(zones, &zone);
    zones.push(zone)?;
    Ok(())
}

// Drops the zones that the other includes.
fn drop_included(zones: &mut Vec<Zone>, zone: &Zone)
    ensures kept { Without (Includes zone.now) zones.old.items zones.new.items }
    ensures fewer { vec_len zones.new ≤ vec_len zones.old }
    ensures room { vec_capacity zones.new ≡ vec_capacity zones.old }
{
    zones.retain(|member| stays(zone, member));
}

// Whether a member stays where the zone is added.
fn stays(zone: &Zone, member: &Zone) -> bool
    ensures { Stays result zone.now member.now }
{
    !zone.includes(member)
}
