//! Which addresses may be freed, wherever they lead.
//!
//! The visits of an address tell it: the parts that are there must be in use by blocks and without a common unit, no hop may
//! have an obsolete unit, and no entry on the way may have more obsolete units, and units that the hops have, than units.
ghost use Rattle.std.specs.Prelude.{◌≡◌, ◌+◌, ◌<◌, ◌≤◌, ◌^◌, ◌↔◌, true, IsTrue, IfOk, length, All};
ghost use Rattle.std.specs.List.{list_any};
ghost use Rattle.zr_rules.specs.Equation.{devices_in};
ghost use Rattle.zr_rules.specs.Places.{is_gone, state_of_dev};
ghost use Rattle.zr_space.specs.Live.{IsFreeable};
ghost use Rattle.zr_space.specs.Freeing.{AreApart, IsKnown, IsFit, IsInUse, IsUnmarked, HasRoomIn, HaveRoom, RoomAt, MayFree, hops_in, is_hop_at, is_shared};

use crate::space::Space;
use zr_base::{Dva, Entry, Extent, NoMemory};
use zr_chain::{ChainErr, Collected, Maps, Visited, begun_before, ended_by};

// Whether two parts that are there have a common unit: the later one's first.
fn is_shared(v: Visited, w: Visited) -> bool
    ensures { result ≡ is_shared v w }
{
    let Visited::Piece { dev, at, .. } = v else {
        return false;
    };
    let Visited::Piece {
        dev: other,
        at: later,
        ..
    } = w
    else {
        return false;
    };
    let first = at.start.max(later.start);
    dev == other && first - at.start < at.len && first - later.start < later.len
}

// Whether a part that is there has a unit of one of the others.
fn is_shared_with(v: Visited, others: &[Visited]) -> bool
    ensures { result ≡ list_any (is_shared v) others.now }
{
    others.iter().any(|w| is_shared(v, *w))
}

// Whether no two of the parts that are there have a common unit. It compares each with each.
fn are_apart(visits: &[Visited]) -> bool
    ensures { IsTrue result ↔ AreApart visits.now }
{
    let mut rest = visits;
    while let Some((first, tail)) = rest.split_first() {
        if is_shared_with(*first, tail) {
            return false;
        }
        rest = tail;
    }
    true
}

// Whether the visit is a hop that has the unit of a device.
fn is_hop_at(v: Visited, dev: u32, u: u64) -> bool
    ensures { result ≡ is_hop_at dev u v }
{
    match v {
        Visited::Hop { dev: d, at } => d == dev && at.start <= u && u - at.start < at.len,
        Visited::Piece { .. } => false,
    }
}

// Whether a hop has the unit of a device.
fn has_hop(visits: &[Visited], dev: u32, u: u64) -> bool
    ensures { result ≡ list_any (is_hop_at dev u) visits.now }
{
    visits.iter().any(|v| is_hop_at(*v, dev, u))
}

// How many units of an entry the hops have.
fn hops_in(visits: &[Visited], dev: u32, entry: Entry) -> u32
    requires { entry.src + entry.len ≤ 2 ^ 62 }
    ensures hops { result ≡ hops_in visits.now dev entry }
    ensures few { result ≤ entry.len }
{
    let mut count = 0;
    for k in 0..entry.len {
        count += u32::from(has_hop(visits, dev, entry.src + u64::from(k)));
    }
    count
}

impl Space {
    /// Whether an address may be freed. It visits its parts. For each entry that it meets on the way it takes a look at
    /// each part for each of its units, of which there are 256 at most.
    pub fn is_freeable(&self, a: Dva) -> Result<bool, NoMemory>
        ensures { IfOk result (λ answer. IsTrue answer ↔ IsFreeable self.now a) }
    {
        if a.len == 0 {
            return Ok(false);
        }
        self.lawful();
        let mut told = Collected::new(self.alloc);
        match self.remap(a, &mut told) {
            Ok(()) => Ok(self.may_free(told.list.as_slice())),
            Err(ChainErr::NoEntry { .. }) => Ok(false),
            Err(ChainErr::NoMemory) => Err(NoMemory),
        }
    }

    // Whether the visits of an address allow that it is freed.
    fn may_free(&self, visits: &[Visited]) -> bool
        requires { All (IsKnown (devices_in self.now)) visits.now }
        ensures { IsTrue result ↔ MayFree self.now visits.now }
    {
        if !are_apart(visits) {
            return false;
        }
        if !self.are_fit(visits) {
            return false;
        }
        self.have_room(visits)
    }

    // Whether no hop has an obsolete unit, and each part that is there is in use by blocks.
    fn are_fit(&self, visits: &[Visited]) -> bool
        requires { All (IsKnown (devices_in self.now)) visits.now }
        ensures { IsTrue result ↔ All (IsFit self.now) visits.now }
    {
        for v in visits {
            if !self.is_fit(*v) {
                return false;
            }
        }
        true
    }

    fn is_fit(&self, v: Visited) -> bool
        requires { IsKnown (devices_in self.now) v }
        ensures { IsTrue result ↔ IsFit self.now v }
    {
        match v {
            Visited::Hop { dev, at } => self.is_unmarked(dev, at),
            Visited::Piece { dev, at, .. } => self.is_in_use(dev, at),
        }
    }

    // Whether no unit of an extent is obsolete.
    fn is_unmarked(&self, dev: u32, e: Extent) -> bool
        requires { dev < length self.now.parts.devs }
        ensures { IsTrue result ↔ IsUnmarked self.now dev e }
    {
        let device = &self.devs[dev as usize];
        device.moves.is_unmarked(e)
    }

    // Whether each unit of an extent is in use by a block.
    fn is_in_use(&self, dev: u32, e: Extent) -> bool
        requires { dev < length self.now.parts.devs }
        ensures { IsTrue result ↔ IsInUse self.now dev e }
    {
        let device = &self.devs[dev as usize];
        if !device.units.held().covers(e) {
            return false;
        }
        if !device.units.kept().is_apart(e) {
            return false;
        }
        device.units.copies().is_apart(e)
    }

    // Whether no entry on the way has more obsolete units, and units that the hops have, than units.
    fn have_room(&self, visits: &[Visited]) -> bool
        requires { All (IsKnown (devices_in self.now)) visits.now }
        ensures { IsTrue result ↔ HaveRoom self.now visits.now }
    {
        let _devs = &self.devs;
        for v in visits {
            if !self.has_room_at(visits, *v) {
                return false;
            }
        }
        true
    }

    fn has_room_at(&self, visits: &[Visited], v: Visited) -> bool
        requires { IsKnown (devices_in self.now) v }
        ensures { IsTrue result ↔ RoomAt self.now visits.now v }
    {
        match v {
            Visited::Hop { dev, at } => self.has_room(visits, dev, at),
            Visited::Piece { .. } => true,
        }
    }

    // Whether that holds of the entries that an extent of a device that is gone meets.
    fn has_room(&self, visits: &[Visited], dev: u32, e: Extent) -> bool
        requires known { dev < length self.now.parts.devs }
        requires gone { is_gone (state_of_dev self.now.parts.devs dev) ≡ true }
        ensures { IsTrue result ↔ HasRoomIn self.now visits.now dev e }
    {
        let device = &self.devs[dev as usize];
        let map = self.map(dev);
        for i in ended_by(map, e.start)..begun_before(map, e) {
            let entry = map.entry(i);
            let obsolete = device.moves.obsolete_in(i);
            if obsolete + hops_in(visits, dev, entry) > entry.len {
                return false;
            }
        }
        true
    }
}
