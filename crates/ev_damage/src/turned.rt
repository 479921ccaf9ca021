// Pairs that come in the other order.
ghost use Rattle.std.specs.Prelude.{◌≡◌, ◌≢◌, ◌<◌, ◌&&◌, ◌==◌, false, map, AllPairs, All, IfOk, OnOk};
ghost use Rattle.std.specs.List.{list_any};
ghost use Rattle.ev_geom.specs.Area.{holds};
ghost use Rattle.ev_geom.specs.Bands.{FitsRegion};
ghost use Rattle.ev_damage.specs.Places.{in_higher, in_turned, Adds, StandsAt};

use ev_geom::Rect;
use ev_region::{NoMemory, Region};
use std::alloc::Global;

// An area, with the place in which it comes.
#[derive(Clone, Copy)]
pub(crate) struct Placed {
    pub(crate) at: usize,
    pub(crate) area: Rect,
}

// Adds the common pixels of each two areas of which the later one is placed lower. Each area is put in its place among
// those before it, past just those with which it has turned.
pub(crate) fn add_turned(
    alloc: Global,
    region: &mut Region,
    placed: &[Placed],
) -> Result<(), NoMemory>
    requires places { AllPairs (λ i j. i ≢ j) (map (λ p. p.at) placed.now) }
    requires areas { All (λ p. FitsRegion p.area) placed.now }
    ensures { OnOk result (Adds (in_turned placed.now) region.old region.new) }
{
    let mut sorted = Vec::new(alloc);
    for place in placed {
        let n = add_higher(region, &sorted, place)?;
        sorted.insert(n, *place)?;
    }
    Ok(())
}

// Adds the common pixels with the areas that are placed higher. Gives how many are placed lower.
fn add_higher(region: &mut Region, sorted: &[Placed], place: &Placed) -> Result<usize, NoMemory>
    requires rising { AllPairs (λ p q. p.at < q.at) sorted.now }
    requires new { list_any (λ p. p.at == place.now.at) sorted.now ≡ false }
    requires area { FitsRegion place.now.area }
    ensures added { OnOk result (Adds (in_higher place.now sorted.now) region.old region.new) }
    ensures stands { IfOk result (λ n. StandsAt sorted.now place.now.at n) }
{
    let mut n = sorted.len();
    while 0 < n && place.at < sorted[n - 1].at {
        n -= 1;
        add_meet(region, &sorted[n].area, &place.area)?;
    }
    Ok(n)
}

// Adds the common pixels of two areas.
fn add_meet(region: &mut Region, one: &Rect, other: &Rect) -> Result<(), NoMemory>
    requires { FitsRegion other.now }
    ensures { OnOk result (Adds (λ x y. holds one.now x y && holds other.now x y) region.old region.new) }
{
    let both = one.meet(other);
    if !both.is_empty() {
        region.add_rect(&both)?;
    }
    Ok(())
}
