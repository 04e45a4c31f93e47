// The areas of the objects.
ghost use Rattle.std.specs.Prelude.{◌≡◌, not};
ghost use Rattle.manager.specs.Lists.{any, pairwise};
ghost use Rattle.manager.specs.Region.{overlap};
ghost use Rattle.manager.specs.Regions.{overlaps};
ghost use Rattle.manager.specs.Sound.{sound_areas};
ghost use Rattle.objects.specs.Areas.{nowhere};

use crate::slot::Slot;
use manager::{Area, Manager};

// Whether two areas have a byte in common.
fn overlap(a: Area, b: Area) -> bool
    ensures { result ≡ overlap a b }
{
    (a.start as u64) < b.start as u64 + b.length as u64
        && (b.start as u64) < a.start as u64 + a.length as u64
}

// Whether an area has no start and no byte, as that of an empty slot. It meets none.
fn is_nowhere(a: Area) -> bool
    ensures { result ≡ nowhere a }
{
    a.start == 0 && a.length == 0
}

// Whether an area meets that of one of some objects.
fn meets<T: Slot>(a: Area, all: &[T]) -> bool
    ensures { result ≡ any (λ x. overlap a (T.area x)) all.now }
{
    !is_nowhere(a) && all.iter().any(|x| overlap(a, x.area()))
}

// Whether no two of some objects have a byte in common.
fn disjoint<T: Slot>(all: &[T]) -> bool
    ensures { result ≡ pairwise (λ x y. not (overlap (T.area x) (T.area y))) all.now }
{
    let mut rest = all;
    while let Some((x, behind)) = rest.split_first() {
        if meets(x.area(), behind) {
            return false;
        }
        rest = behind;
    }
    true
}

// Whether an area meets that of an object.
pub fn overlaps(d: &Manager, a: Area) -> bool
    ensures { result ≡ overlaps d.now a }
{
    meets(a, &d.regions) || meets(a, &d.partitions)
}

// Whether no two areas of objects have a byte in common.
pub fn apart(d: &Manager) -> bool
    ensures { result ≡ sound_areas d.now }
{
    disjoint(&d.regions)
        && disjoint(&d.partitions)
        && d.regions.iter().all(|r| !meets(r.area(), &d.partitions))
}
