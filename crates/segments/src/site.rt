// A region with its layout, which most functions on its pages need.
ghost use Rattle.std.specs.Prelude.{◌≡◌};
ghost use Rattle.manager.specs.Region.{layout_of};

use arith::Layout;
use manager::Region;

// A region, and where its map and pages lie: a directive works that out once, and hands both on.
#[derive(Clone, Copy)]
pub(crate) struct Site {
    pub(crate) region: Region,
    pub(crate) layout: Layout,
    ghost laid: { layout ≡ layout_of region },
}

impl Site {
    pub(crate) fn of(region: Region) -> Site
        ensures { result.region ≡ region }
    {
        let layout = map::layout_of(region);
        Site { region, layout }
    }
}
