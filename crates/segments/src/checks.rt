// Checks of more than one line, over sound records.
ghost use Rattle.std.specs.Prelude.{◌≡◌, true, IfOk};
ghost use Rattle.manager.specs.Regions.{wait_checks};
ghost use Rattle.manager.specs.Sound.{sound};
ghost use Rattle.segments.specs.Held.{held_told, Holds};
ghost use Rattle.segments.specs.Verdicts.{verdict_of, ask_checks};

use crate::site::Site;
use manager::{Manager, Need, Region, Status, Wait};
use reply::ensure;

// Get of a region: an alignment that its kind does not know 11, any other that is not allowed 8, what it could not serve with nothing held 8.
#[tactic(auto, unfolding(crate::specs::Verdicts::verdict_of))]
pub(crate) fn may_ask(s: Site, n: Need, alignment: u32) -> Result<(), Status>
    ensures { result ≡ verdict_of (ask_checks s.region s.layout n alignment) }
{
    ensure(map::aligns(s.region.order, alignment), Status::NotDefined)?;
    ensure(
        map::is_alignment(s.region.page, alignment),
        Status::InvalidSize,
    )?;
    ensure(
        map::servable(s.region.order, s.layout, n),
        Status::InvalidSize,
    )
}

// Get that may wait: 10, 19, 14. Without waiting, task and priority aren't read.
#[tactic(auto, unfolding(crate::specs::Verdicts::verdict_of))]
pub(crate) fn may_wait(d: &Manager, wait: Wait, task: u32, priority: u32) -> Result<(), Status>
    ensures { result ≡ verdict_of (wait_checks d.now wait task priority) }
{
    let Wait::Yes = wait else {
        return Ok(());
    };
    ensure(
        (1..=Manager::TASKS as u32).contains(&task),
        Status::InvalidNumber,
    )?;
    ensure((1..=255).contains(&priority), Status::InvalidPriority)?;
    ensure(!queue::waiting(d, task), Status::IncorrectState)
}

// A held segment: its region, with that one's layout, and its pages.
#[derive(Clone, Copy)]
pub(crate) struct Held {
    pub(crate) site: Site,
    pub(crate) pages: u32,
}

// The held segment at an address: 4, 9. The id and the address are two numbers of one call: no value keeps them together behind it.
#[tactic(auto, using(crate::proofs::Live::held_is))]
pub(crate) fn held_at(mem: &[u32], d: &Manager, id: u32, address: u32) -> Result<Held, Status>
    requires { sound mem.now d.now ≡ true }
    ensures told { result ≡ held_told mem.now d.now id address }
    ensures holds { IfOk result (Holds mem.now d.now id address) }
{
    let region = objects::find::<Region>(d, id).ok_or(Status::InvalidId)?;
    let site = Site::of(region);
    let pages = map::held_word_at(mem, site.layout, site.region.page, address).ok_or(
        Status::InvalidAddress,
    )?;
    Ok(Held { site, pages })
}
