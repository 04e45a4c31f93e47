// The gauge of a region's fill, and its alarm. It is handed numbers and knows no manager record and no memory.
#![tactic(auto)]

ghost use Rattle.std.specs.Prelude.{◌≡◌, ◌+◌, ◌^◌, ◌≤◌};
ghost use Rattle.std.specs.Float.Ieee.{is_nan};
ghost use Rattle.gauge.specs.Gauge.{fresh, fill_of, smoothed_by, is_fill, wrong_limits, wrong, sounds_at, reading, reading_of};

use manager::{Information, Status};

// The fill at the last reading, and the smoothed fill.
#[derive(Clone, Copy)]
pub struct Gauge {
    pub last: f64,
    pub smoothed: f64,
}

// What the smoothed fill is compared with: a limit, or a low and a high one.
#[derive(Clone, Copy)]
pub enum Alarm {
    Above(f64),
    Below(f64),
    Outside(f64, f64),
}

// What a reading answers, with the gauge after it. No Result: the theorems (`answers`, `unchanged`) say what a refusal leaves in it.
#[derive(Clone, Copy)]
pub struct Reading {
    pub gauge: Gauge,
    pub status: Status,
    pub sounds: bool,
}

impl Gauge {
    // A gauge before its first reading.
    pub fn fresh() -> Gauge
        ensures { result ≡ fresh }
    {
        Gauge {
            last: 0.0,
            smoothed: 0.0,
        }
    }
}

// The held part of the total, rounded once.
fn fill(held: u32, total: u64) -> f64
    requires { total ≤ 2 ^ 53 }
    ensures { result ≡ fill_of held total }
{
    if held == 0 {
        return 0.0;
    }
    if u64::from(held) == total {
        return 1.0;
    }
    let h = f64::from(held);
    let t = total as f64;
    h / t
}

// A quarter of the way from the smoothed fill to the new one.
fn smooth(s: f64, x: f64) -> f64
    ensures { result ≡ smoothed_by s x }
{
    s + (x - s) * 0.25
}

// A number from 0 to 1.
fn is_fill(x: f64) -> bool
    ensures { result ≡ is_fill x }
{
    (0.0..=1.0).contains(&x)
}

// A limit is no number, or low is above high.
fn wrong_limits(alarm: Alarm) -> bool
    ensures { result ≡ wrong_limits alarm }
{
    match alarm {
        Alarm::Above(limit) | Alarm::Below(limit) => limit.is_nan(),
        Alarm::Outside(low, high) => low.is_nan() || high.is_nan() || high < low,
    }
}

// Whether an alarm sounds at a smoothed fill.
fn sounds(alarm: Alarm, s: f64) -> bool
    ensures { result ≡ sounds_at alarm s }
{
    match alarm {
        Alarm::Above(limit) => limit < s,
        Alarm::Below(limit) => s < limit,
        Alarm::Outside(low, high) => s < low || high < s,
    }
}

// Whether a reading is refused.
fn refuses(gauge: Gauge, alarm: Alarm, held: u32, total: u64) -> bool
    ensures { result ≡ wrong gauge alarm held total }
{
    wrong_limits(alarm)
        || !is_fill(gauge.last)
        || !is_fill(gauge.smoothed)
        || total == 0
        || total < u64::from(held)
}

// A reading of numbers whose total may be the sum of two.
fn observe(gauge: Gauge, alarm: Alarm, held: u32, total: u64) -> Reading
    requires { total ≤ 2 ^ 53 }
    ensures { result ≡ reading gauge alarm held total }
{
    if refuses(gauge, alarm, held, total) {
        return Reading {
            gauge,
            status: Status::InvalidNumber,
            sounds: false,
        };
    }
    let last = fill(held, total);
    let smoothed = smooth(gauge.smoothed, last);
    Reading {
        gauge: Gauge { last, smoothed },
        status: Status::Successful,
        sounds: sounds(alarm, smoothed),
    }
}

// A reading of so many held bytes of a total.
pub fn read(gauge: Gauge, alarm: Alarm, held: u32, total: u32) -> Reading
    ensures { result ≡ reading gauge alarm held total }
{
    observe(gauge, alarm, held, u64::from(total))
}

// A reading of a region by its information. The sum of both totals is taken in 64 bits.
pub fn read_information(gauge: Gauge, alarm: Alarm, information: Information) -> Reading
    ensures { result ≡ reading_of gauge alarm information }
{
    let held = information.held_total;
    let free = information.free_total;
    let total = u64::from(free) + u64::from(held);
    observe(gauge, alarm, held, total)
}
