// A gauge in words: the bits of its two fills. The bits of a NaN, whichever they are, are read as a NaN, and none is ever written.
ghost use Rattle.std.specs.Prelude.{◌≡◌, Some, None, cond, leb, length};
ghost use Rattle.std.specs.Float.{binary64};
ghost use Rattle.std.specs.Float.Ieee.{of_bits};
ghost use Rattle.firmware.specs.Exported.{notices_at};
ghost use Rattle.firmware.specs.Reading.{alarm_at, gauge_at, information_at, last_alarm, left, LeavesGauge, Numbers};

use gauge::{Alarm, Gauge, Reading};
use manager::{Information, Status};
use packing::{FromWords, INFORMATION_WORDS};

// The bits of infinity and of the sign. What lies above infinity, the sign taken off, are the bits of NaNs.
const INFINITY: u64 = 0x7ff0_0000_0000_0000;

const SIGN: u64 = 0x8000_0000_0000_0000;

// The float of some bits. `from_bits` is not asked for a NaN.
fn float_at(bits: u64) -> f64
    ensures { result ≡ of_bits binary64 bits }
{
    if INFINITY < bits % SIGN {
        return f64::NAN;
    }
    f64::from_bits(bits)
}

// The alarm that a number says, with the bits of its limits; the last one has two.
pub(crate) fn alarm_at(alarm: u32, limit: u64, high: u64) -> Option<Alarm>
    ensures { result ≡ cond (leb alarm last_alarm) (Some (alarm_at alarm limit high)) None }
{
    let low = float_at(limit);
    match alarm {
        0 => Some(Alarm::Above(low)),
        1 => Some(Alarm::Below(low)),
        2 => Some(Alarm::Outside(low, float_at(high))),
        _ => None,
    }
}

// The gauge of two words.
pub(crate) fn gauge_at(words: &[u64; 2]) -> Gauge
    ensures { result ≡ gauge_at words.now }
{
    Gauge {
        last: float_at(words[0]),
        smoothed: float_at(words[1]),
    }
}

// The six values of information in an answer that is long enough to have them.
pub(crate) fn information_at(answer: &[u32]) -> Option<Information>
    ensures { result ≡ cond (leb notices_at (length answer.now)) (Some (information_at answer.now)) None }
{
    let (_, rest) = answer.split_first()?;
    Information::from_words(rest.first_chunk::<INFORMATION_WORDS>()?)
}

// Leaves what a reading gave: a refused one leaves the words of the gauge.
pub(crate) fn leave(words: &mut [u64; 2], sounds: &mut u32, given: Reading) -> u32
    requires { Numbers given }
    ensures { LeavesGauge (left words.old given) words.new sounds.new result }
{
    *sounds = u32::from(given.sounds);
    if given.status == Status::Successful {
        *words = [given.gauge.last.to_bits(), given.gauge.smoothed.to_bits()];
    }
    u32::from(given.status)
}
