//! When a packet came.

/// A time in seconds and millionths.
#[derive(Clone, Copy)]
pub struct Stamp {
    /// The whole seconds.
    pub seconds: u64,
    /// The millionths behind them.
    pub micros: u32,
}

/// How many millionths a second has.
const MILLION: u128 = 1_000_000;

impl Stamp {
    /// The time of so many ticks, by what pcapng says of a tick: which power of ten, or with bit 7 of
    /// two, a second has of them. A finer part than a millionth is cut.
    pub fn of_ticks(ticks: u64, resolution: u8) -> Stamp {
        let base: u128 = if resolution & 0x80 == 0 { 10 } else { 2 };
        let in_a_second = base
            .checked_pow(u32::from(resolution & 0x7f))
            .unwrap_or(u128::MAX);
        let ticks = u128::from(ticks);
        let (Some(seconds), Some(rest)) = (
            ticks.checked_div(in_a_second),
            ticks.checked_rem(in_a_second),
        ) else {
            return Stamp::none();
        };
        let micros = rest
            .saturating_mul(MILLION)
            .checked_div(in_a_second)
            .unwrap_or(0);
        Stamp {
            seconds: u64::try_from(seconds).unwrap_or(u64::MAX),
            micros: u32::try_from(micros).unwrap_or(0),
        }
    }

    /// That of a packet without one.
    pub fn none() -> Stamp {
        Stamp {
            seconds: 0,
            micros: 0,
        }
    }
}
