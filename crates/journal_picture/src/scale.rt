//! Where the times of a journal are across the picture, and which of them the axis shows.

use crate::history::History;

/// The most ticks of the axis, except the last.
const MOST_TICKS: u64 = 10;

/// The mapping of times, in milliseconds, to positions across the picture.
#[derive(Clone, Copy)]
pub(crate) struct Scale {
    first: u64,
    span: u64,
    left: u64,
    width: u64,
}

impl Scale {
    /// Returns the scale for the time of a history, from `left` on and `width` wide.
    pub(crate) fn of(history: &History, left: u64, width: u64) -> Scale {
        Scale::over(history.first, history.last, left, width)
    }

    /// Returns the scale for the time from `first` to `last`, from `left` on and `width` wide.
    pub(crate) fn over(first: u64, last: u64, left: u64, width: u64) -> Scale {
        Scale {
            first,
            span: last.saturating_sub(first).max(1),
            left,
            width,
        }
    }

    /// Returns the position of a time.
    pub(crate) fn place_of(&self, at: u64) -> u64 {
        let elapsed = at.saturating_sub(self.first).min(self.span);
        let across = u128::from(elapsed) * u128::from(self.width);
        let share = across.checked_div(u128::from(self.span)).unwrap_or(0);
        self.left
            .saturating_add(u64::try_from(share).unwrap_or(self.width))
    }

    /// Returns the width of a stretch of time, and at least 1, so that it is seen.
    pub(crate) fn width_of(&self, from: u64, until: u64) -> u64 {
        self.place_of(until)
            .saturating_sub(self.place_of(from))
            .max(1)
    }

    /// Returns the time of the tick of a number, from 0, if it is on the axis.
    pub(crate) fn tick(&self, number: u64) -> Option<u64> {
        let step = step_over(self.span);
        let before = self.first.checked_rem(step).unwrap_or(0);
        let begin = if before == 0 {
            self.first
        } else {
            self.first.saturating_add(step - before)
        };
        let at = begin.checked_add(step.checked_mul(number)?)?;
        let last = self.first.saturating_add(self.span);
        if at <= last { Some(at) } else { None }
    }
}

/// Returns the distance between the ticks of an axis of this length: 1, 2 or 5 times a power of ten.
pub(crate) fn step_over(span: u64) -> u64 {
    let mut unit: u64 = 1;
    for _ in 0..20 {
        for factor in [1, 2, 5] {
            let step = unit.saturating_mul(factor).max(1);
            if span / step <= MOST_TICKS {
                return step;
            }
        }
        unit = unit.saturating_mul(10);
    }
    u64::MAX
}
