//! The positions and sizes of the parts of a picture with lanes.

use crate::history::History;

/// The most waiting callers, and the most objects, that have a lane.
const MOST_WAITERS: usize = 50;

const MOST_OBJECTS: usize = 300;

/// The top of the lanes, below the title and the legend.
const TOP: u64 = 84;

/// The height of a lane, and of the bar in it.
pub(crate) const LANE: u64 = 18;

pub(crate) const BAR: u64 = 14;

/// The left edge of the times, right of the names of the lanes, and their width.
pub(crate) const LEFT: u64 = 110;

pub(crate) const WIDTH: u64 = 1_180;

/// The height of the chart of counts.
pub(crate) const CHART: u64 = 90;

/// The gap between the parts of the picture.
const GAP: u64 = 24;

/// The positions of the parts of a picture, from its top down.
#[derive(Clone, Copy)]
pub(crate) struct Layout {
    /// The numbers of waiting callers and of objects that have a lane.
    pub(crate) waiters: usize,
    pub(crate) objects: usize,
    pub(crate) waits_top: u64,
    pub(crate) objects_top: u64,
    pub(crate) chart_top: u64,
    pub(crate) axis: u64,
    pub(crate) height: u64,
}

impl Layout {
    pub(crate) fn of(history: &History) -> Layout {
        let waiters = history.waiters.len().min(MOST_WAITERS);
        let objects = history.objects.len().min(MOST_OBJECTS);
        let gap = if waiters == 0 { 0 } else { GAP };
        let objects_top = lane_top(TOP, waiters).saturating_add(gap);
        let chart_top = lane_top(objects_top, objects).saturating_add(GAP);
        let axis = chart_top.saturating_add(CHART + GAP / 2);
        Layout {
            waiters,
            objects,
            waits_top: TOP,
            objects_top,
            chart_top,
            axis,
            height: axis.saturating_add(2 * GAP),
        }
    }
}

/// Returns the top of the lane of a number, from 0.
pub(crate) fn lane_top(top: u64, number: usize) -> u64 {
    top.saturating_add(LANE.saturating_mul(number as u64))
}
