//! Draws the overview of a journal.

use crate::areas::{draw_areas, draw_waiting};
use crate::buckets::{Bucket, Buckets};
use crate::canvas::Canvas;
use crate::mark_rows::{ROWS, draw_rows};
use crate::overview::Overview;
use crate::panel::{PANEL_WIDTH, draw_panel, height_of};
use crate::state::Present;
use crate::time_axis::draw_times;
use std::io::Write;

/// The left edge of the charts, right of their labels, and their width.
pub(crate) const LEFT: u64 = 110;

pub(crate) const WIDTH: u64 = 1_000;

/// The top of the chart of objects, and its height.
pub(crate) const OBJECTS_TOP: u64 = 112;

pub(crate) const OBJECTS_HEIGHT: u64 = 240;

/// The top of the chart of borrowers that wait, and its height.
pub(crate) const WAITING_TOP: u64 = 392;

pub(crate) const WAITING_HEIGHT: u64 = 100;

/// The top of the rows of marks, and the height of each.
pub(crate) const ROWS_TOP: u64 = 524;

pub(crate) const ROW_HEIGHT: u64 = 34;

/// The bottom of the charts, above the times.
pub(crate) const BOTTOM: u64 = ROWS_TOP + ROWS * ROW_HEIGHT;

/// The left edge of the tables, right of the charts.
pub(crate) const PANEL_LEFT: u64 = 1_150;

/// The least height of the picture.
const LEAST_HEIGHT: u64 = BOTTOM + 70;

/// Returns the left edge of a bucket in the charts, by its number and the number of all.
pub(crate) fn bucket_left(number: usize, count: usize) -> u64 {
    let across = (number as u64).saturating_mul(WIDTH);
    let share = across.checked_div(count as u64).unwrap_or(0);
    LEFT.saturating_add(share)
}

/// Draws an overview as an SVG picture, with the objects that are held at the end.
pub(crate) fn draw_overview<W: Write>(
    out: &mut Canvas<'_, W>,
    overview: &Overview,
    held: &[Present],
) {
    draw_head(out, overview, held);
    draw_times(out, overview);
    draw_areas(out, overview.buckets.as_slice());
    draw_waiting(out, overview.buckets.as_slice());
    draw_rows(out, overview.buckets.as_slice());
    draw_hints(out, &overview.buckets);
    draw_panel(out, overview, held);
    out.text("</svg>\n");
}

/// Draws the head of the picture: its size, its background, its title and an explanation.
fn draw_head<W: Write>(out: &mut Canvas<'_, W>, overview: &Overview, held: &[Present]) {
    let width = PANEL_LEFT + PANEL_WIDTH + 20;
    let height = height_of(held.len()).max(LEAST_HEIGHT);
    out.put(
        "<svg xmlns=\"http://www.w3.org/2000/svg\" viewBox=\"0 0 {} {}\" width=\"{}\" height=\"{}\" font-family=\"sans-serif\" font-size=\"11\">\n\
        <rect width=\"100%\" height=\"100%\" fill=\"white\"/>\n",
        &[width, height, width, height],
    );
    out.put(
        "<text x=\"10\" y=\"26\" font-size=\"17\">Overview of a journal: {} entries from position {}, times {} to {} ms</text>\n",
        &[
            overview.entries,
            overview.position,
            overview.first,
            overview.last,
        ],
    );
    out.put(
        "<text x=\"10\" y=\"46\" fill=\"#505050\">Time runs in {} buckets of {} ms. Full colour: the least number in a bucket; light: up to the greatest. A browser shows a bucket's numbers under the pointer.</text>\n",
        &[
            overview.buckets.as_slice().len() as u64,
            overview.buckets.width(),
        ],
    );
}

/// Draws a hint over each bucket, with its numbers.
fn draw_hints<W: Write>(out: &mut Canvas<'_, W>, buckets: &Buckets) {
    let count = buckets.as_slice().len();
    let width = buckets.width();
    for (number, bucket) in buckets.as_slice().iter().enumerate() {
        let left = bucket_left(number, count);
        let right = bucket_left(number.saturating_add(1), count);
        let from = buckets
            .first()
            .saturating_add(width.saturating_mul(number as u64));
        out.put(
            "<rect x=\"{}\" y=\"{}\" width=\"{}\" height=\"{}\" fill=\"white\" fill-opacity=\"0\"><title>{} to {} ms: ",
            &[
                left,
                OBJECTS_TOP,
                right.saturating_sub(left),
                BOTTOM - OBJECTS_TOP,
                from,
                from.saturating_add(width.saturating_sub(1)),
            ],
        );
        write_numbers(out, bucket);
    }
}

/// Writes the levels and the marks of a bucket, and the end of its hint.
fn write_numbers<W: Write>(out: &mut Canvas<'_, W>, bucket: &Bucket) {
    let (levels, marks) = (&bucket.levels, &bucket.marks);
    out.put(
        "lent {} to {}, idle {} to {}, reserved {} to {}, waiting {} to {}; \
        refused {}, no object {}, evicted {}, reclaimed {}, failed tests {}</title></rect>\n",
        &[
            levels.lent.least,
            levels.lent.greatest,
            levels.idle.least,
            levels.idle.greatest,
            levels.reserved.least,
            levels.reserved.greatest,
            levels.waiting.least,
            levels.waiting.greatest,
            marks.refused,
            marks.without,
            marks.evicted,
            marks.reclaimed,
            marks.failed,
        ],
    );
}
