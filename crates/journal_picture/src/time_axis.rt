//! The times below the charts of the overview.

use crate::canvas::{Canvas, Value};
use crate::overview::Overview;
use crate::overview_drawing::{BOTTOM, LEFT, OBJECTS_TOP, WIDTH};
use crate::scale::{Scale, step_over};
use std::io::Write;

/// A unit of time, with its length in milliseconds and its name.
#[derive(Clone, Copy)]
struct Unit {
    length: u64,
    name: &'static str,
}

/// The units, the longest first.
const UNITS: [(u64, &str); 5] = [
    (86_400_000, "days"),
    (3_600_000, "hours"),
    (60_000, "minutes"),
    (1_000, "seconds"),
    (1, "milliseconds"),
];

/// Returns the longest unit of which a stretch of time has ten.
fn unit_for(span: u64) -> Unit {
    for (length, name) in UNITS {
        if span / 10 >= length {
            return Unit { length, name };
        }
    }
    Unit {
        length: 1,
        name: "milliseconds",
    }
}

/// Draws the times since the first entry, with a line up from each.
pub(crate) fn draw_times<W: Write>(out: &mut Canvas<'_, W>, overview: &Overview) {
    let buckets = &overview.buckets;
    let span = buckets
        .width()
        .saturating_mul(buckets.as_slice().len() as u64);
    let last = buckets.first().saturating_add(span);
    let scale = Scale::over(buckets.first(), last, LEFT, WIDTH);
    let unit = unit_for(span);
    let count = span.checked_div(unit.length).unwrap_or(0);
    let step = step_over(count);
    for number in 0..11u64 {
        let elapsed = step.saturating_mul(number);
        if elapsed <= count {
            let at = buckets
                .first()
                .saturating_add(elapsed.saturating_mul(unit.length));
            draw_time(out, scale.place_of(at), elapsed);
        }
    }
    out.put(
        "<text x=\"{}\" y=\"{}\">{} since the first entry, which is at {} ms</text>\n",
        &[
            Value::Number(LEFT),
            Value::Number(BOTTOM + 38),
            Value::Text(unit.name),
            Value::Number(overview.first),
        ],
    );
}

fn draw_time<W: Write>(out: &mut Canvas<'_, W>, x: u64, elapsed: u64) {
    out.put(
        "<path d=\"M{} {}V{}\" stroke=\"#000000\" stroke-opacity=\"0.12\"/><text x=\"{}\" y=\"{}\" text-anchor=\"middle\">{}</text>\n",
        &[x, OBJECTS_TOP, BOTTOM + 4, x, BOTTOM + 18, elapsed],
    );
}
