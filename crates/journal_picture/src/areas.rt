//! The charts of the overview.

use crate::buckets::{Bucket, Span};
use crate::canvas::{Canvas, Value};
use crate::overview_drawing::{
    LEFT, OBJECTS_HEIGHT, OBJECTS_TOP, WAITING_HEIGHT, WAITING_TOP, WIDTH, bucket_left,
};
use crate::scale::step_over;
use std::io::Write;

/// An upper edge that is drawn over the buckets.
#[derive(Clone, Copy, Debug)]
enum Edge {
    All,
    LentOrIdle,
    Lent,
    Waiting,
}

/// The edges of the stacked areas, from the uppermost down: each is drawn over the one before.
const STACK: [Edge; 3] = [Edge::All, Edge::LentOrIdle, Edge::Lent];

impl Edge {
    fn span_in(self, bucket: &Bucket) -> Span {
        match self {
            Edge::All => bucket.levels.all,
            Edge::LentOrIdle => bucket.levels.lent_or_idle,
            Edge::Lent => bucket.levels.lent,
            Edge::Waiting => bucket.levels.waiting,
        }
    }

    /// Returns the colours of the areas up to the least and up to the greatest number.
    fn colours(self) -> (&'static str, &'static str) {
        match self {
            Edge::All => ("#e0a030", "#f5dfb4"),
            Edge::LentOrIdle => ("#6f9bd8", "#cbdcf2"),
            Edge::Lent => ("#2f9050", "#b4dcc0"),
            Edge::Waiting => ("#d8d0e8", "#ece6f6"),
        }
    }

    /// Returns the meaning of the colour.
    fn name(self) -> &'static str {
        match self {
            Edge::All => "reserved: being made, readied, returned or destroyed",
            Edge::LentOrIdle => "idle",
            Edge::Lent => "lent",
            Edge::Waiting => "borrowers that wait",
        }
    }
}

/// The position of a chart, and the number at its top.
#[derive(Clone, Copy)]
struct Frame {
    top: u64,
    height: u64,
    highest: u64,
}

impl Frame {
    fn bottom(&self) -> u64 {
        self.top.saturating_add(self.height)
    }

    /// Returns the vertical position of a number.
    fn y_of(&self, number: u64) -> u64 {
        let across = u128::from(number.min(self.highest)) * u128::from(self.height);
        let share = across.checked_div(u128::from(self.highest)).unwrap_or(0);
        self.bottom()
            .saturating_sub(u64::try_from(share).unwrap_or(self.height))
    }
}

/// Draws the objects lent, idle and reserved, stacked.
pub(crate) fn draw_areas<W: Write>(out: &mut Canvas<'_, W>, buckets: &[Bucket]) {
    let frame = Frame {
        top: OBJECTS_TOP,
        height: OBJECTS_HEIGHT,
        highest: highest_of(buckets, Edge::All),
    };
    for edge in STACK {
        draw_edge(out, buckets, &frame, edge);
    }
    draw_numbers(out, &frame);
    draw_legend(out);
}

/// Draws the borrowers that wait, with a line at the greatest number in each bucket.
pub(crate) fn draw_waiting<W: Write>(out: &mut Canvas<'_, W>, buckets: &[Bucket]) {
    let frame = Frame {
        top: WAITING_TOP,
        height: WAITING_HEIGHT,
        highest: highest_of(buckets, Edge::Waiting),
    };
    draw_edge(out, buckets, &frame, Edge::Waiting);
    out.put(
        "<path id=\"waiting\" fill=\"none\" stroke=\"#6a3fa0\" d=\"M{} {}",
        &[LEFT, frame.bottom()],
    );
    draw_steps(out, buckets, &frame, Edge::Waiting, true);
    out.text("\"/>\n");
    draw_numbers(out, &frame);
    out.put(
        "<text x=\"{}\" y=\"{}\" font-weight=\"bold\">{}: the line is the greatest number in each bucket</text>\n",
        &[
            Value::Number(LEFT),
            Value::Number(WAITING_TOP - 10),
            Value::Text(Edge::Waiting.name()),
        ],
    );
}

/// Returns the greatest number below an edge, and at least 1.
fn highest_of(buckets: &[Bucket], edge: Edge) -> u64 {
    let mut highest = 1;
    for bucket in buckets {
        highest = highest.max(edge.span_in(bucket).greatest);
    }
    highest
}

/// Draws the areas up to the greatest and up to the least number of each bucket.
fn draw_edge<W: Write>(out: &mut Canvas<'_, W>, buckets: &[Bucket], frame: &Frame, edge: Edge) {
    let (full, light) = edge.colours();
    draw_extent(out, buckets, frame, edge, light, true);
    draw_extent(out, buckets, frame, edge, full, false);
}

/// Draws the area in a colour up to the greatest or up to the least number of each bucket.
fn draw_extent<W: Write>(
    out: &mut Canvas<'_, W>,
    buckets: &[Bucket],
    frame: &Frame,
    edge: Edge,
    colour: &str,
    is_greatest: bool,
) {
    let extent = if is_greatest { "greatest" } else { "least" };
    out.text("<path id=\"");
    out.name(&edge);
    out.put(
        "-{}\" fill=\"{}\" d=\"M{} {}",
        &[
            Value::Text(extent),
            Value::Text(colour),
            Value::Number(LEFT),
            Value::Number(frame.bottom()),
        ],
    );
    draw_steps(out, buckets, frame, edge, is_greatest);
    out.put("V{}Z\"/>\n", &[frame.bottom()]);
}

/// Draws a step for each bucket, as high as its number.
fn draw_steps<W: Write>(
    out: &mut Canvas<'_, W>,
    buckets: &[Bucket],
    frame: &Frame,
    edge: Edge,
    is_greatest: bool,
) {
    for (number, bucket) in buckets.iter().enumerate() {
        let span = edge.span_in(bucket);
        let level = if is_greatest {
            span.greatest
        } else {
            span.least
        };
        let right = bucket_left(number.saturating_add(1), buckets.len());
        out.put("V{}H{}", &[frame.y_of(level), right]);
    }
}

/// Draws the numbers at the left of a chart, with a line across at each.
fn draw_numbers<W: Write>(out: &mut Canvas<'_, W>, frame: &Frame) {
    let most = frame.height / 24;
    let step = step_over(frame.highest).max(frame.highest.checked_div(most).unwrap_or(1));
    for number in 0..11u64 {
        let level = step.saturating_mul(number);
        if level > frame.highest {
            return;
        }
        let y = frame.y_of(level);
        out.put(
            "<path d=\"M{} {}h{}\" stroke=\"#000000\" stroke-opacity=\"0.12\"/><text x=\"{}\" y=\"{}\" text-anchor=\"end\">{}</text>\n",
            &[LEFT, y, WIDTH, LEFT - 6, y.saturating_add(4), level],
        );
    }
}

/// Draws the colours of the areas, with their meanings.
fn draw_legend<W: Write>(out: &mut Canvas<'_, W>) {
    out.put(
        "<text x=\"{}\" y=\"86\" font-weight=\"bold\">objects, stacked</text>\n",
        &[LEFT],
    );
    let mut x = LEFT + 120;
    for edge in [Edge::Lent, Edge::LentOrIdle, Edge::All] {
        let (full, light) = edge.colours();
        out.put(
            "<rect x=\"{}\" y=\"76\" width=\"14\" height=\"12\" fill=\"{}\"/><rect x=\"{}\" y=\"76\" width=\"14\" height=\"12\" fill=\"{}\"/><text x=\"{}\" y=\"86\">{}</text>\n",
            &[
                Value::Number(x),
                Value::Text(full),
                Value::Number(x.saturating_add(14)),
                Value::Text(light),
                Value::Number(x.saturating_add(34)),
                Value::Text(edge.name()),
            ],
        );
        x = x.saturating_add(90);
    }
}
