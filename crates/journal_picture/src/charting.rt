//! Draws the chart of the numbers of objects over time, a line for each number.

use crate::canvas::{Canvas, Value};
use crate::history::{History, Sample};
use crate::layout::{CHART, Layout};
use crate::scale::Scale;
use std::io::Write;

/// A count of objects that is drawn as a line.
#[derive(Clone, Copy, Debug)]
enum Line {
    Idle,
    Lent,
    Reserved,
}

impl Line {
    fn count_in(self, sample: &Sample) -> u64 {
        match self {
            Line::Idle => sample.counts.idle,
            Line::Lent => sample.counts.lent,
            Line::Reserved => sample.counts.reserved,
        }
    }

    fn colour(self) -> &'static str {
        match self {
            Line::Idle => "#3060b0",
            Line::Lent => "#208040",
            Line::Reserved => "#b07000",
        }
    }
}

/// Draws the counts of objects over time.
pub(crate) fn draw_chart<W: Write>(
    out: &mut Canvas<'_, W>,
    history: &History,
    layout: &Layout,
    scale: &Scale,
) {
    let highest = highest_of(&history.samples);
    let mut y = layout.chart_top.saturating_add(12);
    for line in [Line::Idle, Line::Lent, Line::Reserved] {
        out.put(
            "<text x=\"10\" y=\"{}\" fill=\"{}\">",
            &[Value::Number(y), Value::Text(line.colour())],
        );
        out.name(&line);
        out.text("</text>\n");
        draw_line(out, history, layout, scale, line, highest);
        y = y.saturating_add(16);
    }
    out.put(
        "<text x=\"104\" y=\"{}\" text-anchor=\"end\">{}</text><text x=\"104\" y=\"{}\" text-anchor=\"end\">0</text>\n",
        &[
            layout.chart_top.saturating_add(4),
            highest,
            layout.chart_top.saturating_add(CHART),
        ],
    );
}

/// Returns the greatest count in any sample, and at least 1.
fn highest_of(samples: &[Sample]) -> u64 {
    let mut highest = 1;
    for sample in samples {
        highest = highest
            .max(sample.counts.idle)
            .max(sample.counts.lent)
            .max(sample.counts.reserved);
    }
    highest
}

fn draw_line<W: Write>(
    out: &mut Canvas<'_, W>,
    history: &History,
    layout: &Layout,
    scale: &Scale,
    line: Line,
    highest: u64,
) {
    let bottom = layout.chart_top.saturating_add(CHART);
    out.put(
        "<path fill=\"none\" stroke=\"{}\" d=\"M{} {}",
        &[
            Value::Text(line.colour()),
            Value::Number(scale.place_of(history.first)),
            Value::Number(bottom),
        ],
    );
    for sample in &history.samples {
        let height = CHART
            .saturating_mul(line.count_in(sample))
            .checked_div(highest)
            .unwrap_or(0);
        out.put(
            "H{}V{}",
            &[scale.place_of(sample.at), bottom.saturating_sub(height)],
        );
    }
    out.put("H{}\"/>\n", &[scale.place_of(history.last)]);
}
