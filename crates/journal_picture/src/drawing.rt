//! Draws a history with a lane for each object and each caller that waits.

use crate::canvas::{Canvas, LONGEST, Value};
use crate::charting::draw_chart;
use crate::colours::fill_of;
use crate::history::{Bar, History, Waiting};
use crate::layout::{BAR, LANE, LEFT, Layout, WIDTH, lane_top};
use crate::scale::Scale;
use journal_tools::CallerName;
use pool_journal::Phase;
use std::io::Write;

/// The phases that the legend explains.
const PHASES: [Phase; 7] = [
    Phase::Idle,
    Phase::Testing,
    Phase::Readying,
    Phase::Adding,
    Phase::Lent,
    Phase::Returning,
    Phase::Destroying,
];

/// Draws a history as an SVG picture.
pub(crate) fn draw<W: Write>(out: &mut Canvas<'_, W>, history: &History) {
    let layout = Layout::of(history);
    let scale = Scale::of(history, LEFT, WIDTH);
    draw_head(out, history, &layout);
    draw_legend(out);
    draw_axis(out, &layout, &scale);
    draw_waiters(out, history, &layout);
    draw_waits(out, history, &layout, &scale);
    draw_lanes(out, history, &layout);
    draw_bars(out, history, &layout, &scale);
    draw_chart(out, history, &layout, &scale);
    out.text("</svg>\n");
}

/// Draws the head of the picture: its size, its background, its title and the omissions.
fn draw_head<W: Write>(out: &mut Canvas<'_, W>, history: &History, layout: &Layout) {
    let width = LEFT + WIDTH + 30;
    out.put(
        "<svg xmlns=\"http://www.w3.org/2000/svg\" viewBox=\"0 0 {} {}\" width=\"{}\" font-family=\"sans-serif\" font-size=\"11\">\n\
        <rect width=\"100%\" height=\"100%\" fill=\"white\"/>\n",
        &[width, layout.height, width],
    );
    out.put(
        "<text x=\"10\" y=\"22\" font-size=\"15\">{} entries from position {}, {} objects, times {} to {} ms</text>\n",
        &[
            history.entries,
            history.position,
            history.objects.len() as u64,
            history.first,
            history.last,
        ],
    );
    draw_omissions(out, history, layout);
}

/// Draws the numbers of objects and of waiting callers that have a lane, if some have none.
fn draw_omissions<W: Write>(out: &mut Canvas<'_, W>, history: &History, layout: &Layout) {
    let (objects, waiters) = (history.objects.len(), history.waiters.len());
    out.text("<text x=\"10\" y=\"40\" fill=\"#a00000\">");
    if layout.objects < objects {
        out.put("{} of {} objects have a lane. ", &[layout.objects, objects]);
    }
    if layout.waiters < waiters {
        out.put(
            "{} of {} waiting callers have one.",
            &[layout.waiters, waiters],
        );
    }
    out.text("</text>\n");
}

/// Draws the colours, with their meanings.
fn draw_legend<W: Write>(out: &mut Canvas<'_, W>) {
    let mut x: u64 = 10;
    for phase in PHASES {
        out.put(
            "<rect x=\"{}\" y=\"52\" width=\"14\" height=\"{}\" fill=\"{}\" stroke=\"#808080\"/><text x=\"{}\" y=\"63\">{}</text>\n",
            &[
                Value::Number(x),
                Value::Number(BAR),
                Value::Fill(fill_of(phase, Some(0))),
                Value::Number(x.saturating_add(20)),
                Value::Phase(phase),
            ],
        );
        x = x.saturating_add(100);
    }
    out.put(
        "<text x=\"{}\" y=\"63\">lent: the colour and number of its caller; waits of borrowers above</text>\n",
        &[x],
    );
}

/// Draws the times, with a line down from each.
fn draw_axis<W: Write>(out: &mut Canvas<'_, W>, layout: &Layout, scale: &Scale) {
    let axis = layout.axis;
    for number in 0..12 {
        let Some(at) = scale.tick(number) else {
            continue;
        };
        let x = scale.place_of(at);
        out.put(
            "<path d=\"M{} 76V{}\" stroke=\"#dddddd\"/><text x=\"{}\" y=\"{}\" text-anchor=\"middle\">{}</text>\n",
            &[x, axis, x, axis.saturating_add(14), at],
        );
    }
    out.put(
        "<text x=\"{}\" y=\"{}\">time, in milliseconds</text>\n",
        &[LEFT, axis.saturating_add(32)],
    );
}

/// Draws the names of the callers that wait, a lane for each.
fn draw_waiters<W: Write>(out: &mut Canvas<'_, W>, history: &History, layout: &Layout) {
    let mut top = layout.waits_top;
    for caller in history.waiters.iter().take(layout.waiters) {
        let caller = out.caller(*caller);
        out.put(
            "<text x=\"10\" y=\"{}\">{} waits</text>\n",
            &[Value::Number(top.saturating_add(11)), Value::Caller(caller)],
        );
        top = top.saturating_add(LANE);
    }
}

/// Draws the waits of borrowers, each in the lane of its caller.
fn draw_waits<W: Write>(
    out: &mut Canvas<'_, W>,
    history: &History,
    layout: &Layout,
    scale: &Scale,
) {
    for wait in &history.waits {
        if let Some(number) = lane_of(&history.waiters, wait.caller, layout.waiters) {
            draw_wait(out, wait, lane_top(layout.waits_top, number), scale);
        }
    }
}

fn draw_wait<W: Write>(out: &mut Canvas<'_, W>, wait: &Waiting, top: u64, scale: &Scale) {
    let caller = out.caller(wait.caller);
    out.put(
        "<rect x=\"{}\" y=\"{}\" width=\"{}\" height=\"{}\" fill=\"{}\" fill-opacity=\"0.5\"><title>{} waits, {} to {} ms</title></rect>\n",
        &[
            Value::Number(scale.place_of(wait.from)),
            Value::Number(top),
            Value::Number(scale.width_of(wait.from, wait.until)),
            Value::Number(BAR),
            Value::Fill(fill_of(Phase::Lent, Some(wait.caller))),
            Value::Caller(caller),
            Value::Number(wait.from),
            Value::Number(wait.until),
        ],
    );
}

/// Draws the names of the objects, a lane for each.
fn draw_lanes<W: Write>(out: &mut Canvas<'_, W>, history: &History, layout: &Layout) {
    let mut top = layout.objects_top;
    for object in history.objects.iter().take(layout.objects) {
        let bottom = top.saturating_add(LANE - 2);
        out.put(
            "<text x=\"10\" y=\"{}\">object {}</text><path d=\"M{} {}h{}\" stroke=\"#eeeeee\"/>\n",
            &[bottom.saturating_sub(5), *object, LEFT, bottom, WIDTH],
        );
        top = top.saturating_add(LANE);
    }
}

/// Draws the phases of the objects, a bar for each.
fn draw_bars<W: Write>(out: &mut Canvas<'_, W>, history: &History, layout: &Layout, scale: &Scale) {
    for bar in &history.bars {
        if let Some(number) = lane_of(&history.objects, bar.object, layout.objects) {
            draw_bar(out, bar, lane_top(layout.objects_top, number), scale);
        }
    }
}

/// Returns the lane of a caller or an object, from 0, if it is among the first ones, which have `lanes` lanes.
fn lane_of<T: Copy + PartialEq>(names: &[T], name: T, lanes: usize) -> Option<usize> {
    names.iter().take(lanes).position(|other| *other == name)
}

fn draw_bar<W: Write>(out: &mut Canvas<'_, W>, bar: &Bar, top: u64, scale: &Scale) {
    let x = scale.place_of(bar.from);
    let width = scale.width_of(bar.from, bar.until);
    out.put(
        "<rect x=\"{}\" y=\"{}\" width=\"{}\" height=\"{}\" fill=\"{}\"><title>object {}: {}, ",
        &[
            Value::Number(x),
            Value::Number(top),
            Value::Number(width),
            Value::Number(BAR),
            Value::Fill(fill_of(bar.phase, bar.caller)),
            Value::Number(bar.object),
            Value::Phase(bar.phase),
        ],
    );
    match bar.caller {
        Some(number) => {
            let caller = out.caller(number);
            out.put("by {}", &[Value::Caller(caller)]);
        }
        None => out.text("since before the first entry"),
    }
    out.put(", {} to {} ms</title></rect>\n", &[bar.from, bar.until]);
    if let Some(number) = bar.caller {
        let caller = out.caller(number);
        if bar.phase == Phase::Lent && has_room(width, caller) {
            out.put(
                "<text x=\"{}\" y=\"{}\">{}</text>\n",
                &[
                    Value::Number(x.saturating_add(3)),
                    Value::Number(top.saturating_add(11)),
                    Value::Column(caller),
                ],
            );
        }
    }
}

/// Returns whether a caller's name in a column, or its number, can be read in a bar of this width.
fn has_room(width: u64, caller: CallerName<'_>) -> bool {
    let signs = match caller.name {
        Some(name) => name.chars().count().min(LONGEST) as u64,
        None => u64::from(caller.number.checked_ilog10().unwrap_or(0)) + 1,
    };
    width >= 6 + 7 * signs
}
