//! The tables beside the charts of the overview.

use crate::canvas::{Canvas, Value};
use crate::loans::Loan;
use crate::overview::Overview;
use crate::overview_drawing::PANEL_LEFT;
use crate::state::Present;
use std::io::Write;

/// The height of a line.
const LINE: u64 = 16;

/// The top of each table.
const DURATIONS_TOP: u64 = 86;

const LOANS_TOP: u64 = 236;

const HELD_TOP: u64 = 446;

/// The number of objects that are listed as held. The others are named in a hint.
const MOST_HELD: usize = 30;

/// The width of the tables.
pub(crate) const PANEL_WIDTH: u64 = 620;

/// The right edges of the columns.
const COLUMNS: [u64; 5] = [
    PANEL_LEFT + 140,
    PANEL_LEFT + 235,
    PANEL_LEFT + 320,
    PANEL_LEFT + 470,
    PANEL_LEFT + PANEL_WIDTH,
];

/// The columns of waits and of loans.
const WAITS: u64 = PANEL_LEFT + 235;

const LOANS: u64 = PANEL_LEFT + 470;

/// Returns the height of the picture that the tables need, by the number of objects held.
pub(crate) fn height_of(held: usize) -> u64 {
    let lines = (held.min(MOST_HELD) as u64).saturating_add(4);
    HELD_TOP.saturating_add(lines.saturating_mul(LINE))
}

/// Draws the tables.
pub(crate) fn draw_panel<W: Write>(out: &mut Canvas<'_, W>, overview: &Overview, held: &[Present]) {
    draw_durations(out, overview);
    draw_longest(out, overview.longest.as_slice());
    draw_held(out, overview, held);
}

/// Draws the distributions of waits and of loans.
fn draw_durations<W: Write>(out: &mut Canvas<'_, W>, overview: &Overview) {
    let (waits, loans) = (&overview.waits, &overview.loans);
    let rows = [
        ("number", waits.count(), loans.count()),
        ("p50", waits.quantile(50), loans.quantile(50)),
        ("p90", waits.quantile(90), loans.quantile(90)),
        ("p99", waits.quantile(99), loans.quantile(99)),
        ("longest", waits.longest(), loans.longest()),
    ];
    draw_heading(
        out,
        DURATIONS_TOP,
        "Waits and loans that ended, in milliseconds",
    );
    let mut y = DURATIONS_TOP + LINE;
    draw_words(out, y, &[(WAITS, "waits"), (LOANS, "loans")]);
    for (name, of_waits, of_loans) in rows {
        y = y.saturating_add(LINE);
        draw_pair(out, y, name, of_waits, of_loans);
    }
    out.put(
        "<text x=\"{}\" y=\"{}\" fill=\"#505050\">p50, p90, p99: exact below 128 ms, else at most 1/64 (1.6 %) too long. {} borrowers still wait at the end.</text>\n",
        &[PANEL_LEFT, y.saturating_add(LINE), overview.waiting()],
    );
}

/// Draws a row of the distributions.
fn draw_pair<W: Write>(out: &mut Canvas<'_, W>, y: u64, name: &str, of_waits: u64, of_loans: u64) {
    out.put(
        "<g class=\"durations\"><text x=\"{}\" y=\"{}\" text-anchor=\"end\">{}</text>",
        &[
            Value::Number(PANEL_LEFT + 60),
            Value::Number(y),
            Value::Text(name),
        ],
    );
    draw_number(out, WAITS, y, of_waits);
    draw_number(out, LOANS, y, of_loans);
    out.text("</g>\n");
}

/// Draws the longest loans that ended.
fn draw_longest<W: Write>(out: &mut Canvas<'_, W>, loans: &[Loan]) {
    draw_heading(out, LOANS_TOP, "The longest loans that ended");
    let [object, _, caller, from, duration] = COLUMNS;
    let mut y = LOANS_TOP + LINE;
    draw_words(
        out,
        y,
        &[
            (object, "object"),
            (caller, "caller"),
            (from, "from (ms)"),
            (duration, "lasted (ms)"),
        ],
    );
    for loan in loans {
        y = y.saturating_add(LINE);
        draw_loan(out, y, loan);
    }
}

/// Draws a row of the longest loans.
fn draw_loan<W: Write>(out: &mut Canvas<'_, W>, y: u64, loan: &Loan) {
    let [object, _, caller, from, duration] = COLUMNS;
    out.text("<g class=\"loan\">");
    draw_number(out, object, y, loan.object);
    draw_caller(out, caller, y, loan.caller);
    draw_number(out, from, y, loan.from);
    draw_number(out, duration, y, loan.duration());
    out.text("</g>\n");
}

/// Draws the objects that are held at the end.
fn draw_held<W: Write>(out: &mut Canvas<'_, W>, overview: &Overview, held: &[Present]) {
    out.put(
        "<text x=\"{}\" y=\"{}\" font-weight=\"bold\">Objects held at the end: {}</text>\n",
        &[PANEL_LEFT, HELD_TOP, held.len() as u64],
    );
    let [object, phase, caller, since, duration] = COLUMNS;
    let mut y = HELD_TOP + LINE;
    draw_words(
        out,
        y,
        &[
            (object, "object"),
            (phase, "phase"),
            (caller, "caller"),
            (since, "since (ms)"),
            (duration, "for (ms)"),
        ],
    );
    for present in held.iter().take(MOST_HELD) {
        y = y.saturating_add(LINE);
        draw_present(out, y, present, overview.last);
    }
    draw_more(out, y.saturating_add(LINE), held);
}

/// Draws a row of the objects that are held, at the time `last`.
fn draw_present<W: Write>(out: &mut Canvas<'_, W>, y: u64, present: &Present, last: u64) {
    let [object, phase, caller, _, _] = COLUMNS;
    out.text("<g class=\"held\">");
    draw_number(out, object, y, present.record.id);
    out.put(
        "<text x=\"{}\" y=\"{}\" text-anchor=\"end\">{}</text>",
        &[
            Value::Number(phase),
            Value::Number(y),
            Value::Phase(present.record.phase),
        ],
    );
    draw_caller(out, caller, y, present.caller);
    draw_since(out, y, present.from, last);
    out.text("</g>\n");
}

/// Draws the time since which an object is held, and the duration up to the end.
fn draw_since<W: Write>(out: &mut Canvas<'_, W>, y: u64, since: Option<u64>, last: u64) {
    let [_, _, _, column, duration] = COLUMNS;
    match since {
        Some(from) => {
            draw_number(out, column, y, from);
            draw_number(out, duration, y, last.saturating_sub(from));
        }
        None => draw_words(
            out,
            y,
            &[(column, "before the first entry"), (duration, "unknown")],
        ),
    }
}

/// Draws the number of the other objects that are held, with their names in a hint.
fn draw_more<W: Write>(out: &mut Canvas<'_, W>, y: u64, held: &[Present]) {
    if held.len() <= MOST_HELD {
        return;
    }
    let more = held.len() - MOST_HELD;
    out.put(
        "<text x=\"{}\" y=\"{}\">and {} more, which a browser names under the pointer<title>",
        &[PANEL_LEFT, y, more as u64],
    );
    for present in held.iter().skip(MOST_HELD) {
        write_name(out, present);
    }
    out.text("</title></text>\n");
}

/// Writes the line of an object in the hint.
fn write_name<W: Write>(out: &mut Canvas<'_, W>, present: &Present) {
    out.put(
        "object {}: {}",
        &[
            Value::Number(present.record.id),
            Value::Phase(present.record.phase),
        ],
    );
    if let Some(number) = present.caller {
        let caller = out.caller(number);
        out.put(", {}", &[Value::Caller(caller)]);
    }
    if let Some(from) = present.from {
        out.put(", since {} ms", &[from]);
    }
    out.text("\n");
}

/// Draws the heading of a table.
fn draw_heading<W: Write>(out: &mut Canvas<'_, W>, y: u64, heading: &str) {
    out.put(
        "<text x=\"{}\" y=\"{}\" font-weight=\"bold\">{}</text>\n",
        &[
            Value::Number(PANEL_LEFT),
            Value::Number(y),
            Value::Text(heading),
        ],
    );
}

/// Draws words in grey, each in the column that ends at its position.
fn draw_words<W: Write>(out: &mut Canvas<'_, W>, y: u64, words: &[(u64, &str)]) {
    for (x, word) in words {
        out.put(
            "<text x=\"{}\" y=\"{}\" text-anchor=\"end\" fill=\"#505050\">{}</text>\n",
            &[Value::Number(*x), Value::Number(y), Value::Text(word)],
        );
    }
}

/// Draws a caller, or a word instead if it is not known.
fn draw_caller<W: Write>(out: &mut Canvas<'_, W>, x: u64, y: u64, caller: Option<u32>) {
    match caller {
        Some(number) => {
            let caller = out.caller(number);
            out.put(
                "<text x=\"{}\" y=\"{}\" text-anchor=\"end\">{}</text>",
                &[Value::Number(x), Value::Number(y), Value::Column(caller)],
            );
        }
        None => draw_words(out, y, &[(x, "unknown")]),
    }
}

/// Draws a number in the column that ends at `x`.
fn draw_number<W: Write>(out: &mut Canvas<'_, W>, x: u64, y: u64, number: u64) {
    out.put(
        "<text x=\"{}\" y=\"{}\" text-anchor=\"end\">{}</text>",
        &[x, y, number],
    );
}
