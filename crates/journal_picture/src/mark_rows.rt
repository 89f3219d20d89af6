//! The rows of marks in the overview.

use crate::buckets::Bucket;
use crate::canvas::{Canvas, Value};
use crate::marks::Marks;
use crate::overview_drawing::{LEFT, ROW_HEIGHT, ROWS_TOP, WIDTH, bucket_left};
use std::io::Write;

/// The number of rows.
pub(crate) const ROWS: u64 = 5;

/// The kind of the entries that are marked in a row.
#[derive(Clone, Copy, Debug)]
enum Row {
    Refused,
    Without,
    Evicted,
    Reclaimed,
    Failed,
}

const ALL: [Row; 5] = [
    Row::Refused,
    Row::Without,
    Row::Evicted,
    Row::Reclaimed,
    Row::Failed,
];

impl Row {
    fn count_in(self, marks: &Marks) -> u64 {
        match self {
            Row::Refused => marks.refused,
            Row::Without => marks.without,
            Row::Evicted => marks.evicted,
            Row::Reclaimed => marks.reclaimed,
            Row::Failed => marks.failed,
        }
    }

    fn name(self) -> &'static str {
        match self {
            Row::Refused => "refused",
            Row::Without => "no object",
            Row::Evicted => "evicted",
            Row::Reclaimed => "reclaimed",
            Row::Failed => "failed tests",
        }
    }

    fn colour(self) -> &'static str {
        match self {
            Row::Refused => "#c02020",
            Row::Without => "#c06000",
            Row::Evicted => "#406080",
            Row::Reclaimed => "#8030a0",
            Row::Failed => "#a08000",
        }
    }
}

/// Draws a row for each kind of marks, with a bar in each bucket that has some.
pub(crate) fn draw_rows<W: Write>(out: &mut Canvas<'_, W>, buckets: &[Bucket]) {
    out.put(
        "<text x=\"{}\" y=\"{}\" font-weight=\"bold\">marks: a bar grows with the number in its bucket, the total is at the left; no object: a borrow was exhausted or timed out</text>\n",
        &[LEFT, ROWS_TOP - 8],
    );
    let mut top = ROWS_TOP;
    for row in ALL {
        draw_row(out, buckets, row, top);
        top = top.saturating_add(ROW_HEIGHT);
    }
}

fn draw_row<W: Write>(out: &mut Canvas<'_, W>, buckets: &[Bucket], row: Row, top: u64) {
    let bottom = top.saturating_add(ROW_HEIGHT - 6);
    let (total, most) = sums_of(buckets, row);
    draw_total(out, row, bottom, total);
    for (number, bucket) in buckets.iter().enumerate() {
        let count = row.count_in(&bucket.marks);
        if count > 0 {
            let left = bucket_left(number, buckets.len());
            let right = bucket_left(number.saturating_add(1), buckets.len());
            let height = height_of(count, most);
            out.put(
                "<rect x=\"{}\" y=\"{}\" width=\"{}\" height=\"{}\" fill=\"{}\"/>\n",
                &[
                    Value::Number(left),
                    Value::Number(bottom.saturating_sub(height)),
                    Value::Number(right.saturating_sub(left).clamp(2, 8)),
                    Value::Number(height),
                    Value::Text(row.colour()),
                ],
            );
        }
    }
}

/// Draws the name and the total of a row, with the line below its bars.
fn draw_total<W: Write>(out: &mut Canvas<'_, W>, row: Row, bottom: u64, total: u64) {
    let x = LEFT - 6;
    out.put(
        "<text x=\"{}\" y=\"{}\" text-anchor=\"end\">{}</text>",
        &[
            Value::Number(x),
            Value::Number(bottom.saturating_sub(13)),
            Value::Text(row.name()),
        ],
    );
    out.text("<text id=\"total-");
    out.name(&row);
    out.put(
        "\" x=\"{}\" y=\"{}\" text-anchor=\"end\" fill=\"#505050\">{}</text><path d=\"M{} {}h{}\" stroke=\"#000000\" stroke-opacity=\"0.25\"/>\n",
        &[x, bottom, total, LEFT, bottom, WIDTH],
    );
}

/// Returns the number of a row's marks in all buckets, and the greatest in one.
fn sums_of(buckets: &[Bucket], row: Row) -> (u64, u64) {
    let mut total: u64 = 0;
    let mut most: u64 = 0;
    for bucket in buckets {
        let count = row.count_in(&bucket.marks);
        total = total.saturating_add(count);
        most = most.max(count);
    }
    (total, most)
}

/// Returns the height of the bar of a count. The greatest count is `most`.
fn height_of(count: u64, most: u64) -> u64 {
    let across = u128::from(count.min(most)) * 20;
    let share = across.checked_div(u128::from(most)).unwrap_or(0);
    u64::try_from(share).unwrap_or(20).saturating_add(4)
}
