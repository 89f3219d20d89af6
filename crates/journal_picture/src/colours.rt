//! The colours of bars: by the phase of the object, and by the caller that holds it.

use pool_journal::Phase;
use std::fmt;

/// A colour, as SVG names it: a hue of the circle, in degrees, with its saturation and lightness in percent.
#[derive(Clone, Copy)]
pub(crate) struct Fill {
    hue: u32,
    saturation: u8,
    lightness: u8,
}

impl Fill {
    fn hue(hue: u32, saturation: u8, lightness: u8) -> Fill {
        Fill {
            hue,
            saturation,
            lightness,
        }
    }

    fn grey(lightness: u8) -> Fill {
        Fill::hue(0, 0, lightness)
    }
}

impl fmt::Display for Fill {
    fn fmt<W: fmt::Write>(&self, f: &mut fmt::Formatter<W>) -> fmt::Result {
        write!(
            f,
            "hsl({},{}%,{}%)",
            self.hue, self.saturation, self.lightness
        )
    }
}

/// Returns the colour of a bar. Callers whose numbers are near have hues that are far apart. If the caller is not
/// known, a loan is grey.
pub(crate) fn fill_of(phase: Phase, caller: Option<u32>) -> Fill {
    match phase {
        Phase::Lent => match caller {
            Some(caller) => Fill::hue(caller % 360 * 137 % 360, 65, 70),
            None => Fill::grey(80),
        },
        Phase::Idle => Fill::hue(215, 45, 90),
        Phase::Testing => Fill::hue(215, 45, 70),
        Phase::Readying => Fill::hue(48, 75, 85),
        Phase::Adding => Fill::hue(48, 75, 65),
        Phase::Returning => Fill::hue(28, 75, 80),
        Phase::Destroying => Fill::grey(65),
        Phase::Absent | Phase::Gone => Fill::grey(90),
    }
}
