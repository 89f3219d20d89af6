//! Lines of journals and of bases, which are read and printed.

mod bases;
mod lines;
