//! Places, and their parts: slots under keys, and the index of keys in ascending order of id.

mod calls;
mod index;
mod lives;
mod restores;
mod slots;
