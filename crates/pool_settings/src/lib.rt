//! The settings of a pool, and how they are read from TOML.
#![tactic(auto)]

mod escaped;
mod fault;
mod key_name;
mod reading;
mod settings;
mod value;

pub use escaped::Escaped;
pub use fault::SettingsFault;
pub use key_name::KeyName;
pub use settings::Settings;
