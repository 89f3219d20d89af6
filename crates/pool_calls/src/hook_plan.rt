//! The settings of a pool and the hooks of its factory, as far as a call depends on them.

/// What a call has to know of the settings, and of the factory.
#[derive(Clone, Copy)]
pub struct HookPlan {
    /// Whether a borrow reclaims abandoned objects first.
    pub remove_abandoned_on_borrow: bool,
    pub test_on_create: bool,
    pub test_on_borrow: bool,
    pub test_on_return: bool,
    /// Whether the factory activates objects; otherwise the host isn't asked to.
    pub activates: bool,
    /// Whether the factory passivates objects; otherwise the host isn't asked to.
    pub passivates: bool,
}
