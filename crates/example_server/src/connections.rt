//! The connections that the servers share, which a fatal request breaks, and their factory.
ghost use Rattle.std.specs.Prelude.{◌≡◌, true, false};

use pool_shared::Factory;
use thiserror::Error;

/// A connection to something that answers. It counts the requests.
#[derive(Drop)]
pub struct Connection {
    is_awake: bool,
    is_broken: bool,
    asked: u64,
}

impl Connection {
    /// Asks `request`, and returns whether the connection held.
    pub fn ask(&mut self, request: Request) -> bool {
        self.asked = self.asked.saturating_add(1);
        self.is_broken = matches!(request, Request::Fatal);
        !self.is_broken
    }
}

#[derive(Clone, Copy, Debug)]
pub enum Request {
    Usual,
    /// The connection breaks over it.
    Fatal,
}

/// The factory's error: there is no connection.
#[derive(Clone, Copy, Debug, Error)]
#[error("the database is unreachable")]
pub struct Unreachable;

/// A factory that makes connections, and activates them when they are borrowed.
#[derive(Drop)]
pub struct Connector;

impl Factory<Connection, Unreachable> for Connector {
    ghost active = { λ c. c.is_awake ≡ true };

    ghost valid = { λ c. c.is_broken ≡ false };

    ghost passive = { λ c. c.is_awake ≡ false };

    ghost from_make = { λ f. f ≡ f };

    ghost from_activate = { λ f. f ≡ f };

    ghost from_passivate = { λ f. f ≡ f };

    fn make(&self, id: u64) -> Result<Connection, Unreachable> {
        let _ = id;
        Ok(Connection {
            is_awake: false,
            is_broken: false,
            asked: 0,
        })
    }

    fn activate(&self, connection: &mut Connection) -> Result<(), Unreachable> {
        connection.is_awake = true;
        Ok(())
    }

    fn validate(&self, connection: &Connection) -> bool {
        !connection.is_broken
    }

    fn passivate(&self, connection: &mut Connection) -> Result<(), Unreachable> {
        connection.is_awake = false;
        Ok(())
    }

    fn destroy(&self, connection: Connection) {
        drop(connection);
    }
}
