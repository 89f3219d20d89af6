//! The connections that the workers share, each of which lasts for a number of questions, and their factory.

use pool_shared::Factory;
use std::convert::Infallible;
use std::thread;

/// The number of questions that a connection lasts for.
const LASTS: u64 = 100;

/// A connection to something that answers. It counts the questions.
#[derive(Drop)]
pub struct Connection {
    asked: u64,
}

impl Connection {
    /// Asks a question. Meanwhile other workers may run.
    pub fn ask(&mut self) {
        thread::yield_now();
        self.asked = self.asked.saturating_add(1);
    }
}

/// A factory of connections. One that was asked `LASTS` times fails its test, and the pool makes a new one in its
/// place.
#[derive(Drop)]
pub struct Connector;

impl Factory<Connection, Infallible> for Connector {
    ghost use Rattle.std.specs.Prelude.{⊤};

    ghost active = { λ connection. ⊤ };

    ghost valid = { λ connection. ⊤ };

    ghost passive = { λ connection. ⊤ };

    ghost from_make = { λ fault. ⊥ };

    ghost from_activate = { λ fault. ⊥ };

    ghost from_passivate = { λ fault. ⊥ };

    fn make(&self, _id: u64) -> Result<Connection, Infallible> {
        Ok(Connection { asked: 0 })
    }

    fn activate(&self, _connection: &mut Connection) -> Result<(), Infallible> {
        Ok(())
    }

    fn validate(&self, connection: &Connection) -> bool {
        connection.asked < LASTS
    }

    fn passivate(&self, _connection: &mut Connection) -> Result<(), Infallible> {
        Ok(())
    }

    fn destroy(&self, _connection: Connection) {}
}
