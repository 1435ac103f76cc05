//! A gate's book over the tables of a file.
ghost use Rattle.std.specs.Prelude.{◌≡◌, map, IfOk, string_bytes};
ghost use Rattle.gate_types.specs.SettingsText.{settings_text};
ghost use Rattle.gate_table_laws.specs.Held.{queue_names};

use gate_types::config::{Config, Queue};
use gate_types::names::{Name, NoMemory};
use sqlite::{Alter, Connection};
use std::alloc::Global;

/// A gate's book over the tables of a file.
#[derive(Drop)]
pub struct SqlBook<S: Alter> {
    pub(crate) alloc: Global,
    pub(crate) conn: Connection<S>,
    // The queues of the settings: an edit of another queue is refused.
    pub(crate) queues: Vec<Name>,
}

impl<S: Alter> SqlBook<S> {
    /// The connection that the book was made over.
    pub fn into_conn(self) -> Connection<S>
        ensures { result ≡ self.conn }
    {
        let SqlBook {
            alloc: _,
            conn,
            queues: _,
        } = self;
        conn
    }
}

/// The names of the queues, in their order.
fn names_of(alloc: Global, queues: &[Queue]) -> Result<Vec<Name>, NoMemory>
    ensures { IfOk result (λ names. names.items ≡ map (λ q. q.name) queues.now) }
{
    let mut names = Vec::new(alloc);
    for queue in queues {
        names.push(queue.name.copy()?)?;
    }
    Ok(names)
}

/// The settings' text, and what a book knows of them.
pub(crate) fn texts_of(alloc: Global, config: &Config) -> Result<(String, Vec<Name>), NoMemory>
    ensures { IfOk result (λ texts.
        (string_bytes texts.0 ≡ settings_text config.now) × (texts.1.items ≡ queue_names config.now)) }
{
    let settings = config.text(alloc)?;
    let queues = names_of(alloc, config.queues.as_slice())?;
    Ok((settings, queues))
}
