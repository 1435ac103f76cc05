//! What gates play in memory, over tables and over HTTP. All tests of a book come here, since the proof of a call over
//! just one kind of book takes long.
use crate::gates::{conn_of, gate_in, gate_in_memory, made};
use crate::settings::{largest, many_jobs, one_job};
use crate::{connections, histories, landings, numbers, statuses};
use gate_archive::Archive;
use gate_core::Gate;
use gate_types::config::Config;
use sqlite::{Alter, Connection};
use std::process::Abort;

/// What is told and shown.
#[derive(Clone, Copy)]
pub(crate) enum Scene {
    /// A change of each queue lands, under the largest settings.
    Largest,
    /// There are 10,000 reports, and 20,001 deliveries.
    History,
    /// A status has 1,000 items.
    Status,
}

/// What is played over tables.
#[derive(Clone, Copy)]
pub(crate) enum Stored {
    Scene(Scene),
    /// A change lands where so many numbers were drawn.
    Numbers(u64),
}

/// What is asked over HTTP.
#[derive(Clone, Copy)]
pub(crate) enum Asked {
    Scene(Scene),
    /// Fifty connections.
    Connections,
}

fn settings(rt: &(impl Abort + AllocGlobal), scene: Scene) -> Config {
    match scene {
        Scene::Largest => largest(rt),
        Scene::History => one_job(rt),
        Scene::Status => many_jobs(rt),
    }
}

fn settings_asked(rt: &(impl Abort + AllocGlobal), asked: Asked) -> Config {
    match asked {
        Asked::Scene(scene) => settings(rt, scene),
        Asked::Connections => one_job(rt),
    }
}

fn plays<B: Archive>(rt: &(impl Abort + AllocGlobal), gate: &mut Gate<B>, scene: Scene) {
    match scene {
        Scene::Largest => landings::plays(rt, gate),
        Scene::History => histories::plays(rt, gate),
        Scene::Status => statuses::plays(rt, gate),
    }
}

fn serves<B: Archive>(rt: &(impl Abort + AllocGlobal), gate: &mut Gate<B>, asked: Asked) {
    match asked {
        Asked::Scene(Scene::Largest) => landings::serves(rt, gate),
        Asked::Scene(Scene::History) => histories::serves(rt, gate),
        Asked::Scene(Scene::Status) => statuses::serves(rt, gate),
        Asked::Connections => connections::serves(rt, gate),
    }
}

/// The gate plays the scene in a file that was made, and is opened again.
fn plays_in<S: Alter + Drop>(rt: &(impl Abort + AllocGlobal), conn: Connection<S>, scene: Scene) {
    let config = settings(rt, scene);
    let conn = made(rt, conn, &config);
    let mut gate = gate_in(rt, conn, config);
    plays(rt, &mut gate, scene);
    let _ = conn_of(gate);
}

fn stored_in<S: Alter + Drop>(
    rt: &(impl Abort + AllocGlobal),
    conn: Connection<S>,
    stored: Stored,
) {
    match stored {
        Stored::Scene(scene) => plays_in(rt, conn, scene),
        Stored::Numbers(drawn) => numbers::plays_in(rt, conn, drawn),
    }
}

/// It is played by a gate over a book in memory.
pub(crate) fn in_memory(rt: &(impl Abort + AllocGlobal), scene: Scene) {
    let config = settings(rt, scene);
    plays(rt, &mut gate_in_memory(rt, config), scene);
}

/// It is asked of a gate over a book in memory.
pub(crate) fn over_http(rt: &(impl Abort + AllocGlobal), asked: Asked) {
    let config = settings_asked(rt, asked);
    serves(rt, &mut gate_in_memory(rt, config), asked);
}

/// It is played over the tables of a file in memory.
pub(crate) fn over_tables(rt: &(impl Abort + AllocGlobal), stored: Stored) {
    let conn = Connection::open_in_memory(rt.alloc())
        .ok()
        .expect(rt, "a connection");
    stored_in(rt, conn, stored);
}
