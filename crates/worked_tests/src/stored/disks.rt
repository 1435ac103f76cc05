//! Files on disks in memory that fail after so many calls.
use sqlite::{Connection, FileStore, Files, Options};
use sqlite_disk::{Crash, Disk, Fuse, Memory};
use std::alloc::Global;
use std::process::Abort;

/// Which file's disk fails, and after how many calls.
#[derive(Clone, Copy)]
pub(crate) enum Stop {
    Never,
    Log(u64),
    Database(u64),
}

impl Stop {
    /// One of the files after so many calls.
    pub(crate) fn after(is_log: bool, calls: u64) -> Stop {
        if is_log {
            Stop::Log(calls)
        } else {
            Stop::Database(calls)
        }
    }

    /// The calls of the log that don't fail, and those of the database file.
    fn calls(self) -> (u64, u64) {
        match self {
            Stop::Never => (u64::MAX, u64::MAX),
            Stop::Log(calls) => (calls, u64::MAX),
            Stop::Database(calls) => (u64::MAX, calls),
        }
    }
}

/// A file of these bytes, on a disk that fails after so many calls.
fn fused(rt: &(impl Abort + AllocGlobal), bytes: &[u8], calls: u64) -> Fuse<Memory> {
    let mut memory = Memory::new(rt.alloc());
    memory.write_at(0, bytes).expect(rt, "a write");
    memory.sync().expect(rt, "a sync");
    Fuse::new(memory, calls)
}

/// An empty file and an empty log, on disks with this stop.
pub(crate) fn empty_files(rt: &(impl Abort + AllocGlobal), stop: Stop) -> Files<Fuse<Memory>> {
    let (log_calls, db_calls) = stop.calls();
    Files {
        log: fused(rt, &[], log_calls),
        db: fused(rt, &[], db_calls),
    }
}

/// Copies of a file and its log, on disks with this stop.
pub(crate) fn copied(
    rt: &(impl Abort + AllocGlobal),
    files: &Files<Fuse<Memory>>,
    stop: Stop,
) -> Files<Fuse<Memory>> {
    let (log_calls, db_calls) = stop.calls();
    Files {
        log: fused(rt, files.log.inner().bytes(), log_calls),
        db: fused(rt, files.db.inner().bytes(), db_calls),
    }
}

/// The databases of files on such disks. Functions take any `Disks`, since the proof of each call over the connections
/// of `InMemory` takes long: a test makes one.
pub(crate) trait Disks {
    /// An open database.
    type Database;

    /// The database of these files, or what is left of them.
    fn connected(
        &self,
        files: Files<Fuse<Memory>>,
        options: Options,
    ) -> Result<Self::Database, Files<Fuse<Memory>>>;

    /// Closes the files, and gives them back: whether nothing stopped that.
    fn closed(&self, conn: Self::Database) -> (bool, Files<Fuse<Memory>>);

    /// The files as they are, with the log beside the database.
    fn left(&self, conn: Self::Database) -> Files<Fuse<Memory>>;
}

#[derive(Clone, Copy)]
pub(crate) struct InMemory {
    pub(crate) alloc: Global,
}

impl Disks for InMemory {
    type Database = Connection<FileStore<Fuse<Memory>>>;

    fn connected(
        &self,
        files: Files<Fuse<Memory>>,
        options: Options,
    ) -> Result<Connection<FileStore<Fuse<Memory>>>, Files<Fuse<Memory>>> {
        if !files.may_be_used() {
            return Err(files);
        }
        match Connection::open_files(self.alloc, files, options) {
            Ok(conn) => Ok(conn),
            Err((_, left)) => Err(left.into_files()),
        }
    }

    fn closed(&self, conn: Connection<FileStore<Fuse<Memory>>>) -> (bool, Files<Fuse<Memory>>) {
        match conn.close_files() {
            Ok(files) => (true, files),
            Err((_, store)) => (false, store.close()),
        }
    }

    fn left(&self, conn: Connection<FileStore<Fuse<Memory>>>) -> Files<Fuse<Memory>> {
        conn.into_store().close()
    }
}

/// How files are opened: the log's salts come from this number.
pub(crate) fn options() -> Options {
    Options::new(7)
}

/// The database of these files.
pub(crate) fn opened<D: Disks>(
    rt: &(impl Abort + AllocGlobal),
    disks: &D,
    files: Files<Fuse<Memory>>,
) -> D::Database {
    disks
        .connected(files, options())
        .ok()
        .expect(rt, "open files")
}

/// The files of a database that is closed without a stop.
pub(crate) fn closed<D: Disks>(
    rt: &impl Abort,
    disks: &D,
    conn: D::Database,
) -> Files<Fuse<Memory>> {
    let (is_whole, files) = disks.closed(conn);
    assert!(rt; is_whole, "the files aren't closed");
    files
}

/// The files after a crash, which loses all that wasn't synced.
pub(crate) fn crashed(mut files: Files<Fuse<Memory>>) -> Files<Fuse<Memory>> {
    files.log.crash();
    files.db.crash();
    files
}
