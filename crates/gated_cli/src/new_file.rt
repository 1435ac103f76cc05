//! The file of a gate that is about to be made.
ghost use Rattle.std.specs.Prelude.{◌≡◌, ◌⊎◌, IfErr, IfOk, IfSome, IsTrue};
ghost use Rattle.gate_types.specs.declared.open_fault.OpenFault.{OpenFault};
ghost use Rattle.sqlite.specs.Steps.{IsFresh};
ghost use Rattle.sqlite_store.specs.FileStore.{state as store_state, view};
ghost use Rattle.sqlite_trees.specs.View.{IsClean};

use gate_types::open_fault::OpenFault;
use sqlite::{Connection, File, FileStore, Files, Options, Unknown};
use sqlite_disk::Disk;
use sqlite_pager::Pager;
use sqlite_store::{OpenError, Unopened};
use sqlite_wal::PageSize;
use std::alloc::Global;
use std::fs;
use std::hash::{BuildHasher, RandomState};
use std::io::{self, ErrorKind};

/// The bytes of a page of a new file. What a delivery changes goes to the log by whole pages.
const PAGE: usize = 1024;

/// Makes an empty database of small pages in a file that has none, or isn't there; `None` where it has one, which stays
/// as it is. `Unavailable` where the disk or memory fails; `WrongFile` where the file isn't there, but its log is.
pub fn made(rt: &HostRuntime, file: &str) -> Result<Option<Connection<FileStore<File>>>, OpenFault>
    ensures fault { IfErr result (λ f. (f ≡ OpenFault.Unavailable) ⊎ (f ≡ OpenFault.WrongFile)) }
{
    if is_no_path(file) {
        return Err(OpenFault::Unavailable);
    }
    match has_stray_log(rt, file) {
        Ok(false) => {}
        Ok(true) => return Err(OpenFault::WrongFile),
        Err(_) => return Err(OpenFault::Unavailable),
    }
    let Ok(files) = sqlite_std_file::open(rt, file, Unknown) else {
        return Err(OpenFault::Unavailable);
    };
    let Ok(keys) = RandomState::new(rt) else {
        return Err(OpenFault::Unavailable);
    };
    match small_store(rt.alloc(), files, keys.hash_one(&0u8))? {
        Some(store) => connected(rt.alloc(), store),
        None => Ok(None),
    }
}

/// Whether the kit takes a text for no path of a file.
fn is_no_path(file: &str) -> bool {
    file == ":memory:" || file.starts_with("file:")
}

/// Whether a log with content lies by the name of a file that isn't there.
fn has_stray_log(rt: &HostRuntime, file: &str) -> io::Result<bool> {
    if fs::exists(rt, file)? {
        return Ok(false);
    }
    let log = format!(in rt.alloc(); "{file}-wal")?;
    match fs::metadata(rt, log.as_str()) {
        Ok(found) => Ok(found.len() > 0),
        Err(error) if error.kind() == ErrorKind::NotFound => Ok(false),
        Err(error) => Err(error),
    }
}

/// The store of an empty database of small pages, made in files that hold none; `None` where they do.
fn small_store<D: Disk + Drop>(
    alloc: Global,
    files: Files<D>,
    seed: u64,
) -> Result<Option<FileStore<D>>, OpenFault>
    requires log { IsTrue (D.Disk.is_usable files.log) }
    requires db { IsTrue (D.Disk.is_usable files.db) }
    ensures small { IfOk result (λ made. IfSome made (λ store. IsTrue (view store).is_clean →
        (store_state store).page_size ≡ 1024)) }
    ensures fresh { IfOk result (λ made. IfSome made (λ store. IsClean (view store) → IsFresh (view store))) }
    ensures fault { IfErr result (λ f. f ≡ OpenFault.Unavailable) }
{
    let Some(size) = PageSize::new(PAGE) else {
        return Err(OpenFault::Unavailable);
    };
    let Ok(pager) = Pager::new(alloc, files, size, Options::new(seed)) else {
        return Err(OpenFault::Unavailable);
    };
    let Ok(unopened) = Unopened::new(alloc, pager, &[]) else {
        return Err(OpenFault::Unavailable);
    };
    match unopened.create() {
        Ok(store) => Ok(Some(store)),
        Err((OpenError::Refused, _)) => Ok(None),
        Err(_) => Err(OpenFault::Unavailable),
    }
}

/// A connection over a store that was made.
fn connected<D: Disk + Drop>(
    alloc: Global,
    store: FileStore<D>,
) -> Result<Option<Connection<FileStore<D>>>, OpenFault>
    requires { IsClean (view store) → IsFresh (view store) }
    ensures fault { IfErr result (λ f. f ≡ OpenFault.Unavailable) }
{
    match Connection::over(alloc, store) {
        Ok(conn) => Ok(Some(conn)),
        Err(_) => Err(OpenFault::Unavailable),
    }
}
