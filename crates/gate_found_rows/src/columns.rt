//! One column of a row that a query shows, as a value of the gate.
ghost use Rattle.std.specs.Prelude.{◌≡◌, ◌<◌, ◌≤◌, if◌then◌else◌, pos, true, length, string_bytes, IsUtf8, IfOk};
ghost use Rattle.std.specs.Prelude.{IfErr, OnErr};
ghost use Rattle.sqlite.specs.declared.types.Value.TheVariants.{Int, Text};
ghost use Rattle.sqlite_value.specs.Order.{column};
ghost use Rattle.gate_types.specs.Forms.{is_change_number, is_drawn_number, is_revision_number};
ghost use Rattle.gate_types.specs.Names.{is_name, is_path_name};
ghost use Rattle.gate_schema.specs.Rows.{bit, number_or_null};
ghost use Rattle.gate_found_rows.specs.Causes.{is_want_of_memory};
ghost use Rattle.std.specs.Option.{option_map_or};

use gate_book_trait::BookFault;
use gate_types::names::{Name, PathName};
use gate_types::numbers::{BuildNo, ChangeNo, Revision, Serial};
use sqlite::types::ValueRef;
use sqlite::{Error, ErrorCode, Row};

/// A number, 0 or more; `Damaged` where the column holds none.
pub fn number_in(row: &Row, at: usize) -> Result<u64, BookFault>
    ensures ok { (n : _) → column row.now at ≡ Int (pos n) → IfOk result (λ x. x ≡ n) }
    ensures err { (n : _) → column row.now at ≡ Int (pos n) → OnErr result ⊥ }
{
    match row.get_ref(at) {
        Ok(ValueRef::Int(n)) if n >= 0 => Ok(n as u64),
        _ => Err(BookFault::Damaged),
    }
}

/// A number, 0 or more, or None for NULL; `Damaged` where the column holds neither.
pub fn number_if_any_in(row: &Row, at: usize) -> Result<Option<u64>, BookFault>
    ensures ok { (o : _) → column row.now at ≡ number_or_null o → at < length row.now → IfOk result (λ x. x ≡ o) }
    ensures err { (o : _) → column row.now at ≡ number_or_null o → at < length row.now → OnErr result ⊥ }
{
    match row.get_ref(at) {
        Ok(ValueRef::Null) => Ok(None),
        Ok(ValueRef::Int(n)) if n >= 0 => Ok(Some(n as u64)),
        _ => Err(BookFault::Damaged),
    }
}

/// Whether the column holds 1; `Damaged` where it holds neither 0 nor 1.
pub fn flag_in(row: &Row, at: usize) -> Result<bool, BookFault>
    ensures ok { (b : _) → column row.now at ≡ Int (pos (bit b)) → IfOk result (λ x. x ≡ b) }
    ensures form { IfOk result (λ b. column row.now at ≡ Int (pos (bit b))) }
    ensures err { (b : _) → column row.now at ≡ Int (pos (bit b)) → OnErr result ⊥ }
{
    match row.get_ref(at) {
        Ok(ValueRef::Int(0)) => Ok(false),
        Ok(ValueRef::Int(1)) => Ok(true),
        _ => Err(BookFault::Damaged),
    }
}

/// `NoMemory` where memory was refused, else `Damaged`.
fn column_fault(error: &Error) -> BookFault
    ensures { result ≡ (if is_want_of_memory error.now then BookFault.NoMemory else BookFault.Damaged) }
{
    match error {
        Error::SqliteFailure(ErrorCode::OutOfMemory) => BookFault::NoMemory,
        _ => BookFault::Damaged,
    }
}

/// A text; `Damaged` where the column holds none in UTF-8, `NoMemory` where memory is refused.
pub fn text_in(row: &Row, at: usize) -> Result<String, BookFault>
    ensures ok { (t : _) → column row.now at ≡ Text t → IfOk result (λ s. string_bytes s ≡ t) }
    ensures none { length row.now ≤ at → result ≡ Err BookFault.Damaged }
    ensures err { (t : _) → column row.now at ≡ Text t → at < length row.now → IsUtf8 t →
        IfErr result (λ e. e ≡ BookFault.NoMemory) }
{
    match row.get::<String>(at) {
        Ok(text) => Ok(text),
        Err(error) => Err(column_fault(&error)),
    }
}

/// A serial; `Damaged` where the column holds none in range.
pub fn serial_in(row: &Row, at: usize) -> Result<Serial, BookFault>
    ensures ok { (n : _) → column row.now at ≡ Int (pos n) → IfOk result (λ x. x ≡ n) }
    ensures err { (n : _) → column row.now at ≡ Int (pos n) → is_drawn_number n ≡ true → OnErr result ⊥ }
{
    match Serial::new(number_in(row, at)?) {
        Some(serial) => Ok(serial),
        None => Err(BookFault::Damaged),
    }
}

/// A serial, or None for NULL; `Damaged` where the column holds neither.
pub fn serial_if_any_in(row: &Row, at: usize) -> Result<Option<Serial>, BookFault>
    ensures ok { (o : _) → column row.now at ≡ number_or_null o → at < length row.now → IfOk result (λ x. x ≡ o) }
    ensures err { (o : _) → column row.now at ≡ number_or_null o → at < length row.now →
        option_map_or is_drawn_number o true ≡ true → OnErr result ⊥ }
{
    match number_if_any_in(row, at)? {
        Some(n) => match Serial::new(n) {
            Some(serial) => Ok(Some(serial)),
            None => Err(BookFault::Damaged),
        },
        None => Ok(None),
    }
}

/// The number of a change; `Damaged` where the column holds none in range.
pub fn change_in(row: &Row, at: usize) -> Result<ChangeNo, BookFault>
    ensures ok { (n : _) → column row.now at ≡ Int (pos n) → IfOk result (λ x. x ≡ n) }
    ensures err { (n : _) → column row.now at ≡ Int (pos n) → is_change_number n ≡ true → OnErr result ⊥ }
{
    match ChangeNo::new(number_in(row, at)?) {
        Some(change) => Ok(change),
        None => Err(BookFault::Damaged),
    }
}

/// A revision; `Damaged` where the column holds none in range.
pub fn revision_in(row: &Row, at: usize) -> Result<Revision, BookFault>
    ensures ok { (n : _) → column row.now at ≡ Int (pos n) → IfOk result (λ x. x ≡ n) }
    ensures err { (n : _) → column row.now at ≡ Int (pos n) → is_revision_number n ≡ true → OnErr result ⊥ }
{
    match Revision::new(number_in(row, at)?) {
        Some(revision) => Ok(revision),
        None => Err(BookFault::Damaged),
    }
}

/// The number of a build; `Damaged` where the column holds none in range.
pub fn build_in(row: &Row, at: usize) -> Result<BuildNo, BookFault>
    ensures ok { (n : _) → column row.now at ≡ Int (pos n) → IfOk result (λ x. x ≡ n) }
    ensures err { (n : _) → column row.now at ≡ Int (pos n) → is_drawn_number n ≡ true → OnErr result ⊥ }
{
    match BuildNo::new(number_in(row, at)?) {
        Some(build) => Ok(build),
        None => Err(BookFault::Damaged),
    }
}

/// A name; `Damaged` where the column holds none, `NoMemory` where memory is refused.
#[tactic(auto, using(gate_types::proofs::NameLemmas::name_utf8))]
pub fn name_in(row: &Row, at: usize) -> Result<Name, BookFault>
    ensures ok { (t : _) → column row.now at ≡ Text t → IfOk result (λ x. x ≡ t) }
    ensures err { (t : _) → column row.now at ≡ Text t → at < length row.now → is_name t ≡ true →
        IfErr result (λ e. e ≡ BookFault.NoMemory) }
{
    match Name::new(text_in(row, at)?) {
        Some(name) => Ok(name),
        None => Err(BookFault::Damaged),
    }
}

/// A project's name; `Damaged` where the column holds none, `NoMemory` where memory is refused.
#[tactic(auto, using(gate_types::proofs::NameLemmas::path_utf8))]
pub fn path_name_in(row: &Row, at: usize) -> Result<PathName, BookFault>
    ensures ok { (t : _) → column row.now at ≡ Text t → IfOk result (λ x. x ≡ t) }
    ensures err { (t : _) → column row.now at ≡ Text t → at < length row.now → is_path_name t ≡ true →
        IfErr result (λ e. e ≡ BookFault.NoMemory) }
{
    match PathName::new(text_in(row, at)?) {
        Some(name) => Ok(name),
        None => Err(BookFault::Damaged),
    }
}
