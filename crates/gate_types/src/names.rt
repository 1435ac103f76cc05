//! Names and texts within their limits, each made from a `String`.
ghost use Rattle.std.specs.Prelude.{◌≡◌, is_some, IfSome, IfOk, IsTrue, true, string_bytes};
ghost use Rattle.gate_types.specs.Names.{is_name, is_path_name, is_base, is_message, is_letter_or_digit};
ghost use Rattle.gate_types.specs.Names.{is_name_byte, is_path_byte, is_base_byte, same_name};
ghost use Rattle.std.specs.List.{list_all};

use std::alloc::AllocError;
use std::marker::Model;

/// Memory was refused.
pub type NoMemory = AllocError;

/// The name of a queue or a job: 1 to 64 ASCII letters, digits, `.`, `_` and `-`,
/// beginning with a letter or digit.
#[derive(Drop)]
pub struct Name {
    text: String,
}

impl Model for Name {
    ghost use Rattle.std.specs.Prelude.{ℕ, List, IsTrue, true, string_bytes};
    ghost use Rattle.gate_types.specs.Names.{is_name};

    ghost Value = { List ℕ };

    ghost view = { λ n. string_bytes n.text };

    ghost invariant = { λ n. IsTrue (is_name (string_bytes n.text)) };
}

impl Name {
    /// None where the text isn't of the form.
    pub fn new(text: String) -> Option<Self>
        ensures form { is_some result ≡ is_name (string_bytes text) }
        ensures value { IfSome result (λ n. n ≡ string_bytes text) }
    {
        if has_name_form(text.as_str()) {
            Some(Name { text })
        } else {
            None
        }
    }

    pub fn as_str(&self) -> &str
        ensures value { result.now ≡ self.now }
        ensures form { is_name self.now ≡ true }
    {
        self.text.as_str()
    }

    pub fn copy(&self) -> Result<Self, NoMemory>
        ensures { IfOk result (λ n. n ≡ self.now) }
    {
        let text = self.text.clone()?;
        Ok(Name { text })
    }
}

/// Whether two names are the same.
pub fn same_name(name: &Name, other: &Name) -> bool
    ensures { result ≡ same_name name.now other.now }
{
    name.as_str() == other.as_str()
}

/// The name of a project or a worker: as the name of a queue, but `/` may stand behind
/// the first byte.
#[derive(Drop)]
pub struct PathName {
    text: String,
}

impl Model for PathName {
    ghost use Rattle.std.specs.Prelude.{ℕ, List, IsTrue, true, string_bytes};
    ghost use Rattle.gate_types.specs.Names.{is_path_name};

    ghost Value = { List ℕ };

    ghost view = { λ n. string_bytes n.text };

    ghost invariant = { λ n. IsTrue (is_path_name (string_bytes n.text)) };
}

impl PathName {
    /// None where the text isn't of the form.
    pub fn new(text: String) -> Option<Self>
        ensures form { is_some result ≡ is_path_name (string_bytes text) }
        ensures value { IfSome result (λ n. n ≡ string_bytes text) }
    {
        if has_path_form(text.as_str()) {
            Some(PathName { text })
        } else {
            None
        }
    }

    pub fn as_str(&self) -> &str
        ensures value { result.now ≡ self.now }
        ensures form { is_path_name self.now ≡ true }
    {
        self.text.as_str()
    }

    pub fn copy(&self) -> Result<Self, NoMemory>
        ensures { IfOk result (λ n. n ≡ self.now) }
    {
        let text = self.text.clone()?;
        Ok(PathName { text })
    }
}

/// What stands before a change's number in a need's address: 1 to 200 bytes from 0x21 to 0x7E.
#[derive(Drop)]
pub struct Base {
    text: String,
}

impl Model for Base {
    ghost use Rattle.std.specs.Prelude.{ℕ, List, IsTrue, true, string_bytes};
    ghost use Rattle.gate_types.specs.Names.{is_base};

    ghost Value = { List ℕ };

    ghost view = { λ n. string_bytes n.text };

    ghost invariant = { λ n. IsTrue (is_base (string_bytes n.text)) };
}

impl Base {
    pub(crate) fn copy(&self) -> Result<Self, NoMemory>
        ensures { IfOk result (λ n. n ≡ self.now) }
    {
        let text = self.text.clone()?;
        Ok(Base { text })
    }

    /// None where the text isn't of the form.
    pub fn new(text: String) -> Option<Self>
        ensures form { is_some result ≡ is_base (string_bytes text) }
        ensures value { IfSome result (λ n. n ≡ string_bytes text) }
    {
        if has_base_form(text.as_str()) {
            Some(Base { text })
        } else {
            None
        }
    }

    pub fn as_str(&self) -> &str
        ensures value { result.now ≡ self.now }
        ensures form { is_base self.now ≡ true }
    {
        self.text.as_str()
    }
}

/// A commit message: at most 16,384 bytes of UTF-8.
#[derive(Drop)]
pub struct Message {
    text: String,
}

impl Model for Message {
    ghost use Rattle.std.specs.Prelude.{ℕ, List, IsTrue, true, string_bytes};
    ghost use Rattle.gate_types.specs.Names.{is_message};

    ghost Value = { List ℕ };

    ghost view = { λ n. string_bytes n.text };

    ghost invariant = { λ n. IsTrue (is_message (string_bytes n.text)) };
}

impl Message {
    /// None where the text isn't of the form.
    pub fn new(text: String) -> Option<Self>
        ensures form { is_some result ≡ is_message (string_bytes text) }
        ensures value { IfSome result (λ n. n ≡ string_bytes text) }
    {
        if has_message_form(text.as_str()) {
            Some(Message { text })
        } else {
            None
        }
    }

    pub fn as_str(&self) -> &str
        ensures value { result.now ≡ self.now }
        ensures form { is_message self.now ≡ true }
    {
        self.text.as_str()
    }
}

/// A text of any length.
#[derive(Drop)]
pub struct Text {
    text: String,
}

impl Model for Text {
    ghost use Rattle.std.specs.Prelude.{ℕ, List, string_bytes};

    ghost Value = { List ℕ };

    ghost view = { λ t. string_bytes t.text };
}

impl Text {
    pub fn new(text: String) -> Self
        ensures { result ≡ string_bytes text }
    {
        Text { text }
    }

    pub fn as_str(&self) -> &str
        ensures { result.now ≡ self.now }
    {
        self.text.as_str()
    }

    pub fn into_string(self) -> String
        ensures { string_bytes result ≡ self }
    {
        let Text { text } = self;
        text
    }

    pub fn copy(&self) -> Result<Self, NoMemory>
        ensures { IfOk result (λ t. t ≡ self.now) }
    {
        let text = self.text.clone()?;
        Ok(Text { text })
    }
}

fn is_alphanumeric(byte: u8) -> bool
    ensures { result ≡ is_letter_or_digit byte }
{
    byte.is_ascii_alphanumeric()
}

fn may_stand_in_name(byte: u8) -> bool
    ensures { result ≡ is_name_byte byte }
{
    is_alphanumeric(byte) || byte == b'.' || byte == b'_' || byte == b'-'
}

fn may_stand_in_path(byte: u8) -> bool
    ensures { result ≡ is_path_byte byte }
{
    may_stand_in_name(byte) || byte == b'/'
}

fn may_stand_in_base(byte: u8) -> bool
    ensures { result ≡ is_base_byte byte }
{
    byte.is_ascii_graphic()
}

fn are_name_bytes(bytes: &[u8]) -> bool
    ensures { result ≡ list_all is_name_byte bytes.now }
{
    bytes.iter().all(|b| may_stand_in_name(*b))
}

fn are_path_bytes(bytes: &[u8]) -> bool
    ensures { result ≡ list_all is_path_byte bytes.now }
{
    bytes.iter().all(|b| may_stand_in_path(*b))
}

fn are_base_bytes(bytes: &[u8]) -> bool
    ensures { result ≡ list_all is_base_byte bytes.now }
{
    bytes.iter().all(|b| may_stand_in_base(*b))
}

/// Whether a text has the form of a `Name`.
pub fn has_name_form(text: &str) -> bool
    ensures { result ≡ is_name text.now }
{
    let bytes = text.as_bytes();
    1 <= bytes.len() && bytes.len() <= 64 && is_alphanumeric(bytes[0]) && are_name_bytes(bytes)
}

/// Whether a text has the form of a `PathName`.
pub fn has_path_form(text: &str) -> bool
    ensures { result ≡ is_path_name text.now }
{
    let bytes = text.as_bytes();
    1 <= bytes.len() && bytes.len() <= 64 && is_alphanumeric(bytes[0]) && are_path_bytes(bytes)
}

/// Whether a text has the form of a `Base`.
pub fn has_base_form(text: &str) -> bool
    ensures { result ≡ is_base text.now }
{
    let bytes = text.as_bytes();
    1 <= bytes.len() && bytes.len() <= 200 && are_base_bytes(bytes)
}

fn has_message_form(text: &str) -> bool
    ensures { result ≡ is_message text.now }
{
    text.len() <= 16_384
}
