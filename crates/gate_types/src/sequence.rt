//! A list as contracts see it: the fields of records that a clause compares.
ghost use Rattle.std.specs.Prelude.{◌≡◌, [], ◌∷◌, ◌++◌, OnOk, OnErr, IfOk, IfErr};

use std::alloc::{AllocError, AllocFailed, Global};
use std::marker::Model;

/// Values in order. It is made from a `Vec`, and gives it back.
#[derive(Drop)]
pub struct Sequence<T> {
    values: Vec<T>,
}

impl<T> Model for Sequence<T> {
    ghost use Rattle.std.specs.Prelude.{List};

    ghost Value = { List T };

    ghost view = { λ s. s.values.items };
}

impl<T> Sequence<T> {
    pub fn new(alloc: Global) -> Self
        ensures { result ≡ [] }
    {
        Sequence {
            values: Vec::new(alloc),
        }
    }

    pub fn from_vec(values: Vec<T>) -> Self
        ensures { result ≡ values.items }
    {
        Sequence { values }
    }

    pub fn into_vec(self) -> Vec<T>
        ensures { result.items ≡ self }
    {
        let Sequence { values } = self;
        values
    }

    /// Where its values lie.
    pub(crate) fn allocator(&self) -> Global {
        *self.values.allocator()
    }

    pub fn as_slice(&self) -> &[T]
        ensures { result.now ≡ self.now }
    {
        self.values.as_slice()
    }

    /// Gives the value back where memory is refused.
    pub fn push(&mut self, value: T) -> Result<(), AllocFailed<T>>
        ensures ok { OnOk result (self.new ≡ self.old ++ value ∷ []) }
        ensures err { OnErr result (self.new ≡ self.old) }
        ensures given_back { IfErr result (λ e. e.value ≡ value) }
    {
        self.values.push(value)
    }
}

impl<T: Copy> Sequence<T> {
    pub fn copy(&self) -> Result<Self, AllocError>
        ensures { IfOk result (λ s. s ≡ self.now) }
    {
        let values = Vec::from_slice(*self.values.allocator(), self.as_slice())?;
        Ok(Sequence { values })
    }
}
