//! Lists, one longer.
ghost use Rattle.std.specs.Prelude.{◌≡◌, ◌++◌, ◌∷◌, [], IfOk};

use crate::names::NoMemory;

/// A list, and one more at its end.
pub fn with_one<T: Drop>(list: Vec<T>, one: T) -> Result<Vec<T>, NoMemory>
    ensures { IfOk result (λ all. all.items ≡ list.items ++ one ∷ []) }
{
    let mut list = list;
    list.push(one)?;
    Ok(list)
}
