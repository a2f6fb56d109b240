ghost use Rattle.std.specs.Prelude.{◌≡◌, IfOk};
ghost use Rattle.page_maker.specs.Nodes.{name_of};

use itoa::Buffer;
use lunit::{Name, NoMemory};
use std::alloc::Global;

#[tactic(auto, using(crate::proofs::Naming::is_a_name))]
/// The name of node `i`: `n` and the number.
pub(crate) fn node_name(alloc: Global, i: usize) -> Result<Name, NoMemory>
    ensures { IfOk result (λ name. name ≡ name_of i) }
{
    let mut text = Vec::from_slice(alloc, b"n")?;
    let mut digits = Buffer::new();
    text.extend_from_slice(digits.format(i).as_bytes())?;
    match Name::read(&text) {
        Ok(name) => Ok(name),
        Err(_) => unreachable!(),
    }
}
