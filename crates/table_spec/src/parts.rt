//! Texts cut at a character.

ghost use Rattle.std.specs.Prelude.{◌≡◌, ◌==◌, ◌<◌, map, IfOk};
ghost use Rattle.std.specs.List.{slice_split};

use outside::Memory;
use std::alloc::Global;

/// The parts of a text between the places of an ASCII character.
pub(crate) fn parts<'a>(alloc: Global, text: &'a str, at: char) -> Result<Vec<&'a str>, Memory>
    requires { at < 128 }
    ensures { IfOk result (λ all. map (λ p. p.now) all.items ≡ slice_split (λ b. b == at) text.now) }
{
    Ok(text.split(at).collect(alloc)?)
}
