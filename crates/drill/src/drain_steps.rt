//! The steps of a drain, each of which takes turns at the table.

ghost use Rattle.std.specs.Prelude.{◌≡◌, ◌∷◌, [], ◌++◌, ◌<◌, ◌%◌, ℕ, List, length, slice_get, Some, IfOk, IfErr};
ghost use Rattle.table_model.specs.Legal.{IsLegal};
ghost use Rattle.turn_table.specs.View.{IsOf};
ghost use Rattle.drill.specs.declared.drain_parts.Part.{Part as APart};
ghost use Rattle.drill.specs.declared.moves.Move.{Move as AMove};
ghost use Rattle.drill.specs.declared.moves.Move.TheVariants as a_move;
ghost use Rattle.drill.specs.Drains.{Asked, Fails, Went};
ghost use Rattle.drill.specs.Parts.{Stands};
ghost use Rattle.drill.specs.Steps.{IsParent, Looked, lease_in, split_by, split_in};

use crate::drain_parts::{Part, open_part, read_part, roots_of};
use crate::drained::DrainFault;
use crate::moves::Move;
use outside::Memory;
use read_cursor::Lease;
use std::alloc::Global;
use std::sync::Wait;
use table_engine::{Engine, Held, Key, machine_histories_are_legal};
use table_model::{Command, Reply};
use turn_table::{Pass, Turn};

/// A law: what a pass has seen is legal.
pub(crate) fn seen_is_legal(pass: &Pass<Engine>)
    ensures { IsLegal pass.now.fixed pass.now.seen }
{
    machine_histories_are_legal();
    pass.seen_is_legal();
}

// The lease of a node that can be read, or why there is none.
fn lease_of(look: Result<Option<Held>, Memory>) -> Result<Lease, DrainFault>
    ensures { result ≡ lease_in look }
{
    match look {
        Ok(Some(held)) => {
            if held.expires <= held.moment {
                return Err(DrainFault::Expired {
                    moment: held.moment,
                    expires: held.expires,
                });
            }
            Ok(held.lease)
        }
        Ok(None) => Err(DrainFault::NoSession),
        Err(Memory) => Err(DrainFault::Memory),
    }
}

/// Looks at a node of a session.
pub(crate) fn look_at<R: Wait>(
    turn: &Turn<Engine>,
    rt: &R,
    pass: Pass<Engine>,
    session: u32,
    node: u32,
) -> (Pass<Engine>, Result<Lease, DrainFault>)
    requires theirs { IsOf turn.now pass }
    ensures theirs { IsOf turn.now result.0 }
    ensures went { Went session pass result.0 }
    ensures asked { Asked session [] pass result.0 }
    ensures looked { Looked result.0.seen session node result.1 }
    ensures legal { IsLegal pass.fixed result.0.seen }
{
    let (pass, look) = turn.look(rt, pass, &Key { session, node });
    seen_is_legal(&pass);
    (pass, lease_of(look))
}

/// Begins with the roots of a session.
pub(crate) fn begin<R: Wait>(
    turn: &Turn<Engine>,
    rt: &R,
    alloc: Global,
    pass: Pass<Engine>,
    session: u32,
) -> (Pass<Engine>, Result<Vec<Part>, DrainFault>)
    requires theirs { IsOf turn.now pass }
    ensures theirs { IsOf turn.now result.0 }
    ensures went { Went session pass result.0 }
    ensures asked { Asked session [] pass result.0 }
    ensures stands { IfOk result.1 (λ parts. Stands result.0.seen session [] parts.items) }
    ensures fails { IfErr result.1 (Fails pass.fixed pass.number result.0.seen session) }
{
    let (pass, look) = look_at(turn, rt, pass, session, 0);
    match look {
        Ok(lease) => match roots_of(alloc, lease) {
            Ok(parts) => (pass, Ok(parts)),
            Err(Memory) => (pass, Err(DrainFault::Memory)),
        },
        Err(fault) => (pass, Err(fault)),
    }
}

// Reads up to `count` rows of the node at a place of the cut.
fn read_at<R: Wait>(
    turn: &Turn<Engine>,
    rt: &R,
    alloc: Global,
    pass: Pass<Engine>,
    session: u32,
    parts: Vec<Part>,
    place: usize,
    count: u32,
) -> (Pass<Engine>, Result<Vec<Part>, DrainFault>)
    requires theirs { IsOf turn.now pass }
    requires there { place < length parts.items }
    ensures theirs { IsOf turn.now result.0 }
    ensures went { Went session pass result.0 }
    ensures asked { Asked session [] pass result.0 }
    ensures stands { (moves : List AMove) → Stands pass.seen session moves parts.items → IfOk result.1 (λ after. Stands result.0.seen session moves after.items) }
    ensures fails { (moves : List AMove) → Stands pass.seen session moves parts.items → IfErr result.1 (Fails pass.fixed pass.number result.0.seen session) }
{
    let (pass, look) = look_at(turn, rt, pass, session, parts[place].node);
    match look {
        Ok(lease) => match read_part(alloc, lease, parts, place, count) {
            Ok(parts) => (pass, Ok(parts)),
            Err(Memory) => (pass, Err(DrainFault::Memory)),
        },
        Err(fault) => (pass, Err(fault)),
    }
}

// Puts the children of the node at a place of the cut in its stead.
fn open_at<R: Wait>(
    turn: &Turn<Engine>,
    rt: &R,
    pass: Pass<Engine>,
    session: u32,
    parts: Vec<Part>,
    place: usize,
    left: u32,
    right: u32,
) -> (Pass<Engine>, Result<Vec<Part>, DrainFault>)
    requires theirs { IsOf turn.now pass }
    requires there { place < length parts.items }
    ensures theirs { IsOf turn.now result.0 }
    ensures went { Went session pass result.0 }
    ensures asked { Asked session [] pass result.0 }
    ensures legal { IsLegal pass.fixed result.0.seen }
    ensures stands { (moves : List AMove) (part : APart) (at : ℕ) → Stands pass.seen session moves parts.items → slice_get parts.items place ≡ Some part → IsParent pass.seen session part.node left right
        → at % length parts.items ≡ place → IfOk result.1 (λ after. Stands result.0.seen session (moves ++ a_move.Split at ∷ []) after.items) }
    ensures fails { (moves : List AMove) (part : APart) → Stands pass.seen session moves parts.items → slice_get parts.items place ≡ Some part → IsParent pass.seen session part.node left right
        → IfErr result.1 (Fails pass.fixed pass.number result.0.seen session) }
{
    let (pass, look) = look_at(turn, rt, pass, session, left);
    match look {
        Ok(lease) => match open_part(lease, parts, place, left, right) {
            Ok(parts) => (pass, Ok(parts)),
            Err(Memory) => (pass, Err(DrainFault::Memory)),
        },
        Err(fault) => (pass, Err(fault)),
    }
}

// What a node was split into.
enum Split {
    // These two.
    Children { left: u32, right: u32 },
    // Nothing: it has one row or none.
    Small,
}

// What the reply to a split says.
fn split_by(reply: Reply) -> Result<Split, DrainFault>
    ensures { result ≡ split_by reply }
{
    match reply {
        Reply::Children { left, right } => Ok(Split::Children { left, right }),
        Reply::NoSplit => Ok(Split::Small),
        reply => Err(DrainFault::Refused { reply }),
    }
}

// What a split came to.
fn split_in(told: Result<Reply, Memory>) -> Result<Split, DrainFault>
    ensures { result ≡ split_in told }
{
    match told {
        Ok(reply) => split_by(reply),
        Err(Memory) => Err(DrainFault::Memory),
    }
}

// Splits the node at a place of the cut.
fn split_at<R: Wait>(
    turn: &Turn<Engine>,
    rt: &R,
    alloc: Global,
    pass: Pass<Engine>,
    session: u32,
    parts: Vec<Part>,
    place: usize,
) -> (Pass<Engine>, Result<Vec<Part>, DrainFault>)
    requires theirs { IsOf turn.now pass }
    requires there { place < length parts.items }
    ensures theirs { IsOf turn.now result.0 }
    ensures went { Went session pass result.0 }
    ensures asked { (moves : List AMove) (at : ℕ) → Stands pass.seen session moves parts.items → at % length parts.items ≡ place → Asked session (moves ++ a_move.Split at ∷ []) pass result.0 }
    ensures stands { (moves : List AMove) (at : ℕ) → Stands pass.seen session moves parts.items → at % length parts.items ≡ place
        → IfOk result.1 (λ after. Stands result.0.seen session (moves ++ a_move.Split at ∷ []) after.items) }
    ensures fails { (moves : List AMove) → Stands pass.seen session moves parts.items → IfErr result.1 (Fails pass.fixed pass.number result.0.seen session) }
{
    let node = parts[place].node;
    let split = Command::Split { session, node };
    let (pass, told) = turn.act(rt, alloc, pass, split, 0);
    seen_is_legal(&pass);
    match split_in(told) {
        Ok(Split::Children { left, right }) => {
            open_at(turn, rt, pass, session, parts, place, left, right)
        }
        Ok(Split::Small) => (pass, Ok(parts)),
        Err(fault) => (pass, Err(fault)),
    }
}

/// Takes a step of a reader.
pub(crate) fn take_step<R: Wait>(
    turn: &Turn<Engine>,
    rt: &R,
    alloc: Global,
    pass: Pass<Engine>,
    session: u32,
    parts: Vec<Part>,
    step: Move,
) -> (Pass<Engine>, Result<Vec<Part>, DrainFault>)
    requires theirs { IsOf turn.now pass }
    requires some { 0 < length parts.items }
    ensures theirs { IsOf turn.now result.0 }
    ensures went { Went session pass result.0 }
    ensures asked { (moves : List AMove) → Stands pass.seen session moves parts.items → Asked session (moves ++ step ∷ []) pass result.0 }
    ensures stands { (moves : List AMove) → Stands pass.seen session moves parts.items → IfOk result.1 (λ after. Stands result.0.seen session (moves ++ step ∷ []) after.items) }
    ensures fails { (moves : List AMove) → Stands pass.seen session moves parts.items → IfErr result.1 (Fails pass.fixed pass.number result.0.seen session) }
{
    match step {
        Move::Read { place, count } => {
            let at = place as usize % parts.len();
            read_at(turn, rt, alloc, pass, session, parts, at, count)
        }
        Move::Split { place } => {
            let at = place as usize % parts.len();
            split_at(turn, rt, alloc, pass, session, parts, at)
        }
    }
}
