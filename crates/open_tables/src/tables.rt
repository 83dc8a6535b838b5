//! Open tables.

ghost use Rattle.std.specs.Prelude.{◌≡◌, ◌<◌, length, nat_lt, position, slice_get, Some, IfOk, IfSome, All};
ghost use Rattle.std.specs.Str.{bytes_eq};
ghost use Rattle.turn_table.specs.View.{first_pass};
ghost use Rattle.open_tables.specs.Tables.{AreTables, AreTheirs, HasItsColumns, specs_of, place_of, first_passes};

use crate::Passes;
use outside::Memory;
use std::alloc::Global;
use std::marker::Model;
use table_engine::Engine;
use table_spec::TableSpec;
use turn_table::{Pass, Turn};

/// The most tables of a server.
pub const MAX_TABLES: usize = 8;

// A table's name and columns, and its turn.
type OpenTable = (TableSpec, Turn<Engine>);

/// The tables of a server, 1 to 8 of different names. Contracts see each one's name and columns, and its turn.
#[derive(Drop)]
pub struct Tables {
    each: Vec<OpenTable>,
}

impl Model for Tables {
    ghost use Rattle.std.specs.Prelude.{List};
    ghost use Rattle.open_tables.specs.Tables.{OpenTable, AreOpen};

    ghost Value = { List OpenTable };

    ghost view = { λ tables. tables.each.items };

    ghost invariant = { λ tables. AreOpen tables.each.items };
}

// A table whose history is empty, and the first pass to it.
fn open(alloc: Global, spec: &TableSpec) -> Result<(Turn<Engine>, Pass<Engine>), Memory>
    ensures turn { IfOk result (λ both. both.0.fixed ≡ spec.now.schema) }
    ensures pass { IfOk result (λ both. both.1 ≡ first_pass both.0) }
{
    let schema = spec.copy_schema(alloc)?;
    let engine = Engine::new(alloc, schema)?;
    Turn::new(alloc, engine)
}

// Tables whose histories are empty, and the first pass to each.
fn open_all(
    alloc: Global,
    specs: Vec<TableSpec>,
) -> Result<(Vec<OpenTable>, Vec<Pass<Engine>>), Memory>
    ensures specs { IfOk result (λ both. specs_of both.0.items ≡ specs.items) }
    ensures columns { IfOk result (λ both. All HasItsColumns both.0.items) }
    ensures passes { IfOk result (λ both. both.1.items ≡ first_passes both.0.items) }
{
    let mut each = Vec::with_capacity(alloc, specs.len())?;
    let mut passes = Vec::with_capacity(alloc, specs.len())?;
    for spec in specs {
        let (turn, pass) = open(alloc, &spec)?;
        each.push((spec, turn))?;
        passes.push(pass)?;
    }
    Ok((each, passes))
}

// The place of the first table of this name.
fn place_named(tables: &[OpenTable], name: &str) -> Option<usize>
    ensures place { result ≡ position (λ table. bytes_eq table.0.name name.now) tables.now }
    ensures within { IfSome result (λ place. place < length tables.now) }
{
    tables.iter().position(|table| table.0.name.text() == name)
}

impl Tables {
    /// Opens these tables, each with an empty history, and gives the first pass to each.
    pub fn start(alloc: Global, specs: Vec<TableSpec>) -> Result<(Tables, Passes), Memory>
        requires { AreTables specs.items }
        ensures specs { IfOk result (λ both. specs_of both.0 ≡ specs.items) }
        ensures passes { IfOk result (λ both. both.1 ≡ first_passes both.0) }
        ensures theirs { IfOk result (λ both. AreTheirs both.0 both.1) }
    {
        let (each, passes) = open_all(alloc, specs)?;
        Ok((Tables { each }, Passes { each: passes }))
    }

    /// The place of the table of this name, in the order of `start`; None exactly where there is none.
    pub fn find(&self, name: &str) -> Option<u32>
        ensures place { result ≡ place_of (specs_of self.now) name.now }
        ensures within { IfSome result (λ place. place < length self.now) }
    {
        let place = place_named(self.each.as_slice(), name)?;
        Some(place as u32)
    }

    /// Whether there is a table at this place.
    pub fn has_place(&self, place: u32) -> bool
        ensures { result ≡ nat_lt place (length self.now) }
    {
        (place as usize) < self.each.len()
    }

    /// The name and the columns of the table at this place.
    pub fn spec(&self, place: u32) -> &TableSpec
        requires { place < length self.now }
        ensures { slice_get (specs_of self.now) place ≡ Some result.now }
    {
        &self.each[place as usize].0
    }

    /// The turn of the table at this place. Its machine has the table's columns.
    pub fn turn(&self, place: u32) -> &Turn<Engine>
        requires { place < length self.now }
        ensures turn { IfSome (slice_get self.now place) (λ table. table.1 ≡ result.now) }
        ensures columns { IfSome (slice_get (specs_of self.now) place) (λ spec. result.now.fixed ≡ spec.schema) }
    {
        &self.each[place as usize].1
    }

    /// The tables, in their order. No memory is taken.
    pub fn parts(self) -> Vec<(TableSpec, Turn<Engine>)>
        ensures tables { result.items ≡ self }
        ensures columns { All HasItsColumns result.items }
    {
        self.each
    }
}
