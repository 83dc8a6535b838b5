//! The passes of one caller.

use std::marker::Model;
use table_engine::Engine;
use turn_table::Pass;

/// The passes of one caller: one to each table, in the order of the tables. Contracts see what each shows.
#[derive(Drop)]
pub struct Passes {
    pub each: Vec<Pass<Engine>>,
}

impl Model for Passes {
    ghost use Rattle.std.specs.Prelude.{List};
    ghost use Rattle.std.specs.Coded.{codes};
    ghost use Rattle.column_types.specs.contracts.predicate.Pred as pred_code;
    ghost use Rattle.open_tables.specs.Tables.{TableView};

    ghost Value = { List TableView };

    ghost coded = { Prim.hlevel (codes, pred_code.the_row.coded) };

    ghost view = { λ passes. passes.each.items };
}
