ghost use Rattle.std.specs.Prelude.{◌≡◌, ◌↔◌, ℕ, List, Some};
ghost use Rattle.hpack_blocks.specs.declared.fields.Field.{Field};
ghost use Rattle.hpack_blocks.specs.Table.{Table};
ghost use Rattle.hpack_blocks.specs.Block.{block_of};
ghost use Rattle.hpack_blocks.specs.Grammar.{AreOctets, IsBlock};

/// A law of the definitions: a block has a reading exactly where the grammar of RFC 7541 has it, and so
/// at most one.
pub fn reads_the_grammar()
    ensures { (before : Table) (octets : List ℕ) (fields : List Field) (after : Table) → AreOctets octets → (block_of before octets ≡ Some (fields, after)) ↔ IsBlock before octets fields after }
{}
