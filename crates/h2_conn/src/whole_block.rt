//! What whole header blocks tell.

ghost use Rattle.std.specs.Prelude.{◌≡◌, ◌<◌, ◌≤◌, List, IfOk};
ghost use Rattle.hpack_blocks.specs.declared.fields.Field.{Field};
ghost use Rattle.hpack_blocks.specs.Answers.{Open, MAX};
ghost use Rattle.hpack_blocks.specs.Block.{block_of};
ghost use Rattle.hpack_blocks.specs.Table.{Table, list_size};
ghost use Rattle.grpc_meta.specs.Request.{is_malformed};
ghost use Rattle.h2_conn.specs.WholeBlock.{Judges, ReadsBlock};

use grpc_meta::{MetaFault, method_of, trailer_is_good};
use h2_record::{Event, OpenBlock};
use hpack_blocks::{BlockFault, Decoder, Field, FieldList};
use outside::Memory;
use std::alloc::Global;

/// What a whole header block tells.
#[derive(Drop)]
pub(crate) enum BlockTold {
    /// The request, or the trailers, are malformed (RFC 9113 section 8.1.1).
    Malformed,
    Tells(Event),
}

// Whether the fields of a request are malformed.
fn is_malformed(fields: &[Field]) -> bool
    ensures { result ≡ is_malformed fields.now }
{
    match method_of(fields) {
        Err(MetaFault::Malformed) => true,
        _ => false,
    }
}

// The trailers of a client, or the request, with a list of fields that isn't too large.
fn judge(block: &OpenBlock, fields: FieldList) -> BlockTold
    requires { list_size fields ≤ MAX }
    ensures { Judges block.now fields result }
{
    let stream = block.stream;
    if block.is_late {
        if block.ended && trailer_is_good(fields.fields()) {
            return BlockTold::Tells(Event::Ended { stream });
        }
        return BlockTold::Malformed;
    }
    if is_malformed(fields.fields()) {
        return BlockTold::Malformed;
    }
    BlockTold::Tells(Event::Opened {
        stream,
        fields,
        ended: block.ended,
    })
}

// The same with a list that is too large.
fn judge_large(block: &OpenBlock) -> BlockTold
    ensures { (fields : List Field) → MAX < list_size fields → Judges block.now fields result }
{
    if block.is_late {
        BlockTold::Malformed
    } else {
        BlockTold::Tells(Event::TooLarge {
            stream: block.stream,
        })
    }
}

// Reads a whole block; there is nothing where it isn't in the grammar of HPACK.
pub(crate) fn read_block(
    alloc: Global,
    decoder: &mut Decoder,
    block: &OpenBlock,
) -> Result<Option<BlockTold>, Memory>
    ensures { IfOk result (λ told. (table : Table) → decoder.old ≡ Open table → ReadsBlock block.now (block_of table block.now.bytes) told decoder.new) }
{
    match decoder.decode(alloc, block.bytes.bytes()) {
        Ok(fields) => Ok(Some(judge(block, fields))),
        Err(BlockFault::TooLarge { size: _ }) => Ok(Some(judge_large(block))),
        Err(BlockFault::BadBlock) => Ok(None),
        Err(BlockFault::Memory) => Err(Memory),
    }
}
