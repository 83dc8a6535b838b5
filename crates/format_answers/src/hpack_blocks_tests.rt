ghost use Rattle.hpack_blocks.specs.Spelling.{Fits};
ghost use Rattle.std.specs.Prelude.{◌<◌, ◌^◌, IfOk, length};

use crate::listed::assert_fields;
use hpack_blocks::{BlockFault, Decoder, Field, write_block};
use outside::{Blob, Memory};
use std::alloc::Global;
use std::process::Abort;
use std::test::Fail;

/// A block, and the names and values of its fields.
type Case = (&'static [u8], &'static [(&'static str, &'static str)]);

/// The requests of RFC 7541, appendix C.3, without Huffman codes.
const PLAIN_REQUESTS: [Case; 3] = [
    (
        &[
            0x82, 0x86, 0x84, 0x41, 0x0f, 0x77, 0x77, 0x77, 0x2e, 0x65, 0x78, 0x61, 0x6d, 0x70,
            0x6c, 0x65, 0x2e, 0x63, 0x6f, 0x6d,
        ],
        &[
            (":method", "GET"),
            (":scheme", "http"),
            (":path", "/"),
            (":authority", "www.example.com"),
        ],
    ),
    (
        &[
            0x82, 0x86, 0x84, 0xbe, 0x58, 0x08, 0x6e, 0x6f, 0x2d, 0x63, 0x61, 0x63, 0x68, 0x65,
        ],
        &[
            (":method", "GET"),
            (":scheme", "http"),
            (":path", "/"),
            (":authority", "www.example.com"),
            ("cache-control", "no-cache"),
        ],
    ),
    (
        &[
            0x82, 0x87, 0x85, 0xbf, 0x40, 0x0a, 0x63, 0x75, 0x73, 0x74, 0x6f, 0x6d, 0x2d, 0x6b,
            0x65, 0x79, 0x0c, 0x63, 0x75, 0x73, 0x74, 0x6f, 0x6d, 0x2d, 0x76, 0x61, 0x6c, 0x75,
            0x65,
        ],
        &[
            (":method", "GET"),
            (":scheme", "https"),
            (":path", "/index.html"),
            (":authority", "www.example.com"),
            ("custom-key", "custom-value"),
        ],
    ),
];

/// The requests of RFC 7541, appendix C.4, in Huffman codes.
const CODED_REQUESTS: [Case; 3] = [
    (
        &[
            0x82, 0x86, 0x84, 0x41, 0x8c, 0xf1, 0xe3, 0xc2, 0xe5, 0xf2, 0x3a, 0x6b, 0xa0, 0xab,
            0x90, 0xf4, 0xff,
        ],
        &[
            (":method", "GET"),
            (":scheme", "http"),
            (":path", "/"),
            (":authority", "www.example.com"),
        ],
    ),
    (
        &[
            0x82, 0x86, 0x84, 0xbe, 0x58, 0x86, 0xa8, 0xeb, 0x10, 0x64, 0x9c, 0xbf,
        ],
        &[
            (":method", "GET"),
            (":scheme", "http"),
            (":path", "/"),
            (":authority", "www.example.com"),
            ("cache-control", "no-cache"),
        ],
    ),
    (
        &[
            0x82, 0x87, 0x85, 0xbf, 0x40, 0x88, 0x25, 0xa8, 0x49, 0xe9, 0x5b, 0xa9, 0x7d, 0x7f,
            0x89, 0x25, 0xa8, 0x49, 0xe9, 0x5b, 0xb8, 0xe8, 0xb4, 0xbf,
        ],
        &[
            (":method", "GET"),
            (":scheme", "https"),
            (":path", "/index.html"),
            (":authority", "www.example.com"),
            ("custom-key", "custom-value"),
        ],
    ),
];

/// The responses of RFC 7541, appendix C.5, behind the size update that they assume.
const RESPONSES: [Case; 3] = [
    (
        &[
            0x3f, 0xe1, 0x01, 0x48, 0x03, 0x33, 0x30, 0x32, 0x58, 0x07, 0x70, 0x72, 0x69, 0x76,
            0x61, 0x74, 0x65, 0x61, 0x1d, 0x4d, 0x6f, 0x6e, 0x2c, 0x20, 0x32, 0x31, 0x20, 0x4f,
            0x63, 0x74, 0x20, 0x32, 0x30, 0x31, 0x33, 0x20, 0x32, 0x30, 0x3a, 0x31, 0x33, 0x3a,
            0x32, 0x31, 0x20, 0x47, 0x4d, 0x54, 0x6e, 0x17, 0x68, 0x74, 0x74, 0x70, 0x73, 0x3a,
            0x2f, 0x2f, 0x77, 0x77, 0x77, 0x2e, 0x65, 0x78, 0x61, 0x6d, 0x70, 0x6c, 0x65, 0x2e,
            0x63, 0x6f, 0x6d,
        ],
        &[
            (":status", "302"),
            ("cache-control", "private"),
            ("date", "Mon, 21 Oct 2013 20:13:21 GMT"),
            ("location", "https://www.example.com"),
        ],
    ),
    (
        &[0x48, 0x03, 0x33, 0x30, 0x37, 0xc1, 0xc0, 0xbf],
        &[
            (":status", "307"),
            ("cache-control", "private"),
            ("date", "Mon, 21 Oct 2013 20:13:21 GMT"),
            ("location", "https://www.example.com"),
        ],
    ),
    (
        &[
            0x88, 0xc1, 0x61, 0x1d, 0x4d, 0x6f, 0x6e, 0x2c, 0x20, 0x32, 0x31, 0x20, 0x4f, 0x63,
            0x74, 0x20, 0x32, 0x30, 0x31, 0x33, 0x20, 0x32, 0x30, 0x3a, 0x31, 0x33, 0x3a, 0x32,
            0x32, 0x20, 0x47, 0x4d, 0x54, 0xc0, 0x5a, 0x04, 0x67, 0x7a, 0x69, 0x70, 0x77, 0x38,
            0x66, 0x6f, 0x6f, 0x3d, 0x41, 0x53, 0x44, 0x4a, 0x4b, 0x48, 0x51, 0x4b, 0x42, 0x5a,
            0x58, 0x4f, 0x51, 0x57, 0x45, 0x4f, 0x50, 0x49, 0x55, 0x41, 0x58, 0x51, 0x57, 0x45,
            0x4f, 0x49, 0x55, 0x3b, 0x20, 0x6d, 0x61, 0x78, 0x2d, 0x61, 0x67, 0x65, 0x3d, 0x33,
            0x36, 0x30, 0x30, 0x3b, 0x20, 0x76, 0x65, 0x72, 0x73, 0x69, 0x6f, 0x6e, 0x3d, 0x31,
        ],
        &[
            (":status", "200"),
            ("cache-control", "private"),
            ("date", "Mon, 21 Oct 2013 20:13:22 GMT"),
            ("location", "https://www.example.com"),
            ("content-encoding", "gzip"),
            (
                "set-cookie",
                "foo=ASDJKHQKBZXOQWEOPIUAXQWEOIU; max-age=3600; version=1",
            ),
        ],
    ),
];

/// The block of a usual client.
const CLIENT: [Case; 1] = [(
    &[
        0x83, 0x86, 0x44, 0x3e, 0x2f, 0x67, 0x6f, 0x6f, 0x67, 0x6c, 0x65, 0x2e, 0x63, 0x6c, 0x6f,
        0x75, 0x64, 0x2e, 0x62, 0x69, 0x67, 0x71, 0x75, 0x65, 0x72, 0x79, 0x2e, 0x73, 0x74, 0x6f,
        0x72, 0x61, 0x67, 0x65, 0x2e, 0x76, 0x31, 0x2e, 0x42, 0x69, 0x67, 0x51, 0x75, 0x65, 0x72,
        0x79, 0x57, 0x72, 0x69, 0x74, 0x65, 0x2f, 0x47, 0x65, 0x74, 0x57, 0x72, 0x69, 0x74, 0x65,
        0x53, 0x74, 0x72, 0x65, 0x61, 0x6d, 0x41, 0x8c, 0xf1, 0xe3, 0xc2, 0xe5, 0xf2, 0x3a, 0x6b,
        0xa0, 0xab, 0x90, 0xf4, 0xff, 0x5f, 0x10, 0x61, 0x70, 0x70, 0x6c, 0x69, 0x63, 0x61, 0x74,
        0x69, 0x6f, 0x6e, 0x2f, 0x67, 0x72, 0x70, 0x63, 0x40, 0x02, 0x74, 0x65, 0x08, 0x74, 0x72,
        0x61, 0x69, 0x6c, 0x65, 0x72, 0x73, 0x7a, 0x0b, 0x62, 0x71, 0x2d, 0x64, 0x65, 0x6d, 0x6f,
        0x2f, 0x31, 0x2e, 0x30, 0x40, 0x0c, 0x67, 0x72, 0x70, 0x63, 0x2d, 0x74, 0x69, 0x6d, 0x65,
        0x6f, 0x75, 0x74, 0x03, 0x36, 0x30, 0x53, 0x40, 0x14, 0x67, 0x72, 0x70, 0x63, 0x2d, 0x61,
        0x63, 0x63, 0x65, 0x70, 0x74, 0x2d, 0x65, 0x6e, 0x63, 0x6f, 0x64, 0x69, 0x6e, 0x67, 0x08,
        0x69, 0x64, 0x65, 0x6e, 0x74, 0x69, 0x74, 0x79, 0x40, 0x15, 0x78, 0x2d, 0x67, 0x6f, 0x6f,
        0x67, 0x2d, 0x72, 0x65, 0x71, 0x75, 0x65, 0x73, 0x74, 0x2d, 0x70, 0x61, 0x72, 0x61, 0x6d,
        0x73, 0x06, 0x6e, 0x61, 0x6d, 0x65, 0x3d, 0x78,
    ],
    &[
        (":method", "POST"),
        (":scheme", "http"),
        (
            ":path",
            "/google.cloud.bigquery.storage.v1.BigQueryWrite/GetWriteStream",
        ),
        (":authority", "www.example.com"),
        ("content-type", "application/grpc"),
        ("te", "trailers"),
        ("user-agent", "bq-demo/1.0"),
        ("grpc-timeout", "60S"),
        ("grpc-accept-encoding", "identity"),
        ("x-goog-request-params", "name=x"),
    ],
)];

/// Checks what one decoder reads in blocks, one behind another.
fn assert_decoded(rt: &impl Abort, alloc: Global, blocks: &[Case]) -> Result<(), Fail> {
    let mut decoder = Decoder::new(alloc)?;
    for (block, want) in blocks {
        let list = decoder.decode(alloc, block)?;
        assert_fields(rt, list.fields(), want);
    }
    Ok(())
}

#[test]
fn decodes_the_standards_requests(rt: HostRuntime) -> Result<(), Fail> {
    assert_decoded(&rt, rt.alloc(), &PLAIN_REQUESTS)?;
    assert_decoded(&rt, rt.alloc(), &CODED_REQUESTS)
}

#[test]
fn decodes_the_standards_responses(rt: HostRuntime) -> Result<(), Fail> {
    assert_decoded(&rt, rt.alloc(), &RESPONSES)
}

#[test]
fn decodes_the_block_of_a_client(rt: HostRuntime) -> Result<(), Fail> {
    assert_decoded(&rt, rt.alloc(), &CLIENT)
}

/// The static table of RFC 7541, appendix A.
const STATIC: [(&str, &str); 61] = [
    (":authority", ""),
    (":method", "GET"),
    (":method", "POST"),
    (":path", "/"),
    (":path", "/index.html"),
    (":scheme", "http"),
    (":scheme", "https"),
    (":status", "200"),
    (":status", "204"),
    (":status", "206"),
    (":status", "304"),
    (":status", "400"),
    (":status", "404"),
    (":status", "500"),
    ("accept-charset", ""),
    ("accept-encoding", "gzip, deflate"),
    ("accept-language", ""),
    ("accept-ranges", ""),
    ("accept", ""),
    ("access-control-allow-origin", ""),
    ("age", ""),
    ("allow", ""),
    ("authorization", ""),
    ("cache-control", ""),
    ("content-disposition", ""),
    ("content-encoding", ""),
    ("content-language", ""),
    ("content-length", ""),
    ("content-location", ""),
    ("content-range", ""),
    ("content-type", ""),
    ("cookie", ""),
    ("date", ""),
    ("etag", ""),
    ("expect", ""),
    ("expires", ""),
    ("from", ""),
    ("host", ""),
    ("if-match", ""),
    ("if-modified-since", ""),
    ("if-none-match", ""),
    ("if-range", ""),
    ("if-unmodified-since", ""),
    ("last-modified", ""),
    ("link", ""),
    ("location", ""),
    ("max-forwards", ""),
    ("proxy-authenticate", ""),
    ("proxy-authorization", ""),
    ("range", ""),
    ("referer", ""),
    ("refresh", ""),
    ("retry-after", ""),
    ("server", ""),
    ("set-cookie", ""),
    ("strict-transport-security", ""),
    ("transfer-encoding", ""),
    ("user-agent", ""),
    ("vary", ""),
    ("via", ""),
    ("www-authenticate", ""),
];

#[test]
fn knows_the_static_table(rt: HostRuntime) -> Result<(), Fail> {
    let mut decoder = Decoder::new(rt.alloc())?;
    for (entry, octet) in STATIC.iter().zip(0x81..=0xbd) {
        let list = decoder.decode(rt.alloc(), &[octet])?;
        assert_fields(&rt, list.fields(), &[*entry]);
    }
    Ok(())
}

/// Blocks that break a rule: of sizes, of places in the tables, of strings and of integers.
const BAD_BLOCKS: [&[u8]; 8] = [
    &[0x3f, 0xe2, 0x1f],
    &[0x80],
    &[0xbe],
    &[0x82, 0x20],
    &[0x82, 0x40],
    &[0x41, 0x05, 0x61],
    &[0x7f, 0x80, 0x80, 0x80, 0x80, 0x80, 0x00],
    &[
        0x82, 0x86, 0x84, 0x41, 0x8c, 0xf1, 0xe3, 0xc2, 0xe5, 0xf2, 0x3a, 0x6b, 0xa0, 0xab, 0x90,
        0xf4, 0xfe,
    ],
];

/// How a decoder refuses a block, and a good one behind it.
fn refusals(
    alloc: Global,
    block: &[u8],
) -> Result<(Option<BlockFault>, Option<BlockFault>), Memory> {
    let mut decoder = Decoder::new(alloc)?;
    let first = decoder.decode(alloc, block).err();
    Ok((first, decoder.decode(alloc, &[0x82]).err()))
}

#[test]
fn refuses_bad_blocks(rt: HostRuntime) -> Result<(), Fail> {
    let bad = Some(BlockFault::BadBlock);
    for block in &BAD_BLOCKS {
        assert_eq!(rt; refusals(rt.alloc(), block)?, (bad, bad), "{block:?}");
    }
    Ok(())
}

#[test]
fn takes_the_greatest_size(rt: HostRuntime) -> Result<(), Fail> {
    assert_decoded(&rt, rt.alloc(), &[(&[0x3f, 0xe1, 0x1f], &[])])
}

/// An entry that counts 4,096, with a name of one octet and a value of 4,063, and three times more.
fn four_entries(alloc: Global) -> Result<Vec<u8>, Memory> {
    let mut block = [0x40, 0x01, 0x61, 0x7f, 0xe0, 0x1e].to_vec(alloc)?;
    block.resize(4069, 0x62)?;
    block.resize(4072, 0xbe)?;
    Ok(block)
}

/// How many fields a block has.
fn count(decoder: &mut Decoder, alloc: Global, block: &[u8]) -> Result<usize, BlockFault> {
    Ok(decoder.decode(alloc, block)?.fields().len())
}

#[test]
fn refuses_a_large_list(rt: HostRuntime) -> Result<(), Fail> {
    let mut block = four_entries(rt.alloc())?;
    let mut decoder = Decoder::new(rt.alloc())?;
    assert_eq!(rt; count(&mut decoder, rt.alloc(), &block), Ok(4));
    block.push(0xbe)?;
    let large = Err(BlockFault::TooLarge { size: 20480 });
    assert_eq!(rt; count(&mut decoder, rt.alloc(), &block), large);
    assert_eq!(rt; count(&mut decoder, rt.alloc(), &[0xbe]), Ok(1));
    Ok(())
}

/// A field with this name and this value.
fn field(alloc: Global, name: &[u8], value: &[u8]) -> Result<Field, Memory>
    requires name { length name.now < 2 ^ 32 }
    requires value { length value.now < 2 ^ 32 }
    ensures { IfOk result Fits }
{
    Ok(Field {
        name: Blob::of(alloc, name)?,
        value: Blob::of(alloc, value)?,
    })
}

#[test]
fn writes_a_first_block(rt: HostRuntime) -> Result<(), Fail> {
    let head = [
        field(rt.alloc(), b":status", b"200")?,
        field(rt.alloc(), b"content-type", b"application/grpc")?,
    ];
    let block = write_block(rt.alloc(), &head, true)?;
    assert_eq!(rt;
        block.bytes(),
        b"\x20\x88\x0f\x10\x10application/grpc".as_slice()
    );
    Ok(())
}

#[test]
fn writes_a_later_block(rt: HostRuntime) -> Result<(), Fail> {
    let tail = [field(rt.alloc(), b"grpc-status", b"0")?];
    let block = write_block(rt.alloc(), &tail, false)?;
    assert_eq!(rt; block.bytes(), b"\x00\x0bgrpc-status\x010".as_slice());
    Ok(())
}
