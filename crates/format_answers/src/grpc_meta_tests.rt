use crate::listed::assert_fields;
use grpc_meta::{
    MetaFault, Method, Status, http_only, method_of, response_head, trailer_is_good, trailers,
};
use hpack_blocks::Field;
use outside::{Blob, Memory, Text};
use std::alloc::Global;
use std::test::Fail;

fn fields_of(alloc: Global, texts: &[(&str, &str)]) -> Result<Vec<Field>, Memory> {
    let mut fields = Vec::new(alloc);
    for (name, value) in texts {
        fields.push(Field {
            name: Blob::of(alloc, name.as_bytes())?,
            value: Blob::of(alloc, value.as_bytes())?,
        })?;
    }
    Ok(fields)
}

const APPEND_ROWS: &str = "/google.cloud.bigquery.storage.v1.BigQueryWrite/AppendRows";

/// A method of HTTP, a path, a content type, the name of a field, and what the request names.
type Case = (
    &'static str,
    &'static str,
    &'static str,
    &'static str,
    Result<Method, MetaFault>,
);

const CASES: [Case; 6] = [
    (
        "POST",
        APPEND_ROWS,
        "application/grpc",
        "te",
        Ok(Method::AppendRows),
    ),
    (
        "POST",
        APPEND_ROWS,
        "application/grpc",
        "Te",
        Err(MetaFault::Malformed),
    ),
    (
        "GET",
        APPEND_ROWS,
        "application/grpc",
        "te",
        Err(MetaFault::NotPost),
    ),
    (
        "GET",
        "/x",
        "application/json",
        "te",
        Err(MetaFault::NotPost),
    ),
    (
        "POST",
        APPEND_ROWS,
        "application/json",
        "te",
        Err(MetaFault::NotGrpc),
    ),
    (
        "POST",
        "/x",
        "application/grpc",
        "te",
        Err(MetaFault::UnknownPath),
    ),
];

#[test]
fn requests_name_methods(rt: HostRuntime) -> Result<(), Fail> {
    for (method, path, content_type, te, want) in &CASES {
        let fields = fields_of(
            rt.alloc(),
            &[
                (":method", method),
                (":scheme", "http"),
                (":path", path),
                ("content-type", content_type),
                (te, "trailers"),
            ],
        )?;
        assert_eq!(rt; method_of(fields.as_slice()), *want);
    }
    Ok(())
}

#[test]
fn writes_heads_and_trailers(rt: HostRuntime) -> Result<(), Fail> {
    let alloc = rt.alloc();
    let head = response_head(alloc)?;
    assert_fields(
        &rt,
        head.as_slice(),
        &[(":status", "200"), ("content-type", "application/grpc")],
    );
    assert!(rt; !trailer_is_good(head.as_slice()));
    let refused = http_only(alloc, 415)?;
    assert_fields(&rt, refused.as_slice(), &[(":status", "415")]);
    let text = Text::of(alloc, " 5% \u{e9}\n ")?;
    let end = trailers(alloc, &Status { code: 12, text })?;
    assert_fields(
        &rt,
        end.as_slice(),
        &[
            ("grpc-status", "12"),
            ("grpc-message", "%205%25 %C3%A9%0A%20"),
        ],
    );
    assert!(rt; trailer_is_good(end.as_slice()));
    Ok(())
}
