ghost use Rattle.std.specs.Prelude.{◌≡◌, ◌+◌, ◌<◌, ◌≤◌, slice_get, map, Some};
ghost use Rattle.hpack_blocks.specs.Static.{static_table, entry};

use crate::fields::Field;

/// How many entries the static table has.
pub const STATIC_LEN: usize = 61;

/// The static table (RFC 7541, appendix A): names and values.
const STATIC_TABLE: [(&str, &str); 61] = [
    (":authority", ""),
    (":method", "GET"),
    (":method", "POST"),
    (":path", "/"),
    (":path", "/index.html"),
    (":scheme", "http"),
    (":scheme", "https"),
    (":status", "200"),
    (":status", "204"),
    (":status", "206"),
    (":status", "304"),
    (":status", "400"),
    (":status", "404"),
    (":status", "500"),
    ("accept-charset", ""),
    ("accept-encoding", "gzip, deflate"),
    ("accept-language", ""),
    ("accept-ranges", ""),
    ("accept", ""),
    ("access-control-allow-origin", ""),
    ("age", ""),
    ("allow", ""),
    ("authorization", ""),
    ("cache-control", ""),
    ("content-disposition", ""),
    ("content-encoding", ""),
    ("content-language", ""),
    ("content-length", ""),
    ("content-location", ""),
    ("content-range", ""),
    ("content-type", ""),
    ("cookie", ""),
    ("date", ""),
    ("etag", ""),
    ("expect", ""),
    ("expires", ""),
    ("from", ""),
    ("host", ""),
    ("if-match", ""),
    ("if-modified-since", ""),
    ("if-none-match", ""),
    ("if-range", ""),
    ("if-unmodified-since", ""),
    ("last-modified", ""),
    ("link", ""),
    ("location", ""),
    ("max-forwards", ""),
    ("proxy-authenticate", ""),
    ("proxy-authorization", ""),
    ("range", ""),
    ("referer", ""),
    ("refresh", ""),
    ("retry-after", ""),
    ("server", ""),
    ("set-cookie", ""),
    ("strict-transport-security", ""),
    ("transfer-encoding", ""),
    ("user-agent", ""),
    ("vary", ""),
    ("via", ""),
    ("www-authenticate", ""),
];

/// The static entry at a place, counted from 0.
pub fn static_entry(place: usize) -> (&'static str, &'static str)
    requires { place < 61 }
    ensures { slice_get static_table place ≡ Some (record { name = result.0.now; value = result.1.now }) }
{
    entry_in(&STATIC_TABLE, place)
}

/// The entry of a table that is the static one.
fn entry_in(table: &[(&'static str, &'static str)], place: usize) -> (&'static str, &'static str)
    requires table { map (λ e. entry e.0.now e.1.now) table.now ≡ static_table }
    requires place { place < 61 }
    ensures { slice_get static_table place ≡ Some (entry result.0.now result.1.now) }
{
    table[place]
}
