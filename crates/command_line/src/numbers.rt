//! Numbers and addresses.

ghost use Rattle.std.specs.Prelude.{◌≡◌, ◌==◌, ◌<◌, ◌≤◌, ◌^◌, ◌&&◌, nat_le, map, IfOk, IsTrue, MatchOption};
ghost use Rattle.std.specs.List.{list_all, slice_split};
ghost use Rattle.std.specs.Char.{is_ascii_digit};
ghost use Rattle.std.specs.Str.Parse.{digits_value};
ghost use Rattle.command_line.specs.Numbers.{are_octets, is_address, is_decimal, is_number, number_of, starts_plainly};

use outside::Memory;
use std::alloc::Global;

/// Whether bytes have no leading zero: there is one, or the first of several is no `0`.
fn starts_plainly(bytes: &[u8]) -> bool
    ensures { result ≡ starts_plainly bytes.now }
{
    match bytes {
        [] => false,
        [first, others @ ..] => others.is_empty() || *first != b'0',
    }
}

fn are_digits(bytes: &[u8]) -> bool
    ensures { result ≡ list_all is_ascii_digit bytes.now }
{
    bytes.iter().all(|b| b.is_ascii_digit())
}

/// Whether a text is decimal digits without a leading zero.
fn is_decimal(text: &str) -> bool
    ensures { result ≡ is_decimal text.now }
{
    starts_plainly(text.as_bytes()) && are_digits(text.as_bytes())
}

/// The number that digits write, unless it is too great.
fn value_of(text: &str) -> Option<u32>
    requires { IsTrue (is_decimal text.now) }
    ensures { MatchOption result (2 ^ 32 ≤ digits_value 10 text.now) (λ n. n ≡ digits_value 10 text.now) }
{
    text.parse::<u32>().ok()
}

fn is_within(number: u32, least: u32, most: u32) -> bool
    ensures { result ≡ (nat_le least number && nat_le number most) }
{
    least <= number && number <= most
}

/// The number that a text is, where it is one from `least` to `most`.
pub(crate) fn number_of(text: &str, least: u32, most: u32) -> Option<u32>
    ensures { result ≡ number_of least most text.now }
{
    if !is_decimal(text) {
        return None;
    }
    match value_of(text) {
        Some(number) => {
            if is_within(number, least, most) {
                Some(number)
            } else {
                None
            }
        }
        None => None,
    }
}

fn is_number(text: &str, most: u32) -> bool
    ensures { result ≡ is_number 0 most text.now }
{
    number_of(text, 0, most).is_some()
}

fn all_of_four(a: bool, b: bool, c: bool, d: bool) -> bool
    ensures { result ≡ (a && b && c && d) }
{
    a && b && c && d
}

/// Whether the texts are four numbers from 0 to 255.
fn are_octets(parts: &[&str]) -> bool
    ensures { result ≡ are_octets (map (λ p. p.now) parts.now) }
{
    match parts {
        [a, b, c, d] => all_of_four(
            is_number(a, 255),
            is_number(b, 255),
            is_number(c, 255),
            is_number(d, 255),
        ),
        _ => false,
    }
}

/// The parts of a text between the places of an ASCII character.
fn parts<'a>(alloc: Global, text: &'a str, at: char) -> Result<Vec<&'a str>, Memory>
    requires { at < 128 }
    ensures { IfOk result (λ all. map (λ p. p.now) all.items ≡ slice_split (λ b. b == at) text.now) }
{
    Ok(text.split(at).collect(alloc)?)
}

/// Whether four numbers with dots between them, and a port, are an address.
fn are_address(alloc: Global, host: &str, port: &str) -> Result<bool, Memory>
    ensures { IfOk result (λ yes. yes ≡ (are_octets (slice_split (λ b. b == 46) host.now) && is_number 0 65535 port.now)) }
{
    let octets = parts(alloc, host, '.')?;
    Ok(are_octets(octets.as_slice()) && is_number(port, 65_535))
}

/// Whether a text is `a.b.c.d:port`.
pub(crate) fn is_address(alloc: Global, text: &str) -> Result<bool, Memory>
    ensures { IfOk result (λ yes. yes ≡ is_address text.now) }
{
    match text.split_once(':') {
        Some((host, port)) => are_address(alloc, host, port),
        None => Ok(false),
    }
}
