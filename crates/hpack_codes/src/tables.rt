ghost use Rattle.std.specs.Prelude.{◌≡◌, ◌+◌, ◌-◌, ◌*◌, ◌/◌, ◌^◌, ◌<◌, ◌≤◌, length, slice_index, Some};
ghost use Rattle.hpack_codes.specs.Lengths.{lengths};
ghost use Rattle.hpack_codes.specs.Code.{symbols_of, first_code, symbol_at};

/// Bits of the longest code.
pub const LONGEST: u32 = 30;

/// The symbol that isn't an octet.
pub const EOS: u16 = 256;

/// Bits of each octet's code (RFC 7541, appendix B).
const LENGTHS: [u8; 256] = [
    13, 23, 28, 28, 28, 28, 28, 28, 28, 24, 30, 28, 28, 30, 28, 28, 28, 28, 28, 28, 28, 28, 30, 28,
    28, 28, 28, 28, 28, 28, 28, 28, 6, 10, 10, 12, 13, 6, 8, 11, 10, 10, 8, 11, 8, 6, 6, 6, 5, 5,
    5, 6, 6, 6, 6, 6, 6, 6, 7, 8, 15, 6, 12, 10, 13, 6, 7, 7, 7, 7, 7, 7, 7, 7, 7, 7, 7, 7, 7, 7,
    7, 7, 7, 7, 7, 7, 7, 7, 8, 7, 8, 13, 19, 13, 14, 6, 15, 5, 6, 5, 6, 5, 6, 6, 6, 5, 7, 7, 6, 6,
    6, 5, 6, 7, 6, 5, 5, 6, 7, 7, 7, 7, 7, 15, 11, 14, 13, 28, 20, 22, 20, 20, 22, 22, 22, 23, 22,
    23, 23, 23, 23, 23, 24, 23, 24, 24, 22, 23, 24, 23, 23, 23, 23, 21, 22, 23, 22, 23, 23, 24, 22,
    21, 20, 22, 22, 23, 23, 21, 23, 22, 22, 24, 21, 22, 23, 23, 21, 21, 22, 21, 23, 22, 23, 23, 20,
    22, 22, 22, 23, 22, 22, 23, 26, 26, 20, 19, 22, 23, 22, 25, 26, 26, 26, 27, 27, 26, 24, 25, 19,
    21, 26, 27, 27, 26, 27, 24, 21, 21, 26, 26, 28, 27, 27, 27, 20, 24, 20, 21, 22, 21, 21, 23, 22,
    22, 25, 25, 24, 24, 26, 23, 26, 27, 26, 26, 27, 27, 27, 27, 27, 28, 27, 27, 27, 27, 27, 26,
];

/// The symbols in the order of their codes.
const SYMBOLS: [u16; 257] = [
    48, 49, 50, 97, 99, 101, 105, 111, 115, 116, 32, 37, 45, 46, 47, 51, 52, 53, 54, 55, 56, 57,
    61, 65, 95, 98, 100, 102, 103, 104, 108, 109, 110, 112, 114, 117, 58, 66, 67, 68, 69, 70, 71,
    72, 73, 74, 75, 76, 77, 78, 79, 80, 81, 82, 83, 84, 85, 86, 87, 89, 106, 107, 113, 118, 119,
    120, 121, 122, 38, 42, 44, 59, 88, 90, 33, 34, 40, 41, 63, 39, 43, 124, 35, 62, 0, 36, 64, 91,
    93, 126, 94, 125, 60, 96, 123, 92, 195, 208, 128, 130, 131, 162, 184, 194, 224, 226, 153, 161,
    167, 172, 176, 177, 179, 209, 216, 217, 227, 229, 230, 129, 132, 133, 134, 136, 146, 154, 156,
    160, 163, 164, 169, 170, 173, 178, 181, 185, 186, 187, 189, 190, 196, 198, 228, 232, 233, 1,
    135, 137, 138, 139, 140, 141, 143, 147, 149, 150, 151, 152, 155, 157, 158, 165, 166, 168, 174,
    175, 180, 182, 183, 188, 191, 197, 231, 239, 9, 142, 144, 145, 148, 159, 171, 206, 215, 225,
    236, 237, 199, 207, 234, 235, 192, 193, 200, 201, 202, 205, 210, 213, 218, 219, 238, 240, 242,
    243, 255, 203, 204, 211, 212, 214, 221, 222, 223, 241, 244, 245, 246, 247, 248, 250, 251, 252,
    253, 254, 2, 3, 4, 5, 6, 7, 8, 11, 12, 14, 15, 16, 17, 18, 19, 20, 21, 23, 24, 25, 26, 27, 28,
    29, 30, 31, 127, 220, 249, 10, 13, 22, 256,
];

/// For each length the end of its codes, shifted up to thirty bits: what begins below it has a code
/// of at most this length.
const ENDS: [u32; 31] = [
    0, 0, 0, 0, 0, 335544320, 771751936, 1040187392, 1065353216, 1065353216, 1070596096,
    1072168960, 1072693248, 1073479680, 1073610752, 1073709056, 1073709056, 1073709056, 1073709056,
    1073715200, 1073723392, 1073730048, 1073736704, 1073740416, 1073741184, 1073741312, 1073741552,
    1073741704, 1073741820, 1073741820, 1073741824,
];

/// For each length the value of its first code.
const FIRST_CODES: [u32; 31] = [
    0, 0, 0, 0, 0, 0, 20, 92, 248, 508, 1016, 2042, 4090, 8184, 16380, 32764, 65534, 131068,
    262136, 524272, 1048550, 2097116, 4194258, 8388568, 16777194, 33554412, 67108832, 134217694,
    268435426, 536870910, 1073741820,
];

/// For each length how many symbols have shorter codes.
const SHORTER: [u16; 31] = [
    0, 0, 0, 0, 0, 0, 10, 36, 68, 74, 74, 79, 82, 84, 90, 92, 95, 95, 95, 95, 98, 106, 119, 145,
    174, 186, 190, 205, 224, 253, 253,
];

/// Bits of an octet's code.
pub fn code_len(octet: u8) -> u8
    ensures gives { result ≡ slice_index lengths octet }
    ensures most { result ≤ 30 }
{
    LENGTHS[usize::from(octet)]
}

/// The length of the code that begins these thirty bits.
pub fn first_len(window: u32) -> u32
    requires { window < 2 ^ 30 }
    ensures some { 1 ≤ result }
    ensures within { result ≤ 30 }
    ensures from { first_code result * 2 ^ (30 - result) ≤ window }
    ensures below { window < (first_code result + length (symbols_of result)) * 2 ^ (30 - result) }
{
    for len in 5..LONGEST {
        if window < ENDS[len as usize] {
            return len;
        }
    }
    LONGEST
}

/// The symbol of a code of `len` bits.
pub fn symbol_of(len: u32, code: u32) -> u16
    requires len { len ≤ 30 }
    requires from { first_code len ≤ code }
    requires below { code < first_code len + length (symbols_of len) }
    ensures gives { symbol_at len code ≡ Some result }
    ensures most { result ≤ 256 }
{
    let len = len as usize;
    SYMBOLS[usize::from(SHORTER[len]) + (code - FIRST_CODES[len]) as usize]
}
