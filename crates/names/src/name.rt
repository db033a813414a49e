// What bytes are a name.
ghost use Rattle.std.specs.Prelude.{◌≡◌};
ghost use Rattle.names.specs.Records.{is_name_byte, all_name, is_name};
ghost use Rattle.names.specs.Search.{same_bytes};

const LONGEST_NAME: usize = 32;

fn is_name_byte(byte: u8) -> bool
    ensures { result ≡ is_name_byte byte }
{
    (0x20..=0x7e).contains(&byte)
}

// Whether each byte can stand in a name: two a turn, since in a sick sector this may be asked at every third place. With `all`, which is one a turn,
// the dearest sector takes more than the 400,000 instructions that a salvage may take.
fn all_name(bytes: &[u8]) -> bool
    ensures { result ≡ all_name bytes.now }
{
    let mut left = bytes;
    while let [first, second, rest @ ..] = left {
        if !is_name_byte(*first) || !is_name_byte(*second) {
            return false;
        }
        left = rest;
    }
    match left {
        // the last byte of an odd number
        [last] => is_name_byte(*last),
        _ => true,
    }
}

// Whether the bytes are a name.
pub fn is_name(bytes: &[u8]) -> bool
    ensures { result ≡ is_name bytes.now }
{
    (1..=LONGEST_NAME).contains(&bytes.len()) && all_name(bytes)
}

// Whether two names are the same, byte for byte. A list is searched by this, and most of its names differ in their first bytes. There `==` costs more:
// below four bytes it has two tests round its loop, and where the first four agree it is a call. So the shortest are asked byte by byte, and of longer
// ones eight first.
#[inline(always)]
pub fn same(bytes: &[u8], others: &[u8]) -> bool
    ensures { result ≡ same_bytes bytes.now others.now }
{
    let lengths_differ = bytes.len() != others.len();
    if lengths_differ {
        return false;
    }
    if bytes.len() < 4 {
        return bytes.iter().zip(others).all(|(byte, other)| byte == other);
    }
    if 8 < bytes.len() && !others.starts_with(&bytes[..8]) {
        return false;
    }
    bytes == others
}
