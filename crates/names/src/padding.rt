// Name bytes, and then spaces.
ghost use Rattle.std.specs.Prelude.{◌≡◌, length};
ghost use Rattle.meaning.specs.Name.{name_byte, well_formed};
ghost use Rattle.names.specs.Padded.{padded};

// Whether a byte may stand in a name.
fn is_name_byte(b: u8) -> bool
    ensures { result ≡ name_byte b }
{
    b.is_ascii_uppercase() | b.is_ascii_digit() | (b == b'_')
}

// Whether the bytes are name bytes and then spaces.
fn padded(bytes: &[u8]) -> bool
    ensures { result ≡ padded bytes.now }
{
    let mut named = true;
    let mut good = true;
    for b in bytes {
        named &= is_name_byte(*b);
        good &= named | (*b == b' ');
    }
    good
}

// Whether 12 bytes are a well-formed name.
pub fn formed(name: &[u8]) -> bool
    requires { length name.now ≡ 12 }
    ensures { result ≡ well_formed name.now }
{
    is_name_byte(name[0]) & padded(&name[1..])
}
