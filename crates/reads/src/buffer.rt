// The bytes of a register, from the value that holds them to the lent buffer.
ghost use Rattle.std.specs.Prelude.{◌≡◌, ◌≤◌, length, take};
ghost use Rattle.model.specs.Calls.{overwritten};
ghost use Rattle.reads.specs.Held.{width, held};

// The size of the largest register but the level tables.
pub const WIDTH: usize = 12;

// The first len of bytes are the register's, the rest are 0. A `Vec` in their place would allocate,
// and a slice of the lent buffer would ask for room in every arm of a register: DECISIONS, "The bytes
// of a register go through one record".
#[derive(Clone, Copy)]
pub struct RegisterBytes {
    pub bytes: [u8; WIDTH],
    pub len: usize,
}

pub(crate) fn hold<const N: usize>(src: [u8; N]) -> RegisterBytes
    requires { N ≤ width }
    ensures { result ≡ held src.entry }
{
    let mut bytes = [0; WIDTH];
    bytes[..N].copy_from_slice(&src);
    RegisterBytes { bytes, len: N }
}

// Bytes of the buffer past the register's are unchanged.
pub(crate) fn copy_out(b: RegisterBytes, buf: &mut [u8])
    requires { (b.len ≤ width) × (b.len ≤ length buf.old) }
    ensures { buf.new ≡ overwritten (take b.len b.bytes) buf.old }
{
    let len = b.len;
    buf[..len].copy_from_slice(&b.bytes[..len]);
}
