// Text in a buffer, and answers as text.
ghost use Rattle.std.specs.Prelude.{◌≤◌, length};

use crate::digits;
use std::fmt;

// A text at the start of a buffer. Each method puts more behind it, as much as there is room for.
// The buffer is lent, so that it needs no heap.
#[derive(Drop)]
pub struct Text<'a> {
    pub bytes: &'a mut [u8],
    pub len: usize,
    ghost within: { len ≤ length bytes.now },
}

// The character of a hexadecimal digit, of which only the low four bits count.
fn glyph(d: u8) -> u8 {
    b"0123456789abcdef"[usize::from(d % 16)]
}

impl Text<'_> {
    pub fn put(&mut self, text: &[u8]) {
        let n = text.len().min(self.bytes.len() - self.len);
        let end = self.len + n;
        self.bytes[self.len..end].copy_from_slice(&text[..n]);
        self.len = end;
    }

    // A number in decimal digits, after a blank.
    pub fn put_number(&mut self, n: u64) {
        let mut digits = [0u8; 20];
        let k = digits::decimal(n, &mut digits);
        self.put(b" ");
        self.put(&digits[..k]);
    }

    // A bit, as 0 or 1, after a blank.
    pub fn put_bit(&mut self, bit: bool) {
        self.put_number(u64::from(bit));
    }

    // A byte in hexadecimal digits, where there is room for both: `{:02x}` tests no room, and the
    // edit writes_without_room says that this does.
    fn put_pair(&mut self, byte: u8) {
        if self.bytes.len() - self.len < 2 {
            return;
        }
        self.bytes[self.len] = glyph(byte / 16);
        self.bytes[self.len + 1] = glyph(byte);
        self.len += 2;
    }

    // A byte string after a blank; '-' where it is empty.
    pub fn put_bytes(&mut self, bytes: &[u8]) {
        if bytes.is_empty() {
            return self.put(b" -");
        }
        self.put(b" ");
        for byte in bytes {
            self.put_pair(*byte);
        }
    }
}

impl fmt::Write for Text<'_> {
    fn write_str(&mut self, text: &str) -> fmt::Result {
        self.put(text.as_bytes());
        Ok(())
    }
}
