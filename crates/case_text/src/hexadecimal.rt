// Bytes in hexadecimal.
ghost use Rattle.std.specs.Prelude.{◌≡◌, ◌+◌, ◌*◌, ◌/◌, ◌%◌, ◌≤◌, ◌<◌, length};
ghost use Rattle.writing.specs.Writing.{Writes};
ghost use Rattle.case_text.specs.Hexadecimal.{hex_digit, hex_text};

// A hexadecimal digit.
fn digit(n: u8) -> u8
    requires { n < 16 }
    ensures { result ≡ hex_digit n }
{
    if n < 10 {
        return n + b'0';
    }
    n - 10 + b'a'
}

// Writes bytes in hexadecimal.
pub fn put_hex(line: &mut [u8], at: usize, bytes: &[u8]) -> usize
    requires { at + 2 * length bytes.now ≤ length line.old }
    ensures { Writes line.old line.new at (hex_text bytes.now) result }
{
    for (i, byte) in bytes.iter().enumerate() {
        let to = at + 2 * i;
        line[to] = digit(*byte / 16);
        line[to + 1] = digit(*byte % 16);
    }
    at + 2 * bytes.len()
}
