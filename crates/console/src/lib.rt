// What the programs of this repository read and print beside what `Read` and `write!` do: bytes that come whole, and
// hexadecimal text. Each function takes the reader or the writer, so that a clause can name its bytes where they are known.
#![tactic(auto)]

ghost use Rattle.std.specs.Prelude.{ℕ, ◌≡◌, OnErr, ◌<◌, ◌≤◌, take, length, None, IfSome, IfOk, OnOk};
ghost use Rattle.std.specs.Io.KnownBytes.{Appends, Consumes, IsAtEnd};
ghost use Rattle.console.specs.Hex.{hex};

use std::io;
use std::io::{Read, Write};

// Reads until `buf` is full or the input ends, and returns how many bytes came: they stand at the start of `buf`. The loop goes on
// by what a read gave, so it counts no index.
pub fn read_full<R: Read>(input: &mut R, buf: &mut [u8]) -> io::Result<usize>
    ensures within { IfOk result (λ n. n ≤ length buf.new) }
    ensures bytes { IfOk result (λ n. Consumes (R.remaining input.old) (R.remaining input.new) (take n buf.new)) }
    ensures end { IfOk result (λ n. n < length buf.new → IsAtEnd (R.remaining input.new)) }
    ensures err { OnErr result ((n : ℕ) × (n ≤ length buf.new) × Consumes (R.remaining input.old) (R.remaining input.new) (take n buf.new)) }
{
    let mut done = 0;
    while done < buf.len() {
        let n = input.read(&mut buf[done..])?;
        if n == 0 {
            return Ok(done);
        }
        done += n;
    }
    Ok(done)
}

// The next `N` bytes, or `None` where the input ends before. The array that is read into is the result.
pub fn next_bytes<R: Read, const N: usize>(input: &mut R) -> io::Result<Option<[u8; N]>>
    ensures bytes { IfOk result (λ o. IfSome o (λ b. Consumes (R.remaining input.old) (R.remaining input.new) b)) }
    ensures end { IfOk result (λ o. o ≡ None → IsAtEnd (R.remaining input.new)) }
{
    let mut bytes = [0; N];
    let whole = read_full(input, &mut bytes)? == N;
    Ok(whole.then_some(bytes))
}

// The hexadecimal digits of `n`, in lower case, with zeros in front up to so many digits. This is `write!` with a clause that names the digits.
pub fn say_hex<W: Write>(output: &mut W, n: u64, digits: usize) -> io::Result<()>
    ensures { OnOk result (Appends (W.contents output.old) (W.contents output.new) (hex digits n)) }
{
    write!(output, "{n:0digits$x}")
}

#[cfg(test)]
mod tests {
    use super::*;

    #[test]
    fn reads_until_full_or_ended(rt: HostRuntime) -> io::Result<()> {
        let mut input: &[u8] = b"abcde";
        // A test lends a buffer of known length, so an array is plainer than a `Vec`.
        let mut buf = [0u8; 4];
        assert_eq!(rt; read_full(&mut input, &mut buf)?, 4);
        assert_eq!(rt; buf, *b"abcd");
        assert_eq!(rt; read_full(&mut input, &mut buf)?, 1);
        assert_eq!(rt; buf[0], b'e');
        assert_eq!(rt; read_full(&mut input, &mut buf)?, 0);
        Ok(())
    }

    // Gives one byte, and then fails.
    #[derive(Drop)]
    struct Broken {
        gave: bool,
    }

    impl Read for Broken {
        fn read(&mut self, buf: &mut [u8]) -> io::Result<usize> {
            if self.gave || buf.is_empty() {
                return Err(io::Error::from(io::ErrorKind::Other));
            }
            self.gave = true;
            buf[0] = b'a';
            Ok(1)
        }
    }

    #[test]
    fn failed_read_is_an_error(rt: HostRuntime) {
        let mut input = Broken { gave: false };
        // A test's buffer, of known length, as above.
        let mut buf = [0u8; 4];
        assert!(rt; read_full(&mut input, &mut buf).is_err());
    }

    #[test]
    fn takes_whole_bytes(rt: HostRuntime) -> io::Result<()> {
        let mut input: &[u8] = b"abcde";
        assert_eq!(rt; next_bytes(&mut input)?, Some(*b"abcd"));
        assert_eq!(rt; next_bytes::<_, 4>(&mut input)?, None);
        Ok(())
    }

    #[test]
    fn prints_numbers(rt: HostRuntime) -> io::Result<()> {
        let mut output = Vec::new(rt.alloc());
        writeln!(output, "cases {}", 1208)?;
        say_hex(&mut output, 0x3f000000, 8)?;
        say_hex(&mut output, 0x1f, 16)?;
        say_hex(&mut output, 0x12345, 2)?;
        let text = str::from_utf8(output.as_slice()).unwrap_or("no text");
        assert_eq!(rt; text, "cases 1208\n3f000000000000000000001f12345");
        Ok(())
    }
}
