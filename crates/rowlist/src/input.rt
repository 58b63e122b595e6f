// Reading an input of limited length.
ghost use Rattle.std.specs.Prelude.{◌≡◌, ◌≤◌, ◌<◌, length, take, IfOk};
ghost use Rattle.std.specs.Io.KnownBytes.{Consumes, IsAtEnd};

use std::io;
use std::io::Read;

// Reads until the buffer is full or the input ends, and answers how many bytes it read: those, and no more, are taken from the input.
// Each read asks for all that there is room for: standard input has no buffer of its own, so that a byte at a time would be a system call each, and would lose the rest of a packet.
pub fn fill<R: Read>(input: &mut R, buffer: &mut [u8]) -> io::Result<usize>
    ensures within { IfOk result (λ n. n ≤ length buffer.old) }
    ensures room { length buffer.new ≡ length buffer.old }
    ensures read { IfOk result (λ n. Consumes (R.remaining input.old) (R.remaining input.new) (take n buffer.new)) }
    ensures ended { IfOk result (λ n. n < length buffer.old → IsAtEnd (R.remaining input.new)) }
{
    let room = buffer.len();
    let mut filled = 0;
    for _ in 0..room {
        let count = input.read(&mut buffer[filled..])?;
        if count == 0 {
            break;
        }
        filled += count;
    }
    Ok(filled)
}

#[cfg(test)]
mod tests {
    use super::*;
    use std::test::Fail;

    #[test]
    fn no_more_is_read_than_asked_for(rt: HostRuntime) -> Result<(), Fail> {
        let mut buffer = [0; 9];
        let mut input: &[u8] = b"voices\n";
        let read = fill(&mut input, &mut buffer)?;
        assert_eq!(rt; &buffer[..read], b"voices\n".as_slice());
        input = b"voices\n";
        let read = fill(&mut input, &mut buffer[..7])?;
        assert_eq!(rt; &buffer[..read], b"voices\n".as_slice());
        input = b"voices\n";
        let read = fill(&mut input, &mut buffer[..6])?;
        assert_eq!(rt; &buffer[..read], b"voices".as_slice());
        assert_eq!(rt; input, b"\n".as_slice());
        assert_eq!(rt; fill(&mut input, &mut buffer[..0])?, 0);
        assert_eq!(rt; input, b"\n".as_slice());
        Ok(())
    }
}
