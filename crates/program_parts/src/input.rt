// What is read of standard input and of files.
ghost use Rattle.std.specs.Prelude.{◌≤◌, length, IfSome, MatchResult};

use host::Host;
use std::io;
use std::io::Read;

// Reads until the buffer is full or the input ends; an error holds what was read before a read failed.
pub fn read_all<'a>(from: &mut impl Read, buffer: &'a mut [u8]) -> Result<&'a [u8], &'a [u8]>
    ensures { MatchResult result (λ all. length all.now ≤ length buffer.old) (λ some. length some.now ≤ length buffer.old) }
{
    let mut at = 0;
    while at < buffer.len() {
        match from.read(&mut buffer[at..]) {
            Ok(0) => break,
            Ok(n) => at += n,
            Err(_) => return Err(&buffer[..at]),
        }
    }
    Ok(&buffer[..at])
}

// Reads the file of that name; none if it cannot be opened, or a read of it fails.
pub fn read_file<'a>(host: &impl Host, path: &[u8], buffer: &'a mut [u8]) -> Option<&'a [u8]>
    ensures { IfSome result (λ all. length all.now ≤ length buffer.old) }
{
    let mut file = host.open(path)?;
    read_all(&mut file, buffer).ok()
}

// A line of standard input: how many bytes it has, if it is there, and whether a read failed.
#[derive(Clone, Copy)]
pub struct Line {
    pub length: Option<usize>,
    pub failed: bool,
}

// The next byte of standard input, if there is one.
fn read_byte(host: &impl Host) -> io::Result<Option<u8>> {
    let mut byte = [0u8; 1];
    let n = host.reader().read(&mut byte)?;
    Ok((n > 0).then_some(byte[0]))
}

// Reads a line, its LF not kept; the last may lack it. Of a line that is longer than the buffer the first bytes are kept. Byte by byte,
// since what comes after it may not be there yet. A proved loop has to end: it counts its bytes up to a number that no line has.
pub fn read_line(host: &impl Host, buffer: &mut [u8]) -> Line {
    for n in 0..usize::MAX {
        match read_byte(host) {
            Ok(Some(b'\n')) => {
                return Line {
                    length: Some(n),
                    failed: false,
                };
            }
            Ok(Some(byte)) => {
                if let Some(place) = buffer.get_mut(n) {
                    *place = byte;
                }
            }
            ended => {
                return Line {
                    length: (n > 0).then_some(n),
                    failed: ended.is_err(),
                };
            }
        }
    }
    Line {
        length: Some(usize::MAX),
        failed: false,
    }
}
