//! Devices that wait where the system would have them asked again.
ghost use Rattle.std.specs.Io.{ReadsAtMost, WritesAtMost};
ghost use Rattle.std.specs.Io.KnownBytes.{ReadConsumes, WriteAppends};

use std::io::{self, ErrorKind, Read, Write};
use std::thread::sleep;
use std::time::Duration;

/// How many milliseconds it waits before it asks again.
const PAUSE: u64 = 1;

/// A reader or a writer that waits in place of failing with WouldBlock, as one with O_NONBLOCK does where there is
/// nothing to read or no room to write. It asks again after a millisecond.
#[derive(Drop)]
pub struct Waiting<'a, D> {
    pub rt: &'a HostRuntime,
    pub inner: D,
}

impl<R: Read> Read for Waiting<'_, R> {
    ghost remaining = { λ device. R.remaining device.inner };

    fn read(&mut self, buffer: &mut [u8]) -> io::Result<usize> {
        read(self.rt, &mut self.inner, buffer)
    }
}

impl<W: Write> Write for Waiting<'_, W> {
    ghost contents = { λ device. W.contents device.inner };

    fn write(&mut self, octets: &[u8]) -> io::Result<usize> {
        write(self.rt, &mut self.inner, octets)
    }

    fn flush(&mut self) -> io::Result<()> {
        self.inner.flush()
    }
}

fn read<R: Read>(rt: &HostRuntime, inner: &mut R, buffer: &mut [u8]) -> io::Result<usize>
    ensures bound { ReadsAtMost result buffer.new }
    ensures bytes { ReadConsumes (R.remaining inner.old) (R.remaining inner.new) result buffer.new }
{
    'turns: for _ in 0..u64::MAX {
        match inner.read(buffer) {
            Err(e) if e.kind() == ErrorKind::WouldBlock => sleep(rt, Duration::from_millis(PAUSE)),
            answer => return answer,
        }
    }
    inner.read(buffer)
}

fn write<W: Write>(rt: &HostRuntime, inner: &mut W, octets: &[u8]) -> io::Result<usize>
    ensures bound { WritesAtMost result octets.now }
    ensures bytes { WriteAppends (W.contents inner.old) (W.contents inner.new) result octets.now }
{
    'turns: for _ in 0..u64::MAX {
        match inner.write(octets) {
            Err(e) if e.kind() == ErrorKind::WouldBlock => sleep(rt, Duration::from_millis(PAUSE)),
            answer => return answer,
        }
    }
    inner.write(octets)
}
