//! Readers and writers that are watched for failures.

ghost use Rattle.std.specs.Prelude.{◌≡◌, ◌||◌, ◌+◌, ◌^◌, ◌-◌, ◌<◌, Ok, true, false, length, min, nat_lt, is_ok, is_err, IfOk, IfErr, IsErr};
ghost use Rattle.std.specs.Io.{ReadsAtMost, WritesAtMost};
ghost use Rattle.std.specs.Io.KnownBytes.{Keeps, ReadConsumes, WriteAppends};
ghost use Rattle.command_streams.specs.Watched.{held, has_failed, is_delivered, calls_of, one_more, took_none};

use crate::fault::CliFault;
use crate::host::Host;
use std::io;
use std::io::{Read, Write};

/// A reader or a writer of std, whether it has failed, and whether what was written is delivered. A host may be watched too: it has
/// failed where it could not open a file, or where one of its readers that it was shown has failed, and what else is noted of it stays as
/// it was.
#[derive(Drop)]
pub struct Watched<T> {
    inner: T,
    failed: bool,
    delivered: bool,
    calls: u64,
}

impl<T> Watched<T> {
    /// Holds a reader or a writer that has not failed yet.
    pub fn new(inner: T) -> Watched<T>
        ensures inner { held result ≡ inner }
        ensures failed { has_failed result ≡ false }
        ensures delivered { is_delivered result ≡ true }
        ensures calls { calls_of result ≡ 0 }
    {
        Watched {
            inner,
            failed: false,
            delivered: true,
            calls: 0,
        }
    }

    /// Whether a call of it has answered an error, or a write of some bytes has taken none of them.
    pub fn failed(&self) -> bool
        ensures { result ≡ has_failed self.now }
    {
        self.failed
    }

    /// Whether all that was written is delivered: a flush has gone well since the last write, or nothing was written.
    pub fn is_delivered(&self) -> bool
        ensures { result ≡ is_delivered self.now }
    {
        self.delivered
    }

    /// The reader or the writer.
    pub fn into_inner(self) -> T
        ensures { result ≡ held self }
    {
        self.inner
    }

    /// How often it was asked to read, to write or to flush since [`Watched::new`], where that is less than 2^64 - 1. The count stands
    /// there: 2^64 - 1 says that it was asked as often as that, or more often.
    pub fn calls(&self) -> u64
        ensures { result ≡ calls_of self.now }
    {
        self.calls
    }
}

impl<H: Host> Watched<H> {
    /// Standard input.
    pub fn input(&mut self) -> Watched<H::Input>
        ensures bytes { H.Input.remaining (held result) ≡ (H.sources (held self.old)).input }
        ensures fresh { has_failed result ≡ false }
        ensures calls { calls_of result ≡ 0 }
        ensures failed { has_failed self.new ≡ has_failed self.old }
        ensures kept { (is_delivered self.new ≡ is_delivered self.old) × (calls_of self.new ≡ calls_of self.old) }
    {
        Watched::new(self.inner.input())
    }

    /// The file with this name, to be read. It answers [`CliFault::Read`] where it can't be opened, and has failed then.
    pub fn open(&mut self, name: &str) -> Result<Watched<H::File>, CliFault>
        ensures bytes { IfOk result (λ file. H.File.remaining (held file) ≡ (H.sources (held self.old)).file name.now) }
        ensures fresh { IfOk result (λ file. has_failed file ≡ false) }
        ensures calls { IfOk result (λ file. calls_of file ≡ 0) }
        ensures fault { IfErr result (λ fault. fault ≡ CliFault.Read) }
        ensures failed { has_failed self.new ≡ (has_failed self.old || is_err result) }
        ensures same { held self.new ≡ held self.old }
        ensures lacking { H.lacks (held self.old) name.now → IsErr result }
        ensures kept { (is_delivered self.new ≡ is_delivered self.old) × (calls_of self.new ≡ calls_of self.old) }
    {
        match self.inner.open(name) {
            Ok(file) => Ok(Watched::new(file)),
            Err(_) => {
                self.failed = true;
                Err(CliFault::Read)
            }
        }
    }

    /// The file with this name, made or emptied, to be written. It answers [`CliFault::Unwritten`] where it can't be created.
    pub fn create(&mut self, name: &str) -> Result<Watched<H::Created>, CliFault>
        ensures blank { IfOk result (λ file. H.Created.contents (held file) ≡ H.blank (held self.old)) }
        ensures fresh { IfOk result (λ file. has_failed file ≡ false) }
        ensures fault { IfErr result (λ fault. fault ≡ CliFault.Unwritten) }
        ensures failed { has_failed self.new ≡ has_failed self.old }
        ensures barred { H.bars (held self.old) name.now → IsErr result }
        ensures kept { (is_delivered self.new ≡ is_delivered self.old) × (calls_of self.new ≡ calls_of self.old) }
    {
        match self.inner.create(name) {
            Ok(file) => Ok(Watched::new(file)),
            Err(_) => Err(CliFault::Unwritten),
        }
    }

    /// Lets a file go that was created with this name.
    pub fn close(&mut self, name: &str, file: Watched<H::Created>)
        ensures made { H.made (held self.new) name.now ≡ H.Created.contents (held file) }
        ensures failed { has_failed self.new ≡ has_failed self.old }
        ensures kept { (is_delivered self.new ≡ is_delivered self.old) × (calls_of self.new ≡ calls_of self.old) }
    {
        self.inner.close(name, file.into_inner());
    }

    /// Whether the two names are known to be of one file that is there.
    pub fn is_one_file(&self, first: &str, second: &str) -> bool
        ensures { H.says_one (held self.now) first.now second.now result }
    {
        self.inner.is_one_file(first, second)
    }

    /// Whether what is written to standard output is seen on a terminal.
    pub fn is_terminal(&self) -> bool {
        self.inner.is_terminal()
    }

    /// Is shown a reader. Where that has failed, it has failed too.
    pub fn note<R>(&mut self, reader: &Watched<R>)
        ensures failed { has_failed self.new ≡ (has_failed self.old || has_failed reader.now) }
        ensures same { held self.new ≡ held self.old }
        ensures kept { (is_delivered self.new ≡ is_delivered self.old) × (calls_of self.new ≡ calls_of self.old) }
    {
        self.failed |= reader.failed;
    }
}

impl<R: Read> Read for Watched<R> {
    ghost remaining = { λ watched. R.remaining watched.inner };

    fn read(&mut self, buf: &mut [u8]) -> io::Result<usize>
        ensures bound { ReadsAtMost result buf.new }
        ensures bytes { ReadConsumes (R.remaining (held self.old)) (R.remaining (held self.new)) result buf.new }
        ensures failed { has_failed self.new ≡ (has_failed self.old || is_err result) }
        ensures calls { calls_of self.new ≡ one_more (calls_of self.old) }
    {
        self.calls = self.calls.saturating_add(1);
        let read = self.inner.read(buf);
        self.failed |= read.is_err();
        read
    }
}

impl<W: Write> Write for Watched<W> {
    ghost contents = { λ watched. W.contents watched.inner };

    fn write(&mut self, buf: &[u8]) -> io::Result<usize>
        ensures bound { WritesAtMost result buf.now }
        ensures bytes { WriteAppends (W.contents (held self.old)) (W.contents (held self.new)) result buf.now }
        ensures failed { has_failed self.new ≡ (has_failed self.old || took_none result (length buf.now)) }
        ensures delivered { is_delivered self.new ≡ false }
        ensures calls { calls_of self.new ≡ one_more (calls_of self.old) }
    {
        self.calls = self.calls.saturating_add(1);
        self.delivered = false;
        let written = self.inner.write(buf);
        self.failed |= match &written {
            Ok(count) => *count == 0 && !buf.is_empty(),
            Err(_) => true,
        };
        written
    }

    fn flush(&mut self) -> io::Result<()>
        ensures bytes { Keeps (W.contents (held self.old)) (W.contents (held self.new)) }
        ensures failed { has_failed self.new ≡ (has_failed self.old || is_err result) }
        ensures delivered { is_delivered self.new ≡ (is_delivered self.old || is_ok result) }
        ensures calls { calls_of self.new ≡ one_more (calls_of self.old) }
    {
        self.calls = self.calls.saturating_add(1);
        let flushed = self.inner.flush();
        self.failed |= flushed.is_err();
        self.delivered |= flushed.is_ok();
        flushed
    }
}
