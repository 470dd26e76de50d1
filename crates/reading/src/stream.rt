//! A source and a sink as a reader and a writer of std, each with the buffer that it is lent. Neither fails: a read that fails is the end of
//! the input, behind which nothing is read again, and a write that fails is passed over.
ghost use Rattle.std.specs.Prelude.{◌≡◌, ℕ, [], ◌++◌, List, length, take, drop, min, None, Ok, IfSome, IfOk, IsOk, IsOkAnd, OnOk};
ghost use Rattle.std.specs.Borrow.{sem};
ghost use mir.Syntax.{named};
ghost use Rattle.std.specs.Io.{ReadsAtMost, WritesAtMost, StartsWith};
ghost use Rattle.std.specs.Io.KnownBytes.{Keeps, Appends, ReadConsumes, WriteAppends};
ghost use Rattle.std.specs.Io.BufRead.{Rests, FillKeeps, DropsConsumable};
ghost use Rattle.reading.specs.contracts.stream.Input.{the_row};
ghost use Rattle.reading.specs.Input.{unread, held};
ghost use Rattle.reading.specs.Output.{idle, sink_after, buffer_after, cleared, cleared_in};
ghost use Rattle.reading.specs.Stream.{source_of, input_buffer, sink_of, output_buffer, lines_sink, lines_buffer, wants, Prepared, handed, Shows, Reads};

use crate::input::Source;
use crate::output::Sink;
use std::io::{self, BufRead, Read, Write};

/// So many bytes a program lends each of its streams.
pub const BUFFER: usize = 65536;

/// A file that is read through a lent buffer.
#[derive(Drop)]
pub struct Input<'a> {
    source: Source,
    buffer: &'a mut [u8],
}

impl<'a> Input<'a> {
    /// Nothing was read yet. Of an empty buffer nothing comes.
    pub fn of(file: i32, buffer: &'a mut [u8]) -> Input<'a>
        ensures source { source_of result ≡ unread file }
        ensures buffer { input_buffer result ≡ buffer.old }
    {
        Input {
            source: Source::of(file),
            buffer,
        }
    }

    #[tactic(auto, using(crate::proofs::Places::within_order), unfolding(crate::specs::Input::held))]
    fn held(&self) -> &[u8]
        ensures { result.now ≡ held self.now.source self.now.buffer.now }
    {
        let buffer = &*self.buffer;
        let source = self.source.within(buffer.len());
        &buffer[source.used..source.filled]
    }

    #[tactic(auto, unfolding(crate::specs::Stream::wants))]
    fn wants(&self) -> bool
        ensures { result ≡ wants self.now.source self.now.buffer.now }
    {
        self.source.more && self.held().is_empty()
    }

    /// Where nothing is held and more may come, the buffer is filled anew.
    fn prepare(&mut self)
        ensures { Prepared self.old.source self.old.buffer.now self.new.source self.new.buffer.now }
    {
        if self.wants() {
            let buffer = &mut *self.buffer;
            self.source = self.source.refilled(buffer);
        }
    }
}

impl Read for Input<'_> {
    fn read(&mut self, buf: &mut [u8]) -> io::Result<usize>
        ensures bound { ReadsAtMost result buf.new }
        ensures bytes { ReadConsumes None None result buf.new }
        ensures reads { IsOkAnd result (λ n. Reads (source_of self.old) (input_buffer self.old) buf.old n (source_of self.new) (input_buffer self.new) buf.new) }
    {
        self.prepare();
        let count = copy_front(self.held(), buf);
        self.consume(count);
        Ok(count)
    }
}

impl BufRead for Input<'_> {
    fn fill_buf(&mut self) -> io::Result<&[u8]>
        ensures front { IfSome None (λ (xs : List ℕ). IfOk result (λ s. StartsWith xs s.now)) }
        ensures end { IfSome None (λ (xs : List ℕ). IfOk result (λ s. length s.now ≡ 0 → xs ≡ [])) }
        ensures* after_borrow { sem 𝓛 (Rests (the_row (record { mir = named 1; lft = [] })) self.entry (λ new. FillKeeps None None None result)) }
        ensures shows { IsOkAnd result (λ s. Shows (source_of self.old) (input_buffer self.old) s.now) }
    {
        self.prepare();
        Ok(self.held())
    }

    /// Past what is held it stops there.
    #[tactic(auto, using(crate::proofs::Places::within_order), unfolding(crate::specs::Stream::handed, crate::specs::Input::within))]
    fn consume(&mut self, amount: usize)
        ensures bytes { DropsConsumable None None None amount }
        ensures source { source_of self.new ≡ handed (source_of self.old) (input_buffer self.old) amount }
        ensures buffer { input_buffer self.new ≡ input_buffer self.old }
    {
        let mut source = self.source.within(self.buffer.len());
        source.used += amount.min(source.filled - source.used);
        self.source = source;
    }
}

/// As many bytes as there are and as have room.
fn copy_front(from: &[u8], room: &mut [u8]) -> usize
    ensures count { result ≡ min (length from.now) (length room.old) }
    ensures copied { room.new ≡ take result from.now ++ drop result room.old }
{
    let count = from.len().min(room.len());
    room[..count].copy_from_slice(&from[..count]);
    count
}

/// A file to which what is written is collected in a lent buffer. What waits there at the end is written by `flush` alone.
#[derive(Drop)]
pub struct Output<'a> {
    sink: Sink,
    buffer: &'a mut [u8],
}

impl<'a> Output<'a> {
    /// Nothing waits yet. With an empty buffer each write goes to the file at once.
    pub fn of(file: i32, buffer: &'a mut [u8]) -> Output<'a>
        ensures sink { sink_of result ≡ idle file }
        ensures buffer { output_buffer result ≡ buffer.old }
    {
        Output {
            sink: Sink::of(file),
            buffer,
        }
    }

    fn put(&mut self, bytes: &[u8])
        ensures sink { self.new.sink ≡ sink_after self.old.sink self.old.buffer.now bytes.now }
        ensures buffer { self.new.buffer.now ≡ buffer_after self.old.sink self.old.buffer.now bytes.now }
    {
        let buffer = &mut *self.buffer;
        self.sink = self.sink.put(buffer, bytes);
    }

    fn clear(&mut self, count: usize)
        ensures sink { self.new.sink ≡ cleared self.old.sink self.old.buffer.now count }
        ensures buffer { self.new.buffer.now ≡ cleared_in self.old.sink self.old.buffer.now count }
    {
        let buffer = &mut *self.buffer;
        self.sink = self.sink.cleared(buffer, count);
    }
}

impl Write for Output<'_> {
    fn write(&mut self, buf: &[u8]) -> io::Result<usize>
        ensures bound { WritesAtMost result buf.now }
        ensures bytes { WriteAppends None None result buf.now }
        ensures count { result ≡ Ok (length buf.now) }
        ensures sink { sink_of self.new ≡ sink_after (sink_of self.old) (output_buffer self.old) buf.now }
        ensures buffer { output_buffer self.new ≡ buffer_after (sink_of self.old) (output_buffer self.old) buf.now }
    {
        self.put(buf);
        Ok(buf.len())
    }

    fn flush(&mut self) -> io::Result<()>
        ensures bytes { Keeps None None }
        ensures ok { IsOk result }
        ensures sink { sink_of self.new ≡ idle (sink_of self.old).file }
        ensures buffer { output_buffer self.new ≡ output_buffer self.old }
    {
        // A `&mut` that is only read: a proof then knows that the buffer stays.
        let buffer = &mut *self.buffer;
        self.sink = self.sink.flush(buffer);
        Ok(())
    }

    fn write_all(&mut self, buf: &[u8]) -> io::Result<()>
        ensures bytes { OnOk result (Appends None None buf.now) }
        ensures ok { IsOk result }
        ensures sink { sink_of self.new ≡ sink_after (sink_of self.old) (output_buffer self.old) buf.now }
        ensures buffer { output_buffer self.new ≡ buffer_after (sink_of self.old) (output_buffer self.old) buf.now }
    {
        self.put(buf);
        Ok(())
    }
}

/// An output of lines: where the buffer is full, the whole lines in it are written, so that each write ends where a line does. Of a line
/// that is longer than the buffer it writes parts.
#[derive(Drop)]
pub struct LineOutput<'a> {
    output: Output<'a>,
}

impl<'a> LineOutput<'a> {
    pub fn of(file: i32, buffer: &'a mut [u8]) -> LineOutput<'a>
        ensures sink { lines_sink result ≡ idle file }
        ensures buffer { lines_buffer result ≡ buffer.old }
    {
        LineOutput {
            output: Output::of(file, buffer),
        }
    }

    fn put(&mut self, bytes: &[u8])
        ensures sink { lines_sink self.new ≡ sink_after (cleared (lines_sink self.old) (lines_buffer self.old) (length bytes.now)) (cleared_in (lines_sink self.old) (lines_buffer self.old) (length bytes.now)) bytes.now }
        ensures buffer { lines_buffer self.new ≡ buffer_after (cleared (lines_sink self.old) (lines_buffer self.old) (length bytes.now)) (cleared_in (lines_sink self.old) (lines_buffer self.old) (length bytes.now)) bytes.now }
    {
        self.output.clear(bytes.len());
        self.output.put(bytes);
    }
}

impl Write for LineOutput<'_> {
    fn write(&mut self, buf: &[u8]) -> io::Result<usize>
        ensures bound { WritesAtMost result buf.now }
        ensures bytes { WriteAppends None None result buf.now }
        ensures count { result ≡ Ok (length buf.now) }
        ensures sink { lines_sink self.new ≡ sink_after (cleared (lines_sink self.old) (lines_buffer self.old) (length buf.now)) (cleared_in (lines_sink self.old) (lines_buffer self.old) (length buf.now)) buf.now }
        ensures buffer { lines_buffer self.new ≡ buffer_after (cleared (lines_sink self.old) (lines_buffer self.old) (length buf.now)) (cleared_in (lines_sink self.old) (lines_buffer self.old) (length buf.now)) buf.now }
    {
        self.put(buf);
        Ok(buf.len())
    }

    fn flush(&mut self) -> io::Result<()>
        ensures bytes { Keeps None None }
        ensures ok { IsOk result }
        ensures sink { lines_sink self.new ≡ idle (lines_sink self.old).file }
        ensures buffer { lines_buffer self.new ≡ lines_buffer self.old }
    {
        self.output.flush()
    }

    fn write_all(&mut self, buf: &[u8]) -> io::Result<()>
        ensures bytes { OnOk result (Appends None None buf.now) }
        ensures ok { IsOk result }
        ensures sink { lines_sink self.new ≡ sink_after (cleared (lines_sink self.old) (lines_buffer self.old) (length buf.now)) (cleared_in (lines_sink self.old) (lines_buffer self.old) (length buf.now)) buf.now }
        ensures buffer { lines_buffer self.new ≡ buffer_after (cleared (lines_sink self.old) (lines_buffer self.old) (length buf.now)) (cleared_in (lines_sink self.old) (lines_buffer self.old) (length buf.now)) buf.now }
    {
        self.put(buf);
        Ok(())
    }
}
