// The buffer of a record's text.
ghost use Rattle.std.specs.Prelude.{◌≡◌, ◌≤◌, ◌+◌, ◌-◌, ◌*◌, ◌++◌, [], IfOk, length, replicate};
ghost use Rattle.bytes.specs.Filled.{Filled};
ghost use Rattle.command_bytes.specs.Text.{IsCommand, command_text};
ghost use Rattle.gated_journal.specs.Inside.Room.{capacity, text_room};
ghost use Rattle.gated_journal.specs.Record.{data_size, most_data_sectors};

use bytes::BytesMut;
use centre_core::Command;
use command_bytes::ByteSink;
use std::alloc::{AllocError, Allocator};
use std::marker::Model;

// A record's bytes, in memory that was taken when the buffer was made.
//
// A number is added as its bytes. The `put_` calls of `BufMut` may grow the buffer, and so need a `Copy` allocator. A journal
// has one only where it is made.
#[derive(Debug, Drop)]
pub(crate) struct RecordText<A: Allocator> {
    bytes: BytesMut<A>,
}

impl<A: Allocator> Model for RecordText<A> {
    ghost use Rattle.bytes.specs.Filled.{Filled, filled_code};

    ghost Value = { Filled };

    ghost coded = { filled_code };

    ghost view = { λ text. text.bytes };
}

impl<A: Allocator + Copy> RecordText<A> {
    // No bytes, and room for so many.
    pub(crate) fn with_room(alloc: A, room: usize) -> Result<RecordText<A>, AllocError>
        ensures { IfOk result (λ text. room ≤ text.spare) }
    {
        Ok(RecordText {
            bytes: BytesMut::with_capacity(alloc, room)?,
        })
    }
}

impl<A: Allocator> RecordText<A> {
    pub(crate) fn as_slice(&self) -> &[u8]
        ensures { result.now ≡ self.now.items }
    {
        self.bytes.as_slice()
    }

    pub(crate) fn clear(&mut self)
        ensures items { self.new.items ≡ [] }
        ensures capacity { capacity self.old ≤ capacity self.new }
    {
        self.bytes.clear();
    }

    // Adds bytes for which there is room.
    pub(crate) fn add(&mut self, bytes: &[u8])
        requires { length self.old.items + length bytes.now ≤ capacity self.old }
        ensures items { self.new.items ≡ self.old.items ++ bytes.now }
        ensures len { length self.new.items ≡ length self.old.items + length bytes.now }
        ensures capacity { capacity self.old ≤ capacity self.new }
    {
        self.bytes.extend_reserved(bytes);
    }

    // Adds zeros to the end of the text's last sector, and for one sector more. Returns how many bytes the text has.
    pub(crate) fn pad(&mut self) -> usize
        requires few { length self.old.items ≤ 512 * most_data_sectors }
        requires room { text_room ≤ capacity self.old }
        ensures len { result ≡ length self.old.items }
        ensures items { self.new.items ≡ self.old.items ++ replicate (512 * (data_size self.old.items + 1) - length self.old.items) 0 }
        ensures capacity { capacity self.old ≤ capacity self.new }
    {
        let len = self.bytes.as_slice().len();
        let end = 512 * ((len + 511) / 512 + 1);
        let zeros = [0u8; 1024];
        self.add(&zeros[..end - len]);
        len
    }

    // Adds a command's bytes, for which there is room.
    pub(crate) fn add_command<B: Allocator>(&mut self, command: &Command<B>)
        requires room { length self.old.items + length (command_text command.now) ≤ capacity self.old }
        ensures items { self.new.items ≡ self.old.items ++ command_text command.now }
        ensures capacity { capacity self.old ≤ capacity self.new }
        ensures is_command { IsCommand command.now }
    {
        command_bytes::append(self, command);
    }
}

impl<A: Allocator> ByteSink for RecordText<A> {
    ghost held = { λ (text : Filled). text.items };

    ghost room = { λ (text : Filled). text.spare };

    fn put(&mut self, bytes: &[u8]) {
        self.bytes.extend_reserved(bytes);
    }
}
