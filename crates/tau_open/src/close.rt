//! The disks come back.
ghost use Rattle.std.specs.Prelude.{◌≡◌, ◌≤◌, ◌+◌, ◌++◌, map, reverse, vec_len, vec_capacity};
ghost use Rattle.tau_stream.specs.Writer.{disk_of};

use tau_disk::Disk;
use tau_stream::Writer;

/// Puts the disks of the writers in front of the others, in their order. It takes no memory.
pub fn close_streams<D: Disk>(disks: &mut Vec<D>, writers: Vec<Writer<D>>)
    requires room { vec_len disks.old + vec_len writers ≤ vec_capacity disks.old }
    ensures items { disks.new.items ≡ map disk_of writers.items ++ disks.old.items }
    ensures len { vec_len disks.new ≡ vec_len writers + vec_len disks.old }
    ensures capacity { vec_capacity disks.new ≡ vec_capacity disks.old }
{
    disks.reverse();
    put_back(disks, writers);
    disks.reverse();
}

/// Puts the disks of the writers after the others, the last one first.
pub fn put_back<D: Disk>(stack: &mut Vec<D>, writers: Vec<Writer<D>>)
    requires room { vec_len stack.old + vec_len writers ≤ vec_capacity stack.old }
    ensures items { reverse stack.new.items ≡ map disk_of writers.items ++ reverse stack.old.items }
    ensures len { vec_len stack.new ≡ vec_len writers + vec_len stack.old }
    ensures capacity { vec_capacity stack.new ≡ vec_capacity stack.old }
{
    let mut writers = writers;
    while let Some(writer) = writers.pop() {
        stack.push_reserved(writer.into_disk());
    }
    writers.destroy_empty();
}
