//! Texts, by their bytes.
ghost use Rattle.std.specs.Prelude.{◌≡◌, None};

use checkpoint_reading::{Checkpoint, CheckpointFault, read_checkpoint};
use checkpoint_text::push_checkpoint;
use delta_base::OutOfMemory;
use std::alloc::Global;
use std::test::Fail;

// The text of a checkpoint that was read.
fn printed(alloc: Global, read: &Checkpoint) -> Result<Vec<u8>, OutOfMemory>
    requires { read.now.contents.staged ≡ None }
{
    let rows = read.contents.prefix_rows()?;
    let lines = read.contents.lines()?;
    let mut out = Vec::new(alloc);
    push_checkpoint(
        &mut out,
        read.generation,
        read.ids.as_slice(),
        read.bytes,
        &rows,
        &lines,
    )?;
    Ok(out)
}

// Whether a text is read, and printed again as it was.
fn is_read(alloc: Global, text: &[u8]) -> Result<bool, Fail> {
    match read_checkpoint(alloc, text) {
        Ok(read) => {
            let again = printed(alloc, &read);
            drop(read);
            Ok(again?.as_slice() == text)
        }
        Err(_) => Ok(false),
    }
}

// Whether a text is refused as that of no checkpoint.
fn is_broken(alloc: Global, text: &[u8]) -> bool {
    match read_checkpoint(alloc, text) {
        Ok(read) => {
            drop(read);
            false
        }
        Err(fault) => fault == CheckpointFault::Broken,
    }
}

#[test]
fn a_checkpoint_is_printed_as_it_was_read(rt: HostRuntime) -> Result<(), Fail> {
    for text in [
        b"Z 0 0 0 0 0\n".as_slice(),
        // The greatest numbers that need nothing behind them.
        b"Z 18446744073709551615 0 18446744073709551615 0 0\n",
        b"Z 1 1 104 0 1\n00000000-0000-4000-8000-000000000001\n<http://e/s> <http://e/p> <http://e/o> .\n",
        b"Z 2 3 461 2 1\n00000000-0000-4000-8000-000000000001\n00000000-0000-4000-8000-000000000002\n00000000-0000-4000-8000-000000000003\nPA \"e\" <http://e/> .\nPA \"f\" <http://f/> .\n<http://e/s> <http://e/p> <http://e/o2> .\n",
        // An id may stand twice.
        b"Z 1 2 208 0 0\n00000000-0000-4000-8000-000000000001\n00000000-0000-4000-8000-000000000001\n",
        // The rows of one prefix need not stand side by side.
        b"Z 1 0 0 3 0\nPA \"e\" <http://e/> .\nPA \"e\" <http://e/> <http://e/g> .\nPA \"e\" <http://f/> <http://e/h> .\n",
        // A string with an escape, and each kind of term.
        b"Z 1 0 0 0 4\n<a:> <a:> \"\\\"\\n\" .\n<a:> <a:> \"a\"@en <a:g> .\n<a:> <a:> \"a\"^^<a:t> .\n_:b <a:> _:c _:d .\n",
    ] {
        assert!(rt; is_read(rt.alloc(), text)?);
    }
    Ok(())
}

#[test]
fn what_begins_otherwise_is_no_checkpoint(rt: HostRuntime) -> Result<(), Fail> {
    for text in [
        b"".as_slice(),
        b"Z 01 0 0 0 0\n",
        b"Z 1 0 0 0\n",
        b"Z 1 0 0 0 0",
        b"Z 1 0 0 0 0 \n",
        b"Z  1 0 0 0 0\n",
        b"z 1 0 0 0 0\n",
        b"Z +1 0 0 0 0\n",
        b"Z 18446744073709551616 0 0 0 0\n",
        // A first line of 65 bytes, and one of 107.
        b"Z 18446744073709551615 18446744073709551615 1844674407370955 0 0\n",
        b"Z 18446744073709551615 18446744073709551615 18446744073709551615 18446744073709551615 18446744073709551615\n",
    ] {
        assert!(rt; is_broken(rt.alloc(), text));
    }
    Ok(())
}

#[test]
fn what_stands_behind_must_be_as_many_in_order(rt: HostRuntime) -> Result<(), Fail> {
    for text in [
        // Counts that are too high, also such that no text has so much, and counts that are too low.
        b"Z 1 1 0 0 0\n".as_slice(),
        b"Z 1 18446744073709551615 0 0 0\n",
        b"Z 1 0 0 18446744073709551615 0\n",
        b"Z 1 0 0 0 18446744073709551615\n",
        b"Z 1 0 0 0 2\n<http://e/s> <http://e/p> <http://e/o> .\n",
        b"Z 1 0 0 0 0\n<http://e/s> <http://e/p> <http://e/o> .\n",
        b"Z 1 0 0 0 0\nPA \"e\" <http://e/> .\n",
        // A text behind the lines.
        b"Z 1 0 0 0 0\n\n",
        b"Z 1 0 0 0 1\n<http://e/s> <http://e/p> <http://e/o> .\n# c\n",
        // Ids in another form.
        b"Z 1 1 0 0 0\n00000000-0000-4000-8000-00000000000A\n",
        b"Z 1 1 0 0 0\n{00000000-0000-4000-8000-000000000001}\n",
        b"Z 1 1 0 0 0\n00000000-0000-4000-8000-000000000001",
        // A line that isn't canonical, the last one cut, and lines out of order.
        b"Z 1 0 0 0 1\n<http://e/s> <http://e/p> <http://e/o>  .\n",
        b"Z 1 0 0 0 1\n<a:> <a:> \"\\u0041\" .\n",
        b"Z 1 0 0 0 1\n<a:> <a:> \"a\"^^<http://www.w3.org/2001/XMLSchema#string> .\n",
        b"Z 1 0 0 0 1\n<a:> <a:> <a:> .",
        b"Z 1 0 0 0 2\n<a:> <a:> <a:> .\n<a:> <a:> <a:> .\n",
        b"Z 1 0 0 0 2\n<b:> <a:> <a:> .\n<a:> <a:> <a:> .\n",
        // Rows that aren't canonical, are of another kind, and are out of order.
        b"Z 1 0 0 1 0\nPA e: <http://e/> .\n",
        b"Z 1 0 0 1 0\nPA \"e\" <http://e/>  .\n",
        b"Z 1 0 0 1 0\nPD \"e\" .\n",
        b"Z 1 0 0 1 0\nA <a:> <a:> <a:> .\n",
        b"Z 1 0 0 2 0\nPA \"f\" <http://f/> .\nPA \"e\" <http://e/> .\n",
        b"Z 1 0 0 2 0\nPA \"e\" <http://e/> .\nPA \"e\" <http://e/> .\n",
        // Two IRIs of one prefix, also of one graph and not side by side.
        b"Z 1 0 0 2 0\nPA \"e\" <http://e/> .\nPA \"e\" <http://f/> .\n",
        b"Z 1 0 0 3 0\nPA \"e\" <http://e/> <a:g> .\nPA \"e\" <http://e/> <a:h> .\nPA \"e\" <http://f/> <a:g> .\n",
    ] {
        assert!(rt; is_broken(rt.alloc(), text));
    }
    Ok(())
}
