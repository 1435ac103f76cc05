//! Who speaks when: over pipes the other side waits for an answer before it sends its next line.
use crate::scenes::gate_in_memory;
use gate_book::Book;
use gate_core::{Gate, replay};
use gate_types::tap::Tap;
use std::cell::Cell;
use std::io;
use std::io::{Read, Write};
use std::process::Abort;

/// How many lines were given and answered, and whether a read came while an answer was owed.
#[derive(Drop)]
struct Talk {
    given: Cell<usize>,
    answered: Cell<usize>,
    owed: Cell<bool>,
}

/// One side of a talk: gives five lines, one a read, and counts the answers by their ends.
#[derive(Drop)]
struct Side<'a> {
    talk: &'a Talk,
}

impl Read for Side<'_> {
    fn read(&mut self, buf: &mut [u8]) -> io::Result<usize> {
        let given = self.talk.given.get();
        if self.talk.answered.get() < given {
            self.talk.owed.set(true);
        }
        if given >= 5 {
            return Ok(0);
        }
        self.talk.given.set(given.saturating_add(1));
        let n = buf.len().min(3);
        b"{}\n".as_slice().read(&mut buf[..n])
    }
}

impl Write for Side<'_> {
    fn write(&mut self, buf: &[u8]) -> io::Result<usize> {
        if buf.contains(&b'\n') {
            let answered = self.talk.answered.get();
            self.talk.answered.set(answered.saturating_add(1));
        }
        Ok(buf.len())
    }

    fn flush(&mut self) -> io::Result<()> {
        Ok(())
    }
}

/// The gate answers five lines in turn.
fn takes_turns<B: Book>(rt: &(impl Abort + AllocGlobal), gate: &mut Gate<B>, talk: &Talk) {
    let mut r = Tap::new(Side { talk });
    let mut w = Tap::new(Side { talk });
    let count = replay(rt.alloc(), gate, &mut r, &mut w);
    assert_eq!(rt; count, Ok(5));
    assert_eq!(rt; talk.answered.get(), 5);
    assert!(rt; !talk.owed.get());
}

/// An engine that holds an answer back until it has read again would wait for ever over pipes.
#[test]
fn no_answer_is_held_back_over_a_read(rt: HostRuntime) {
    let talk = Talk {
        given: Cell::new(0),
        answered: Cell::new(0),
        owed: Cell::new(false),
    };
    let mut gate = gate_in_memory(&rt, "core 2 1", "");
    takes_turns(&rt, &mut gate, &talk);
}
