//! The gate as what answers lines.
use crate::engine::{AnswerLines, LineAnswer};
use crate::gate::Gate;
use gate_book_trait::Book;
use gate_types::deliveries::Answer;
use gate_wire::{Door, read_delivery};
use std::alloc::Global;

impl<B: Book> AnswerLines for Gate<B> {
    ghost use Rattle.gate_core.specs.Held.{TellsLine};

    ghost replies = { TellsLine B.IsTrusted B.Holds B.LeavesOneOf };

    fn respond(&mut self, alloc: Global, line: &[u8]) -> LineAnswer {
        match read_delivery(alloc, line, Door::Any) {
            Ok((id, delivery)) => match self.deliver(alloc, id, delivery) {
                Answer::Said(text) => LineAnswer::Text(text.into_string()),
                Answer::Refused(refusal) => LineAnswer::Refused(refusal.text()),
            },
            Err(refusal) => LineAnswer::Refused(refusal.text()),
        }
    }
}
