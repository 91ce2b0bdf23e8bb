// A sink of words, with its room, as a sink of records.
ghost use Rattle.std.specs.Prelude.{◌≡◌};

use super::{RecordSink, Sink};
use std::marker::Model;

// A sink of words that is lent, with room for those before an index. Contracts see its name, what it is now, and the room.
#[derive(Drop)]
pub struct Bounded<'a, S: Sink> {
    sink: &'a mut S,
    room: usize,
}

impl<'a, S: Sink> Model for Bounded<'a, S> {
    ghost use Rattle.std.specs.Prelude.{ℕ};

    ghost Value = { ℕ × S × ℕ };

    ghost view = { λ b. (b.sink.ghost_name, b.sink.now, b.room) };

    ghost invariant = { λ b. S.fits b.sink.now b.room };
}

impl<'a, S: Sink> Bounded<'a, S> {
    pub fn new(sink: &'a mut S, room: usize) -> Bounded<'a, S>
        requires { S.fits sink.old room }
        ensures { result ≡ (sink.entry.ghost_name, sink.old, room) }
    {
        Bounded { sink, room }
    }

    // The sink itself.
    pub fn into_sink(self) -> &'a mut S
        ensures same { result.ghost_name ≡ self.entry.0 }
        ensures whole { result.now ≡ self.entry.1 }
    {
        let Bounded { sink, room: _ } = self;
        sink
    }
}

impl<S: Sink> RecordSink for Bounded<'_, S> {
    ghost use Rattle.std.specs.Prelude.{false, Some};
    ghost use Rattle.records.specs.Sinks.{BoundedTakes};
    ghost use Rattle.records.specs.SinkLaws.{bounded-laws, never-over};

    ghost named = { S.named };

    ghost room = { λ s. Some s.2 };

    ghost takes = { BoundedTakes S.takes };

    ghost laws = { bounded-laws S.laws };

    ghost over = { λ s. false };

    ghost over_law = { never-over (BoundedTakes S.takes) };

    fn put_record(&mut self, first: usize, n: usize, words: &[u32]) {
        self.sink.put(words.len() * (first + n), words);
    }

    fn asks_kinds(&self) -> bool {
        self.sink.is_named()
    }

    fn is_over(&self) -> bool {
        false
    }
}

#[cfg(test)]
mod tests {
    use super::*;
    use crate::Written;

    // A sink of words that is lent takes records, up to its room.
    #[test]
    fn records_go_to_a_sink_of_words(rt: HostRuntime) {
        let mut buffer: [u32; 8] = [0; 8];
        let mut written = Written::new(&mut buffer);
        let mut bounded = Bounded::new(&mut written, 8);
        bounded.put_record(1, 2, &[3, 4]);
        assert!(rt; bounded.asks_kinds() && !bounded.is_over());
        let _ = bounded.into_sink();
        assert_eq!(rt; buffer.as_slice(), [0, 0, 0, 0, 0, 0, 3, 4].as_slice());
    }
}
