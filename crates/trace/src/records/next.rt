ghost use Rattle.std.specs.Iterator.{YieldsFirstBy, item_count};
ghost use Rattle.model.specs.Records.{said};
ghost use Rattle.trace.specs.Told.{coming};

use crate::input::Input;
use crate::records::Records;
use model::Record;

impl<'t> Iterator for Records<'t> {
    type Item = Record;

    ghost next_gives = { YieldsFirstBy said coming };

    ghost remaining = { item_count coming };

    fn next(&mut self) -> Option<Record> {
        if self.left == 0 {
            return None;
        }
        let mut input = Input { rest: self.rest };
        match input.record(self.contents, &[], self.high) {
            Ok(next) => {
                self.left -= 1;
                self.high = next.high;
                self.rest = input.rest;
                Some(next.record)
            }
            Err(_) => {
                self.left = 0;
                None
            }
        }
    }
}
