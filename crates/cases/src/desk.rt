use crate::asked::Asked;
use crate::parts::{Parts, Tickets};
use crate::spelling::{write_copies, write_spelled};
use crate::state::{State, state_of, tell_left};
use crate::table::{first_word, text_of};
use crate::telling::tell_refusal;
use files::FileStore;
use model::{BuildRefusal, Built, CloseRefusal, Closed, Refusal, Wish};
use policy::ScriptOrder;
use runner::{Ticket, close};
use script::Script;
use std::alloc::Global;
use std::{io, mem};

mod building;
mod commands;
mod records;
mod runs;

/// What stays from command to command of a case, beside its tickets.
#[derive(Drop)]
pub struct Desk<'a, F> {
    alloc: Global,
    /// The table, for the texts that it names.
    table: &'a str,
    /// What the commands so far came to.
    out: Vec<u8>,
    files: F,
    parts: Parts<'a>,
    /// What a case swaps in for one of the parts.
    spare: Parts<'a>,
    /// The text of the script.
    text: Vec<u8>,
    policy: Asked,
    /// What the last build answered.
    outcome: Result<Built, BuildRefusal>,
    /// What the parts held at the last mark.
    mark: State,
}

/// The script of a text, empty where the text is refused.
fn script_of(text: &[u8]) -> Script<'_> {
    let mut script = Script::new();
    let _ = script.read(text);
    script
}

impl<'a, F: FileStore> Desk<'a, F> {
    pub fn new(
        alloc: Global,
        table: &'a str,
        files: F,
        parts: Parts<'a>,
        spare: Parts<'a>,
    ) -> Desk<'a, F> {
        Desk {
            alloc,
            table,
            out: Vec::new(alloc),
            files,
            parts,
            spare,
            text: Vec::new(alloc),
            policy: Asked::Order(ScriptOrder),
            outcome: Err(BuildRefusal::By(Refusal::NoRun)),
            mark: [0; 70],
        }
    }

    /// Closes a ticket.
    fn close_ticket(&mut self, ticket: Ticket, wish: Wish) -> Result<Closed, CloseRefusal> {
        let Parts { pool, log, book } = &mut self.parts;
        close(ticket, wish, &mut self.files, pool, log, book)
    }

    /// Closes a ticket, if there is one, with the wish to put back.
    fn put_back(&mut self, ticket: Option<Ticket>) {
        match ticket {
            Some(ticket) => {
                let _ = self.close_ticket(ticket, Wish::PutBack);
            }
            None => {}
        }
    }

    /// Closes the tickets that are left, with the wish to put back, and hands out what the commands came to.
    pub fn end(&mut self, tickets: Tickets) -> Vec<u8> {
        let Tickets { last, spare } = tickets;
        self.put_back(last);
        self.put_back(spare);
        mem::replace(&mut self.out, Vec::new(self.alloc))
    }

    /// What the parts hold now.
    fn state(&self) -> State {
        state_of(&self.files, &self.parts)
    }

    /// Tells what has changed since a state.
    fn tell_left(&mut self, before: &State) -> io::Result<()> {
        let after = self.state();
        tell_left(&mut self.out, before, &after)
    }

    /// Tells what has changed since the mark.
    fn tell_changes(&mut self) -> io::Result<()> {
        let mark = self.mark;
        self.tell_left(&mark)
    }

    /// Tells a call that is refused. Answers whether it is.
    fn tell_done(&mut self, answer: Result<(), Refusal>) -> io::Result<bool> {
        match answer {
            Ok(()) => Ok(false),
            Err(refusal) => {
                tell_refusal(&mut self.out, refusal, None)?;
                Ok(true)
            }
        }
    }

    /// The bytes of an argument: a trace file of copies, or a text that is spelled, before which the table may name
    /// the lines before it.
    fn bytes_of(&self, argument: &str) -> io::Result<Vec<u8>> {
        let mut bytes = Vec::new(self.alloc);
        let (name, more) = first_word(argument);
        if name == "copies" {
            write_copies(&mut bytes, more)?;
        } else if name.starts_with('@') {
            write_spelled(&mut bytes, text_of(self.table, name))?;
            write_spelled(&mut bytes, more)?;
        } else {
            write_spelled(&mut bytes, argument)?;
        }
        Ok(bytes)
    }

    /// Asks another policy from now on, if one is given.
    fn ask(&mut self, argument: &str) {
        if !argument.is_empty() {
            let script = script_of(self.text.as_slice());
            self.policy = Asked::of_line(argument, &script, &self.parts);
        }
    }
}
