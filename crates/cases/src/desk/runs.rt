use super::{Desk, script_of};
use crate::parts::{Parts, Tickets};
use crate::state::ENTRIES;
use crate::table::{first_word, number};
use crate::telling::{tell_close, tell_step, tell_unstepped};
use files::FileStore;
use model::{CloseRefusal, Closed, Refusal, Wish};
use runner::{Ticket, begin};
use std::io;
use std::io::Write;

impl<F: FileStore> Desk<'_, F> {
    /// Begins a run of the script at hand.
    fn begin_ticket(&mut self) -> Ticket {
        let script = script_of(self.text.as_slice());
        let Parts { pool, log, book } = &mut self.parts;
        begin(&script, &self.files, pool, log, book)
    }

    /// Tells whether a ticket is live, or why it is blank.
    fn tell_begun(&mut self, refusal: Option<Refusal>) -> io::Result<()> {
        match refusal {
            None => writeln!(&mut self.out, "live"),
            Some(refusal) => {
                write!(&mut self.out, "blank {refusal}, ")?;
                self.tell_changes()
            }
        }
    }

    /// Begins a run of the script at hand, and sets the mark. The ticket at hand is put back.
    pub fn begin(&mut self, tickets: &mut Tickets) -> io::Result<()> {
        self.mark = self.state();
        let ticket = self.begin_ticket();
        let refusal = ticket.refusal();
        let earlier = tickets.last.replace(ticket);
        self.put_back(earlier);
        self.tell_begun(refusal)
    }

    /// Makes a step and tells it: what it did, or why it is refused. Answers whether it was accepted.
    fn step(&mut self, ticket: &Ticket) -> io::Result<bool> {
        let before = self.state();
        match self.policy.step(ticket, &mut self.files, &mut self.parts) {
            Ok(stepped) => {
                tell_step(
                    &mut self.out,
                    stepped,
                    self.parts.log.entries(),
                    before[ENTRIES],
                )?;
                Ok(true)
            }
            Err(unstepped) => {
                tell_unstepped(&mut self.out, unstepped)?;
                self.tell_left(&before)?;
                Ok(false)
            }
        }
    }

    /// Makes steps with a ticket until one is refused, at most so many.
    fn make_steps(&mut self, most: usize, ticket: &Ticket) -> io::Result<()> {
        for _ in 0..most {
            if !self.step(ticket)? {
                break;
            }
        }
        Ok(())
    }

    /// Makes steps, at most as many as the argument begins with; a policy may follow.
    pub fn steps(&mut self, argument: &str, tickets: &Tickets) -> io::Result<()> {
        let (most, policy) = first_word(argument);
        self.ask(policy);
        match &tickets.last {
            Some(ticket) => self.make_steps(number(most), ticket),
            None => writeln!(&mut self.out, "no ticket"),
        }
    }

    /// Tells what closing came to, and what has changed since the mark.
    fn tell_closed(&mut self, closed: Result<Closed, CloseRefusal>) -> io::Result<()> {
        tell_close(&mut self.out, closed)?;
        self.tell_changes()
    }

    /// Closes the ticket at hand.
    pub fn close(&mut self, argument: &str, tickets: &mut Tickets) -> io::Result<()> {
        let wish = if argument == "keep" {
            Wish::Keep
        } else {
            Wish::PutBack
        };
        match tickets.last.take() {
            Some(ticket) => {
                let closed = self.close_ticket(ticket, wish);
                self.tell_closed(closed)
            }
            None => writeln!(&mut self.out, "no ticket"),
        }
    }
}
