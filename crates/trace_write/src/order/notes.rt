ghost use Rattle.std.specs.Prelude.{◌≡◌, ◌≤◌, [], map, length};
ghost use Rattle.std.specs.List.{AllByRecursion};
ghost use Rattle.model.specs.Records.{said};
ghost use Rattle.trace.specs.Reads.{after};
ghost use Rattle.trace_write.specs.Puts.{number_of_use};
ghost use Rattle.trace_write.specs.Saves.{place as place_of, place_listed, listed, numbers_in, order as order_in};
ghost use Rattle.trace_write.specs.Rooms.{Number, Named};

use crate::order::Order;
use arrayvec::ArrayVec;
use model::{Record, Use};

impl Order {
    /// No number is listed.
    fn new() -> Order
        ensures { result.numbers.items ≡ [] }
    {
        Order {
            numbers: ArrayVec::new(),
            places: [0; 1025],
        }
    }

    /// The numbers.
    pub(crate) fn numbers(&self) -> &[u16]
        ensures value { result.now ≡ self.now.numbers.items }
        ensures few { length result.now ≤ 1024 }
    {
        self.numbers.as_slice()
    }

    /// The place of a number that is listed, counted from 1; 0 of one that is not.
    fn listed(&self, number: u16) -> u16
        ensures value { result ≡ place_listed number self.now.numbers.items }
    {
        if number > 1024 {
            return 0;
        }
        self.places[number as usize]
    }

    // Kept: no `Option`: a number that is not there has a place all the same, so no caller owes a proof that it is.
    /// The place of a number, counted from 1; one past the last where it is not there.
    pub(crate) fn place(&self, number: u16) -> usize
        ensures value { result ≡ place_of number self.now.numbers.items }
        ensures within { result ≤ 1025 }
    {
        let past = self.numbers().len() + 1;
        match self.listed(number) {
            0 => past,
            place => place as usize,
        }
    }

    /// Lists a number unless it is there.
    fn note(&mut self, number: u16)
        requires { Number number }
        ensures { self.new.numbers.items ≡ listed self.old.numbers.items number }
    {
        if self.listed(number) == 0 {
            self.numbers.push(number);
            self.places[number as usize] = self.numbers.len() as u16;
        }
    }

    /// Lists the numbers of some uses.
    fn note_uses(&mut self, uses: &[Use])
        requires { AllByRecursion (λ u. Number u.number) uses.now }
        ensures { self.new.numbers.items ≡ after listed self.old.numbers.items (map number_of_use uses.now) }
    {
        for u in uses {
            self.note(u.number);
        }
    }

    /// Lists the numbers of a record.
    fn note_record(&mut self, rec: &Record)
        requires { Named rec.now }
        ensures { self.new.numbers.items ≡ after listed self.old.numbers.items (numbers_in (said rec.now)) }
    {
        self.note_uses(rec.reads());
        self.note(rec.write.number);
    }
}

/// The numbers that some records name, in order of first use.
pub fn order_of(records: &[Record]) -> Order
    requires { AllByRecursion Named records.now }
    ensures { result.numbers.items ≡ order_in (map said records.now) }
{
    let mut order = Order::new();
    for r in records {
        order.note_record(r);
    }
    order
}
