ghost use Rattle.std.specs.Prelude.{◌≡◌, Some, None};
ghost use Rattle.runner.specs.Tickets.{why_blank};

use model::Refusal;

/// What begin hands out and close takes back. It is live, or blank with the refusal of its begin.
///
/// It is no `Drop` and no `Copy` and its field is private, so that each ticket is closed, once, and none is made up.
pub struct Ticket {
    refusal: Option<Refusal>,
}

impl Ticket {
    /// The ticket of a begin that was accepted.
    pub(crate) fn live() -> Ticket
        ensures { why_blank result ≡ None }
    {
        Ticket { refusal: None }
    }

    /// The ticket of a begin that was refused.
    pub(crate) fn blank(refusal: Refusal) -> Ticket
        ensures { why_blank result ≡ Some refusal }
    {
        Ticket {
            refusal: Some(refusal),
        }
    }

    // Kept: by the rules a blank ticket tells why; step, close and build make their own error of it.
    /// Why it is blank; none where it is live.
    pub fn refusal(&self) -> Option<Refusal>
        ensures { result ≡ why_blank self.now }
    {
        self.refusal
    }

    // Kept: an `Option`, since a build spends a ticket, too, whose refusal it has told.
    /// Takes the ticket back, and tells why it was blank.
    pub(crate) fn spend(self) -> Option<Refusal>
        ensures { result ≡ why_blank self }
    {
        let Ticket { refusal } = self;
        refusal
    }
}
