// Lists of tickets: one a place, in rising number of the streams, and one a waiter, in the order of arrival.
ghost use Rattle.std.specs.Prelude.{◌≡◌, ◌<◌, ◌≤◌, AllPairs};
ghost use Rattle.txn_table.specs.declared.tickets.Ticket.{Ticket};
ghost use Rattle.txn_table.specs.Tickets.{IsRising, AreInOrder, IsFound, IsAmong, IsWaiterOf, AreHeld};

use hrana_value::StreamNo;

/// What a stream waits with. A later ticket has a higher number.
#[derive(Clone, Copy, Debug, PartialEq, Eq)]
pub struct Ticket {
    pub number: u64,
    pub stream: StreamNo,
}

/// The place of the stream, or the place where it would be put.
pub(crate) fn find(places: &[Ticket], stream: StreamNo) -> Result<usize, usize>
    requires { IsRising places.now }
    ensures { IsFound places.now stream result }
{
    let place = places.partition_point(|p| p.stream.0 < stream.0);
    if place < places.len() && places[place].stream.0 == stream.0 {
        Ok(place)
    } else {
        Err(place)
    }
}

/// The place of the ticket among the waiters. Tickets of one number stand beside each other, and nearly always there is one.
fn ticket_place(waiters: &[Ticket], ticket: Ticket) -> Option<usize>
    requires { AreInOrder waiters.now }
    ensures { IsAmong waiters.now ticket result }
{
    let mut place = waiters.partition_point(|w| w.number < ticket.number);
    while place < waiters.len() && waiters[place].number == ticket.number {
        if waiters[place].stream.0 == ticket.stream.0 {
            return Some(place);
        }
        place += 1;
    }
    None
}

/// The place of the stream among the waiters.
pub(crate) fn waiter_place(places: &[Ticket], waiters: &[Ticket], stream: StreamNo) -> Option<usize>
    requires rising { IsRising places.now }
    requires in_order { AreInOrder waiters.now }
    requires held { AreHeld places.now waiters.now }
    ensures { IsWaiterOf waiters.now stream result }
{
    match find(places, stream) {
        Ok(place) => ticket_place(waiters, places[place]),
        Err(_) => None,
    }
}
