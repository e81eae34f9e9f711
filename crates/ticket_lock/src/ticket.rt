//! How a thread takes the lock: it draws a ticket, and waits until that is served.
ghost use Rattle.std.specs.Prelude.{◌≡◌, ◌<◌, ◌^◌, true, [], IfSome, MatchOption, MatchResult, None};
ghost use Rattle.ticket_lock.specs.declared.rule.Turn.TheVariants.{Waiting};
ghost use Rattle.ticket_lock.specs.Steps.{IsHanded, Becomes, MayDraw, MayTake};

use crate::kept::Kept;
use crate::places::{Places, Waiter};
use crate::plays::{Draw, LookNext, Serve};
use crate::rule::{END, NEXT, Place, SERVING, Words};
use crossbeam_utils::Backoff;
use std::sync::Wait;

/// The ticket to try: the expected one, or, where there is none of that number, the one that a look at the word finds. None: the look finds
/// that they are all drawn, which only a look at the word tells the pass.
fn to_try<T: Kept>(words: &Words<T>, seat: &mut Place<T>, expected: u64) -> Option<u64>
    requires { MayDraw words.now.table_id seat.old }
    ensures tried { IfSome result (λ t. (t < 2 ^ 63) × Becomes seat.old seat.new seat.old.me) }
    ensures spent { result ≡ None → Becomes seat.old seat.new (record seat.old.me.0 { out = true }, []) }
{
    if expected < END {
        return Some(expected);
    }
    let next = words.load::<LookNext>(seat, NEXT);
    if next == END { None } else { Some(next) }
}

/// Draws the next ticket. None: they are all drawn.
///
/// It tries the expected ticket at once: an exchange that is lost tells which ticket is next, as a look before it would, and a look before an exchange
/// would bring the word's cache line to this core twice, first to read and then to write.
pub(crate) fn draw<T: Kept, R: Wait>(
    rt: &R,
    words: &Words<T>,
    seat: &mut Place<T>,
    expected: u64,
) -> Option<u64>
    requires { MayDraw words.now.table_id seat.old }
    ensures { MatchOption result
        (Becomes seat.old seat.new (record seat.old.me.0 { out = true }, []))
        (λ t. Becomes seat.old seat.new (record seat.old.me.0 { turn = Waiting t }, [])) }
{
    let backoff = Backoff::new();
    let mut next = expected;
    for _ in rt.forever() {
        let ticket = to_try(words, seat, next)?;
        let found = words.compare_exchange::<Draw>(seat, NEXT, ticket, ticket + 1);
        if found == ticket {
            return Some(ticket);
        }
        next = found;
        backoff.spin();
    }
    unreachable!()
}

/// A look whether the ticket is served. The look that finds it takes the value, which is then in the slot that the seat has: no other thread
/// has that ticket, so none has to be kept out by an exchange. Err: this one is served, and the pass is as it was.
fn try_take<T: Kept>(words: &Words<T>, seat: &mut Place<T>, ticket: u64) -> Result<(), u64>
    requires { MayTake words.now.table_id seat.old ticket }
    ensures same { (seat.new.table_id ≡ seat.old.table_id) × (seat.new.id ≡ seat.old.id) }
    ensures handed { MatchResult result (λ _. (x : T) × IsHanded T.fixed T.past seat.old.me.0 ticket x seat.new.me) (λ _. seat.new.me ≡ seat.old.me) }
{
    let served = words.load::<Serve>(seat, SERVING);
    if served == ticket {
        Ok(())
    } else {
        Err(served)
    }
}

/// Waits until the ticket is served, and takes the value, which is then in the slot that the seat has.
///
/// It looks at first, and then sleeps. A thread that only looked, or that gave up its processor between two looks, would hold up the
/// queue where more threads run than there are processors: each hand-over would wait until the scheduler comes round to the next.
pub(crate) fn wait<T: Kept, R: Wait>(
    rt: &R,
    words: &Words<T>,
    places: Places<'_>,
    seat: &mut Place<T>,
    ticket: u64,
)
    requires { MayTake words.now.table_id seat.old ticket }
    ensures same { (seat.new.table_id ≡ seat.old.table_id) × (seat.new.id ≡ seat.old.id) }
    ensures handed { (x : T) × IsHanded T.fixed T.past seat.old.me.0 ticket x seat.new.me }
{
    if try_take(words, seat, ticket).is_ok() {
        return;
    }
    let mut waiter = Waiter::new(places, ticket);
    for _ in rt.forever() {
        let Err(served) = try_take(words, seat, ticket) else {
            return;
        };
        waiter.pause(rt, served);
    }
    unreachable!()
}
