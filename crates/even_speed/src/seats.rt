//! Which epoch each core runs, and whether that was violated, as the entries of the history tell it.
ghost use Rattle.std.specs.Prelude.{◌≡◌, ◌<◌, ◌==◌, ℕ, All, if◌then◌else◌};
ghost use Rattle.even_speed.specs.Seats as spec;

use spec_history::{Entry, What};
use violations::MAX_CORES;

/// What a core runs.
#[derive(Clone, Copy)]
pub(crate) struct Seat {
    /// The epoch's number.
    pub epoch: u32,
    /// It was violated, and has not begun again.
    pub hurt: bool,
}

/// Notes what these entries made of the cores.
pub(crate) fn note_all(seats: &mut [Option<Seat>; MAX_CORES], entries: &[Entry])
    requires { All (λ e. e.by < 16) entries.now }
    ensures { (k : ℕ) → spec.seat_at seats.new k ≡ spec.seats_after (spec.seat_at seats.old) entries.now k }
{
    for entry in entries {
        note(seats, *entry);
    }
}

/// Notes what an entry made of the cores.
fn note(seats: &mut [Option<Seat>; MAX_CORES], entry: Entry)
    requires { entry.by < 16 }
    ensures { (k : ℕ) → spec.seat_at seats.new k ≡ spec.noted_by (spec.seat_at seats.old entry.by) (spec.seat_at seats.old) entry.by entry.what k }
{
    match seat_of(seats, entry.by) {
        Some(own) => note_on(seats, entry.by, own, entry.what),
        None => note_idle(seats, entry.by, entry.what),
    }
}

/// Notes what an entry of a core that runs this made of the cores.
fn note_on(seats: &mut [Option<Seat>; MAX_CORES], by: u32, own: Seat, what: What)
    requires { by < 16 }
    ensures { (k : ℕ) → spec.seat_at seats.new k ≡ spec.noted_on (spec.seat_at seats.old) by own what k }
{
    match what {
        What::Hurt(epoch) => hurt_all(seats, epoch),
        What::Cancel(epoch) => leave_all(seats, epoch),
        What::Restart => {
            let epoch = own.epoch;
            set_seat(seats, by, Some(Seat { epoch, hurt: false }));
        }
        What::Commit => set_seat(seats, by, None),
        What::Start(_) | What::Load { .. } | What::Store { .. } => (),
        What::Publish | What::Fault { .. } => (),
    }
}

/// Notes what an entry of an idle core made of the cores.
fn note_idle(seats: &mut [Option<Seat>; MAX_CORES], by: u32, what: What)
    requires { by < 16 }
    ensures { (k : ℕ) → spec.seat_at seats.new k ≡ spec.noted_idle (spec.seat_at seats.old) by what k }
{
    match what {
        What::Start(epoch) => set_seat(seats, by, Some(Seat { epoch, hurt: false })),
        What::Hurt(_) | What::Cancel(_) | What::Load { .. } | What::Store { .. } => (),
        What::Restart | What::Publish | What::Commit | What::Fault { .. } => (),
    }
}

/// The core that runs this epoch was violated.
fn hurt_all(seats: &mut [Option<Seat>; MAX_CORES], epoch: u32)
    ensures { (k : ℕ) → spec.seat_at seats.new k ≡ spec.hurt_seat epoch (spec.seat_at seats.old k) }
{
    for core in 0..MAX_CORES as u32 {
        let now = hurt_by(seat_of(seats, core), epoch);
        set_seat(seats, core, now);
    }
}

fn hurt_by(seat: Option<Seat>, epoch: u32) -> Option<Seat>
    ensures { result ≡ spec.hurt_seat epoch seat }
{
    match seat {
        Some(own) => Some(Seat {
            epoch: own.epoch,
            hurt: own.hurt || own.epoch == epoch,
        }),
        None => None,
    }
}

/// The core that runs this epoch is idle.
fn leave_all(seats: &mut [Option<Seat>; MAX_CORES], epoch: u32)
    ensures { (k : ℕ) → spec.seat_at seats.new k ≡ spec.left_seat epoch (spec.seat_at seats.old k) }
{
    for core in 0..MAX_CORES as u32 {
        let now = left_by(seat_of(seats, core), epoch);
        set_seat(seats, core, now);
    }
}

fn left_by(seat: Option<Seat>, epoch: u32) -> Option<Seat>
    ensures { result ≡ spec.left_seat epoch seat }
{
    match seat {
        Some(own) if own.epoch != epoch => seat,
        _ => None,
    }
}

/// What a core runs. None: it is idle.
pub(crate) fn seat_of(seats: &[Option<Seat>; MAX_CORES], core: u32) -> Option<Seat>
    requires { core < 16 }
    ensures { result ≡ spec.seat_at seats.now core }
{
    seats[core as usize]
}

/// Sets what a core runs.
fn set_seat(seats: &mut [Option<Seat>; MAX_CORES], core: u32, now: Option<Seat>)
    requires { core < 16 }
    ensures { (k : ℕ) → spec.seat_at seats.new k ≡ (if k == core then now else spec.seat_at seats.old k) }
{
    seats[core as usize] = now;
}
