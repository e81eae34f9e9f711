//! The laws of turns: the functions do nothing of their own, and their contracts are the laws.
ghost use Rattle.homefree.specs.DriveFixed.{DriveIsFixed};
ghost use Rattle.homefree.specs.Fixed.{TurnIsFixed};

use violations::EpochStore;

/// From two books that have the same history, and whose stores hold the same, the same turn makes the same entries, gives the same
/// answer, and leads to two such books again, unless memory runs out.
pub fn turn_is_fixed<S: EpochStore>()
    ensures { TurnIsFixed S.makes S.alike S.view S.waits }
{
    S::calls_are_fixed();
}

/// From two books that have the same history, and whose stores hold the same, the same turns of cores, one after another, make the
/// same entries and come to the same, unless memory runs out.
pub fn drive_is_fixed<S: EpochStore>()
    ensures { DriveIsFixed S.makes S.alike S.view S.waits }
{
    turn_is_fixed::<S>();
}
