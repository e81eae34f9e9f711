//! Which loads wait in a run.
ghost use Rattle.std.specs.Prelude.{◌≡◌, IfOk};
ghost use Rattle.epoch_paths.specs.Stored.{piece_in};
ghost use Rattle.even_speed.specs.Grain.{HasPieces, piece_by};
ghost use Rattle.even_speed.specs.Held.{loads_at};
ghost use Rattle.even_speed.specs.Holds.{holding_of};
ghost use Rattle.all_schedules.specs.Holding as spec;

use epoch_paths::{Pieces, stores_in_order};
use even_speed::{Grain, Holds};
use rv32_exec::NoMemory;
use rv32_image::Image;
use std::alloc::{AllocError, Global};

/// The loads at these addresses of code wait, until their epoch is the homefree one.
///
/// `AllocError`: memory ran out.
pub fn holds_at(alloc: Global, addresses: &[u32]) -> Result<Holds, AllocError>
    ensures { IfOk result (λ holds. holding_of holds ≡ loads_at addresses.now) }
{
    let addresses = Vec::from_slice(alloc, addresses)?;
    Ok(Holds::new(addresses, Vec::new(alloc), Grain::Bytes))
}

/// The loads wait that read from outside a piece in which earlier epochs store in order, until these have committed.
///
/// `NoMemory`: there was none for the run in order, or for a list of what it stores.
pub fn holds_in_order(alloc: Global, image: &Image, pieces: Pieces) -> Result<Holds, NoMemory>
    ensures { IfOk result (λ holds. spec.WaitsInOrder image.now pieces (holding_of holds)) }
{
    let stores = stores_in_order(alloc, image, pieces)?;
    Ok(Holds::new(Vec::new(alloc), stores, grain_of(image, pieces)))
}

/// The pieces, as they are told without the image.
fn grain_of(image: &Image, pieces: Pieces) -> Grain
    ensures pieces { piece_by result ≡ piece_in pieces image.now }
    ensures has { HasPieces result }
{
    match pieces {
        Pieces::Bytes => Grain::Bytes,
        Pieces::Lines => Grain::Lines {
            machine: image.machine(),
            size: image.size(),
        },
    }
}
