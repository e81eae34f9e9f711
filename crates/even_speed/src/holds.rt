//! Which loads wait.
ghost use Rattle.std.specs.Prelude.{◌≡◌, ℕ, ◌<◌, ◌+◌, ◌^◌, ◌&&◌, is_none, slice_get, true, false};
ghost use Rattle.std.specs.List.Sorted.{IsPartitionPoint, IsSorted};
ghost use Rattle.memory_bytes.specs.Shadow.{byte_in};
ghost use Rattle.even_speed.specs.Grain.{HasPieces, piece_by};
ghost use Rattle.even_speed.specs.Held as held;
ghost use Rattle.even_speed.specs.Holds as spec;
ghost use Rattle.even_speed.specs.Holds.{holding_of};

use crate::grain::Grain;
use memory_bytes::ShadowBytes;
use std::marker::Model;

/// Which loads of a run wait: those at some addresses of code, until their epoch is the homefree one; and those of pieces of memory in which
/// earlier epochs store, until these have committed. Finding one takes a time that grows with the logarithm of their number.
#[derive(Drop)]
pub struct Holds {
    /// The addresses, in ascending order.
    places: Vec<u32>,
    /// The pieces, each with an epoch that stores there, in ascending order.
    stores: Vec<(u32, u32)>,
    /// What the pieces are.
    grain: Grain,
}

impl Model for Holds {
    ghost use Rattle.even_speed.specs.Holds.{AreOrdered, HoldsView};

    ghost Value = { HoldsView };

    ghost view = { λ h. record { places = h.places.items; stores = h.stores.items; grain = h.grain } };

    ghost invariant = { λ h. AreOrdered h.places.items h.stores.items h.grain };
}

impl Holds {
    /// The loads at these addresses of code wait, which are pcs, and those of these pieces of memory, each with an epoch that stores there.
    pub fn new(mut addresses: Vec<u32>, mut stores: Vec<(u32, u32)>, grain: Grain) -> Holds
        requires { HasPieces grain }
        ensures { holding_of result ≡ held.holding addresses.items stores.items (piece_by grain) }
    {
        addresses.sort_unstable();
        stores.sort_unstable();
        Holds {
            places: addresses,
            stores,
            grain,
        }
    }

    /// Whether no load waits.
    pub(crate) fn holds_none(&self) -> bool
        ensures { result ≡ spec.holds_none self.now }
    {
        self.places.is_empty() && self.stores.is_empty()
    }

    /// Whether loads wait for stores.
    pub(crate) fn has_stores(&self) -> bool
        ensures { result ≡ spec.has_stores self.now }
    {
        !self.stores.is_empty()
    }

    /// Whether the loads at this address of code wait.
    pub(crate) fn place(&self, pc: u32) -> bool
        ensures { result ≡ (holding_of self.now).places pc }
    {
        self.places.binary_search(&pc).is_ok()
    }

    /// Whether a load of these bytes, by this epoch, with these bytes of its own, waits for the stores of an earlier one, from the homefree one on.
    pub(crate) fn reads_stored(
        &self,
        homefree: u32,
        epoch: u32,
        own: &ShadowBytes,
        addr: u32,
        width: u32,
    ) -> bool
        requires { addr + width < 2 ^ 32 }
        ensures { result ≡ held.reads_stored (holding_of self.now) homefree epoch (byte_in own.now.cells) addr width }
    {
        for i in 0..width {
            if self.reads_byte(homefree, epoch, own, addr + i) {
                return true;
            }
        }
        false
    }

    /// So of a load of one byte.
    fn reads_byte(&self, homefree: u32, epoch: u32, own: &ShadowBytes, byte: u32) -> bool
        ensures { result ≡ (is_none (byte_in own.now.cells byte) && held.is_stored (holding_of self.now) homefree epoch ((holding_of self.now).piece byte)) }
    {
        own.get(byte).is_none() && self.is_stored(homefree, epoch, self.grain.piece(byte))
    }

    /// Whether an epoch from the homefree one up to this one, without it, stores in the piece.
    fn is_stored(&self, homefree: u32, epoch: u32, piece: u32) -> bool
        ensures { result ≡ held.is_stored (holding_of self.now) homefree epoch piece }
    {
        let stores = self.stores.as_slice();
        let index = count_before(stores, piece, homefree);
        is_of(stores, index, piece, epoch)
    }
}

/// Whether the store with this index is one in the piece by an epoch before that one.
fn is_of(stores: &[(u32, u32)], index: usize, piece: u32, epoch: u32) -> bool
    ensures { result ≡ spec.is_of piece epoch (slice_get stores.now index) }
{
    match stores.get(index) {
        Some(store) => store.0 == piece && store.1 < epoch,
        None => false,
    }
}

/// How many stores stand before those in this piece from an epoch on.
fn count_before(stores: &[(u32, u32)], piece: u32, epoch: u32) -> usize
    requires { IsSorted spec.pair_order stores.now }
    ensures { IsPartitionPoint (λ x. spec.is_before piece epoch x ≡ true) (λ x. spec.is_before piece epoch x ≡ false) stores.now result }
{
    stores.partition_point(|x| x.0 < piece || x.0 == piece && x.1 < epoch)
}
