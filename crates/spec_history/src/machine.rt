ghost use Rattle.std.specs.Prelude.{◌≡◌, ◌+◌, IfOk, OnErr, OnOk, length, option_copied, slice_get, true};
ghost use Rattle.spec_history.specs.Cores.{AreIdle};
ghost use Rattle.spec_history.specs.FlatState.{first_state};
ghost use Rattle.spec_history.specs.View.{is_access};

use crate::cores::Core;
use crate::entry::What;
use rv32_exec::{End, Image, NoMemory};
use std::alloc::Global;

/// What is kept of the flat machine.
#[derive(Drop)]
pub(crate) struct Machine {
    pub image: Image,
    pub committed: Vec<u8>,
    pub homefree: u32,
    pub published: u64,
    pub next_epoch: u32,
    pub end: Option<End>,
    pub cores: Vec<Core>,
}

impl Machine {
    ghost use Rattle.spec_history.specs.Machine as spec;

    /// The machine before anything has happened, with a copy of the image.
    pub(crate) fn new(alloc: Global, image: &Image, cores: u32) -> Result<Machine, NoMemory>
        ensures image { IfOk result (λ m. m.image ≡ image.now) }
        ensures state { IfOk result (λ m. spec.state_of m ≡ first_state image.now) }
        ensures count { IfOk result (λ m. spec.count_of_cores m ≡ cores) }
        ensures fit { IfOk result spec.IsFit }
    {
        let committed = Vec::from_slice(alloc, image.bytes())?;
        let cores = idle_cores(alloc, cores)?;
        let end = if image.epochs() == 0 {
            Some(End::Done(0))
        } else {
            None
        };
        let image = image.copy()?;
        Ok(Machine {
            image,
            committed,
            homefree: 0,
            published: 0,
            next_epoch: 0,
            end,
            cores,
        })
    }

    /// The core of this number, if there is one.
    pub(crate) fn core(&self, by: u32) -> Option<&Core>
        ensures { option_copied result ≡ slice_get self.now.cores.items by }
    {
        self.cores.get(by as usize)
    }

    /// Makes room for the bytes that the entry notes. Only a load and a store note any.
    pub(crate) fn prepare(&mut self, by: u32, what: What) -> Result<(), NoMemory>
        requires fit { spec.IsFit self.old }
        requires within { spec.IsInMemory self.old.image.size what }
        ensures same { spec.IsAsBefore self.old self.new }
        ensures room { OnOk result (spec.HasRoomAt self.new by what) }
        ensures accesses { OnErr result (is_access what ≡ true) }
    {
        if by as usize >= self.cores.len() {
            return Ok(());
        }
        let core = &mut self.cores[by as usize];
        match what {
            What::Load { addr, width, .. } => core.reserve_load(addr, width),
            What::Store { addr, width, .. } => core.reserve_store(addr, width),
            _ => Ok(()),
        }
    }
}

/// So many idle cores.
fn idle_cores(alloc: Global, count: u32) -> Result<Vec<Core>, NoMemory>
    ensures count { IfOk result (λ cores. length cores.items ≡ count) }
    ensures idle { IfOk result (λ cores. AreIdle cores.items) }
{
    let mut cores = Vec::new(alloc);
    for _ in 0..count {
        if cores.push(Core::new(alloc)).is_err() {
            return Err(NoMemory);
        }
    }
    Ok(cores)
}
