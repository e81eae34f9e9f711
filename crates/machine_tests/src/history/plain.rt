//! The flat machine as plain lists, by the table of its entries alone. It is slow: each look searches a list.

use rv32_exec::{Arrived, End, Hart, Image, Stop, advance, loaded, start, stored};
use spec_history::{Entry, Illegal, What};
use std::alloc::{AllocError, Global};
use std::test::Fail;

/// Bytes with their addresses, each address once.
type Bytes = Vec<(u32, u8)>;

/// What a core runs.
#[derive(Drop)]
struct Core {
    epoch: u32,
    hart: Hart,
    own: Bytes,
    outside: Bytes,
    straight: bool,
    hurt: bool,
}

#[derive(Drop)]
pub struct PlainFlat {
    image: Image,
    committed: Vec<u8>,
    homefree: u32,
    published: u64,
    next_epoch: u32,
    end: Option<End>,
    cores: Vec<Option<Core>>,
}

impl PlainFlat {
    pub fn new(alloc: Global, image: &Image, cores: u32) -> Result<PlainFlat, Fail> {
        let mut idle = Vec::new(alloc);
        for _ in 0..cores {
            idle.push(None)?;
        }
        let mut flat = PlainFlat {
            image: image.copy()?,
            committed: image.bytes().to_vec(alloc)?,
            homefree: 0,
            published: 0,
            next_epoch: 0,
            end: None,
            cores: idle,
        };
        flat.end_the_loop();
        Ok(flat)
    }

    pub fn committed(&self, addr: u32) -> Option<u8> {
        self.committed.get(addr as usize).copied()
    }

    pub fn homefree(&self) -> u32 {
        self.homefree
    }

    pub fn published(&self) -> u64 {
        self.published
    }

    pub fn ended(&self) -> Option<End> {
        self.end
    }

    /// The first test that the entry fails, in the order of the refusals.
    pub fn refusal(&self, alloc: Global, entry: Entry) -> Result<Option<Illegal>, AllocError> {
        let Entry { by, what } = entry;
        if self.end.is_some() {
            return Ok(Some(Illegal::Over));
        }
        if !self.is_there(by, what) {
            return Ok(Some(Illegal::NotThere));
        }
        if !self.is_next(by, what) {
            return Ok(Some(Illegal::NotNext));
        }
        if !self.is_homefree(by, what) {
            return Ok(Some(Illegal::NotHomefree));
        }
        if !self.is_value(by, what) {
            return Ok(Some(Illegal::WrongValue));
        }
        for (addr, byte) in &self.commits(alloc, by, what)? {
            if self.committed(*addr) != Some(*byte) && self.another_has_read(by, *addr) {
                return Ok(Some(Illegal::HurtMissing));
            }
        }
        if matches!(what, What::Commit) && self.exits(by) && self.another_runs(by) {
            return Ok(Some(Illegal::NotCancelled));
        }
        Ok(None)
    }

    /// What the core runs, where it is not hurt.
    fn running(&self, by: u32) -> Option<&Core> {
        self.cores
            .get(by as usize)?
            .as_ref()
            .filter(|core| !core.hurt)
    }

    fn is_there(&self, by: u32, what: What) -> bool {
        match what {
            What::Start(_) => matches!(self.cores.get(by as usize), Some(None)),
            What::Restart => match self.cores.get(by as usize) {
                Some(Some(core)) => core.hurt,
                _ => false,
            },
            What::Hurt(epoch) => match self.running(by) {
                Some(core) => core.epoch < epoch && self.can_be_hurt(epoch),
                None => false,
            },
            What::Cancel(epoch) => match self.running(by) {
                Some(core) => core.epoch < epoch && self.is_run(epoch),
                None => false,
            },
            What::Publish => match self.running(by) {
                Some(core) => !core.straight,
                None => false,
            },
            What::Load { .. } | What::Store { .. } | What::Commit | What::Fault { .. } => self
                .running(by)
                .is_some(),
        }
    }

    fn can_be_hurt(&self, epoch: u32) -> bool {
        for core in self.cores.iter().flatten() {
            if core.epoch == epoch && !core.straight && !core.hurt {
                return true;
            }
        }
        false
    }

    fn is_run(&self, epoch: u32) -> bool {
        for core in self.cores.iter().flatten() {
            if core.epoch == epoch {
                return true;
            }
        }
        false
    }

    /// The epoch of the core ends, and x10 is not 0 where an epoch may exit.
    fn exits(&self, by: u32) -> bool {
        match self.running(by) {
            Some(core) => {
                let arrived = advance(&self.image, core.hart);
                arrived.at() == Stop::Ended && arrived.now().exits(&self.image)
            }
            None => false,
        }
    }

    /// Another core runs an epoch, hurt or not.
    fn another_runs(&self, by: u32) -> bool {
        for (k, core) in self.cores.iter().enumerate() {
            if k != by as usize && core.is_some() {
                return true;
            }
        }
        false
    }

    fn is_next(&self, by: u32, what: What) -> bool {
        let next = self
            .running(by)
            .map(|core| advance(&self.image, core.hart).at());
        match (what, next) {
            (What::Start(epoch), _) => epoch == self.next_epoch && epoch < self.image.epochs(),
            (What::Hurt(_) | What::Restart | What::Publish, _) => true,
            (
                What::Load { addr, width, .. },
                Some(
                    Stop::Load {
                        addr: a,
                        width: w,
                        ..
                    },
                ),
            ) => a == addr && w == width,
            (
                What::Store { addr, width, value },
                Some(
                    Stop::Store {
                        addr: a,
                        width: w,
                        value: v,
                    },
                ),
            ) => a == addr && w == width && v == value,
            (What::Commit, Some(Stop::Ended)) => true,
            (What::Cancel(_), Some(Stop::Ended)) => self.exits(by),
            (What::Fault { cause, pc }, Some(Stop::Fault { cause: c, pc: p })) => c == cause
                && p == pc,
            _ => false,
        }
    }

    fn is_homefree(&self, by: u32, what: What) -> bool {
        match (what, self.running(by)) {
            (What::Cancel(_) | What::Publish | What::Commit | What::Fault { .. }, Some(core)) =>
                core.epoch == self.homefree,
            _ => true,
        }
    }

    fn is_value(&self, by: u32, what: What) -> bool {
        match (what, self.running(by)) {
            (What::Load { addr, width, value }, Some(core)) => u32::from_le_bytes(self.seen(
                core, addr, width,
            )) == value,
            _ => true,
        }
    }

    /// The bytes that a load gives: the core's own over the committed ones.
    fn seen(&self, core: &Core, addr: u32, width: u32) -> [u8; 4] {
        [0, 1, 2, 3].map(|i: u32| {
            if i < width {
                let byte = byte_at(&core.own, addr.wrapping_add(i));
                byte.or(self.committed(addr.wrapping_add(i))).unwrap_or(0)
            } else {
                0
            }
        })
    }

    /// The bytes that the entry commits.
    fn commits(&self, alloc: Global, by: u32, what: What) -> Result<Bytes, AllocError> {
        match (what, self.running(by)) {
            (What::Publish | What::Commit | What::Fault { .. }, Some(core)) => core.own.clone(),
            (What::Store { addr, width, value }, Some(core)) if core.straight => bytes_of(
                alloc, addr, width, value,
            ),
            _ => Ok(Vec::new(alloc)),
        }
    }

    /// Another core, which runs and is not hurt, has read this byte from outside.
    fn another_has_read(&self, by: u32, addr: u32) -> bool {
        for (k, core) in self.cores.iter().enumerate() {
            if let Some(core) = core {
                if k != by as usize && !core.hurt && byte_at(&core.outside, addr).is_some() {
                    return true;
                }
            }
        }
        false
    }

    /// Does what a legal entry does.
    pub fn perform(&mut self, alloc: Global, entry: Entry) -> Result<(), AllocError> {
        let Entry { by, what } = entry;
        for (addr, byte) in &self.commits(alloc, by, what)? {
            if let Some(cell) = self.committed.get_mut(*addr as usize) {
                *cell = *byte;
            }
        }
        let exits = self.exits(by);
        match what {
            What::Start(epoch) => {
                self.next_epoch = self.next_epoch.saturating_add(1);
                let core = begun(alloc, &self.image, epoch);
                self.set(by, Some(core));
            }
            What::Hurt(epoch) => self.hurt(epoch),
            What::Cancel(epoch) => self.cancel(epoch),
            What::Commit => self.commit(by, exits),
            _ => self.perform_on(alloc, by, what)?,
        }
        Ok(())
    }

    /// The core is idle. The loop is over where its epoch exits, or was the last.
    fn commit(&mut self, by: u32, exits: bool) {
        let epoch = self.homefree;
        self.set(by, None);
        self.homefree = epoch.saturating_add(1);
        self.published = 0;
        if exits {
            self.end = Some(End::Exit(epoch));
        } else {
            self.end_the_loop();
        }
    }

    /// The loop is over once all of its epochs have committed.
    fn end_the_loop(&mut self) {
        if self.homefree == self.image.epochs() {
            self.end = Some(End::Done(self.homefree));
        }
    }

    fn set(&mut self, by: u32, core: Option<Core>) {
        if let Some(place) = self.cores.get_mut(by as usize) {
            *place = core;
        }
    }

    fn hurt(&mut self, epoch: u32) {
        for core in self.cores.iter_mut().flatten() {
            if core.epoch == epoch {
                core.hurt = true;
            }
        }
    }

    fn cancel(&mut self, epoch: u32) {
        for place in self.cores.iter_mut() {
            if let Some(core) = place {
                if core.epoch == epoch {
                    *place = None;
                }
            }
        }
    }

    /// The entries of a core that runs an epoch and goes on with it.
    fn perform_on(&mut self, alloc: Global, by: u32, what: What) -> Result<(), AllocError> {
        let Some(mut core) = self.take(by) else {
            return Ok(());
        };
        let arrived = advance(&self.image, core.hart);
        match what {
            What::Load { addr, width, .. } => {
                let read = self.seen(&core, addr, width);
                core.load(&arrived, self.committed.as_slice(), addr, width, read)?;
            }
            What::Store { addr, width, value } => core.store(alloc, &arrived, addr, width, value)?,
            What::Restart => core = begun(alloc, &self.image, core.epoch),
            What::Publish => core.publish(alloc),
            _ => {}
        }
        if core.straight {
            self.published = core.hart.done();
        }
        if let What::Fault { cause, pc } = what {
            self.published = arrived.now().done();
            self.end = Some(End::Fault {
                epoch: core.epoch,
                cause,
                pc,
            });
        }
        self.set(by, Some(core));
        Ok(())
    }

    /// Takes out what the core runs.
    fn take(&mut self, by: u32) -> Option<Core> {
        self.cores.get_mut(by as usize)?.take()
    }
}

impl Core {
    fn load(
        &mut self,
        arrived: &Arrived,
        committed: &[u8],
        addr: u32,
        width: u32,
        read: [u8; 4],
    ) -> Result<(), AllocError> {
        self.hart = after_load(arrived, read);
        if self.straight {
            return Ok(());
        }
        for a in addr..addr.saturating_add(width) {
            if let (None, Some(byte)) = (byte_at(&self.own, a), committed.get(a as usize)) {
                put(&mut self.outside, a, *byte)?;
            }
        }
        Ok(())
    }

    fn store(
        &mut self,
        alloc: Global,
        arrived: &Arrived,
        addr: u32,
        width: u32,
        value: u32,
    ) -> Result<(), AllocError> {
        if let Stop::Store { .. } = arrived.at() {
            self.hart = stored(arrived);
        }
        if self.straight {
            return Ok(());
        }
        for (a, byte) in &bytes_of(alloc, addr, width, value)? {
            put(&mut self.own, *a, *byte)?;
        }
        Ok(())
    }

    fn publish(&mut self, alloc: Global) {
        self.own = Vec::new(alloc);
        self.outside = Vec::new(alloc);
        self.straight = true;
    }
}

/// A core at the start of an epoch.
fn begun(alloc: Global, image: &Image, epoch: u32) -> Core {
    Core {
        epoch,
        hart: start(image, epoch),
        own: Vec::new(alloc),
        outside: Vec::new(alloc),
        straight: false,
        hurt: false,
    }
}

/// The hart after the load at which it stopped.
fn after_load(arrived: &Arrived, read: [u8; 4]) -> Hart {
    let [first, second, ..] = read;
    match arrived.at() {
        Stop::Load { width: 1, .. } => loaded(arrived, u32::from(first)),
        Stop::Load { width: 2, .. } => loaded(
            arrived,
            u32::from(u16::from_le_bytes([first, second])),
        ),
        Stop::Load { width: 4, .. } => loaded(arrived, u32::from_le_bytes(read)),
        _ => arrived.now(),
    }
}

/// The bytes of a store.
fn bytes_of(alloc: Global, addr: u32, width: u32, value: u32) -> Result<Bytes, AllocError> {
    let mut bytes = Vec::new(alloc);
    for (i, byte) in (0..width).zip(value.to_le_bytes()) {
        bytes.push((addr.wrapping_add(i), byte))?;
    }
    Ok(bytes)
}

fn byte_at(bytes: &Bytes, addr: u32) -> Option<u8> {
    for (a, byte) in bytes {
        if *a == addr {
            return Some(*byte);
        }
    }
    None
}

/// Puts a byte in, in place of the one that was there.
fn put(bytes: &mut Bytes, addr: u32, byte: u8) -> Result<(), AllocError> {
    for (a, old) in bytes.iter_mut() {
        if *a == addr {
            *old = byte;
            return Ok(());
        }
    }
    bytes.push((addr, byte))?;
    Ok(())
}
