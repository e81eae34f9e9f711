//! What is told of each load and store that a run makes.
ghost use Rattle.std.specs.Prelude.{◌≡◌, ℕ, Bool, List, [], slice_index};
ghost use Rattle.memory_bytes.specs.Bytes.{number_at, with_number};
ghost use Rattle.rv32_image.specs.Image.{LoadedImage};
ghost use Rattle.rv32_exec.specs.Hart.{HartState, stepped};
ghost use Rattle.rv32_exec.specs.Execute.{Executes, after_load, hart_effect};
ghost use Rattle.rv32_exec.specs.Notes as spec;

use rv32_image::Image;

/// Notes on the loads and stores of a run. They are told of each in the order of the run, as it is made.
pub trait Notes {
    /// They are right: of a hart that has come so far, over this memory.
    ghost right: { LoadedImage → Self → HartState → List ℕ → Type 0 };

    /// What of them stays, as the number of the epoch that they are of.
    ghost fixed: { Self → List ℕ };

    /// What is no load or store needs no note: this call does nothing, and its contract is the law.
    fn others_need_no_note()
        ensures { (image : LoadedImage) (notes : Self) (h after : HartState) (memory : List ℕ) → hart_effect image h ≡ Executes after → right image notes h memory → right image notes after memory };

    /// Notes that the instruction at `pc`, which `done` others of its epoch came before, has loaded `width` bytes from `addr` on.
    fn load(&mut self, image: &Image, pc: u32, done: u64, addr: u32, width: u32)
        requires { (h : HartState) × (memory : List ℕ) × (signed : Bool) × (rd : ℕ) × spec.LoadsNext image.now h pc done addr width signed rd × right image.now self.old h memory }
        ensures fixed { fixed self.new ≡ fixed self.old }
        ensures right { (h : HartState) (memory : List ℕ) (signed : Bool) (rd : ℕ) → spec.LoadsNext image.now h pc done addr width signed rd → right image.now self.old h memory
            → right image.now self.new (after_load h width signed rd (number_at (λ a. slice_index memory a) addr width)) memory };

    /// Notes that it has stored so.
    fn store(&mut self, image: &Image, pc: u32, done: u64, addr: u32, width: u32)
        requires { (h : HartState) × (memory : List ℕ) × (value : ℕ) × spec.StoresNext image.now h pc done addr width value × right image.now self.old h memory }
        ensures fixed { fixed self.new ≡ fixed self.old }
        ensures right { (h : HartState) (memory : List ℕ) (value : ℕ) → spec.StoresNext image.now h pc done addr width value → right image.now self.old h memory
            → right image.now self.new (stepped h) (with_number memory addr width value) };
}

/// Notes of nothing.
#[derive(Clone, Copy)]
pub(crate) struct NoNotes;

impl Notes for NoNotes {
    ghost right = { λ image notes h memory. Unit {0} };

    ghost fixed = { λ notes. [] };

    fn others_need_no_note() {}

    #[inline(always)]
    fn load(&mut self, _image: &Image, _pc: u32, _done: u64, _addr: u32, _width: u32) {}

    #[inline(always)]
    fn store(&mut self, _image: &Image, _pc: u32, _done: u64, _addr: u32, _width: u32) {}
}
