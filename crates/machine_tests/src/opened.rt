//! Books that turns are taken in.
ghost use Rattle.std.specs.Prelude.{◌≡◌, ◌<◌, IfOk};
ghost use Rattle.homefree.specs.BookView.{IsOfSameLoop};
ghost use Rattle.homefree.specs.Counted.{IsNoMore};

use homefree::{Answer, Book, TurnFault};
use run_ledger::Shares;
use rv32_exec::{Hart, Image, NoMemory, advance};
use std::alloc::Global;
use std::process::Abort;
use violations::EpochStore;

/// A book, the shares of its counts, and the loop that it is of: an image and a number of cores.
#[derive(Drop)]
pub struct Opened<'a, S: EpochStore> {
    pub book: Book<S>,
    pub shares: Shares,
    pub image: &'a Image,
    pub cores: u32,
    ghost same_image: { book.image ≡ image.now },
    ghost all_cores: { book.cores ≡ cores },
    ghost has_core: { 0 < cores },
    ghost counted: { IsNoMore shares book.totals },
}

impl<'a, S: EpochStore> Opened<'a, S> {
    /// A new book for so many cores, and its shares.
    pub fn open(
        rt: &impl Abort,
        alloc: Global,
        image: &'a Image,
        cores: u32,
        room: u32,
    ) -> Result<Opened<'a, S>, NoMemory>
        ensures image { IfOk result (λ opened. opened.book.image ≡ image.now) }
        ensures cores { IfOk result (λ opened. opened.book.cores ≡ cores) }
    {
        let most = image.version().limits().most_cores;
        assert!(rt; 1 <= cores && cores <= most);
        assert!(rt; 16 <= room && room <= 1_048_576);
        let (book, shares) = Book::new(alloc, image, cores, room)?;
        Ok(Opened {
            book,
            shares,
            image,
            cores,
        })
    }

    /// One turn of a core with this hart in hand.
    pub fn turn(&mut self, core: u32, hart: Option<Hart>) -> Result<Answer, TurnFault>
        requires { core < self.old.cores }
        ensures { IsOfSameLoop self.old.book self.new.book }
    {
        match hart {
            None => self.book.turn(core, None, &mut self.shares),
            Some(hart) => {
                let arrived = advance(self.image, hart);
                self.book.turn(core, Some(&arrived), &mut self.shares)
            }
        }
    }
}
