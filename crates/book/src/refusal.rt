// The book's own refusals, in the order checked: 1, 2, 15.
ghost use Rattle.std.specs.Prelude.{◌≡◌};
ghost use Rattle.common.specs.Refusals.{number_in, first_of};
ghost use Rattle.state.specs.State.{data_of};
ghost use Rattle.book.specs.Refusals.{has_over, is_sector, book_refusals};

use crate::sizes::LAST_SCENE;
use common::limits::SECTOR;
use common::refusals::Refusal;
use state::State;
use state::soundness::check_chip;

// Whether a scene of the list is over 4,095.
pub fn has_over(scenes: &[u32]) -> bool
    ensures { result ≡ has_over scenes.now }
{
    scenes.iter().any(|&scene| LAST_SCENE < scene)
}

// Whether a sector of the chip begins there.
#[tactic(auto, unfolding(crate::specs::Refusals::is_sector))]
pub fn is_sector(s: State, start: usize) -> bool
    ensures { result ≡ is_sector (data_of s).size start }
{
    start % SECTOR == 0 && start < chip::chip_of(s.chip).size as usize
}

// `size` is the array's length, `wrong` what else is wrong with the call's book: a scene over 4,095, or the other sector that the call names.
pub fn check_book(s: State, size: usize, sector: usize, wrong: bool) -> Result<(), Refusal>
    ensures { number_in result ≡ first_of (book_refusals s size sector wrong) }
{
    check_chip(s, size)?;
    if wrong || !is_sector(s, sector) {
        return Err(Refusal::WrongBook);
    }
    Ok(())
}
