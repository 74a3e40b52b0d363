// What is said of a timing, in words.
ghost use Rattle.std.specs.Prelude.{◌≡◌, IfOk, string_bytes};
ghost use Rattle.books.specs.Meaning.{IsLeg};
ghost use Rattle.register.specs.Register.{Stands};
ghost use Rattle.states.specs.States.{reading, minutes_of};
ghost use Rattle.sample_run.specs.Words.{Listed};

use books::Book;
use sheet::Sheet;
use std::alloc::{AllocError, Global};

// The minutes that stand on a sheet, leg 1 first, each behind a space. It is no `Display`: the sheet lends them as a slice.
pub(crate) fn minutes_words<B: Book>(heap: Global, sheet: &Sheet<B>) -> Result<String, AllocError>
    ensures { IfOk result (λ words. Listed (λ i. Stands (reading sheet.now.state) × IsLeg (B.meaning sheet.now.book) i) (minutes_of sheet.now.state) (string_bytes words)) }
{
    let mut all = String::new(heap);
    for minutes in sheet.timing().unwrap_or(&[]) {
        write!(all, " {minutes}")?;
    }
    Ok(all)
}
