// A sheet over a finished book, which stays sound for it.
ghost use Rattle.std.specs.Prelude.{◌≡◌};
ghost use Rattle.std.proofs.Props.{props};
ghost use Rattle.register.specs.Register.{blank};
ghost use Rattle.states.specs.States.{reading, Sound};
ghost use Rattle.protocol.specs.Named.{named_prop};
ghost use Rattle.protocol.specs.Stages.{book as priced, legs_of, NoDearer};

use books::FormulaBook;
use charges::ChargeBook;
use sheet::Sheet;

// A sheet over a finished book. If a timing stands, it is cheapest for the settings, which fit the book, and its prices keep
// the rule.
#[derive(Drop)]
pub(crate) struct SoundSheet {
    pub(crate) sheet: Sheet<ChargeBook<FormulaBook>>,
    ghost sound: { Sound (priced (legs_of sheet.book) sheet.book.rates.values) NoDearer sheet.state } by { Prim.hlevel (props, named_prop) },
}

impl SoundSheet {
    // The blank sheet over a book.
    pub(crate) fn new(book: ChargeBook<FormulaBook>) -> SoundSheet
        ensures over { result.sheet.book ≡ book }
        ensures blank { reading result.sheet.state ≡ blank }
    {
        SoundSheet {
            sheet: Sheet::new(book),
        }
    }
}
