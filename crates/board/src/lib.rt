// Refusals: what every layer tells of a call that it turns down.
#![tactic(auto)]

ghost use Rattle.std.specs.Prelude.{◌≡◌, Some};
ghost use Rattle.board.specs.Layers.{code, Decodes};
ghost use Rattle.board.specs.Words.{words_of_refusal};

use std::fmt;

// The layer that refuses: the line of text, the book, or the sheet.
#[derive(Clone, Copy, PartialEq, Eq, Debug)]
pub enum Layer {
    Frame,
    Book,
    Sheet,
}

// A number that no layer has.
#[derive(Clone, Copy, PartialEq, Eq, Debug)]
pub struct UnknownLayer(pub u8);

// The layer's number in an answer line.
impl From<Layer> for u8 {
    ghost from_gives = { λ layer number. number ≡ code layer };

    fn from(layer: Layer) -> Self {
        match layer {
            Layer::Frame => 1,
            Layer::Book => 2,
            Layer::Sheet => 3,
        }
    }
}

// The layer that has a number.
impl TryFrom<u8> for Layer {
    type Error = UnknownLayer;

    ghost try_from_gives = { Decodes };

    fn try_from(number: u8) -> Result<Self, UnknownLayer> {
        match number {
            1 => Ok(Layer::Frame),
            2 => Ok(Layer::Book),
            3 => Ok(Layer::Sheet),
            _ => Err(UnknownLayer(number)),
        }
    }
}

// What a refusal carries upward: the row of the refusal board, its layer, and the leg or stop that it tells (0: none).
// Row and leg are numbers, and no enum or option: that is how an answer line tells them, and one that is read may tell any.
#[derive(Clone, Copy, PartialEq, Eq, Debug)]
pub struct Refusal {
    pub number: u8,
    pub layer: Layer,
    pub leg: u8,
}

// The refusal in words: its number, and the leg that it tells.
impl fmt::Display for Refusal {
    ghost output = { λ refusal. Some (words_of_refusal refusal) };

    fn fmt<W: fmt::Write>(&self, f: &mut fmt::Formatter<W>) -> fmt::Result {
        write!(f, "refused {}, leg {}", self.number, self.leg)
    }
}
