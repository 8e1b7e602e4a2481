// What differs from the data sheet of one chip to that of its sisters.
ghost use Rattle.std.specs.Prelude.{◌≡◌};
ghost use Rattle.paper.specs.Sheet.{Sensible, sheet0713, sheet0717, sensible0713, sensible0717};

#[derive(Clone, Copy, Debug, PartialEq, Eq)]
pub struct Sheet {
    // Columns of the memory, and segments of the glass.
    pub width: usize,
    // Values of a high column byte: the counter holds 16 columns for each.
    pub highs: u8,
    // Rows of the glass, the icon row aside.
    pub rows: usize,
    // The resistor register at its start.
    pub resistor: u8,
}

// A chip of the family, by its data sheet, which makes sense.
pub trait Chip {
    ghost use Rattle.paper.specs.declared.sheet.Sheet.{Sheet};

    ghost sheet: { Sheet };

    fn sheet() -> Sheet
        ensures { result ≡ sheet };

    // What each chip must prove.
    ghost sensible: { Sensible sheet };
}

// The KS0713.
pub struct Ks0713;

impl Chip for Ks0713 {
    ghost sheet = { sheet0713 };

    ghost sensible = { sensible0713 };

    fn sheet() -> Sheet {
        Sheet {
            width: 132,
            highs: 16,
            rows: 64,
            resistor: 0,
        }
    }
}

// The KS0717.
pub struct Ks0717;

impl Chip for Ks0717 {
    ghost sheet = { sheet0717 };

    ghost sensible = { sensible0717 };

    fn sheet() -> Sheet {
        Sheet {
            width: 100,
            highs: 8,
            rows: 54,
            resistor: 4,
        }
    }
}
