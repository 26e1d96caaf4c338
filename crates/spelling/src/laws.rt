// What the definitions mean, in plain words. Each function only carries its theorem.
ghost use Rattle.spelling.specs.Fields.{NumberFields, PinFields};
ghost use Rattle.spelling.specs.Laws.{FaultsAreFirst, SpellingIsUnique};
ghost use Rattle.spelling.specs.Pieces.{PiecesAreTheCut};

// Cutting at a byte gives the one list of pieces that have no such byte and are the text when put together again.
pub fn pieces_are_the_cut()
    ensures { PiecesAreTheCut }
{}

// A field is a number just where it is the decimal writing of that number, below ten million.
pub fn number_fields_are_decimals()
    ensures { NumberFields }
{}

// A field is a pin just where it is the letter of that pin.
pub fn pin_fields_are_letters()
    ensures { PinFields }
{}

// A load gives a fault just where it is the first: every line before the bad one writes a record that the parish takes,
// every test before the failing one passes, and none is skipped.
pub fn faults_are_first()
    ensures { FaultsAreFirst }
{}

// Two parishes of the same spelling are equal.
pub fn spelling_is_unique()
    ensures { SpellingIsUnique }
{}
