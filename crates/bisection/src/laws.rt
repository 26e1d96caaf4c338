// Laws of the definitions.
ghost use Rattle.bisection.specs.Words.{LotsInWords, LawfulInWords, BeforeInWords, LeastLotWeight};

// A list of lots fits a parish exactly when it is as long as the parish has households and has no byte above 2.
pub fn lots_in_words_holds()
    ensures { LotsInWords }
{}

// A list is lawful exactly when it puts every household in A or B, keeps every pin, and no lot weighs more than the limit.
pub fn lawful_in_words_holds()
    ensures { LawfulInWords }
{}

// A bisection comes before a list of lots exactly when it has A at the first set household where they differ.
pub fn before_in_words_holds()
    ensures { BeforeInWords }
{}

// Each lot of a lawful bisection weighs at least the total less the limit.
pub fn least_lot_weight_holds()
    ensures { LeastLotWeight }
{}
